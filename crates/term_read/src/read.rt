// Reading a term: each call is given the characters that are left, and gives a term and the characters behind it.
ghost use Rattle.std.specs.Prelude.{◌≡◌, ◌<◌, ◌≤◌, map, length, IfOk, codes};
ghost use Rattle.erl_term.specs.View.{view, pair_view};
ghost use Rattle.erl_term.specs.WellFormed.{IsWellFormed};
ghost use Rattle.term_read.specs.Reading.{Gives, read_by, form_by, before, before_tail, items_and_end, list_by, list_end, tuple_by, map_by, fun_by, hash_by, pair_by, items_of, row_of};
ghost use Rattle.erl_term.specs.WellRows.{AreWellFormed, PairsWellFormed, IsPairWellFormed};

use crate::flat::fun_head;
use crate::leaves::{fun_of, identifier, leaf};
use crate::lexemes::{behind_blanks, behind_mark, expect, mark_at};
use crate::lists::{list_of, proper};
use crate::unread::Unread;
use erl_base::List;
use erl_term::{Pair, Pairs, Term, Terms, map_of};
use std::alloc::Global;

/// A term behind blanks that nests at most `depth` deep.
#[cycle(read)]
pub fn read_at(cs: &[char], alloc: Global, depth: u32) -> Result<(Term, &[char]), Unread>
    ensures value { Gives (λ found. (view found.0, found.1.now)) result (read_by depth cs.now) }
    ensures well_formed { IfOk result (λ found. IsWellFormed found.0) }
    ensures fits { IfOk result (λ found. length found.1.now < length cs.now) }
{
    if depth == 0 {
        return Err(Unread::Syntax);
    }
    form(behind_blanks(cs), alloc, depth - 1)
}

/// A term that begins at once; its parts nest at most `depth` deep.
#[cycle(read)]
#[tactic(auto, unfolding(crate::specs::Reading::form_by))]
fn form(cs: &[char], alloc: Global, depth: u32) -> Result<(Term, &[char]), Unread>
    ensures value { Gives (λ found. (view found.0, found.1.now)) result (form_by depth (read_by depth) cs.now) }
    ensures well_formed { IfOk result (λ found. IsWellFormed found.0) }
    ensures fits { IfOk result (λ found. length found.1.now < length cs.now) }
{
    let [first, later @ ..] = cs else {
        return Err(Unread::Syntax);
    };
    if *first == '[' {
        return list_form(later, alloc, depth);
    }
    if *first == '{' {
        return tuple_form(later, alloc, depth);
    }
    if *first == '#' {
        return hash_form(later, alloc, depth);
    }
    leaf(cs, alloc, depth)
}

/// A list behind its bracket.
#[cycle(read)]
#[tactic(auto, unfolding(crate::specs::Reading::list_by, erl_term::specs::WellFormed::maps_rise))]
fn list_form(cs: &[char], alloc: Global, depth: u32) -> Result<(Term, &[char]), Unread>
    ensures value { Gives (λ found. (view found.0, found.1.now)) result (list_by (read_by depth) cs.now) }
    ensures well_formed { IfOk result (λ found. IsWellFormed found.0) }
    ensures fits { IfOk result (λ found. length found.1.now < length cs.now) }
{
    if let Some(rest) = mark_at(cs, b"]") {
        return Ok((Term::Nil, rest));
    }
    list_from(cs, alloc, depth, List::new(alloc))
}

/// The rest of a list behind the items that were read: more items, at least one, and what ends it. The items of a list
/// in its tail are added to the same list, and so on, so that no item is moved.
#[cycle(read)]
fn list_from(
    cs: &[char],
    alloc: Global,
    depth: u32,
    found: Terms,
) -> Result<(Term, &[char]), Unread>
    requires { AreWellFormed found }
    ensures value { Gives (λ found. (view found.0, found.1.now)) result
        (before_tail (map view found) (items_and_end (read_by depth) cs.now)) }
    ensures well_formed { IfOk result (λ found. IsWellFormed found.0) }
    ensures fits { IfOk result (λ found. length found.1.now < length cs.now) }
{
    let (terms, rest) = items(cs, alloc, depth, found)?;
    list_end(rest, alloc, depth, terms)
}

/// What ends a list, behind its items.
#[cycle(read)]
#[tactic(auto, using(crate::proofs::Tails::list_unread))]
fn list_end(cs: &[char], alloc: Global, depth: u32, found: Terms) -> Result<(Term, &[char]), Unread>
    requires some { 0 < length found }
    requires items { AreWellFormed found }
    ensures value { Gives (λ found. (view found.0, found.1.now)) result
        (before_tail (map view found) (list_end (read_by depth) cs.now)) }
    ensures well_formed { IfOk result (λ found. IsWellFormed found.0) }
    ensures fits { IfOk result (λ found. length found.1.now < length cs.now) }
{
    let Some(rest) = mark_at(cs, b"|") else {
        let rest = expect(cs, b"]")?;
        return Ok((proper(alloc, found)?, rest));
    };
    let (term, rest) = tail_at(rest, alloc, depth, found)?;
    let rest = expect(rest, b"]")?;
    Ok((term, rest))
}

/// A tail behind blanks, which nests at most `depth` deep.
#[cycle(read)]
fn tail_at(cs: &[char], alloc: Global, depth: u32, found: Terms) -> Result<(Term, &[char]), Unread>
    requires some { 0 < length found }
    requires items { AreWellFormed found }
    ensures value { Gives (λ found. (view found.0, found.1.now)) result
        (before_tail (map view found) (read_by depth cs.now)) }
    ensures well_formed { IfOk result (λ found. IsWellFormed found.0) }
    ensures fits { IfOk result (λ found. length found.1.now < length cs.now) }
{
    if depth == 0 {
        return Err(Unread::Syntax);
    }
    tail_form(behind_blanks(cs), alloc, depth - 1, found)
}

/// A tail that begins at once; its parts nest at most `depth` deep.
#[cycle(read)]
fn tail_form(
    cs: &[char],
    alloc: Global,
    depth: u32,
    found: Terms,
) -> Result<(Term, &[char]), Unread>
    requires some { 0 < length found }
    requires items { AreWellFormed found }
    ensures value { Gives (λ found. (view found.0, found.1.now)) result
        (before_tail (map view found) (form_by depth (read_by depth) cs.now)) }
    ensures well_formed { IfOk result (λ found. IsWellFormed found.0) }
    ensures fits { IfOk result (λ found. length found.1.now < length cs.now) }
{
    let [first, later @ ..] = cs else {
        return Err(Unread::Syntax);
    };
    if *first != '[' {
        let (tail, rest) = form(cs, alloc, depth)?;
        return Ok((list_of(alloc, found, tail)?, rest));
    }
    if let Some(rest) = mark_at(later, b"]") {
        return Ok((proper(alloc, found)?, rest));
    }
    list_from(later, alloc, depth, found)
}

/// Terms with commas between, at least one, behind those that were read.
#[cycle(read)]
#[tactic(auto, using(crate::proofs::ItemRows::loop_refused), unfolding(erl_term::specs::WellFormed::maps_rise))]
fn items(cs: &[char], alloc: Global, depth: u32, found: Terms) -> Result<(Terms, &[char]), Unread>
    requires { AreWellFormed found }
    ensures value { Gives (λ found. (map view found.0, found.1.now)) result
        (before (map view found) (items_of (read_by depth) cs.now)) }
    ensures well_formed { IfOk result (λ found. AreWellFormed found.0) }
    ensures some { IfOk result (λ found. 0 < length found.0) }
    ensures fits { IfOk result (λ found. length found.1.now < length cs.now) }
{
    let mut terms = found;
    let mut rest = cs;
    loop {
        let (term, later) = read_at(rest, alloc, depth)?;
        terms.push(term)?;
        match mark_at(later, b",") {
            None => return Ok((terms, later)),
            Some(next) => rest = next,
        }
    }
}

/// Terms with commas between or none, up to a closing mark.
#[cycle(read)]
#[tactic(auto, unfolding(crate::specs::Reading::row_of, erl_term::specs::WellFormed::maps_rise))]
fn row<'a>(
    cs: &'a [char],
    alloc: Global,
    depth: u32,
    close: &[u8],
) -> Result<(Terms, &'a [char]), Unread>
    ensures value { Gives (λ found. (map view found.0, found.1.now)) result (row_of (read_by depth) close.now cs.now) }
    ensures well_formed { IfOk result (λ found. AreWellFormed found.0) }
    ensures fits { IfOk result (λ found. length found.1.now ≤ length cs.now) }
{
    if let Some(rest) = mark_at(cs, close) {
        return Ok((List::new(alloc), rest));
    }
    let (terms, rest) = items(cs, alloc, depth, List::new(alloc))?;
    let rest = expect(rest, close)?;
    Ok((terms, rest))
}

/// A tuple behind its brace.
#[cycle(read)]
#[tactic(auto, unfolding(crate::specs::Reading::tuple_by, erl_term::specs::WellFormed::maps_rise))]
fn tuple_form(cs: &[char], alloc: Global, depth: u32) -> Result<(Term, &[char]), Unread>
    ensures value { Gives (λ found. (view found.0, found.1.now)) result (tuple_by (read_by depth) cs.now) }
    ensures well_formed { IfOk result (λ found. IsWellFormed found.0) }
    ensures fits { IfOk result (λ found. length found.1.now ≤ length cs.now) }
{
    let (terms, rest) = row(cs, alloc, depth, b"}")?;
    Ok((Term::Tuple(terms), rest))
}

/// What stands behind `#`.
#[cycle(read)]
#[tactic(auto, unfolding(crate::specs::Reading::hash_by))]
fn hash_form(cs: &[char], alloc: Global, depth: u32) -> Result<(Term, &[char]), Unread>
    ensures value { Gives (λ found. (view found.0, found.1.now)) result (hash_by (read_by depth) cs.now) }
    ensures well_formed { IfOk result (λ found. IsWellFormed found.0) }
    ensures fits { IfOk result (λ found. length found.1.now ≤ length cs.now) }
{
    if let Some(rest) = behind_mark(cs, b"{") {
        return map_form(rest, alloc, depth);
    }
    if let Some(rest) = behind_mark(cs, b"Fun<") {
        return fun_form(rest, alloc, depth);
    }
    identifier(cs)
}

/// A local fun behind `#Fun<`.
#[cycle(read)]
#[tactic(auto, using(crate::proofs::FunForm::fun_unread))]
fn fun_form(cs: &[char], alloc: Global, depth: u32) -> Result<(Term, &[char]), Unread>
    ensures value { Gives (λ found. (view found.0, found.1.now)) result (fun_by (read_by depth) cs.now) }
    ensures well_formed { IfOk result (λ found. IsWellFormed found.0) }
    ensures fits { IfOk result (λ found. length found.1.now ≤ length cs.now) }
{
    let (head, rest) = fun_head(alloc, cs)?;
    let (captured, rest) = row(rest, alloc, depth, b"]")?;
    let rest = expect(rest, b">")?;
    Ok((fun_of(head, captured), rest))
}

/// A map behind `#{`.
#[cycle(read)]
#[tactic(auto, unfolding(crate::specs::Reading::map_by, erl_term::specs::WellFormed::maps_rise))]
fn map_form(cs: &[char], alloc: Global, depth: u32) -> Result<(Term, &[char]), Unread>
    ensures value { Gives (λ found. (view found.0, found.1.now)) result (map_by (read_by depth) cs.now) }
    ensures well_formed { IfOk result (λ found. IsWellFormed found.0) }
    ensures fits { IfOk result (λ found. length found.1.now ≤ length cs.now) }
{
    let (pairs, rest) = pair_row(cs, alloc, depth)?;
    Ok((Term::Map(map_of(alloc, pairs)?), rest))
}

/// The pairs of a map up to its brace.
#[cycle(read)]
#[tactic(auto, unfolding(crate::specs::Reading::row_of))]
fn pair_row(cs: &[char], alloc: Global, depth: u32) -> Result<(Pairs, &[char]), Unread>
    ensures value { Gives (λ found. (map pair_view found.0, found.1.now)) result
        (row_of (pair_by (read_by depth)) (codes "}") cs.now) }
    ensures well_formed { IfOk result (λ found. PairsWellFormed found.0) }
    ensures fits { IfOk result (λ found. length found.1.now ≤ length cs.now) }
{
    if let Some(rest) = mark_at(cs, b"}") {
        return Ok((List::new(alloc), rest));
    }
    let (found, rest) = pairs(cs, alloc, depth)?;
    let rest = expect(rest, b"}")?;
    Ok((found, rest))
}

/// Pairs with commas between, at least one.
#[cycle(read)]
#[tactic(auto, using(crate::proofs::ItemRows::loop_refused))]
fn pairs(cs: &[char], alloc: Global, depth: u32) -> Result<(Pairs, &[char]), Unread>
    ensures value { Gives (λ found. (map pair_view found.0, found.1.now)) result
        (items_of (pair_by (read_by depth)) cs.now) }
    ensures well_formed { IfOk result (λ found. PairsWellFormed found.0) }
    ensures fits { IfOk result (λ found. length found.1.now < length cs.now) }
{
    let mut found = List::new(alloc);
    let mut rest = cs;
    loop {
        let (one, later) = pair(rest, alloc, depth)?;
        found.push(one)?;
        match mark_at(later, b",") {
            None => return Ok((found, later)),
            Some(next) => rest = next,
        }
    }
}

/// A key and its value.
#[cycle(read)]
#[tactic(auto, unfolding(crate::specs::Reading::pair_by))]
fn pair(cs: &[char], alloc: Global, depth: u32) -> Result<(Pair, &[char]), Unread>
    ensures value { Gives (λ found. (pair_view found.0, found.1.now)) result (pair_by (read_by depth) cs.now) }
    ensures well_formed { IfOk result (λ found. IsPairWellFormed found.0) }
    ensures fits { IfOk result (λ found. length found.1.now < length cs.now) }
{
    let (key, rest) = read_at(cs, alloc, depth)?;
    let rest = expect(rest, b"=>")?;
    let (value, rest) = read_at(rest, alloc, depth)?;
    Ok((Pair { key, value }, rest))
}
