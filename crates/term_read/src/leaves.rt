// Terms that hold no terms.
ghost use Rattle.std.specs.Prelude.{◌≡◌, ◌<◌, ◌≤◌, length, option_map, map, IfOk};
ghost use Rattle.erl_term.specs.Term as Plain;
ghost use Rattle.erl_term.specs.Terms.{terms};
ghost use Rattle.erl_term.specs.View.{view};
ghost use Rattle.erl_term.specs.WellFormed.{IsWellFormed};
ghost use Rattle.term_read.specs.TermGrammar.{string_fits};
ghost use Rattle.erl_term.specs.WellRows.{AreWellFormed};
ghost use Rattle.term_read.specs.Reading.{Gives, identifier_by, leaf_by, string_by, quoted_by, word_by, integer_by, marked_by, trace_by};

use crate::bitstrings::bits_form;
use crate::flat::{FunHead, class_in, extern_rest, number_in};
use crate::lexemes::{behind_mark, integer_front, is_fun, quoted_rest, word_front};
use crate::lists::code_points;
use crate::unread::Unread;
use core_chars::{is_lower, name_of};
use erl_base::SiteId;
use erl_term::{Term, Terms};
use std::alloc::Global;

/// More than any number of a pid, a reference or a port.
const WHOLE: u128 = 18446744073709551616;

/// A term without terms inside that begins at once; a string nests one deeper than `depth` allows its characters.
#[tactic(auto, unfolding(crate::specs::Reading::leaf_by))]
pub(crate) fn leaf(cs: &[char], alloc: Global, depth: u32) -> Result<(Term, &[char]), Unread>
    ensures value { Gives (λ found. (view found.0, found.1.now)) result (leaf_by depth cs.now) }
    ensures well_formed { IfOk result (λ found. IsWellFormed found.0) }
    ensures fits { IfOk result (λ found. length found.1.now < length cs.now) }
{
    let [first, later @ ..] = cs else {
        return Err(Unread::Syntax);
    };
    if *first == '<' {
        return bits_form(later, alloc);
    }
    if *first == '"' {
        return string_form(later, alloc, depth);
    }
    if *first == '\'' {
        return quoted_form(later, alloc);
    }
    if is_lower(*first) {
        return word_form(cs, alloc);
    }
    integer_form(cs)
}

/// A string behind its quote.
#[tactic(auto, unfolding(crate::specs::Reading::string_by))]
fn string_form(cs: &[char], alloc: Global, depth: u32) -> Result<(Term, &[char]), Unread>
    ensures value { Gives (λ found. (view found.0, found.1.now)) result (string_by depth cs.now) }
    ensures well_formed { IfOk result (λ found. IsWellFormed found.0) }
    ensures fits { IfOk result (λ found. length found.1.now ≤ length cs.now) }
{
    let (text, rest) = quoted_rest(alloc, '"', cs)?;
    if !string_fits(depth, text.as_slice()) {
        return Err(Unread::Syntax);
    }
    Ok((code_points(alloc, text.as_slice())?, rest))
}

fn string_fits(depth: u32, text: &[char]) -> bool
    ensures { result ≡ string_fits depth text.now }
{
    text.is_empty() || depth > 0
}

/// An atom behind its quote.
#[tactic(auto, unfolding(crate::specs::Reading::quoted_by, erl_term::specs::WellFormed::maps_rise))]
fn quoted_form(cs: &[char], alloc: Global) -> Result<(Term, &[char]), Unread>
    ensures value { Gives (λ found. (view found.0, found.1.now)) result (quoted_by cs.now) }
    ensures well_formed { IfOk result (λ found. IsWellFormed found.0) }
    ensures fits { IfOk result (λ found. length found.1.now ≤ length cs.now) }
{
    let (text, rest) = quoted_rest(alloc, '\'', cs)?;
    Ok((Term::Atom(name_of(alloc, text.as_slice())?), rest))
}

/// An atom without quotes, or an external fun.
#[tactic(auto, unfolding(crate::specs::Reading::word_by, erl_term::specs::WellFormed::maps_rise))]
fn word_form(cs: &[char], alloc: Global) -> Result<(Term, &[char]), Unread>
    ensures value { Gives (λ found. (view found.0, found.1.now)) result (word_by cs.now) }
    ensures well_formed { IfOk result (λ found. IsWellFormed found.0) }
    ensures fits { IfOk result (λ found. length found.1.now < length cs.now) }
{
    let Some((word, rest)) = word_front(cs) else {
        return Err(Unread::Syntax);
    };
    if is_fun(word) {
        return extern_rest(alloc, rest);
    }
    Ok((Term::Atom(name_of(alloc, word)?), rest))
}

#[tactic(auto, unfolding(crate::specs::Reading::integer_by, erl_term::specs::WellFormed::maps_rise))]
fn integer_form(cs: &[char]) -> Result<(Term, &[char]), Unread>
    ensures value { Gives (λ found. (view found.0, found.1.now)) result (integer_by cs.now) }
    ensures well_formed { IfOk result (λ found. IsWellFormed found.0) }
    ensures fits { IfOk result (λ found. length found.1.now < length cs.now) }
{
    match integer_front(cs) {
        None => Err(Unread::Syntax),
        Some((integer, rest)) => Ok((Term::Int(integer), rest)),
    }
}

/// A pid, a reference, a port or a raw trace behind `#`.
#[tactic(auto, unfolding(crate::specs::Reading::identifier_by, crate::specs::Reading::marked_by, crate::specs::Reading::trace_by, erl_term::specs::WellFormed::maps_rise))]
pub(crate) fn identifier(cs: &[char]) -> Result<(Term, &[char]), Unread>
    ensures value { Gives (λ found. (view found.0, found.1.now)) result (identifier_by cs.now) }
    ensures well_formed { IfOk result (λ found. IsWellFormed found.0) }
    ensures fits { IfOk result (λ found. length found.1.now ≤ length cs.now) }
{
    if let Some(rest) = behind_mark(cs, b"Pid<") {
        let (number, rest) = number_in(rest, WHOLE)?;
        return Ok((Term::Pid(number), rest));
    }
    if let Some(rest) = behind_mark(cs, b"Ref<") {
        let (number, rest) = number_in(rest, WHOLE)?;
        return Ok((Term::Reference(number), rest));
    }
    if let Some(rest) = behind_mark(cs, b"Port<") {
        let (number, rest) = number_in(rest, WHOLE)?;
        return Ok((Term::Port(number), rest));
    }
    let Some(rest) = behind_mark(cs, b"Trace<") else {
        return Err(Unread::Syntax);
    };
    let (class, rest) = class_in(rest)?;
    Ok((Term::RawTrace(class), rest))
}

/// A local fun of its head and its captured terms.
#[tactic(auto, unfolding(erl_term::specs::WellFormed::maps_rise))]
pub(crate) fn fun_of(head: FunHead, captured: Terms) -> Term
    requires { AreWellFormed captured }
    ensures value { view result ≡ Plain.fun head.home head.site head.arity (terms (map view captured)) }
    ensures well_formed { IsWellFormed result }
{
    Term::Fun(head.home, SiteId(head.site), head.arity, captured)
}
