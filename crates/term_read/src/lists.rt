// Lists from items and a tail, and strings.
ghost use Rattle.std.specs.Prelude.{◌≡◌, ◌<◌, ◌++◌, map, length, not, IfOk, IsTrue};
ghost use Rattle.erl_term.specs.Term as Plain;
ghost use Rattle.erl_term.specs.Terms.{list_of};
ghost use Rattle.erl_term.specs.View.{view};
ghost use Rattle.erl_term.specs.WellFormed.{IsWellFormed, layout};
ghost use Rattle.term_read.specs.TermGrammar.{code_point};
ghost use Rattle.erl_term.specs.WellRows.{AreWellFormed};

use erl_base::{Boxed, List, NoMemory};
use erl_term::{Term, Terms};
use std::alloc::Global;
use std::collections::VecDeque;

/// The list with these items and this tail. A tail that is a list, as a string is, gives its items.
pub fn list_of(alloc: Global, items: Terms, tail: Term) -> Result<Term, NoMemory>
    requires some { 0 < length items }
    requires items { AreWellFormed items }
    requires tail { IsWellFormed tail }
    ensures value { IfOk result (λ term. view term ≡ list_of (map view items) (view tail)) }
    ensures well_formed { IfOk result (λ term. IsWellFormed term) }
{
    match tail.into_list() {
        Ok((more, last)) => longer(items, more, last),
        Err(tail) => closed(alloc, items, tail),
    }
}

/// Items before those of another list.
fn longer(items: Terms, more: Terms, last: Boxed<Term>) -> Result<Term, NoMemory>
    requires some { 0 < length items }
    requires items { AreWellFormed items }
    requires tail { IsWellFormed (Term.List more last) }
    ensures value { IfOk result (λ term. view term ≡ list_of (map view items) (view (Term.List more last))) }
    ensures well_formed { IfOk result (λ term. IsWellFormed term) }
{
    Ok(Term::List(appended(items, more)?, last))
}

/// The list of these items and no others.
#[tactic(auto, unfolding(erl_term::specs::WellFormed::maps_rise))]
pub(crate) fn proper(alloc: Global, items: Terms) -> Result<Term, NoMemory>
    requires some { 0 < length items }
    requires items { AreWellFormed items }
    ensures value { IfOk result (λ term. view term ≡ list_of (map view items) Plain.nil) }
    ensures well_formed { IfOk result (λ term. IsWellFormed term) }
{
    closed(alloc, items, Term::Nil)
}

/// The list with a tail that is none.
fn closed(alloc: Global, items: Terms, tail: Term) -> Result<Term, NoMemory>
    requires some { 0 < length items }
    requires items { AreWellFormed items }
    requires tail { IsWellFormed tail }
    requires no_list { IsTrue (not (layout tail).listed) }
    ensures value { IfOk result (λ term. view term ≡ list_of (map view items) (view tail)) }
    ensures well_formed { IfOk result (λ term. IsWellFormed term) }
{
    Ok(Term::List(items, Boxed::new(alloc, tail)?))
}

/// The items of two lists, one behind the other.
fn appended(items: Terms, more: Terms) -> Result<Terms, NoMemory>
    ensures { IfOk result (λ all. all ≡ items ++ more) }
{
    let mut all = items;
    let mut left = VecDeque::from_vec(more.into_vec());
    while let Some(item) = left.pop_front() {
        all.push(item)?;
    }
    Ok(all)
}

/// The list of code points.
#[tactic(auto, unfolding(erl_term::specs::WellFormed::maps_rise))]
pub(crate) fn code_points(alloc: Global, text: &[char]) -> Result<Term, NoMemory>
    ensures value { IfOk result (λ term. view term ≡ list_of (map code_point text.now) Plain.nil) }
    ensures well_formed { IfOk result (λ term. IsWellFormed term) }
{
    if text.is_empty() {
        return Ok(Term::Nil);
    }
    let items = code_point_items(alloc, text)?;
    proper(alloc, items)
}

fn code_point_items(alloc: Global, text: &[char]) -> Result<Terms, NoMemory>
    ensures value { IfOk result (λ items. map view items ≡ map code_point text.now) }
    ensures well_formed { IfOk result (λ items. AreWellFormed items) }
    ensures length { IfOk result (λ items. length items ≡ length text.now) }
{
    let mut items = List::new(alloc);
    for c in text {
        items.push(code_point(*c))?;
    }
    Ok(items)
}

#[tactic(auto, unfolding(erl_term::specs::WellFormed::maps_rise))]
fn code_point(c: char) -> Term
    ensures value { view result ≡ code_point c }
    ensures well_formed { IsWellFormed result }
{
    Term::Int(i128::from(u32::from(c)))
}
