// Literals, and the terms that they are.
ghost use Rattle.std.specs.Prelude.{◌≡◌, Some, map, IfOk, IsTrue};
ghost use Rattle.erl_term.specs.View as Terms;
ghost use Rattle.erl_term.specs.Terms as Listed;
ghost use Rattle.erl_term.specs.WellFormed.{IsWellFormed};
ghost use Rattle.erl_term.specs.WellRows.{AreWellFormed};
ghost use Rattle.core_form.specs.SourceTree.{is_literal, are_literals};
ghost use Rattle.core_form.specs.View.{view, exprs};
ghost use Rattle.core_actions.specs.Joining.{literal_term, literal_terms};
ghost use Rattle.core_actions.specs.SoundTerms.{all_sound, expr_sound};

use core_form::{Expr, ExprForm, Exprs};
use erl_base::{List, NoMemory};
use erl_term::{Term, Terms};
use std::alloc::Global;
use std::collections::VecDeque;
use term_read::list_of;

/// The list of these terms before a tail, which may be a list.
pub(crate) fn constant_list(alloc: Global, items: Terms, tail: Term) -> Result<Term, NoMemory>
    requires items { AreWellFormed items }
    requires tail { IsWellFormed tail }
    ensures value { IfOk result (λ made. Terms.view made
        ≡ Listed.list_of (map Terms.view items) (Terms.view tail)) }
    ensures well_formed { IfOk result (λ made. IsWellFormed made) }
{
    if items.is_empty() {
        return Ok(tail);
    }
    list_of(alloc, items, tail)
}

pub(crate) fn is_literal(expr: &Expr) -> bool
    ensures { result ≡ is_literal (view expr.now) }
{
    matches!(expr.form, ExprForm::Literal(_))
}

pub(crate) fn are_literals(items: &[Expr]) -> bool
    ensures { result ≡ are_literals (exprs (map view items.now)) }
{
    for item in items {
        if !is_literal(item) {
            return false;
        }
    }
    true
}

/// The term of a literal.
pub(crate) fn literal_of(expr: Expr) -> Term
    requires literal { IsTrue (is_literal (view expr)) }
    requires sound { IsTrue (expr_sound expr) }
    ensures value { literal_term (view expr) ≡ Some (Terms.view result) }
    ensures well_formed { IsWellFormed result }
{
    match expr.form {
        ExprForm::Literal(term) => term,
        _ => unreachable!(),
    }
}

/// The terms of literals.
pub(crate) fn literals_of(alloc: Global, items: Exprs) -> Result<Terms, NoMemory>
    requires literals { IsTrue (are_literals (exprs (map view items))) }
    requires sound { IsTrue (all_sound (map expr_sound items)) }
    ensures value { IfOk result (λ terms. literal_terms (exprs (map view items)) ≡ Some (map Terms.view terms)) }
    ensures well_formed { IfOk result (λ terms. AreWellFormed terms) }
{
    let mut terms = List::new(alloc);
    let mut left = VecDeque::from_vec(items.into_vec());
    while let Some(item) = left.pop_front() {
        terms.push(literal_of(item))?;
    }
    Ok(terms)
}
