// Lists of expressions.
ghost use Rattle.std.specs.Prelude.{◌≡◌, map, pos, IfOk, IsTrue};
ghost use Rattle.std.specs.Option.{option_map};
ghost use Rattle.erl_term.specs.Term as Plain;
ghost use Rattle.erl_term.specs.Terms as Listed;
ghost use Rattle.erl_term.specs.View as Terms;
ghost use Rattle.erl_term.specs.WellFormed.{IsWellFormed};
ghost use Rattle.erl_term.specs.WellRows.{AreWellFormed};
ghost use Rattle.core_form.specs.Core as Core;
ghost use Rattle.core_form.specs.View.{view, exprs};
ghost use Rattle.core_grammar.specs.ConstantTerms.{character_terms};
ghost use Rattle.core_grammar.specs.ModuleOf.{character_exprs};
ghost use Rattle.core_actions.specs.Joining.{list_of_items, end_at};
ghost use Rattle.core_actions.specs.SoundTerms.{all_sound, expr_sound};
ghost use Rattle.core_actions.specs.View.{end_sound};

use crate::literals::{are_literals, constant_list, is_literal, literal_of, literals_of};
use core_form::{Expr, ExprForm, Exprs};
use core_lex::Codes;
use erl_base::{Boxed, List, NoMemory, Place};
use erl_term::{Term, Terms};
use std::alloc::Global;

/// The list of the items and what is behind them: one literal where all are.
pub(crate) fn closed_list(
    alloc: Global,
    place: Place,
    items: Exprs,
    end: Option<Boxed<Expr>>,
) -> Result<Expr, NoMemory>
    requires items { IsTrue (all_sound (map expr_sound items)) }
    requires end { IsTrue (end_sound end) }
    ensures value { IfOk result (λ made. view made
        ≡ list_of_items place (exprs (map view items)) (end_at place (option_map view end))) }
    ensures sound { IfOk result (λ made. IsTrue (expr_sound made)) }
{
    let end = ended(alloc, place, end)?;
    let constant = is_literal(end.get()) & are_literals(items.as_slice());
    if !constant {
        return Ok(Expr {
            place,
            form: ExprForm::List(items, end),
        });
    }
    let tail = literal_of(end.into_inner());
    let term = constant_list(alloc, literals_of(alloc, items)?, tail)?;
    Ok(literal(place, term))
}

/// What ends a list at this place.
#[tactic(auto, unfolding(erl_term::specs::WellFormed::maps_rise))]
fn ended(alloc: Global, place: Place, end: Option<Boxed<Expr>>) -> Result<Boxed<Expr>, NoMemory>
    requires { IsTrue (end_sound end) }
    ensures value { IfOk result (λ made. view made ≡ end_at place (option_map view end)) }
    ensures sound { IfOk result (λ made. IsTrue (expr_sound made)) }
{
    match end {
        Some(end) => Ok(end),
        None => Boxed::new(alloc, literal(place, Term::Nil)),
    }
}

/// The list of the codes.
#[tactic(auto, unfolding(erl_term::specs::WellFormed::maps_rise))]
pub(crate) fn codes_term(alloc: Global, codes: Codes) -> Result<Term, NoMemory>
    ensures value { IfOk result (λ made. Terms.view made ≡ Listed.list_of (character_terms codes) Plain.nil) }
    ensures well_formed { IfOk result (λ made. IsWellFormed made) }
{
    let items = code_terms(alloc, codes.as_slice())?;
    constant_list(alloc, items, Term::Nil)
}

fn code_terms(alloc: Global, codes: &[u32]) -> Result<Terms, NoMemory>
    ensures value { IfOk result (λ items. map Terms.view items ≡ character_terms codes.now) }
    ensures well_formed { IfOk result (λ items. AreWellFormed items) }
{
    let mut items = List::new(alloc);
    for code in codes {
        items.push(code_term(*code))?;
    }
    Ok(items)
}

#[tactic(auto, unfolding(erl_term::specs::WellFormed::maps_rise))]
fn code_term(code: u32) -> Term
    ensures value { Terms.view result ≡ Plain.int (pos code) }
    ensures well_formed { IsWellFormed result }
{
    Term::Int(i128::from(code))
}

/// A literal for each code, all of them at this place.
pub(crate) fn code_literals(alloc: Global, place: Place, codes: &[u32]) -> Result<Exprs, NoMemory>
    ensures value { IfOk result (λ items. exprs (map view items) ≡ character_exprs place codes.now) }
    ensures sound { IfOk result (λ items. IsTrue (all_sound (map expr_sound items))) }
{
    let mut items = List::new(alloc);
    for code in codes {
        items.push(code_literal(place, *code))?;
    }
    Ok(items)
}

fn code_literal(place: Place, code: u32) -> Expr
    ensures value { view result ≡ Core.literal place (Plain.int (pos code)) }
    ensures sound { IsTrue (expr_sound result) }
{
    integer(place, i128::from(code))
}

/// An integer.
#[tactic(auto, unfolding(erl_term::specs::WellFormed::maps_rise))]
pub(crate) fn integer(place: Place, number: i128) -> Expr
    ensures value { view result ≡ Core.literal place (Plain.int number) }
    ensures sound { IsTrue (expr_sound result) }
{
    literal(place, Term::Int(number))
}

/// A literal of a term.
pub(crate) fn literal(place: Place, term: Term) -> Expr
    requires { IsWellFormed term }
    ensures value { view result ≡ Core.literal place (Terms.view term) }
    ensures sound { IsTrue (expr_sound result) }
{
    Expr {
        place,
        form: ExprForm::Literal(term),
    }
}
