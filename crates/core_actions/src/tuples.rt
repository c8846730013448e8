// Tuples and maps of expressions.
ghost use Rattle.std.specs.Prelude.{◌≡◌, [], ◌∷◌, Some, map, IfOk, IsTrue};
ghost use Rattle.erl_term.specs.Term as Plain;
ghost use Rattle.erl_term.specs.Terms as Listed;
ghost use Rattle.erl_term.specs.View as Terms;
ghost use Rattle.erl_term.specs.WellFormed.{IsWellFormed};
ghost use Rattle.erl_term.specs.WellRows.{AreWellFormed, PairsWellFormed, IsPairWellFormed};
ghost use Rattle.core_form.specs.SourceTree.{are_constant_pairs};
ghost use Rattle.core_form.specs.View.{view, part_view, exprs, parts};
ghost use Rattle.core_actions.specs.Joining.{literal_pairs, tuple_of_items, map_of_parts};
ghost use Rattle.core_actions.specs.SoundTerms.{all_sound, expr_sound, part_sound};

use crate::lists::literal;
use crate::literals::{are_literals, is_literal, literal_of, literals_of};
use core_form::{Expr, ExprForm, Exprs, MapPart, MapParts};
use erl_base::{List, NoMemory, Place};
use erl_term::{Pair, Pairs, Term, Terms, map_of};
use std::alloc::Global;
use std::collections::VecDeque;

/// The tuple of the items: one literal where all are.
pub fn tuple_of(alloc: Global, place: Place, items: Exprs) -> Result<Expr, NoMemory>
    requires { IsTrue (all_sound (map expr_sound items)) }
    ensures value { IfOk result (λ made. view made ≡ tuple_of_items place (exprs (map view items))) }
    ensures sound { IfOk result (λ made. IsTrue (expr_sound made)) }
{
    let constant = are_literals(items.as_slice());
    if !constant {
        return Ok(Expr {
            place,
            form: ExprForm::Tuple(items),
        });
    }
    let term = tuple_term(literals_of(alloc, items)?);
    Ok(literal(place, term))
}

/// The map of the pairs, without a base: one literal where all keys and values are, and none has to be there.
pub fn map_of_pairs(alloc: Global, place: Place, pairs: MapParts) -> Result<Expr, NoMemory>
    requires { IsTrue (all_sound (map part_sound pairs)) }
    ensures value { IfOk result (λ made. view made ≡ map_of_parts place (parts (map part_view pairs))) }
    ensures sound { IfOk result (λ made. IsTrue (expr_sound made)) }
{
    let constant = are_constant_pairs(pairs.as_slice());
    if !constant {
        return Ok(Expr {
            place,
            form: ExprForm::Map(pairs, None),
        });
    }
    let term = map_term(alloc, pairs_of(alloc, pairs)?)?;
    Ok(literal(place, term))
}

#[tactic(auto, unfolding(erl_term::specs::WellFormed::maps_rise))]
pub(crate) fn tuple_term(items: Terms) -> Term
    requires { AreWellFormed items }
    ensures value { Terms.view result ≡ Plain.tuple (Listed.terms (map Terms.view items)) }
    ensures well_formed { IsWellFormed result }
{
    Term::Tuple(items)
}

/// The map of the pairs, of which the later of two with equal keys wins.
#[tactic(auto, unfolding(erl_term::specs::WellFormed::maps_rise))]
fn map_term(alloc: Global, pairs: Pairs) -> Result<Term, NoMemory>
    requires { PairsWellFormed pairs }
    ensures value { IfOk result (λ made. Terms.view made
        ≡ Plain.map (Listed.put_all (map Terms.pair_view pairs) Plain.no_pair)) }
    ensures well_formed { IfOk result (λ made. IsWellFormed made) }
{
    Ok(Term::Map(map_of(alloc, pairs)?))
}

fn are_constant_pairs(pairs: &[MapPart]) -> bool
    ensures { result ≡ are_constant_pairs (parts (map part_view pairs.now)) }
{
    for pair in pairs {
        if !is_constant_pair(pair) {
            return false;
        }
    }
    true
}

fn is_constant_pair(pair: &MapPart) -> bool
    ensures { result ≡ are_constant_pairs (parts (part_view pair.now ∷ [])) }
{
    let literals = is_literal(&pair.key) & is_literal(&pair.value);
    literals & !pair.exact
}

/// The pairs of terms of constant pairs.
fn pairs_of(alloc: Global, pairs: MapParts) -> Result<Pairs, NoMemory>
    requires constant { IsTrue (are_constant_pairs (parts (map part_view pairs))) }
    requires sound { IsTrue (all_sound (map part_sound pairs)) }
    ensures value { IfOk result (λ found. literal_pairs (parts (map part_view pairs))
        ≡ Some (map Terms.pair_view found)) }
    ensures well_formed { IfOk result (λ found. PairsWellFormed found) }
{
    let mut found = List::new(alloc);
    let mut left = VecDeque::from_vec(pairs.into_vec());
    while let Some(part) = left.pop_front() {
        found.push(pair_of(part))?;
    }
    Ok(found)
}

fn pair_of(part: MapPart) -> Pair
    requires constant { IsTrue (are_constant_pairs (parts (part_view part ∷ []))) }
    requires sound { IsTrue (part_sound part) }
    ensures value { literal_pairs (parts (part_view part ∷ [])) ≡ Some (Terms.pair_view result ∷ []) }
    ensures well_formed { IsPairWellFormed result }
{
    let MapPart { key, value, .. } = part;
    Pair {
        key: literal_of(key),
        value: literal_of(value),
    }
}
