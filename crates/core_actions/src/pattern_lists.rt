// Lists of patterns.
ghost use Rattle.std.specs.Prelude.{◌≡◌, map, pos, IfOk, IsTrue};
ghost use Rattle.std.specs.Option.{option_map};
ghost use Rattle.erl_term.specs.Term as Plain;
ghost use Rattle.erl_term.specs.View as Terms;
ghost use Rattle.erl_term.specs.WellFormed.{IsWellFormed};
ghost use Rattle.core_form.specs.Core as Core;
ghost use Rattle.core_form.specs.View.{pattern_view, patterns};
ghost use Rattle.core_grammar.specs.ModuleOf.{character_patterns};
ghost use Rattle.core_actions.specs.Joining.{list_of_patterns, pattern_end_at};
ghost use Rattle.core_actions.specs.SoundTerms.{all_sound, pattern_sound};
ghost use Rattle.core_actions.specs.View.{pattern_end_sound};

use crate::known::{are_known, is_known, term_of_known, terms_of_known};
use crate::literals::constant_list;
use core_form::{Pattern, PatternForm, Patterns};
use erl_base::{Boxed, List, NoMemory, Place};
use erl_term::Term;
use std::alloc::Global;

/// The list of the items and what is behind them: known where all are.
pub(crate) fn closed_list(
    alloc: Global,
    place: Place,
    items: Patterns,
    end: Option<Boxed<Pattern>>,
) -> Result<Pattern, NoMemory>
    requires items { IsTrue (all_sound (map pattern_sound items)) }
    requires end { IsTrue (pattern_end_sound end) }
    ensures value { IfOk result (λ made. pattern_view made
        ≡ list_of_patterns place (patterns (map pattern_view items)) (pattern_end_at place
        (option_map pattern_view end))) }
    ensures sound { IfOk result (λ made. IsTrue (pattern_sound made)) }
{
    let end = ended(alloc, place, end)?;
    let constant = is_known(end.get()) & are_known(items.as_slice());
    if !constant {
        return Ok(Pattern {
            place,
            form: PatternForm::List(items, end),
        });
    }
    let tail = term_of_known(end.into_inner());
    let term = constant_list(alloc, terms_of_known(alloc, items)?, tail)?;
    Ok(known(place, term))
}

/// What ends a list at this place.
#[tactic(auto, unfolding(erl_term::specs::WellFormed::maps_rise))]
fn ended(
    alloc: Global,
    place: Place,
    end: Option<Boxed<Pattern>>,
) -> Result<Boxed<Pattern>, NoMemory>
    requires { IsTrue (pattern_end_sound end) }
    ensures value { IfOk result (λ made. pattern_view made ≡ pattern_end_at place (option_map pattern_view end)) }
    ensures sound { IfOk result (λ made. IsTrue (pattern_sound made)) }
{
    match end {
        Some(end) => Ok(end),
        None => Boxed::new(alloc, known(place, Term::Nil)),
    }
}

/// A known pattern for each code, all of them at this place.
pub(crate) fn code_patterns(
    alloc: Global,
    place: Place,
    codes: &[u32],
) -> Result<Patterns, NoMemory>
    ensures value { IfOk result (λ items. patterns (map pattern_view items) ≡ character_patterns place codes.now) }
    ensures sound { IfOk result (λ items. IsTrue (all_sound (map pattern_sound items))) }
{
    let mut items = List::new(alloc);
    for code in codes {
        items.push(code_pattern(place, *code))?;
    }
    Ok(items)
}

fn code_pattern(place: Place, code: u32) -> Pattern
    ensures value { pattern_view result ≡ Core.known place (Plain.int (pos code)) }
    ensures sound { IsTrue (pattern_sound result) }
{
    known_integer(place, i128::from(code))
}

/// A known integer.
#[tactic(auto, unfolding(erl_term::specs::WellFormed::maps_rise))]
pub(crate) fn known_integer(place: Place, number: i128) -> Pattern
    ensures value { pattern_view result ≡ Core.known place (Plain.int number) }
    ensures sound { IsTrue (pattern_sound result) }
{
    known(place, Term::Int(number))
}

/// A known term.
pub(crate) fn known(place: Place, term: Term) -> Pattern
    requires { IsWellFormed term }
    ensures value { pattern_view result ≡ Core.known place (Terms.view term) }
    ensures sound { IsTrue (pattern_sound result) }
{
    Pattern {
        place,
        form: PatternForm::Literal(term),
    }
}
