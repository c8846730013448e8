// Patterns that were read.
ghost use Rattle.std.specs.Prelude.{◌≡◌, map, IfOk, IsTrue};
ghost use Rattle.std.specs.Option.{option_map};
ghost use Rattle.core_form.specs.View.{pattern_view, patterns};
ghost use Rattle.core_actions.specs.Joining.{closed_pattern, joined_patterns, added_patterns, behind_patterns, tuple_of_patterns};
ghost use Rattle.core_actions.specs.SoundTerms.{all_sound, pattern_sound};
ghost use Rattle.core_actions.specs.View.{all_items, pattern_end_sound, pattern_read_view, pattern_read_sound};

use crate::known::{are_known, terms_of_known};
use crate::lists::codes_term;
use crate::pattern_lists::{closed_list, code_patterns, known};
use crate::pattern_rows::{gathered, with_row};
use crate::tuples::tuple_term;
use core_form::{Pattern, PatternForm, Patterns};
use core_lex::Codes;
use erl_base::{Boxed, List, NoMemory, Place};
use std::alloc::Global;

/// A pattern that was read. What may be the tail of a list keeps its items, in rows, the last of them first.
#[derive(Drop)]
pub enum ReadPattern {
    Whole(Pattern),
    Characters(Place, Codes),
    Items(Place, List<Patterns>, Option<Boxed<Pattern>>),
}

/// The pattern, where it is no tail: a list is known where all its items and what is behind them are.
pub fn closed_pattern(alloc: Global, read: ReadPattern) -> Result<Pattern, NoMemory>
    requires { IsTrue (pattern_read_sound read) }
    ensures value { IfOk result (λ made. pattern_view made ≡ closed_pattern (pattern_read_view read)) }
    ensures sound { IfOk result (λ made. IsTrue (pattern_sound made)) }
{
    match read {
        ReadPattern::Whole(pattern) => Ok(pattern),
        ReadPattern::Characters(place, codes) => Ok(known(place, codes_term(alloc, codes)?)),
        ReadPattern::Items(place, rows, end) => {
            closed_list(alloc, place, gathered(alloc, rows)?, end)
        }
    }
}

/// The list of these patterns before a tail, whose own items it has too.
pub fn list_before_pattern(
    alloc: Global,
    place: Place,
    items: Patterns,
    tail: ReadPattern,
) -> Result<ReadPattern, NoMemory>
    requires items { IsTrue (all_sound (map pattern_sound items)) }
    requires tail { IsTrue (pattern_read_sound tail) }
    ensures value { IfOk result (λ made. pattern_read_view made
        ≡ joined_patterns place (patterns (map pattern_view items)) (pattern_read_view tail)) }
    ensures sound { IfOk result (λ made. IsTrue (pattern_read_sound made)) }
{
    let (rows, end) = tail_parts(alloc, tail)?;
    Ok(ReadPattern::Items(place, with_row(rows, items)?, end))
}

/// The items that a tail adds to its list, and what is behind them.
#[tactic(auto, using(crate::proofs::PatternRows::before_nothing))]
fn tail_parts(
    alloc: Global,
    tail: ReadPattern,
) -> Result<(List<Patterns>, Option<Boxed<Pattern>>), NoMemory>
    requires { IsTrue (pattern_read_sound tail) }
    ensures items { IfOk result (λ parts. patterns (map pattern_view (all_items parts.0))
        ≡ added_patterns (pattern_read_view tail)) }
    ensures end { IfOk result (λ parts. option_map pattern_view parts.1 ≡ behind_patterns (pattern_read_view tail)) }
    ensures sound_items { IfOk result (λ parts. IsTrue (all_sound (map pattern_sound (all_items parts.0)))) }
    ensures sound_end { IfOk result (λ parts. IsTrue (pattern_end_sound parts.1)) }
{
    match tail {
        ReadPattern::Items(_, rows, end) => Ok((rows, end)),
        ReadPattern::Characters(at, codes) => {
            let items = code_patterns(alloc, at, codes.as_slice())?;
            Ok((with_row(List::new(alloc), items)?, None))
        }
        ReadPattern::Whole(pattern) => Ok((List::new(alloc), Some(Boxed::new(alloc, pattern)?))),
    }
}

/// The tuple of the patterns: known where all are.
pub fn tuple_of_patterns(alloc: Global, place: Place, items: Patterns) -> Result<Pattern, NoMemory>
    requires { IsTrue (all_sound (map pattern_sound items)) }
    ensures value { IfOk result (λ made. pattern_view made
        ≡ tuple_of_patterns place (patterns (map pattern_view items))) }
    ensures sound { IfOk result (λ made. IsTrue (pattern_sound made)) }
{
    let constant = are_known(items.as_slice());
    if !constant {
        return Ok(Pattern {
            place,
            form: PatternForm::Tuple(items),
        });
    }
    let term = tuple_term(terms_of_known(alloc, items)?);
    Ok(known(place, term))
}
