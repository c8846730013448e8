// Segments of a bit string that is built, six operands each.
ghost use Rattle.std.specs.Prelude.{◌≡◌, ◌<◌, ◌++◌, length, map, MatchOption};
ghost use Rattle.erl_term.specs.Comparing.{AllNormal};
ghost use Rattle.erl_term.specs.View.{view};
ghost use Rattle.erl_term.specs.WellFormed.{IsNormal};
ghost use Rattle.term_read.specs.Reading.{Gives};
ghost use Rattle.beam_table.specs.View.{segment_view, is_binary};
ghost use Rattle.insn_terms.specs.Reading as Plain;

use crate::flags::FlagList;
use crate::numbers::{Amount, Unit};
use crate::rows::five;
use crate::terms::{atom_of, behind, is_word};
use beam_table::{BuiltSegments, Segment, SegmentKind};
use erl_base::{List, Name, behind as later, front};
use erl_term::Term;
use std::alloc::Global;
use term_read::Unread;

/// Any number of segments.
pub fn segments_in(alloc: Global, terms: &[Term]) -> Result<BuiltSegments, Unread>
    requires { AllNormal terms.now }
    ensures { Gives (map segment_view) result (Plain.segments_in (map view terms.now)) }
{
    let mut segments = List::new(alloc);
    let mut left = terms;
    'left: while let Some((six, others)) = next_six(left) {
        let segment = segment_in(alloc, six)?;
        segments.push(segment)?;
        left = others;
    }
    if !left.is_empty() {
        return Err(Unread::Syntax);
    }
    Ok(segments)
}

// The first six terms and those behind them, where there are six.
fn next_six(terms: &[Term]) -> Option<(&[Term], &[Term])>
    ensures { MatchOption result (length terms.now < 6)
        (λ found. (length found.0.now ≡ 6) × (terms.now ≡ found.0.now ++ found.1.now)) }
{
    if terms.len() < 6 {
        return None;
    }
    Some((front(terms, 6), later(terms, 6)))
}

// The six operands of a segment.
fn segment_in(alloc: Global, terms: &[Term]) -> Result<Segment, Unread>
    requires { AllNormal terms.now }
    ensures { Gives segment_view result (Plain.segment_in (map view terms.now)) }
{
    let [kind, others @ ..] = terms else {
        return Err(Unread::Syntax);
    };
    let kind = segment_kind(kind)?;
    let (Amount(number), (Unit(unit), (FlagList(flags), (value, size)))) = five(alloc, others)?;
    Ok(Segment {
        kind,
        number,
        unit,
        flags,
        value,
        size,
    })
}

fn segment_kind(term: &Term) -> Result<SegmentKind, Unread>
    requires { IsNormal term.now }
    ensures { Gives is_binary result (Plain.kind_value (view term.now)) }
{
    let word = behind("atom", term)?;
    let word = atom_of(word)?;
    kind_named(word)
}

fn kind_named(word: &Name) -> Result<SegmentKind, Unread>
    ensures { Gives is_binary result (Plain.is_binary_word word.now) }
{
    if is_word(word, "integer") {
        return Ok(SegmentKind::Integer);
    }
    if is_word(word, "binary") {
        return Ok(SegmentKind::Binary);
    }
    Err(Unread::Syntax)
}
