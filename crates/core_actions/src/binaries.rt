// Segments and binaries of parts that were read.
ghost use Rattle.std.specs.Prelude.{◌≡◌, map, codes, None, if◌then◌else◌, IfOk, IsTrue};
ghost use Rattle.erl_base.specs.Names.{same_name};
ghost use Rattle.erl_term.specs.Segments.{joined};
ghost use Rattle.erl_term.specs.Term as Plain;
ghost use Rattle.erl_term.specs.View as Terms;
ghost use Rattle.erl_term.specs.View.{bits_view};
ghost use Rattle.erl_term.specs.WellFormed.{IsFull, IsWellFormed};
ghost use Rattle.core_form.specs.View.{view, segment_view, segments};
ghost use Rattle.core_names.specs.Readings.{seg_view};
ghost use Rattle.core_grammar.specs.ConstantTerms.{is_constant_size, bits_with, bits_written};
ghost use Rattle.core_grammar.specs.ModuleOf.{term_or_nil};
ghost use Rattle.core_actions.specs.Joining.{literal_term, integer_in, count_of, count_in};
ghost use Rattle.core_actions.specs.Binaries.{constant_in, segment_of, bits_in, seg_of, binary_of};
ghost use Rattle.core_actions.specs.SoundTerms.{all_sound, expr_sound, segment_sound, seg_sound};
ghost use Rattle.core_actions.specs.View.{read_view, read_sound, pattern_read_view, pattern_read_sound, parts_view, parts_sound};

use crate::bits::{ordered, packed, put_bits};
use crate::exprs::{ReadExpr, closed};
use crate::flags::{are_flags, has_little};
use crate::lists::literal;
use crate::literals::{is_literal, literal_of};
use crate::patterns::{ReadPattern, closed_pattern};
use core_form::{Expr, ExprForm, SegPattern, Segment, Segments};
use core_names::is_word;
use erl_base::{List, Name, NoMemory, Place};
use erl_term::{Bits, Term};
use std::alloc::Global;

/// What a segment says beside its value.
#[derive(Drop)]
pub struct SegmentParts {
    pub size: ReadExpr,
    pub unit: ReadExpr,
    pub kind: Name,
    pub flags: ReadExpr,
}

/// A segment that was read, and its bits where it is constant.
#[derive(Drop)]
pub struct ReadSegment {
    pub segment: Segment,
    pub bits: Option<List<bool>>,
}

/// A segment of a binary.
pub fn segment_of(
    alloc: Global,
    place: Place,
    value: ReadExpr,
    parts: SegmentParts,
) -> Result<ReadSegment, NoMemory>
    requires value { IsTrue (read_sound value) }
    requires parts { IsTrue (parts_sound parts) }
    ensures segment { IfOk result (λ made. segment_view made.segment
        ≡ segment_of place (read_view value) (parts_view parts)) }
    ensures bits { IfOk result (λ made. made.bits ≡ bits_in (read_view value) (parts_view parts)) }
    ensures sound { IfOk result (λ made. IsTrue (segment_sound made.segment)) }
{
    let SegmentParts {
        size,
        unit,
        kind,
        flags,
    } = parts;
    let number = integer_in(&value);
    let count = count_in(&size);
    let unit_count = count_in(&unit);
    let flags = closed(alloc, flags)?;
    let bits = segment_bits(alloc, &kind, number, count, unit_count, &flags)?;
    let value = closed(alloc, value)?;
    let size = closed(alloc, size)?;
    let unit = constant_of(closed(alloc, unit)?);
    let segment = Segment {
        place,
        value,
        size,
        unit,
        kind,
        flags: constant_of(flags),
    };
    Ok(ReadSegment { segment, bits })
}

/// A segment of a binary pattern.
pub fn seg_pattern_of(
    alloc: Global,
    place: Place,
    value: ReadPattern,
    parts: SegmentParts,
) -> Result<SegPattern, NoMemory>
    requires value { IsTrue (pattern_read_sound value) }
    requires parts { IsTrue (parts_sound parts) }
    ensures value { IfOk result (λ made. seg_view made ≡ seg_of place (pattern_read_view value) (parts_view parts)) }
    ensures sound { IfOk result (λ made. IsTrue (seg_sound made)) }
{
    let SegmentParts {
        size,
        unit,
        kind,
        flags,
    } = parts;
    let (unit, flags) = constants_of(alloc, unit, flags)?;
    let value = closed_pattern(alloc, value)?;
    let size = closed(alloc, size)?;
    Ok(SegPattern {
        place,
        value,
        size,
        unit,
        kind,
        flags,
    })
}

/// The bits of constant segments and of one more.
pub fn with_bits(
    all: Option<List<bool>>,
    more: Option<List<bool>>,
) -> Result<Option<List<bool>>, NoMemory>
    ensures { IfOk result (λ bits. bits ≡ joined all more) }
{
    match (all, more) {
        (Some(all), Some(more)) => {
            let mut all = all;
            put_bits(more.as_slice(), &mut all)?;
            Ok(Some(all))
        }
        _ => Ok(None),
    }
}

/// The binary of the segments: one literal where all of them are constant, and then these are their bits.
pub fn binary_of(
    alloc: Global,
    place: Place,
    items: Segments,
    bits: Option<List<bool>>,
) -> Result<Expr, NoMemory>
    requires { IsTrue (all_sound (map segment_sound items)) }
    ensures value { IfOk result (λ made. view made ≡ binary_of place (segments (map segment_view items)) bits) }
    ensures sound { IfOk result (λ made. IsTrue (expr_sound made)) }
{
    match bits {
        Some(bits) => Ok(literal(place, bits_term(packed(alloc, bits.as_slice())?))),
        None => Ok(Expr {
            place,
            form: ExprForm::Binary(items),
        }),
    }
}

#[tactic(auto, unfolding(erl_term::specs::WellFormed::maps_rise))]
fn bits_term(bits: Bits) -> Term
    requires { IsFull bits }
    ensures value { Terms.view result ≡ Plain.bits (bits_view bits) }
    ensures well_formed { IsWellFormed result }
{
    Term::Bits(bits)
}

/// The terms of a unit and of flags.
fn constants_of(alloc: Global, unit: ReadExpr, flags: ReadExpr) -> Result<(Term, Term), NoMemory>
    requires unit { IsTrue (read_sound unit) }
    requires flags { IsTrue (read_sound flags) }
    ensures unit { IfOk result (λ made. Terms.view made.0 ≡ constant_in (read_view unit)) }
    ensures flags { IfOk result (λ made. Terms.view made.1 ≡ constant_in (read_view flags)) }
    ensures well_formed_unit { IfOk result (λ made. IsWellFormed made.0) }
    ensures well_formed_flags { IfOk result (λ made. IsWellFormed made.1) }
{
    let unit = constant_of(closed(alloc, unit)?);
    let flags = constant_of(closed(alloc, flags)?);
    Ok((unit, flags))
}

/// The term of a constant, and the empty list of what is none.
#[tactic(auto, using(crate::proofs::LiteralRows::term_none), unfolding(erl_term::specs::WellFormed::maps_rise))]
fn constant_of(expr: Expr) -> Term
    requires { IsTrue (expr_sound expr) }
    ensures value { Terms.view result ≡ term_or_nil (literal_term (view expr)) }
    ensures well_formed { IsWellFormed result }
{
    if is_literal(&expr) {
        return literal_of(expr);
    }
    Term::Nil
}

/// The integer that a segment may write.
fn integer_in(read: &ReadExpr) -> Option<i128>
    ensures { result ≡ integer_in (read_view read.now) }
{
    match read {
        ReadExpr::Integer(_, number) => Some(*number),
        ReadExpr::WideInteger(_) => Some(0),
        ReadExpr::Whole(_) | ReadExpr::Characters(..) | ReadExpr::Items(..) => None,
    }
}

/// A number from 0 on.
fn count_in(read: &ReadExpr) -> Option<u128>
    ensures { result ≡ count_in (read_view read.now) }
{
    match read {
        ReadExpr::Integer(_, number) => counted(*number),
        ReadExpr::Whole(_)
        | ReadExpr::WideInteger(_)
        | ReadExpr::Characters(..)
        | ReadExpr::Items(..) => None,
    }
}

fn counted(number: i128) -> Option<u128>
    ensures { result ≡ count_of number }
{
    if number < 0 {
        None
    } else {
        Some(number as u128)
    }
}

/// The bits of a segment, where it is constant.
fn segment_bits(
    alloc: Global,
    kind: &Name,
    number: Option<i128>,
    size: Option<u128>,
    unit: Option<u128>,
    flags: &Expr,
) -> Result<Option<List<bool>>, NoMemory>
    ensures { IfOk result (λ bits. bits ≡ (if same_name kind.now (codes "integer")
        then bits_written number size unit (literal_term (view flags.now)) else None)) }
{
    let integer = is_word(kind.as_str(), "integer");
    if !integer {
        return Ok(None);
    }
    match (number, size, unit, &flags.form) {
        (Some(number), Some(size), Some(unit), ExprForm::Literal(flags)) => {
            bits_with(alloc, flags, size, unit, number)
        }
        _ => Ok(None),
    }
}

/// The bits of a number in a segment with these flags.
fn bits_with(
    alloc: Global,
    flags: &Term,
    size: u128,
    unit: u128,
    number: i128,
) -> Result<Option<List<bool>>, NoMemory>
    ensures { IfOk result (λ bits. bits ≡ bits_with (Terms.view flags.now) size unit number) }
{
    let constant = is_constant_size(size, unit);
    if !constant {
        return Ok(None);
    }
    let flagged = are_flags(flags);
    if !flagged {
        return Ok(None);
    }
    let count = (size * unit) as u32;
    Ok(Some(ordered(alloc, has_little(flags), count, number)?))
}

/// A unit from 1 to 256, and at most 256 bits.
fn is_constant_size(size: u128, unit: u128) -> bool
    ensures { result ≡ is_constant_size size unit }
{
    if unit < 1 || unit > 256 || size > 256 {
        return false;
    }
    size * unit <= 256
}
