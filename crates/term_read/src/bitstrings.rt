// Bit strings in a text.
ghost use Rattle.std.specs.Prelude.{◌≡◌, ◌<◌, ◌≤◌, ◌-◌, ◌*◌, ◌^◌, length, take, codes, IfOk, IsTrue};
ghost use Rattle.std.specs.List.{list_all};
ghost use Rattle.erl_term.specs.BitString.{byte_bits};
ghost use Rattle.erl_term.specs.View.{view, bits_view};
ghost use Rattle.erl_term.specs.WellFormed.{IsFull, IsWellFormed};
ghost use Rattle.term_read.specs.TermGrammar.{part_at, whole_before_last, bits_in, is_byte};
ghost use Rattle.term_read.specs.Reading.{Gives, items_of, row_of, part_row, byte_text, bits_by, angle_by};
ghost use Rattle.term_read.specs.BitParts.{AreParts};

use crate::flat::{Part, part_at};
use crate::lexemes::{behind_blanks, behind_mark, expect, mark_at, quoted_rest};
use crate::unread::Unread;
use erl_base::{List, NoMemory};
use erl_term::{Bits, Term};
use std::alloc::Global;

/// A bit string behind the first `<`.
pub(crate) fn bits_form(cs: &[char], alloc: Global) -> Result<(Term, &[char]), Unread>
    ensures value { Gives (λ found. (view found.0, found.1.now)) result (angle_by cs.now) }
    ensures well_formed { IfOk result (λ found. IsWellFormed found.0) }
    ensures fits { IfOk result (λ found. length found.1.now ≤ length cs.now) }
{
    match behind_mark(cs, b"<") {
        None => Err(Unread::Syntax),
        Some(rest) => bits_rest(rest, alloc),
    }
}

#[tactic(auto, unfolding(crate::specs::Reading::bits_by))]
fn bits_rest(cs: &[char], alloc: Global) -> Result<(Term, &[char]), Unread>
    ensures value { Gives (λ found. (view found.0, found.1.now)) result (bits_by cs.now) }
    ensures well_formed { IfOk result (λ found. IsWellFormed found.0) }
    ensures fits { IfOk result (λ found. length found.1.now ≤ length cs.now) }
{
    match behind_mark(behind_blanks(cs), b"\"") {
        None => part_row(cs, alloc),
        Some(rest) => byte_text(rest, alloc),
    }
}

/// Characters up to U+00FF as bytes.
#[tactic(auto, unfolding(crate::specs::Reading::byte_text, erl_term::specs::WellFormed::maps_rise))]
fn byte_text(cs: &[char], alloc: Global) -> Result<(Term, &[char]), Unread>
    ensures value { Gives (λ found. (view found.0, found.1.now)) result (byte_text cs.now) }
    ensures well_formed { IfOk result (λ found. IsWellFormed found.0) }
    ensures fits { IfOk result (λ found. length found.1.now ≤ length cs.now) }
{
    let (text, rest) = quoted_rest(alloc, '"', cs)?;
    if !are_bytes(text.as_slice()) {
        return Err(Unread::Syntax);
    }
    let rest = expect(rest, b">>")?;
    Ok((Term::Bits(bytes_of(alloc, text.as_slice())?), rest))
}

fn is_byte(c: char) -> bool
    ensures { result ≡ is_byte c }
{
    c <= '\u{FF}'
}

fn are_bytes(text: &[char]) -> bool
    ensures { result ≡ list_all is_byte text.now }
{
    text.iter().all(|c| is_byte(*c))
}

fn bytes_of(alloc: Global, text: &[char]) -> Result<Bits, NoMemory>
    requires { IsTrue (list_all is_byte text.now) }
    ensures value { IfOk result (λ bits. bits_view bits ≡ byte_bits text.now) }
    ensures full { IfOk result (λ bits. IsFull bits) }
{
    let mut bytes = List::new(alloc);
    for c in text {
        bytes.push(*c as u32 as u8)?;
    }
    Ok(Bits {
        length: bytes.len() as u64 * 8,
        bytes,
    })
}

/// Bytes with commas between, and a last part of fewer bits.
#[tactic(auto, unfolding(crate::specs::Reading::part_row, erl_term::specs::WellFormed::maps_rise))]
fn part_row(cs: &[char], alloc: Global) -> Result<(Term, &[char]), Unread>
    ensures value { Gives (λ found. (view found.0, found.1.now)) result (part_row cs.now) }
    ensures well_formed { IfOk result (λ found. IsWellFormed found.0) }
    ensures fits { IfOk result (λ found. length found.1.now ≤ length cs.now) }
{
    let (parts, rest) = parts_to(cs, alloc)?;
    if !whole_before_last(parts.as_slice()) {
        return Err(Unread::Syntax);
    }
    Ok((Term::Bits(bits_of_parts(alloc, parts.as_slice())?), rest))
}

#[tactic(auto, unfolding(crate::specs::Reading::row_of))]
fn parts_to(cs: &[char], alloc: Global) -> Result<(List<Part>, &[char]), Unread>
    ensures value { Gives (λ found. (found.0, found.1.now)) result (row_of part_at (codes ">>") cs.now) }
    ensures sizes { IfOk result (λ found. AreParts found.0) }
    ensures fits { IfOk result (λ found. length found.1.now ≤ length cs.now) }
{
    if let Some(rest) = mark_at(cs, b">>") {
        return Ok((List::new(alloc), rest));
    }
    let (parts, rest) = part_items(cs, alloc)?;
    let rest = expect(rest, b">>")?;
    Ok((parts, rest))
}

#[tactic(auto, using(crate::proofs::ItemRows::loop_refused))]
fn part_items(cs: &[char], alloc: Global) -> Result<(List<Part>, &[char]), Unread>
    ensures value { Gives (λ found. (found.0, found.1.now)) result (items_of part_at cs.now) }
    ensures sizes { IfOk result (λ found. AreParts found.0) }
    ensures fits { IfOk result (λ found. length found.1.now < length cs.now) }
{
    let mut parts = List::new(alloc);
    let mut rest = cs;
    loop {
        let (part, later) = part_at(rest)?;
        parts.push(part)?;
        match mark_at(later, b",") {
            None => return Ok((parts, later)),
            Some(next) => rest = next,
        }
    }
}

fn whole_before_last(parts: &[Part]) -> bool
    ensures { result ≡ whole_before_last parts.now }
{
    let mut rest = parts;
    while let [part, next, later @ ..] = rest {
        if part.size != 8 {
            return false;
        }
        rest = &rest[1..];
    }
    true
}

/// The bits of the parts, of which all but the last are bytes.
pub fn bits_of_parts(alloc: Global, parts: &[Part]) -> Result<Bits, NoMemory>
    requires whole { IsTrue (whole_before_last parts.now) }
    requires sizes { AreParts parts.now }
    ensures value { IfOk result (λ bits. bits_view bits ≡ bits_in parts.now) }
    ensures full { IfOk result (λ bits. IsFull bits) }
{
    let mut bytes = List::new(alloc);
    let mut length = 0;
    for part in parts {
        bytes.push(high_byte(part.number, part.size))?;
        length += u64::from(part.size);
    }
    Ok(Bits { length, bytes })
}

/// The byte that holds the number in its highest bits.
#[tactic(auto, using(crate::proofs::PartBits::high_bytes))]
fn high_byte(number: u8, size: u8) -> u8
    requires some { 0 < size }
    requires few { size ≤ 8 }
    requires fits { number < 2 ^ size }
    ensures { result ≡ number * 2 ^ (8 - size) }
{
    number << (8 - size)
}
