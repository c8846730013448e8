// The bits of constant segments, and bit strings of them.
ghost use Rattle.std.specs.Prelude.{◌≡◌, ◌≤◌, ◌<◌, ◌/◌, ◌%◌, ◌^◌, ◌++◌, [], ◌∷◌, length, eqb, IfOk, OnOk, IsTrue};
ghost use Rattle.erl_term.specs.BitString.{bits_of, low_bits, to_little, ordered, number_from};
ghost use Rattle.erl_term.specs.View.{bits_view};
ghost use Rattle.erl_term.specs.WellFormed.{IsFull};
ghost use Rattle.term_read.specs.BitParts.{AreParts, is_part};
ghost use Rattle.term_read.specs.TermGrammar.{bits_in, whole_before_last};
ghost use Rattle.core_actions.specs.SegmentBits.{turned};

use erl_base::{List, NoMemory};
use erl_term::Bits;
use std::alloc::Global;
use term_read::{Part, bits_of_parts};

/// The bit of this weight.
#[tactic(auto, using(crate::proofs::BitRows::no_high_bit))]
fn bit(number: u128, index: u32) -> bool
    requires { number < 2 ^ 127 }
    ensures { result ≡ eqb ((number / 2 ^ index) % 2) 1 }
{
    if index >= 127 {
        return false;
    }
    (number >> index) % 2 == 1
}

fn turned_bit(bit: bool, over: bool) -> bool
    ensures { turned over (bit ∷ []) ≡ result ∷ [] }
{
    bit != over
}

/// The lowest bits of a number, turned over or not.
fn number_bits(alloc: Global, count: u32, number: u128, over: bool) -> Result<List<bool>, NoMemory>
    requires { number < 2 ^ 127 }
    ensures { IfOk result (λ bits. bits ≡ turned over (bits_of count number)) }
{
    let mut bits = List::new(alloc);
    let mut left = count;
    while left > 0 {
        left -= 1;
        bits.push(turned_bit(bit(number, left), over))?;
    }
    Ok(bits)
}

/// The lowest bits of an integer.
fn low_bits(alloc: Global, count: u32, number: i128) -> Result<List<bool>, NoMemory>
    ensures { IfOk result (λ bits. bits ≡ low_bits count number) }
{
    if number < 0 {
        number_bits(alloc, count, !number as u128, true)
    } else {
        number_bits(alloc, count, number as u128, false)
    }
}

/// The bits of an integer in the order that a segment asks for.
pub(crate) fn ordered(
    alloc: Global,
    little: bool,
    count: u32,
    number: i128,
) -> Result<List<bool>, NoMemory>
    ensures { IfOk result (λ bits. bits ≡ ordered little (low_bits count number)) }
{
    let bits = low_bits(alloc, count, number)?;
    if !little {
        return Ok(bits);
    }
    let mut turned = List::new(alloc);
    put_little(bits.as_slice(), bits.len(), &mut turned)?;
    Ok(turned)
}

/// Adds groups of eight bits, the lowest first.
fn put_little(bits: &[bool], most: usize, out: &mut List<bool>) -> Result<(), NoMemory>
    ensures { OnOk result (out.new ≡ out.old ++ to_little most bits.now) }
{
    if most == 0 || bits.len() <= 8 {
        return put_bits(bits, out);
    }
    let (high, low) = bits.split_at(bits.len() - 8);
    put_bits(low, out)?;
    put_little(high, most - 1, out)
}

/// Adds bits.
pub(crate) fn put_bits(bits: &[bool], out: &mut List<bool>) -> Result<(), NoMemory>
    ensures { OnOk result (out.new ≡ out.old ++ bits.now) }
{
    for bit in bits {
        out.push(*bit)?;
    }
    Ok(())
}

/// The bit string of the bits.
pub(crate) fn packed(alloc: Global, bits: &[bool]) -> Result<Bits, NoMemory>
    ensures value { IfOk result (λ made. bits_view made ≡ bits.now) }
    ensures full { IfOk result (λ made. IsFull made) }
{
    let parts = parts_of(alloc, bits)?;
    bits_of_parts(alloc, parts.as_slice())
}

/// The bits in parts of eight, the last of which may have fewer.
fn parts_of(alloc: Global, bits: &[bool]) -> Result<List<Part>, NoMemory>
    ensures value { IfOk result (λ parts. bits_in parts ≡ bits.now) }
    ensures whole { IfOk result (λ parts. IsTrue (whole_before_last parts)) }
    ensures sizes { IfOk result (λ parts. AreParts parts) }
{
    let mut parts = List::new(alloc);
    let mut left = bits;
    while left.len() > 8 {
        let (first, rest) = left.split_at(8);
        parts.push(part_of(first))?;
        left = rest;
    }
    if left.is_empty() {
        return Ok(parts);
    }
    parts.push(part_of(left))?;
    Ok(parts)
}

/// A part of at most eight bits.
fn part_of(bits: &[bool]) -> Part
    requires some { 0 < length bits.now }
    requires few { length bits.now ≤ 8 }
    ensures size { result.size ≡ length bits.now }
    ensures value { bits_of result.size result.number ≡ bits.now }
    ensures fits { IsTrue (is_part result) }
{
    Part {
        number: number_of(bits),
        size: bits.len() as u8,
    }
}

/// The number that at most eight bits hold.
fn number_of(bits: &[bool]) -> u8
    requires { length bits.now ≤ 8 }
    ensures { result ≡ number_from 0 bits.now }
{
    let mut number = 0;
    for bit in bits {
        number = with_bit(number, *bit);
    }
    number
}

/// A bit behind those of a number.
fn with_bit(number: u8, bit: bool) -> u8
    requires { number < 128 }
    ensures { result ≡ number_from number (bit ∷ []) }
{
    if bit { 2 * number + 1 } else { 2 * number }
}
