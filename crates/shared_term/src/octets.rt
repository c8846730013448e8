// Bits of bytes, eight at a time, from any bit on.
ghost use Rattle.std.specs.Prelude.{◌≡◌, ◌≤◌, ◌<◌, ◌+◌, ◌*◌, ◌^◌, IsTrue, IfOk, length, min};
ghost use Rattle.std.specs.Ordering.{bool_cmp};
ghost use Rattle.std.specs.Cmp.Lexicographic.{slice_cmp};
ghost use Rattle.erl_term.specs.BitString.{bits_of};
ghost use Rattle.erl_term.specs.View.{bits_view};
ghost use Rattle.erl_term.specs.WellFormed.{IsFull};
ghost use Rattle.shared_term.specs.Octets.{octet};
ghost use Rattle.shared_term.specs.View.{range_view, is_within};

use crate::value::BitRange;
use erl_base::{List, NoMemory};
use erl_term::Bits;
use std::alloc::Global;
use std::cmp::Ordering;

/// At most eight bits from the bit `at` on, in the highest bits of a byte whose others are zero.
fn octet(bytes: &[u8], at: u64, count: u64) -> u8
    requires some { 0 < count }
    requires most { count ≤ 8 }
    requires bound { length bytes.now ≤ 4294967295 }
    requires within { at + count ≤ 8 * length bytes.now }
    ensures { bits_of 8 result ≡ octet bytes.now at count }
{
    let first = (at / 8) as usize;
    let high = bytes[first] as u32;
    let low = if first + 1 < bytes.len() {
        bytes[first + 1] as u32
    } else {
        0
    };
    let behind = 16 - at % 8 - count;
    let bits = (high * 256 + low) / power(behind) % power(count);
    (bits * power(8 - count)) as u8
}

fn lesser(a: u64, b: u64) -> u64
    ensures { result ≡ min a b }
{
    if a < b { a } else { b }
}

/// 2^k.
fn power(k: u64) -> u32
    requires { k ≤ 16 }
    ensures { result ≡ 2 ^ k }
{
    1 << k
}

/// Which of two bit strings comes first, a proper prefix before the longer one.
pub fn compare_ranges(a: &BitRange, b: &BitRange) -> Ordering
    requires first { IsTrue (is_within a.now) }
    requires second { IsTrue (is_within b.now) }
    ensures { result ≡ slice_cmp bool_cmp (range_view a.now) (range_view b.now) }
{
    let (xs, ys) = (a.bytes.as_slice(), b.bytes.as_slice());
    // (shaped for the prover: there are fewer than 2^32 bytes, so the sums fit)
    let (_xs_count, _ys_count) = (a.bytes.len(), b.bytes.len());
    let common = lesser(a.length, b.length);
    let mut done = 0;
    while done < common {
        let count = lesser(8, common - done);
        match octet(xs, a.from + done, count).cmp(&octet(ys, b.from + done, count)) {
            Ordering::Equal => done += count,
            unequal => return unequal,
        }
    }
    a.length.cmp(&b.length)
}

/// The bits of a range, in bytes of their own.
pub fn own_bits(alloc: Global, range: &BitRange) -> Result<Bits, NoMemory>
    requires { IsTrue (is_within range.now) }
    ensures same { IfOk result (λ bits. bits_view bits ≡ range_view range.now) }
    ensures full { IfOk result IsFull }
{
    let bytes = range.bytes.as_slice();
    let _count = range.bytes.len();
    let mut copy = List::new(alloc);
    let mut done = 0;
    while done < range.length {
        let count = lesser(8, range.length - done);
        copy.push(octet(bytes, range.from + done, count))?;
        done += count;
    }
    Ok(Bits {
        length: range.length,
        bytes: copy,
    })
}
