// Bit strings at the end of a text.
ghost use Rattle.std.specs.Prelude.{◌≡◌, ◌<◌, ◌+◌, ◌-◌, ◌/◌, ◌^◌, ◌++◌, length, take, codes, true, OnOk};
ghost use Rattle.erl_term.specs.BitString.{byte_bits};
ghost use Rattle.erl_term.specs.View.{bits_view};
ghost use Rattle.erl_term.specs.WellFormed.{IsFull};
ghost use Rattle.term_text.specs.Decimal.{decimal_on};
ghost use Rattle.term_text.specs.TermText.{bits_on, comma};
ghost use Rattle.term_text.specs.Printing.{Adds};

use crate::bytes::push_bytes;
use crate::numbers::put_number;
use erl_base::{NoMemory, Text};
use erl_term::Bits;

#[tactic(auto, using(crate::proofs::BitText::full))]
pub(crate) fn push_bit_string(out: &mut Text, bits: &Bits) -> Result<(), NoMemory>
    requires { IsFull bits.now }
    ensures { OnOk result (Adds out.old out.new (λ r.
        codes "<<" ++ bits_on true (bits_view bits.now) (codes ">>" ++ r))) }
{
    push_bytes(out, b"<<")?;
    push_bits(out, bits.bytes.as_slice(), bits.length)?;
    push_bytes(out, b">>")
}

/// The bits of bytes in full, and then what is left of the last one.
fn push_bits(out: &mut Text, bytes: &[u8], count: u64) -> Result<(), NoMemory>
    requires { length bytes.now ≡ (count + 7) / 8 }
    ensures { OnOk result (Adds out.old out.new (bits_on true (take count (byte_bits bytes.now)))) }
{
    let whole = (count / 8) as usize;
    for i in 0..whole {
        push_comma(out, i == 0)?;
        put_number(out, u128::from(bytes[i]))?;
    }
    let left = (count % 8) as u8;
    if left == 0 {
        return Ok(());
    }
    push_part(out, whole == 0, bytes[whole], left)
}

/// The highest bits of a byte, and how many they are.
fn push_part(out: &mut Text, first: bool, byte: u8, count: u8) -> Result<(), NoMemory>
    requires some { 0 < count }
    requires few { count < 8 }
    ensures { OnOk result (Adds out.old out.new (λ r. comma first
        ++ decimal_on (byte / 2 ^ (8 - count)) (codes ":" ++ decimal_on count r))) }
{
    push_comma(out, first)?;
    put_number(out, u128::from(byte >> (8 - count)))?;
    push_bytes(out, b":")?;
    put_number(out, u128::from(count))
}

pub(crate) fn push_comma(out: &mut Text, first: bool) -> Result<(), NoMemory>
    ensures { OnOk result (out.new ≡ out.old ++ comma first) }
{
    if first {
        return Ok(());
    }
    push_bytes(out, b",")
}
