// Numbers in decimal at the end of a text.
ghost use Rattle.std.specs.Prelude.{◌≡◌, ◌+◌, ◌<◌, OnOk};
ghost use Rattle.term_text.specs.Decimal.{decimal_on, integer_on};
ghost use Rattle.term_text.specs.Printing.{Adds};

use crate::bytes::push_bytes;
use erl_base::{NoMemory, Text};

/// Writes an integer, with `-` before a negative one.
pub fn put_integer(out: &mut Text, integer: i128) -> Result<(), NoMemory>
    ensures { OnOk result (Adds out.old out.new (integer_on integer)) }
{
    if integer >= 0 {
        return put_number(out, integer.unsigned_abs());
    }
    push_bytes(out, b"-")?;
    put_number(out, integer.unsigned_abs())?;
    Ok(())
}

/// Writes a number in decimal, without leading zeros.
pub fn put_number(out: &mut Text, number: u128) -> Result<(), NoMemory>
    ensures { OnOk result (Adds out.old out.new (decimal_on number)) }
{
    if number < 10 {
        out.push(digit(number))?;
        return Ok(());
    }
    put_number(out, number / 10)?;
    out.push(digit(number % 10))?;
    Ok(())
}

fn digit(number: u128) -> char
    requires { number < 10 }
    ensures { result ≡ 48 + number }
{
    char::from(b'0' + number as u8)
}

/// Writes a number of 32 bits in decimal.
pub fn put_u32(out: &mut Text, number: u32) -> Result<(), NoMemory>
    ensures { OnOk result (Adds out.old out.new (decimal_on number)) }
{
    put_number(out, u128::from(number))
}

pub(crate) fn put_u64(out: &mut Text, number: u64) -> Result<(), NoMemory>
    ensures { OnOk result (Adds out.old out.new (decimal_on number)) }
{
    put_number(out, u128::from(number))
}
