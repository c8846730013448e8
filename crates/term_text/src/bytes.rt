// Characters at the end of a text.
ghost use Rattle.std.specs.Prelude.{◌≡◌, ◌++◌, OnOk, chars};
ghost use Rattle.term_text.specs.Printing.{Adds};

use erl_base::{NoMemory, Text};

/// Writes the characters with these codes.
pub fn push_bytes(out: &mut Text, bytes: &[u8]) -> Result<(), NoMemory>
    ensures joined { OnOk result (out.new ≡ out.old ++ bytes.now) }
    ensures added { OnOk result (Adds out.old out.new (λ r. bytes.now ++ r)) }
{
    for byte in bytes {
        out.push(char::from(*byte))?;
    }
    Ok(())
}

/// Writes the characters of a text as they are.
pub fn put_str(out: &mut Text, text: &str) -> Result<(), NoMemory>
    ensures { OnOk result (Adds out.old out.new (λ r. chars text.now ++ r)) }
{
    push_str(out, text)
}

pub(crate) fn push_str(out: &mut Text, text: &str) -> Result<(), NoMemory>
    ensures { OnOk result (out.new ≡ out.old ++ chars text.now) }
{
    for c in text.chars() {
        out.push(c)?;
    }
    Ok(())
}
