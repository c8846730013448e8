ghost use Rattle.std.specs.Prelude.{◌≡◌, IfOk, encode_utf8_all};

use erl_base::{Bytes, List, NoMemory};
use std::alloc::Global;

/// The most bytes that a list holds.
const MOST: usize = 4294967295;

/// The UTF-8 bytes of characters. More bytes than a list holds are refused.
pub fn encoded(alloc: Global, text: &[char]) -> Result<Bytes, NoMemory>
    ensures { IfOk result (λ bytes. bytes ≡ encode_utf8_all text.now) }
{
    let mut spelled = String::new(alloc);
    for c in text {
        spelled.push(*c)?;
    }
    let bytes = spelled.into_bytes();
    if bytes.len() > MOST {
        return Err(NoMemory);
    }
    Ok(List::from_vec(bytes))
}
