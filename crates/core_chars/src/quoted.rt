// Names and quoted texts.
ghost use Rattle.std.specs.Prelude.{◌≡◌, ◌≤◌, length, IfOk, IfSome, option_map};
ghost use Rattle.core_chars.specs.Quoted.{quoted_text};

use crate::escape::quoted_char;
use erl_base::{Name, NoMemory, behind};
use std::alloc::Global;

/// The name that the characters spell.
pub fn name_of(alloc: Global, text: &[char]) -> Result<Name, NoMemory>
    ensures { IfOk result (λ name. name ≡ text.now) }
{
    let mut spelled = String::new(alloc);
    name_in(alloc, &mut spelled, text)
}

/// The same, spelled in a string whose room is used again.
pub fn name_in(alloc: Global, spelled: &mut String, text: &[char]) -> Result<Name, NoMemory>
    ensures { IfOk result (λ name. name ≡ text.now) }
{
    spelled.clear();
    for c in text {
        spelled.push(*c)?;
    }
    Name::from_text(alloc, spelled.as_str())
}

/// The text up to the closing quote, and how many characters write it, that quote counted.
pub fn quoted_text(
    alloc: Global,
    quote: char,
    rest: &[char],
) -> Result<Option<(Vec<char>, usize)>, NoMemory>
    ensures value { IfOk result (λ found.
        option_map (λ text. (text.0.items, text.1)) found ≡ quoted_text quote rest.now 0) }
    ensures fits { IfOk result (λ found. IfSome found (λ text. text.1 ≤ length rest.now)) }
{
    let mut text = Vec::new(alloc);
    match quoted_in(&mut text, quote, rest)? {
        None => Ok(None),
        Some(size) => Ok(Some((text, size))),
    }
}

/// The same, with the text in a vector whose room is used again; it gives how many characters write it.
pub fn quoted_in(
    text: &mut Vec<char>,
    quote: char,
    rest: &[char],
) -> Result<Option<usize>, NoMemory>
    ensures value { IfOk result (λ found.
        option_map (λ size. (text.new.items, size)) found ≡ quoted_text quote rest.now 0) }
    ensures fits { IfOk result (λ found. IfSome found (λ size. size ≤ length rest.now)) }
{
    text.clear();
    let mut at = 0;
    while at < rest.len() {
        if rest[at] == quote {
            return Ok(Some(at + 1));
        }
        match quoted_char(behind(rest, at)) {
            None => return Ok(None),
            Some((c, size)) => {
                text.push(c)?;
                at += size;
            }
        }
    }
    Ok(None)
}
