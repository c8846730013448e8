// Escapes, and the numbers that their digits write.
ghost use Rattle.std.specs.Prelude.{◌≡◌, ◌+◌, ◌*◌, ◌<◌, ◌≤◌, ◌^◌, length, min, IfSome};
ghost use Rattle.core_chars.specs.Characters.{value_from};
ghost use Rattle.core_chars.specs.Escapes.{letter_escape, code_escape, octal_escape, short_hex_escape, long_hex_escape, hex_escape, control_escape, escape_at, quoted_char};

use crate::classes::{digit, hex_len, is_octal, octal_len};
use erl_base::front;

/// More than any code point.
const CEILING: u32 = 0x11_0000;

// A value at or past the ceiling is the ceiling.
fn code_of(base: u32, digits: &[char]) -> u32
    requires least { 1 ≤ base }
    requires most { base ≤ 16 }
    ensures { result ≡ min (value_from base 0 digits.now) 1114112 }
{
    let mut value = 0;
    for c in digits {
        value = (value * base + digit(*c)).min(CEILING);
    }
    value
}

fn letter_escape(c: char) -> Option<char>
    ensures { result ≡ letter_escape c }
{
    match c {
        'b' => Some('\x08'),
        'd' => Some('\x7f'),
        'e' => Some('\x1b'),
        'f' => Some('\x0c'),
        'n' => Some('\n'),
        'r' => Some('\r'),
        's' => Some(' '),
        't' => Some('\t'),
        'v' => Some('\x0b'),
        '"' => Some('"'),
        '\'' => Some('\''),
        '\\' => Some('\\'),
        _ => None,
    }
}

fn code_escape(code: u32, size: usize) -> Option<(char, usize)>
    ensures value { result ≡ code_escape code size }
    ensures size { IfSome result (λ c. c.1 ≡ size) }
{
    let c = char::from_u32(code)?;
    Some((c, size))
}

#[tactic(auto, using(crate::proofs::Values::code_escape_capped))]
fn octal_escape(rest: &[char]) -> Option<(char, usize)>
    ensures value { result ≡ octal_escape rest.now }
    ensures positive { IfSome result (λ c. 0 < c.1) }
    ensures fits { IfSome result (λ c. c.1 ≤ length rest.now + 1) }
{
    let most = front(rest, 3);
    let size = octal_len(most);
    code_escape(code_of(8, &most[..size]), 1 + size)
}

#[tactic(auto, using(crate::proofs::Values::code_escape_capped))]
fn short_hex_escape(rest: &[char]) -> Option<(char, usize)>
    ensures value { result ≡ short_hex_escape rest.now }
    ensures positive { IfSome result (λ c. 0 < c.1) }
    ensures fits { IfSome result (λ c. c.1 ≤ length rest.now + 2) }
{
    let most = front(rest, 2);
    if hex_len(most) != 2 {
        return None;
    }
    code_escape(code_of(16, most), 4)
}

#[tactic(auto, using(crate::proofs::Values::code_escape_capped))]
fn long_hex_escape(rest: &[char]) -> Option<(char, usize)>
    ensures value { result ≡ long_hex_escape rest.now }
    ensures positive { IfSome result (λ c. 0 < c.1) }
    ensures fits { IfSome result (λ c. c.1 ≤ length rest.now + 3) }
{
    let size = hex_len(rest);
    if size == 0 || size == rest.len() || rest[size] != '}' {
        return None;
    }
    code_escape(code_of(16, &rest[..size]), 4 + size)
}

fn hex_escape(rest: &[char]) -> Option<(char, usize)>
    ensures value { result ≡ hex_escape rest.now }
    ensures positive { IfSome result (λ c. 0 < c.1) }
    ensures fits { IfSome result (λ c. c.1 ≤ length rest.now + 2) }
{
    if !rest.is_empty() && rest[0] == '{' {
        long_hex_escape(&rest[1..])
    } else {
        short_hex_escape(rest)
    }
}

fn control_escape(rest: &[char]) -> Option<(char, usize)>
    ensures value { result ≡ control_escape rest.now }
    ensures positive { IfSome result (λ c. 0 < c.1) }
    ensures fits { IfSome result (λ c. c.1 ≤ length rest.now + 2) }
{
    if rest.is_empty() {
        return None;
    }
    let c = rest[0];
    if '@' <= c && c <= '_' {
        let code = char::from_u32(c as u32 - 64)?;
        Some((code, 3))
    } else {
        None
    }
}

fn escape(rest: &[char]) -> Option<(char, usize)>
    ensures value { result ≡ escape_at rest.now }
    ensures positive { IfSome result (λ c. 0 < c.1) }
    ensures fits { IfSome result (λ c. c.1 ≤ length rest.now + 1) }
{
    if rest.is_empty() {
        return None;
    }
    let c = rest[0];
    if is_octal(c) {
        octal_escape(rest)
    } else if c == 'x' {
        hex_escape(&rest[1..])
    } else if c == '^' {
        control_escape(&rest[1..])
    } else {
        let code = letter_escape(c)?;
        Some((code, 2))
    }
}

/// One character of a quoted text, and how many characters write it.
pub fn quoted_char(rest: &[char]) -> Option<(char, usize)>
    ensures value { result ≡ quoted_char rest.now }
    ensures positive { IfSome result (λ c. 0 < c.1) }
    ensures fits { IfSome result (λ c. c.1 ≤ length rest.now) }
{
    if rest.is_empty() {
        return None;
    }
    if rest[0] == '\\' {
        escape(&rest[1..])
    } else {
        Some((rest[0], 1))
    }
}
