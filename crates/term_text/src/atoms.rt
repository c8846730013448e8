ghost use Rattle.std.specs.Prelude.{◌≡◌, ◌≤◌, ◌<◌, ◌+◌, ◌++◌, ◌∷◌, [], chars, if◌then◌else◌, false, OnOk};
ghost use Rattle.std.specs.List.{list_all, list_any};
ghost use Rattle.std.specs.Fmt.{digit_glyph, digits};
ghost use Rattle.erl_base.specs.Names.{same_name};
ghost use Rattle.core_chars.specs.Characters.{is_lower};
ghost use Rattle.term_text.specs.Atoms.{is_name_character, is_kept, is_plain_name, quoted_character, quoted_characters, atom_text};
ghost use Rattle.term_text.specs.Printing.{Adds};

use crate::bytes::{push_bytes, push_str};
use core_chars::{is_digit, is_lower, is_upper};
use erl_base::{Name, NoMemory, Text};

/// Words that an atom may not be without quotes.
const KEPT: [&[u8]; 29] = [
    b"after", b"and", b"andalso", b"band", b"begin", b"bnot", b"bor", b"bsl", b"bsr", b"bxor",
    b"case", b"catch", b"cond", b"div", b"else", b"end", b"fun", b"if", b"let", b"maybe", b"not",
    b"of", b"or", b"orelse", b"receive", b"rem", b"try", b"when", b"xor",
];

/// Writes an atom, in quotes where it needs them.
pub fn put_name(out: &mut Text, name: &Name) -> Result<(), NoMemory>
    ensures { OnOk result (Adds out.old out.new (λ r. atom_text name.now ++ r)) }
{
    put_word(out, name.as_str())
}

/// Writes the atom that a text spells.
pub fn put_word(out: &mut Text, word: &str) -> Result<(), NoMemory>
    ensures { OnOk result (Adds out.old out.new (λ r. atom_text (chars word.now) ++ r)) }
{
    push_atom(out, word)
}

fn push_atom(out: &mut Text, word: &str) -> Result<(), NoMemory>
    ensures { OnOk result (out.new ≡ out.old ++ atom_text (chars word.now)) }
{
    if is_plain_word(word) {
        return push_str(out, word);
    }
    push_bytes(out, b"'")?;
    push_characters(out, word)?;
    push_bytes(out, b"'")
}

/// Whether an atom stands without quotes.
pub fn is_plain_name(name: &[char]) -> bool
    ensures { result ≡ is_plain_name name.now }
{
    match name {
        [] => false,
        [first, others @ ..] => {
            is_lower(*first) && are_name_characters(others) && !is_kept(name)
        }
    }
}

fn are_name_characters(characters: &[char]) -> bool
    ensures { result ≡ list_all is_name_character characters.now }
{
    characters.iter().all(|c| is_name_character(*c))
}

/// Whether it is an ASCII letter, a digit, `_` or `@`.
pub fn is_name_character(c: char) -> bool
    ensures { result ≡ is_name_character c }
{
    is_lower(c) || is_upper(c) || is_digit(c) || c == '_' || c == '@'
}

fn is_kept(name: &[char]) -> bool
    ensures { result ≡ is_kept name.now }
{
    is_among(&KEPT, name)
}

fn is_among(words: &[&[u8]], name: &[char]) -> bool
    ensures { result ≡ list_any (λ word. same_name word.now name.now) words.now }
{
    for word in words {
        if is_same(word, name) {
            return true;
        }
    }
    false
}

/// Whether the characters are those of the word.
#[tactic(auto, using(crate::proofs::Names::names))]
pub fn is_same(word: &[u8], name: &[char]) -> bool
    ensures { result ≡ same_name word.now name.now }
{
    if word.len() != name.len() {
        return false;
    }
    for i in 0..word.len() {
        if char::from(word[i]) != name[i] {
            return false;
        }
    }
    true
}

/// The same of a text, by one walk.
fn is_plain_word(word: &str) -> bool
    ensures { result ≡ is_plain_name (chars word.now) }
{
    let mut begun = false;
    for c in word.chars() {
        if !goes_on(begun, c) {
            return false;
        }
        begun = true;
    }
    begun && !is_kept_word(word)
}

fn goes_on(begun: bool, c: char) -> bool
    ensures { result ≡ (if begun then is_name_character c else is_lower c) }
{
    if begun {
        is_name_character(c)
    } else {
        is_lower(c)
    }
}

fn is_kept_word(word: &str) -> bool
    ensures { result ≡ is_kept (chars word.now) }
{
    is_word_among(&KEPT, word)
}

fn is_word_among(words: &[&[u8]], name: &str) -> bool
    ensures { result ≡ list_any (λ word. same_name word.now (chars name.now)) words.now }
{
    for word in words {
        if is_spelled(word, name) {
            return true;
        }
    }
    false
}

fn is_spelled(word: &[u8], name: &str) -> bool
    ensures { result ≡ same_name word.now (chars name.now) }
{
    let mut at = 0;
    for c in name.chars() {
        if at >= word.len() || char::from(word[at]) != c {
            return false;
        }
        at += 1;
    }
    at == word.len()
}

fn push_characters(out: &mut Text, name: &str) -> Result<(), NoMemory>
    ensures { OnOk result (out.new ≡ out.old ++ quoted_characters (chars name.now)) }
{
    for c in name.chars() {
        push_character(out, c)?;
    }
    Ok(())
}

fn push_character(out: &mut Text, c: char) -> Result<(), NoMemory>
    ensures { OnOk result (out.new ≡ out.old ++ quoted_character c) }
{
    if c == '\\' {
        return push_bytes(out, b"\\\\");
    }
    if c == '\'' {
        return push_bytes(out, b"\\'");
    }
    if c <= '\x1F' || c == '\x7F' {
        push_bytes(out, b"\\x{")?;
        push_hex(out, u32::from(c))?;
        return push_bytes(out, b"}");
    }
    out.push(c)
}

/// A byte in hexadecimal, without a leading zero.
fn push_hex(out: &mut Text, byte: u32) -> Result<(), NoMemory>
    requires { byte < 256 }
    ensures { OnOk result (out.new ≡ out.old ++ digits 16 false byte) }
{
    if byte < 16 {
        return out.push(hex_digit(byte));
    }
    out.push(hex_digit(byte / 16))?;
    out.push(hex_digit(byte % 16))
}

fn hex_digit(digit: u32) -> char
    requires { digit < 16 }
    ensures { result ≡ digit_glyph false digit }
{
    if digit < 10 {
        char::from(b'0' + digit as u8)
    } else {
        char::from(b'a' + (digit - 10) as u8)
    }
}
