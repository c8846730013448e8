// Blanks, marks, words, quoted texts and integers at the front of characters.
ghost use Rattle.std.specs.Prelude.{◌≡◌, ◌+◌, ◌-◌, ◌<◌, ◌≤◌, ◌^◌, ◌==◌, length, take_while, option_map, IfOk, IfSome, codes};
ghost use Rattle.erl_base.specs.Names.{same_name};
ghost use Rattle.core_chars.specs.Characters.{first_is};
ghost use Rattle.term_text.specs.Atoms.{is_name_character};
ghost use Rattle.term_read.specs.Lexemes.{is_space, behind_blanks, behind_mark, mark_at, run_of, word_front, quoted_rest, no_fun, name_front, name_at, integer_of, digits_front, integer_front, integer_at, number_at};
ghost use Rattle.term_read.specs.Reading.{Gives};

use crate::unread::Unread;
use core_chars::{
    digits_len, is_digit, is_lower, is_sign, magnitude_of, name_of, negative, quoted_text,
};
use erl_base::Name;
use std::alloc::Global;
use term_text::{is_name_character, is_same};

/// The greatest magnitude of a negative integer.
const MOST: u128 = 170141183460469231731687303715884105728;

/// A blank, but for comments.
pub fn is_space(c: char) -> bool
    ensures { result ≡ is_space c }
{
    c == ' ' || c == '\t' || c == '\n' || c == '\r'
}

/// What is left behind blanks and comments.
#[tactic(auto, unfolding(crate::specs::Lexemes::behind_blanks))]
pub fn behind_blanks(cs: &[char]) -> &[char]
    ensures value { result.now ≡ behind_blanks cs.now }
    ensures fits { length result.now ≤ length cs.now }
{
    let mut rest = cs;
    let mut in_comment = false;
    while let [c, later @ ..] = rest {
        if in_comment {
            in_comment = *c != '\n';
        } else if *c == '%' {
            in_comment = true;
        } else if !is_space(*c) {
            return rest;
        }
        rest = later;
    }
    rest
}

/// What is left behind a mark, where the characters begin with it.
pub(crate) fn behind_mark<'a>(cs: &'a [char], mark: &[u8]) -> Option<&'a [char]>
    ensures value { option_map (λ rest. rest.now) result ≡ behind_mark mark.now cs.now }
    ensures fits { IfSome result (λ rest. length rest.now + length mark.now ≤ length cs.now) }
{
    let mut rest = cs;
    for m in mark {
        let [c, later @ ..] = rest else {
            return None;
        };
        if char::from(*m) != *c {
            return None;
        }
        rest = later;
    }
    Some(rest)
}

/// What is left behind blanks and a mark.
#[tactic(auto, unfolding(crate::specs::Lexemes::mark_at))]
pub(crate) fn mark_at<'a>(cs: &'a [char], mark: &[u8]) -> Option<&'a [char]>
    ensures value { option_map (λ rest. rest.now) result ≡ mark_at mark.now cs.now }
    ensures fits { IfSome result (λ rest. length rest.now + length mark.now ≤ length cs.now) }
{
    behind_mark(behind_blanks(cs), mark)
}

/// A mark that must stand there, behind blanks.
pub fn expect<'a>(cs: &'a [char], mark: &[u8]) -> Result<&'a [char], Unread>
    ensures value { Gives (λ rest. rest.now) result (mark_at mark.now cs.now) }
    ensures fits { IfOk result (λ rest. length rest.now + length mark.now ≤ length cs.now) }
{
    match mark_at(cs, mark) {
        None => Err(Unread::Syntax),
        Some(rest) => Ok(rest),
    }
}

fn name_len(cs: &[char]) -> usize
    ensures value { result ≡ length (take_while is_name_character cs.now) }
    ensures fits { result ≤ length cs.now }
{
    cs.iter().take_while(|c| is_name_character(**c)).count()
}

/// A word, and what is left behind it.
#[tactic(auto, unfolding(crate::specs::Lexemes::run_of))]
pub(crate) fn word_front(cs: &[char]) -> Option<(&[char], &[char])>
    ensures value { option_map (λ word. (word.0.now, word.1.now)) result ≡ word_front cs.now }
    ensures fits { IfSome result (λ word. length word.1.now < length cs.now) }
{
    if cs.is_empty() || !is_lower(cs[0]) {
        return None;
    }
    let size = name_len(cs);
    Some((&cs[..size], &cs[size..]))
}

/// The text up to a closing quote.
#[tactic(auto, unfolding(crate::specs::Lexemes::quoted_rest))]
pub(crate) fn quoted_rest(
    alloc: Global,
    quote: char,
    cs: &[char],
) -> Result<(Vec<char>, &[char]), Unread>
    ensures value { Gives (λ text. (text.0.items, text.1.now)) result (quoted_rest quote cs.now) }
    ensures fits { IfOk result (λ text. length text.1.now ≤ length cs.now) }
{
    match quoted_text(alloc, quote, cs)? {
        None => Err(Unread::Syntax),
        Some((text, size)) => Ok((text, &cs[size..])),
    }
}

fn integer_of(minus: bool, magnitude: u128) -> Option<i128>
    ensures { result ≡ integer_of minus magnitude }
{
    if minus && magnitude <= MOST {
        return Some(negative(magnitude));
    }
    if !minus && magnitude < MOST {
        return Some(magnitude as i128);
    }
    None
}

#[tactic(auto, unfolding(crate::specs::Lexemes::digits_front, crate::specs::Lexemes::run_of), using(crate::proofs::Integers::capped_integer))]
fn digits_front(minus: bool, cs: &[char]) -> Option<(i128, &[char])>
    ensures value { option_map (λ found. (found.0, found.1.now)) result ≡ digits_front minus cs.now }
    ensures fits { IfSome result (λ found. length found.1.now < length cs.now) }
{
    if cs.is_empty() || !is_digit(cs[0]) {
        return None;
    }
    let size = digits_len(cs);
    let integer = integer_of(minus, magnitude_of(&cs[..size]))?;
    Some((integer, &cs[size..]))
}

pub(crate) fn integer_front(cs: &[char]) -> Option<(i128, &[char])>
    ensures value { option_map (λ found. (found.0, found.1.now)) result ≡ integer_front cs.now }
    ensures fits { IfSome result (λ found. length found.1.now < length cs.now) }
{
    let [first, later @ ..] = cs else {
        return None;
    };
    if is_sign(*first) {
        digits_front(*first == '-', later)
    } else {
        digits_front(false, cs)
    }
}

/// A number below a bound, behind blanks.
#[tactic(auto, unfolding(crate::specs::Lexemes::number_at, crate::specs::Lexemes::integer_at))]
pub(crate) fn number_at(cs: &[char], bound: u128) -> Result<(u64, &[char]), Unread>
    requires { bound ≤ 2 ^ 64 }
    ensures value { Gives (λ found. (found.0, found.1.now)) result (number_at bound cs.now) }
    ensures below { IfOk result (λ found. found.0 < bound) }
    ensures fits { IfOk result (λ found. length found.1.now < length cs.now) }
{
    match integer_front(behind_blanks(cs)) {
        None => Err(Unread::Syntax),
        Some((integer, rest)) => {
            if integer < 0 || integer as u128 >= bound {
                return Err(Unread::Syntax);
            }
            Ok((integer as u64, rest))
        }
    }
}

/// An atom's name that begins at once.
pub(crate) fn name_front(alloc: Global, cs: &[char]) -> Result<(Name, &[char]), Unread>
    ensures value { Gives (λ name. (name.0, name.1.now)) result (name_front cs.now) }
    ensures fits { IfOk result (λ name. length name.1.now < length cs.now) }
{
    let [first, later @ ..] = cs else {
        return Err(Unread::Syntax);
    };
    if *first == '\'' {
        let (text, rest) = quoted_rest(alloc, '\'', later)?;
        return Ok((name_of(alloc, text.as_slice())?, rest));
    }
    plain_name(alloc, cs)
}

pub(crate) fn is_fun(word: &[char]) -> bool
    ensures { result ≡ same_name (codes "fun") word.now }
{
    is_same(b"fun", word)
}

fn plain_name(alloc: Global, cs: &[char]) -> Result<(Name, &[char]), Unread>
    ensures value { Gives (λ name. (name.0, name.1.now)) result (no_fun (word_front cs.now)) }
    ensures fits { IfOk result (λ name. length name.1.now < length cs.now) }
{
    match word_front(cs) {
        None => Err(Unread::Syntax),
        Some((word, rest)) => {
            if is_fun(word) {
                return Err(Unread::Syntax);
            }
            Ok((name_of(alloc, word)?, rest))
        }
    }
}

/// An atom's name, behind blanks.
#[tactic(auto, unfolding(crate::specs::Lexemes::name_at))]
pub(crate) fn name_at(alloc: Global, cs: &[char]) -> Result<(Name, &[char]), Unread>
    ensures value { Gives (λ name. (name.0, name.1.now)) result (name_at cs.now) }
    ensures fits { IfOk result (λ name. length name.1.now < length cs.now) }
{
    name_front(alloc, behind_blanks(cs))
}
