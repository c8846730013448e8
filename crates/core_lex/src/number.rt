// Integers and floats.
ghost use Rattle.std.specs.Prelude.{◌≡◌, ◌<◌, ◌≤◌, length, true};
ghost use Rattle.core_lex.specs.LexerState.{IsNotEnd};
ghost use Rattle.core_lex.specs.Tokens.{sign_len, begins_number, exponent_len, fraction_len, integer_of, number_at, is_bad, is_last};

use crate::token::{Lexeme, TokenKind};
use core_chars::{
    CEILING, digits_len, is_digit, is_exponent_mark, is_sign, magnitude_of, negative,
};

#[tactic(auto, unfolding(crate::specs::Tokens::integer_of))]
fn integer(minus: bool, signed: bool, digits: &[char]) -> TokenKind
    ensures value { result ≡ integer_of minus signed digits.now }
    ensures not_end { is_last result ≡ is_bad result }
{
    let magnitude = magnitude_of(digits);
    if minus {
        if magnitude < CEILING {
            TokenKind::Number(signed, negative(magnitude))
        } else {
            TokenKind::Wide(digits.len() as u64)
        }
    } else if magnitude < CEILING - 1 {
        TokenKind::Number(signed, magnitude as i128)
    } else {
        TokenKind::Wide(digits.len() as u64)
    }
}

fn sign_len(rest: &[char]) -> usize
    ensures value { result ≡ sign_len rest.now }
    ensures fits { result ≤ length rest.now }
{
    if !rest.is_empty() && is_sign(rest[0]) {
        1
    } else {
        0
    }
}

/// Whether a number begins here.
pub fn begins_number(rest: &[char]) -> bool
    ensures { result ≡ begins_number rest.now }
{
    let signs = sign_len(rest);
    signs < rest.len() && is_digit(rest[signs])
}

#[tactic(auto, unfolding(crate::specs::Tokens::exponent_len))]
fn exponent_len(rest: &[char]) -> usize
    ensures value { result ≡ exponent_len rest.now }
    ensures fits { result ≤ length rest.now }
{
    if rest.is_empty() || !is_exponent_mark(rest[0]) {
        return 0;
    }
    let signs = sign_len(&rest[1..]);
    let digits = digits_len(&rest[1 + signs..]);
    if digits == 0 { 0 } else { 1 + signs + digits }
}

#[tactic(auto, unfolding(crate::specs::Tokens::fraction_len))]
fn fraction_len(rest: &[char]) -> usize
    ensures value { result ≡ fraction_len rest.now }
    ensures fits { result ≤ length rest.now }
{
    if rest.is_empty() || rest[0] != '.' {
        return 0;
    }
    let digits = digits_len(&rest[1..]);
    if digits == 0 {
        return 0;
    }
    1 + digits + exponent_len(&rest[1 + digits..])
}

#[tactic(auto, unfolding(crate::specs::Tokens::number_at))]
pub fn number(rest: &[char]) -> Lexeme
    requires { begins_number rest.now ≡ true }
    ensures value { result ≡ number_at rest.now }
    ensures positive { 0 < result.size }
    ensures fits { result.size ≤ length rest.now }
    ensures not_end { IsNotEnd result.kind }
{
    let signs = sign_len(rest);
    let whole = signs + digits_len(&rest[signs..]);
    let fraction = fraction_len(&rest[whole..]);
    if fraction > 0 {
        return Lexeme {
            kind: Some(TokenKind::Float),
            size: whole + fraction,
        };
    }
    let minus = signs == 1 && rest[0] == '-';
    Lexeme {
        kind: Some(integer(minus, signs == 1, &rest[signs..whole])),
        size: whole,
    }
}
