// Atoms, strings and characters.
ghost use Rattle.std.specs.Prelude.{◌≡◌, ◌<◌, ◌≤◌, length, IfOk};
ghost use Rattle.core_lex.specs.LexerState.{IsNotEnd};
ghost use Rattle.core_lex.specs.Tokens.{atom_at, string_at, character_at};

use crate::listed::bad;
use crate::token::{Codes, Lexeme, TokenKind};
use core_chars::{name_in, quoted_char, quoted_in};
use erl_base::{List, NoMemory};
use std::alloc::Global;

fn codes_of(alloc: Global, text: &[char]) -> Result<Codes, NoMemory>
    ensures { IfOk result (λ codes. codes ≡ text.now) }
{
    let mut codes = List::new(alloc);
    for c in text {
        codes.push(*c as u32)?;
    }
    Ok(codes)
}

#[tactic(auto, unfolding(crate::specs::Tokens::atom_at))]
pub fn atom(
    alloc: Global,
    spelled: &mut String,
    unquoted: &mut Vec<char>,
    rest: &[char],
) -> Result<Lexeme, NoMemory>
    requires { 0 < length rest.now }
    ensures value { IfOk result (λ lexeme. lexeme ≡ atom_at rest.now) }
    ensures positive { IfOk result (λ lexeme. 0 < lexeme.size) }
    ensures fits { IfOk result (λ lexeme. lexeme.size ≤ length rest.now) }
    ensures not_end { IfOk result (λ lexeme. IsNotEnd lexeme.kind) }
{
    match quoted_in(unquoted, '\'', &rest[1..])? {
        None => Ok(bad()),
        Some(size) => {
            let name = name_in(alloc, spelled, unquoted.as_slice())?;
            Ok(Lexeme {
                kind: Some(TokenKind::Atom(name)),
                size: 1 + size,
            })
        }
    }
}

#[tactic(auto, unfolding(crate::specs::Tokens::string_at))]
pub fn string(alloc: Global, unquoted: &mut Vec<char>, rest: &[char]) -> Result<Lexeme, NoMemory>
    requires { 0 < length rest.now }
    ensures value { IfOk result (λ lexeme. lexeme ≡ string_at rest.now) }
    ensures positive { IfOk result (λ lexeme. 0 < lexeme.size) }
    ensures fits { IfOk result (λ lexeme. lexeme.size ≤ length rest.now) }
    ensures not_end { IfOk result (λ lexeme. IsNotEnd lexeme.kind) }
{
    match quoted_in(unquoted, '"', &rest[1..])? {
        None => Ok(bad()),
        Some(size) => {
            let codes = codes_of(alloc, unquoted.as_slice())?;
            Ok(Lexeme {
                kind: Some(TokenKind::Letters(codes)),
                size: 1 + size,
            })
        }
    }
}

#[tactic(auto, unfolding(crate::specs::Tokens::character_at))]
pub fn character(rest: &[char]) -> Lexeme
    requires { 0 < length rest.now }
    ensures value { result ≡ character_at rest.now }
    ensures positive { 0 < result.size }
    ensures fits { result.size ≤ length rest.now }
    ensures not_end { IsNotEnd result.kind }
{
    match quoted_char(&rest[1..]) {
        None => bad(),
        Some((c, size)) => Lexeme {
            kind: Some(TokenKind::Character(c as u32)),
            size: 1 + size,
        },
    }
}
