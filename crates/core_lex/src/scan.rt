// The tokens of a whole text, lexeme by lexeme.
ghost use Rattle.std.specs.Prelude.{◌≡◌, ◌<◌, ◌≤◌, ◌^◌, [], ◌++◌, List, length, IfOk, true, false, if◌then◌else◌};
ghost use Rattle.core_lex.specs.LexerState.{IsNotEnd, AreOpen};
ghost use Rattle.core_lex.specs.Tokens.{lexeme_at, comment_at, is_bad, before, tokens, IsClosed};
ghost use Rattle.core_lex.specs.declared.token.Token.{Token};

use crate::listed::{symbol, variable, word};
use crate::number::{begins_number, number};
use crate::quoted::{atom, character, string};
use crate::token::{Lexeme, Token, TokenKind, Tokens};
use core_chars::{is_blank, is_capital, is_lower, line_len};
use erl_base::{List, NoMemory, Place, behind};
use std::alloc::Global;
use utf8_text::{byte_len, place_after};

// The lexeme at the front.
#[tactic(auto, unfolding(crate::specs::Tokens::lexeme_at, crate::specs::Tokens::comment_at))]
fn lexeme(
    alloc: Global,
    spelled: &mut String,
    unquoted: &mut Vec<char>,
    rest: &[char],
) -> Result<Lexeme, NoMemory>
    requires { 0 < length rest.now }
    ensures value { IfOk result (λ lexeme. lexeme ≡ lexeme_at rest.now) }
    ensures positive { IfOk result (λ lexeme. 0 < lexeme.size) }
    ensures fits { IfOk result (λ lexeme. lexeme.size ≤ length rest.now) }
    ensures not_end { IfOk result (λ lexeme. IsNotEnd lexeme.kind) }
{
    let c = rest[0];
    if is_blank(c) {
        return Ok(Lexeme {
            kind: None,
            size: 1,
        });
    }
    if c == '%' {
        return Ok(Lexeme {
            kind: None,
            size: 1 + line_len(&rest[1..]),
        });
    }
    if is_lower(c) {
        return Ok(word(rest));
    }
    if is_capital(c) {
        return variable(alloc, spelled, rest);
    }
    if begins_number(rest) {
        return Ok(number(rest));
    }
    if c == '\'' {
        return atom(alloc, spelled, unquoted, rest);
    }
    if c == '"' {
        return string(alloc, unquoted, rest);
    }
    if c == '$' {
        return Ok(character(rest));
    }
    Ok(symbol(rest))
}

fn is_bad(kind: &TokenKind) -> bool
    ensures { result ≡ is_bad kind.now }
{
    match kind {
        TokenKind::Word(_)
        | TokenKind::Symbol(_)
        | TokenKind::Variable(_)
        | TokenKind::Atom(_)
        | TokenKind::Number(_, _)
        | TokenKind::Wide(_)
        | TokenKind::Float
        | TokenKind::Character(_)
        | TokenKind::Letters(_)
        | TokenKind::End => false,
        TokenKind::Bad => true,
    }
}

// Adds the token of a lexeme, and tells whether it is the last one.
#[tactic(auto, using(crate::proofs::Closing::open_more, crate::proofs::Closing::closed_by))]
fn keep(
    found: &mut Tokens,
    kind: Option<TokenKind>,
    place: Place,
    from: u64,
    to: u64,
) -> Result<bool, NoMemory>
    requires { IsNotEnd kind }
    ensures kept { IfOk result (λ last. (later : List Token) →
        found.new ++ (if last then [] else later) ≡ found.old ++ before kind place from to later) }
    ensures open { IfOk result (λ last. AreOpen found.old → last ≡ false → AreOpen found.new) }
    ensures closed { IfOk result (λ last. AreOpen found.old → last ≡ true → IsClosed found.new) }
{
    match kind {
        None => Ok(false),
        Some(kind) => {
            let last = is_bad(&kind);
            found.push(Token {
                kind,
                place,
                from,
                to,
            })?;
            Ok(last)
        }
    }
}

/// The tokens of the characters, up to `End` or the first bad one.
#[tactic(auto, unfolding(crate::specs::Tokens::tokens), using(crate::proofs::Closing::closed_by))]
pub fn scan(alloc: Global, text: &[char]) -> Result<Tokens, NoMemory>
    ensures value { IfOk result (λ found. found ≡ tokens text.now) }
    ensures closed { IfOk result (λ found. IsClosed found) }
{
    let mut found = List::new(alloc);
    let mut spelled = String::new(alloc);
    let mut unquoted = Vec::new(alloc);
    let mut at = 0;
    let mut place = Place { line: 1, column: 1 };
    let mut byte = 0u64;
    while at < text.len() {
        let rest = behind(text, at);
        let next = lexeme(alloc, &mut spelled, &mut unquoted, rest)?;
        let size = next.size;
        let written = &rest[..size];
        let to = byte + byte_len(written);
        if keep(&mut found, next.kind, place, byte, to)? {
            return Ok(found);
        }
        place = place_after(written, place);
        byte = to;
        at += size;
    }
    found.push(Token {
        kind: TokenKind::End,
        place,
        from: byte,
        to: byte,
    })?;
    Ok(found)
}
