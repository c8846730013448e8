// The words and the symbols, by tables, and variables.
ghost use Rattle.std.specs.Prelude.{◌≡◌, ◌<◌, ◌≤◌, length, IfOk, bytes_eq, map};
ghost use Rattle.core_lex.specs.LexerState.{IsNotEnd};
ghost use Rattle.core_lex.specs.Tokens.{listed_as, words, long_symbols, short_symbols, word_at, variable_at, symbol_at, bad};

use crate::token::{Lexeme, Symbol, TokenKind, Word};
use core_chars::{name_in, name_len};
use erl_base::{NoMemory, front};
use std::alloc::Global;

/// Each word by its spelling.
pub const WORDS: [(&str, Word); 18] = [
    ("after", Word::After),
    ("apply", Word::Apply),
    ("attributes", Word::Attributes),
    ("call", Word::Call),
    ("case", Word::Case),
    ("catch", Word::Catch),
    ("do", Word::Do),
    ("end", Word::End),
    ("fun", Word::Fun),
    ("in", Word::In),
    ("let", Word::Let),
    ("letrec", Word::Letrec),
    ("module", Word::Module),
    ("of", Word::Of),
    ("primop", Word::Primop),
    ("receive", Word::Receive),
    ("try", Word::Try),
    ("when", Word::When),
];

/// The symbols of two characters.
pub const LONG_SYMBOLS: [(&str, Symbol); 9] = [
    ("->", Symbol::Arrow),
    ("-|", Symbol::AnnotationBar),
    ("=>", Symbol::Association),
    (":=", Symbol::ExactAssociation),
    ("#{", Symbol::OpenBinary),
    ("}#", Symbol::CloseBinary),
    ("#<", Symbol::OpenSegment),
    ("~{", Symbol::OpenMap),
    ("}~", Symbol::CloseMap),
];

/// The symbols of one character.
pub const SHORT_SYMBOLS: [(&str, Symbol); 13] = [
    ("(", Symbol::OpenParen),
    (")", Symbol::CloseParen),
    ("{", Symbol::OpenBrace),
    ("}", Symbol::CloseBrace),
    ("[", Symbol::OpenBracket),
    ("]", Symbol::CloseBracket),
    ("<", Symbol::OpenAngle),
    (">", Symbol::CloseAngle),
    ("|", Symbol::Bar),
    (",", Symbol::Comma),
    ("/", Symbol::Slash),
    (":", Symbol::Colon),
    ("=", Symbol::Equals),
];

// The spelling is of ASCII characters.
fn is_spelled(text: &[char], spelling: &[u8]) -> bool
    ensures { result ≡ bytes_eq text.now spelling.now }
{
    if text.len() != spelling.len() {
        return false;
    }
    for (i, c) in text.iter().enumerate() {
        if *c as u32 != spelling[i] as u32 {
            return false;
        }
    }
    true
}

fn listed_as<T: Copy + Drop>(table: &[(&str, T)], text: &[char]) -> Option<T>
    ensures { result ≡ listed_as (map (λ row. (row.0.now, row.1)) table.now) text.now }
{
    for (spelling, meaning) in table {
        if is_spelled(text, spelling.as_bytes()) {
            return Some(*meaning);
        }
    }
    None
}

fn word_of(text: &[char]) -> Option<Word>
    ensures { result ≡ listed_as words text.now }
{
    listed_as(&WORDS, text)
}

fn long_symbol(text: &[char]) -> Option<Symbol>
    ensures { result ≡ listed_as long_symbols text.now }
{
    listed_as(&LONG_SYMBOLS, text)
}

fn short_symbol(text: &[char]) -> Option<Symbol>
    ensures { result ≡ listed_as short_symbols text.now }
{
    listed_as(&SHORT_SYMBOLS, text)
}

#[tactic(auto, unfolding(crate::specs::Tokens::word_at))]
pub fn word(rest: &[char]) -> Lexeme
    requires { 0 < length rest.now }
    ensures value { result ≡ word_at rest.now }
    ensures positive { 0 < result.size }
    ensures fits { result.size ≤ length rest.now }
    ensures not_end { IsNotEnd result.kind }
{
    let size = 1 + name_len(&rest[1..]);
    match word_of(&rest[..size]) {
        None => bad(),
        Some(word) => Lexeme {
            kind: Some(TokenKind::Word(word)),
            size,
        },
    }
}

#[tactic(auto, unfolding(crate::specs::Tokens::variable_at))]
pub fn variable(alloc: Global, spelled: &mut String, rest: &[char]) -> Result<Lexeme, NoMemory>
    requires { 0 < length rest.now }
    ensures value { IfOk result (λ lexeme. lexeme ≡ variable_at rest.now) }
    ensures positive { IfOk result (λ lexeme. 0 < lexeme.size) }
    ensures fits { IfOk result (λ lexeme. lexeme.size ≤ length rest.now) }
    ensures not_end { IfOk result (λ lexeme. IsNotEnd lexeme.kind) }
{
    let size = 1 + name_len(&rest[1..]);
    let name = name_in(alloc, spelled, &rest[..size])?;
    Ok(Lexeme {
        kind: Some(TokenKind::Variable(name)),
        size,
    })
}

#[tactic(auto, unfolding(crate::specs::Tokens::symbol_at))]
pub fn symbol(rest: &[char]) -> Lexeme
    requires { 0 < length rest.now }
    ensures value { result ≡ symbol_at rest.now }
    ensures positive { 0 < result.size }
    ensures fits { result.size ≤ length rest.now }
    ensures not_end { IsNotEnd result.kind }
{
    if let Some(symbol) = long_symbol(front(rest, 2)) {
        return Lexeme {
            kind: Some(TokenKind::Symbol(symbol)),
            size: 2,
        };
    }
    match short_symbol(front(rest, 1)) {
        None => bad(),
        Some(symbol) => Lexeme {
            kind: Some(TokenKind::Symbol(symbol)),
            size: 1,
        },
    }
}

/// A bad token: one character.
pub fn bad() -> Lexeme
    ensures { result ≡ bad }
{
    Lexeme {
        kind: Some(TokenKind::Bad),
        size: 1,
    }
}
