// What a token is.
ghost use Rattle.std.specs.Prelude.{◌≡◌, ◌+◌, leb};
ghost use Rattle.std.specs.List.{list_all};
ghost use Rattle.erl_term.specs.Ranges.{is_within_128};
ghost use Rattle.core_chars.specs.Characters.{is_name_char};
ghost use Rattle.core_form.specs.SourceTree.{is_variable_name};
ghost use Rattle.core_grammar.specs.Standing.{is_code};
ghost use Rattle.core_syntax.specs.TokenKinds.{same_symbol, is_symbol, same_word, is_word, is_atom, is_end, is_arity_token, is_symbol_open, is_word_open, opens, goes_on};

use core_chars::{is_capital, is_digit, is_lower};
use core_lex::{Codes, Symbol, Token, TokenKind, Word};
use erl_base::Name;

/// How many bytes an arity has at most.
const MOST_ARITY_BYTES: u64 = 9;

/// An arity is below this.
const ARITY_END: i128 = 1000000000;

fn same_symbol(symbol: Symbol, other: Symbol) -> bool
    ensures { result ≡ same_symbol symbol other }
{
    symbol == other
}

fn same_word(word: Word, other: Word) -> bool
    ensures { result ≡ same_word word other }
{
    word == other
}

pub fn is_symbol(symbol: Symbol, kind: &TokenKind) -> bool
    ensures { result ≡ is_symbol symbol kind.now }
{
    match kind {
        TokenKind::Symbol(found) => same_symbol(symbol, *found),
        TokenKind::Word(_)
        | TokenKind::Variable(_)
        | TokenKind::Atom(_)
        | TokenKind::Number(..)
        | TokenKind::Wide(_)
        | TokenKind::Float
        | TokenKind::Character(_)
        | TokenKind::Letters(_)
        | TokenKind::Bad
        | TokenKind::End => false,
    }
}

pub fn is_word(word: Word, kind: &TokenKind) -> bool
    ensures { result ≡ is_word word kind.now }
{
    match kind {
        TokenKind::Word(found) => same_word(word, *found),
        TokenKind::Symbol(_)
        | TokenKind::Variable(_)
        | TokenKind::Atom(_)
        | TokenKind::Number(..)
        | TokenKind::Wide(_)
        | TokenKind::Float
        | TokenKind::Character(_)
        | TokenKind::Letters(_)
        | TokenKind::Bad
        | TokenKind::End => false,
    }
}

pub fn is_atom(kind: &TokenKind) -> bool
    ensures { result ≡ is_atom kind.now }
{
    match kind {
        TokenKind::Atom(_) => true,
        TokenKind::Word(_)
        | TokenKind::Symbol(_)
        | TokenKind::Variable(_)
        | TokenKind::Number(..)
        | TokenKind::Wide(_)
        | TokenKind::Float
        | TokenKind::Character(_)
        | TokenKind::Letters(_)
        | TokenKind::Bad
        | TokenKind::End => false,
    }
}

pub fn is_end(kind: &TokenKind) -> bool
    ensures { result ≡ is_end kind.now }
{
    match kind {
        TokenKind::End => true,
        TokenKind::Word(_)
        | TokenKind::Symbol(_)
        | TokenKind::Variable(_)
        | TokenKind::Atom(_)
        | TokenKind::Number(..)
        | TokenKind::Wide(_)
        | TokenKind::Float
        | TokenKind::Character(_)
        | TokenKind::Letters(_)
        | TokenKind::Bad => false,
    }
}

/// An integer from 0 on without a sign, of at most nine bytes.
pub fn is_arity_token(token: &Token) -> bool
    ensures { result ≡ is_arity_token token.now }
{
    match &token.kind {
        TokenKind::Number(false, value) => {
            is_short(token.from, token.to) & (*value >= 0) & (*value < ARITY_END)
        }
        TokenKind::Number(true, _)
        | TokenKind::Word(_)
        | TokenKind::Symbol(_)
        | TokenKind::Variable(_)
        | TokenKind::Atom(_)
        | TokenKind::Wide(_)
        | TokenKind::Float
        | TokenKind::Character(_)
        | TokenKind::Letters(_)
        | TokenKind::Bad
        | TokenKind::End => false,
    }
}

fn is_symbol_open(symbol: Symbol) -> bool
    ensures { result ≡ is_symbol_open symbol }
{
    match symbol {
        Symbol::OpenBinary
        | Symbol::OpenSegment
        | Symbol::OpenMap
        | Symbol::OpenParen
        | Symbol::OpenBrace
        | Symbol::OpenBracket
        | Symbol::OpenAngle => true,
        Symbol::Arrow
        | Symbol::AnnotationBar
        | Symbol::Association
        | Symbol::ExactAssociation
        | Symbol::CloseBinary
        | Symbol::CloseMap
        | Symbol::CloseParen
        | Symbol::CloseBrace
        | Symbol::CloseBracket
        | Symbol::CloseAngle
        | Symbol::Bar
        | Symbol::Comma
        | Symbol::Slash
        | Symbol::Colon
        | Symbol::Equals => false,
    }
}

fn is_word_open(word: Word) -> bool
    ensures { result ≡ is_word_open word }
{
    match word {
        Word::Apply
        | Word::Call
        | Word::Case
        | Word::Catch
        | Word::Do
        | Word::Fun
        | Word::Let
        | Word::Letrec
        | Word::Primop
        | Word::Receive
        | Word::Try => true,
        Word::After
        | Word::Attributes
        | Word::End
        | Word::In
        | Word::Module
        | Word::Of
        | Word::When => false,
    }
}

/// Whether some part begins with it.
pub fn opens(kind: &TokenKind) -> bool
    ensures { result ≡ opens kind.now }
{
    match kind {
        TokenKind::Word(word) => is_word_open(*word),
        TokenKind::Symbol(symbol) => is_symbol_open(*symbol),
        TokenKind::Variable(_)
        | TokenKind::Atom(_)
        | TokenKind::Number(..)
        | TokenKind::Wide(_)
        | TokenKind::Float
        | TokenKind::Character(_)
        | TokenKind::Letters(_) => true,
        TokenKind::Bad | TokenKind::End => false,
    }
}

fn is_short(from: u64, to: u64) -> bool
    ensures { result ≡ leb to (from + 9) }
{
    to <= from || to - from <= MOST_ARITY_BYTES
}

// The same as where names are read.
fn is_name_char(c: char) -> bool
    ensures { result ≡ is_name_char c }
{
    is_lower(c)
        || '@' <= c && c <= 'Z'
        || is_digit(c)
        || c == '_'
        || ('À' <= c && c <= 'ÿ') && c != '×' && c != '÷'
}

fn goes_on(begun: bool, c: char) -> bool
    ensures { result ≡ goes_on begun c }
{
    if begun {
        is_name_char(c)
    } else {
        is_capital(c)
    }
}

pub fn is_variable_name(name: &Name) -> bool
    ensures { result ≡ is_variable_name name.now }
{
    let mut begun = false;
    for c in name.as_str().chars() {
        if !goes_on(begun, c) {
            return false;
        }
        begun = true;
    }
    begun
}

// The type holds no other integers.
pub fn is_within(_value: i128) -> bool
    ensures { result ≡ is_within_128 _value }
{
    true
}

// The type holds no other codes.
pub fn is_code(_code: u32) -> bool
    ensures { result ≡ is_code _code }
{
    true
}

pub fn are_codes(codes: &Codes) -> bool
    ensures { result ≡ list_all is_code codes.now }
{
    for code in codes.as_slice() {
        if !is_code(*code) {
            return false;
        }
    }
    true
}
