// Parts of a segment that is a constant: what begins each, how deep it is, and what is to be read behind it.
ghost use Rattle.std.specs.Prelude.{◌≡◌, ◌≤◌, true, false, nat_lt, IsTrue, IfOk, OnOk};
ghost use Rattle.std.specs.List.{list_all};
ghost use Rattle.erl_base.specs.Names.{same_name};
ghost use Rattle.erl_term.specs.Term as T;
ghost use Rattle.core_lex.specs.declared.token.TokenKind.TheVariants as K;
ghost use Rattle.core_form.specs.SourceTree.{is_flag};
ghost use Rattle.core_syntax.specs.Beginnings.{is_open_paren, constant_depth, kind_depth, takes_value, takes_size, size_shape, fits_size, takes_unit, takes_kind, takes_flags, opens_flags, takes_flag, constant_next, constant};
ghost use Rattle.core_syntax.specs.Reactions.{Tells};

use crate::item::{Item, Part, Shape};
use crate::kinds::{is_code, is_within};
use crate::outcome::{MOST_DEPTH, Outcome, deeper};
use crate::stack::Stack;
use core_lex::{Symbol, TokenKind};
use core_names::is_word;
use erl_base::{Name, NoMemory};

/// The bits of a segment that is a constant are at most so many.
const MOST_BITS: u64 = 256;

fn is_open_paren(symbol: Symbol) -> bool
    ensures { result ≡ is_open_paren symbol }
{
    match symbol {
        Symbol::OpenParen => true,
        Symbol::Arrow
        | Symbol::AnnotationBar
        | Symbol::Association
        | Symbol::ExactAssociation
        | Symbol::OpenBinary
        | Symbol::CloseBinary
        | Symbol::OpenSegment
        | Symbol::OpenMap
        | Symbol::CloseMap
        | Symbol::CloseParen
        | Symbol::OpenBrace
        | Symbol::CloseBrace
        | Symbol::OpenBracket
        | Symbol::CloseBracket
        | Symbol::OpenAngle
        | Symbol::CloseAngle
        | Symbol::Bar
        | Symbol::Comma
        | Symbol::Slash
        | Symbol::Colon
        | Symbol::Equals => false,
    }
}

fn opens_flags(symbol: Symbol) -> bool
    ensures { result ≡ opens_flags symbol }
{
    match symbol {
        Symbol::OpenParen | Symbol::OpenBracket => true,
        Symbol::Arrow
        | Symbol::AnnotationBar
        | Symbol::Association
        | Symbol::ExactAssociation
        | Symbol::OpenBinary
        | Symbol::CloseBinary
        | Symbol::OpenSegment
        | Symbol::OpenMap
        | Symbol::CloseMap
        | Symbol::CloseParen
        | Symbol::OpenBrace
        | Symbol::CloseBrace
        | Symbol::CloseBracket
        | Symbol::OpenAngle
        | Symbol::CloseAngle
        | Symbol::Bar
        | Symbol::Comma
        | Symbol::Slash
        | Symbol::Colon
        | Symbol::Equals => false,
    }
}

/// How deep the first token of a constant is.
pub fn constant_depth(depth: u32, kind: &TokenKind) -> u32
    requires { depth ≤ 2002 }
    ensures { result ≡ constant_depth depth kind.now }
{
    match kind {
        TokenKind::Symbol(symbol) => {
            if is_open_paren(*symbol) {
                deeper(1 + depth)
            } else {
                deeper(depth)
            }
        }
        TokenKind::Atom(_) | TokenKind::Number(..) | TokenKind::Wide(_) => 1 + depth,
        TokenKind::Word(_)
        | TokenKind::Variable(_)
        | TokenKind::Float
        | TokenKind::Character(_)
        | TokenKind::Letters(_)
        | TokenKind::Bad
        | TokenKind::End => deeper(depth),
    }
}

/// How deep the first token of a type is.
pub fn kind_depth(depth: u32, kind: &TokenKind) -> u32
    requires { depth ≤ 2002 }
    ensures { result ≡ kind_depth depth kind.now }
{
    match kind {
        TokenKind::Atom(_) => depth,
        TokenKind::Word(_)
        | TokenKind::Symbol(_)
        | TokenKind::Variable(_)
        | TokenKind::Number(..)
        | TokenKind::Wide(_)
        | TokenKind::Float
        | TokenKind::Character(_)
        | TokenKind::Letters(_)
        | TokenKind::Bad
        | TokenKind::End => deeper(depth),
    }
}

pub fn takes_value(kind: &TokenKind) -> bool
    ensures { result ≡ takes_value kind.now }
{
    match kind {
        TokenKind::Number(_, value) => is_within(*value),
        TokenKind::Wide(_) => true,
        TokenKind::Character(code) => is_code(*code),
        TokenKind::Symbol(symbol) => is_open_paren(*symbol),
        TokenKind::Word(_)
        | TokenKind::Variable(_)
        | TokenKind::Atom(_)
        | TokenKind::Float
        | TokenKind::Letters(_)
        | TokenKind::Bad
        | TokenKind::End => false,
    }
}

pub fn takes_size(kind: &TokenKind) -> bool
    ensures { result ≡ takes_size kind.now }
{
    match kind {
        TokenKind::Number(_, value) => *value >= 0 && *value <= MOST_BITS as i128,
        TokenKind::Character(code) => *code as u64 <= MOST_BITS,
        TokenKind::Symbol(symbol) => is_open_paren(*symbol),
        TokenKind::Word(_)
        | TokenKind::Variable(_)
        | TokenKind::Atom(_)
        | TokenKind::Wide(_)
        | TokenKind::Float
        | TokenKind::Letters(_)
        | TokenKind::Bad
        | TokenKind::End => false,
    }
}

/// The size that a token gives.
pub fn size_shape(kind: &TokenKind) -> Shape
    requires { takes_size kind.now ≡ true }
    ensures { result ≡ size_shape kind.now }
{
    match kind {
        TokenKind::Number(_, value) => Shape::Size(*value as u32),
        TokenKind::Character(code) => Shape::Size(*code),
        TokenKind::Word(_)
        | TokenKind::Symbol(_)
        | TokenKind::Variable(_)
        | TokenKind::Atom(_)
        | TokenKind::Wide(_)
        | TokenKind::Float
        | TokenKind::Letters(_)
        | TokenKind::Bad
        | TokenKind::End => Shape::Other,
    }
}

// A size that is too large has every unit, since it is refused itself.
fn fits_size(size: u32, unit: u32) -> bool
    ensures { result ≡ fits_size size unit }
{
    let (size, unit) = (size as u64, unit as u64);
    size > MOST_BITS || (1 <= unit && unit <= MOST_BITS && size * unit <= MOST_BITS)
}

fn unit_fits(size: u32, value: i128) -> bool
    ensures { result ≡ takes_unit size (K.Number false value) }
{
    if value < 0 {
        return false;
    }
    if value > MOST_BITS as i128 {
        return size as u64 > MOST_BITS;
    }
    fits_size(size, value as u32)
}

pub fn takes_unit(size: u32, kind: &TokenKind) -> bool
    ensures { result ≡ takes_unit size kind.now }
{
    match kind {
        TokenKind::Number(_, value) => unit_fits(size, *value),
        TokenKind::Character(code) => fits_size(size, *code),
        TokenKind::Symbol(symbol) => is_open_paren(*symbol),
        TokenKind::Word(_)
        | TokenKind::Variable(_)
        | TokenKind::Atom(_)
        | TokenKind::Wide(_)
        | TokenKind::Float
        | TokenKind::Letters(_)
        | TokenKind::Bad
        | TokenKind::End => false,
    }
}

pub fn takes_kind(kind: &TokenKind) -> bool
    ensures { result ≡ takes_kind kind.now }
{
    match kind {
        TokenKind::Atom(name) => is_word(name.as_str(), "integer"),
        TokenKind::Symbol(symbol) => is_open_paren(*symbol),
        TokenKind::Word(_)
        | TokenKind::Variable(_)
        | TokenKind::Number(..)
        | TokenKind::Wide(_)
        | TokenKind::Float
        | TokenKind::Character(_)
        | TokenKind::Letters(_)
        | TokenKind::Bad
        | TokenKind::End => false,
    }
}

pub fn takes_flags(kind: &TokenKind) -> bool
    ensures { result ≡ takes_flags kind.now }
{
    match kind {
        TokenKind::Letters(codes) => codes.is_empty(),
        TokenKind::Symbol(symbol) => opens_flags(*symbol),
        TokenKind::Word(_)
        | TokenKind::Variable(_)
        | TokenKind::Atom(_)
        | TokenKind::Number(..)
        | TokenKind::Wide(_)
        | TokenKind::Float
        | TokenKind::Character(_)
        | TokenKind::Bad
        | TokenKind::End => false,
    }
}

fn is_flag(name: &Name) -> bool
    ensures { result ≡ is_flag (T.atom name.now) }
{
    let signed = is_word(name.as_str(), "signed");
    let unsigned = is_word(name.as_str(), "unsigned");
    let big = is_word(name.as_str(), "big");
    let little = is_word(name.as_str(), "little");
    signed | unsigned | big | little
}

pub fn takes_flag(kind: &TokenKind) -> bool
    ensures { result ≡ takes_flag kind.now }
{
    match kind {
        TokenKind::Atom(name) => is_flag(name),
        TokenKind::Symbol(symbol) => is_open_paren(*symbol),
        TokenKind::Word(_)
        | TokenKind::Variable(_)
        | TokenKind::Number(..)
        | TokenKind::Wide(_)
        | TokenKind::Float
        | TokenKind::Character(_)
        | TokenKind::Letters(_)
        | TokenKind::Bad
        | TokenKind::End => false,
    }
}

fn constant_symbol(
    stack: &mut Stack,
    part: Part,
    own: u32,
    depth: u32,
    symbol: Symbol,
) -> Result<(), NoMemory>
    requires { (own ≤ 2000) × (depth ≤ 2000) }
    ensures { OnOk result (stack.new ≡ constant_next part own depth (K.Symbol symbol) stack.old) }
{
    match symbol {
        Symbol::OpenParen => {
            stack.push(own, Item::Noted)?;
            stack.push(deeper(depth), Item::Part(part))
        }
        Symbol::OpenBracket => stack.push(deeper(depth), Item::FlagsRest),
        Symbol::Arrow
        | Symbol::AnnotationBar
        | Symbol::Association
        | Symbol::ExactAssociation
        | Symbol::OpenBinary
        | Symbol::CloseBinary
        | Symbol::OpenSegment
        | Symbol::OpenMap
        | Symbol::CloseMap
        | Symbol::CloseParen
        | Symbol::OpenBrace
        | Symbol::CloseBrace
        | Symbol::CloseBracket
        | Symbol::OpenAngle
        | Symbol::CloseAngle
        | Symbol::Bar
        | Symbol::Comma
        | Symbol::Slash
        | Symbol::Colon
        | Symbol::Equals => Ok(()),
    }
}

fn constant_next(
    stack: &mut Stack,
    part: Part,
    own: u32,
    depth: u32,
    kind: &TokenKind,
) -> Result<(), NoMemory>
    requires { (own ≤ 2000) × (depth ≤ 2000) }
    ensures { OnOk result (stack.new ≡ constant_next part own depth kind.now stack.old) }
{
    match kind {
        TokenKind::Symbol(symbol) => constant_symbol(stack, part, own, depth, *symbol),
        TokenKind::Word(_)
        | TokenKind::Variable(_)
        | TokenKind::Atom(_)
        | TokenKind::Number(..)
        | TokenKind::Wide(_)
        | TokenKind::Float
        | TokenKind::Character(_)
        | TokenKind::Letters(_)
        | TokenKind::Bad
        | TokenKind::End => Ok(()),
    }
}

/// Takes the first token of such a part, whose depth is its own, where a test holds.
pub fn constant(
    stack: &mut Stack,
    part: Part,
    holds: bool,
    own: u32,
    depth: u32,
    kind: &TokenKind,
    shape: Shape,
) -> Result<Outcome, NoMemory>
    requires { depth ≤ own }
    ensures { IfOk result (λ told. Tells (constant part holds own depth kind.now stack.old shape) told stack.new) }
{
    if !holds {
        return Ok(Outcome::Refused);
    }
    if own > MOST_DEPTH {
        return Ok(Outcome::TooDeep);
    }
    constant_next(stack, part, own, depth, kind)?;
    Ok(Outcome::Taken(shape))
}
