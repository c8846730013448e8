// What a token does where a part is to be read.
ghost use Rattle.std.specs.Prelude.{◌≡◌, ◌≤◌, IfOk, OnOk};
ghost use Rattle.core_lex.specs.declared.token.TokenKind.TheVariants as K;
ghost use Rattle.core_lex.specs.declared.token.Symbol.TheVariants.{OpenAngle, OpenParen};
ghost use Rattle.core_syntax.specs.declared.item.Part.TheVariants as P;
ghost use Rattle.core_syntax.specs.Shallow.{IsConstantPart};
ghost use Rattle.core_syntax.specs.Beginnings.{stacked, more, loose_segment, strict_segment, segment_items, segment, head, clause, flag, begin};
ghost use Rattle.core_syntax.specs.Reactions.{Tells};

use crate::constants::{
    constant, constant_depth, kind_depth, size_shape, takes_flag, takes_flags, takes_kind,
    takes_size, takes_unit, takes_value,
};
use crate::item::{Count, Item, Part, Shape};
use crate::kinds::{is_symbol, is_word};
use crate::outcome::{MOST_DEPTH, Outcome, deeper, take};
use crate::sort::Sort;
use crate::stack::Stack;
use crate::trees::{EXPRESSION, tree};
use core_lex::{Symbol, TokenKind, Word};
use erl_base::NoMemory;

/// guard -> body, behind `when`
pub const GUARDED: [Item; 3] = [EXPRESSION, Item::Symbol(Symbol::Arrow), EXPRESSION];

// name [ exports ] attributes [ attributes ] definitions end
const MODULE: [Item; 10] = [
    Item::Atom,
    Item::Symbol(Symbol::OpenBracket),
    Item::Maybe(Part::Items(Sort::FunctionName, Count::Zero)),
    Item::Symbol(Symbol::CloseBracket),
    Item::Word(Word::Attributes),
    Item::Symbol(Symbol::OpenBracket),
    Item::Maybe(Part::Attributes),
    Item::Symbol(Symbol::CloseBracket),
    Item::Maybe(Part::Definitions),
    Item::Word(Word::End),
];

pub fn begin(
    stack: &mut Stack,
    part: Part,
    depth: u32,
    kind: &TokenKind,
) -> Result<Outcome, NoMemory>
    requires { depth ≤ 2001 }
    ensures { IfOk result (λ told. Tells (begin part depth kind.now stack.old) told stack.new) }
{
    match part {
        Part::Tree(sort) => tree(stack, sort, depth, kind),
        Part::Items(sort, count) => {
            stack.push(depth, Item::MoreItems(sort, more(count)))?;
            tree(stack, sort, depth, kind)
        }
        Part::Group => group(stack, depth, kind),
        Part::Pairs(sort) => {
            stack.push(depth, Item::PairArrow(sort))?;
            tree(stack, sort.of_keys(), depth, kind)
        }
        Part::Segment(sort) => segment(stack, sort, depth, kind),
        Part::Segments(sort) => {
            stack.push(depth, Item::MoreSegments(sort))?;
            segment(stack, sort, depth, kind)
        }
        Part::Head => head(stack, depth, kind),
        Part::Clause => clause(stack, depth, kind),
        Part::Clauses => {
            stack.push(depth, Item::Maybe(Part::Clauses))?;
            clause(stack, depth, kind)
        }
        Part::Definitions => {
            stack.push(depth, Item::DefinitionRest)?;
            tree(stack, Sort::FunctionName, deeper(depth), kind)
        }
        Part::Attributes => attributes(stack, depth, kind),
        Part::Module => module(stack, depth, kind),
        Part::Value
        | Part::Size
        | Part::Unit(_)
        | Part::Kind
        | Part::Flags
        | Part::Flag
        | Part::FlagItems => begin_constant(stack, part, depth, kind),
    }
}

fn more(count: Count) -> Count
    ensures { result ≡ more count }
{
    match count {
        Count::Zero => Count::One,
        Count::One => Count::Two,
        Count::Two => Count::Three,
        Count::Three => Count::Many,
        Count::Many => Count::Many,
    }
}

// One variable, or variables in angle brackets.
fn group(stack: &mut Stack, depth: u32, kind: &TokenKind) -> Result<Outcome, NoMemory>
    requires { depth ≤ 2001 }
    ensures { IfOk result (λ told. Tells (begin P.Group depth kind.now stack.old) told stack.new) }
{
    if is_symbol(Symbol::OpenAngle, kind) {
        let variables = Item::Maybe(Part::Items(Sort::Variable, Count::Zero));
        return take(
            stack,
            true,
            depth,
            &[variables, Item::CloseGroup],
            Shape::Other,
        );
    }
    stack.push(depth, Item::Becomes(Shape::Counted(Count::One)))?;
    tree(stack, Sort::Variable, depth, kind)
}

fn segment(stack: &mut Stack, sort: Sort, depth: u32, kind: &TokenKind) -> Result<Outcome, NoMemory>
    requires { depth ≤ 2001 }
    ensures { IfOk result (λ told. Tells (segment sort depth kind.now stack.old) told stack.new) }
{
    if is_symbol(Symbol::OpenParen, kind) {
        let inside = [Item::Part(Part::Segment(sort)), Item::Noted];
        return take(stack, true, deeper(depth), &inside, Shape::Other);
    }
    if !is_symbol(Symbol::OpenSegment, kind) {
        return Ok(Outcome::Refused);
    }
    if depth > MOST_DEPTH {
        return Ok(Outcome::TooDeep);
    }
    segment_items(stack, sort, depth)?;
    Ok(Outcome::Taken(Shape::Other))
}

fn segment_items(stack: &mut Stack, sort: Sort, depth: u32) -> Result<(), NoMemory>
    requires { depth ≤ 2000 }
    ensures { OnOk result (stack.new ≡ stacked depth (segment_items sort) stack.old) }
{
    match sort {
        Sort::Expression | Sort::Pattern => loose_segment(stack, sort, depth),
        Sort::Constant
        | Sort::Note
        | Sort::Key
        | Sort::SegmentValue
        | Sort::Variable
        | Sort::FunctionName
        | Sort::Atom
        | Sort::Fun => strict_segment(stack, depth),
    }
}

// value > ( size , unit , type , flags )
fn loose_segment(stack: &mut Stack, sort: Sort, depth: u32) -> Result<(), NoMemory>
    requires { depth ≤ 2000 }
    ensures { OnOk result (stack.new ≡ stacked depth (loose_segment sort) stack.old) }
{
    let comma = Item::Symbol(Symbol::Comma);
    let constant = Item::Part(Part::Tree(Sort::Constant));
    let kind = Item::Part(Part::Tree(Sort::Atom));
    stack.put(depth, &[comma, constant, Item::Symbol(Symbol::CloseParen)])?;
    stack.put(depth, &[comma, constant, comma, kind])?;
    stack.put(
        depth,
        &[
            Item::Symbol(Symbol::OpenParen),
            Item::Part(Part::Tree(sort.of_keys())),
        ],
    )?;
    stack.put(
        depth,
        &[
            Item::Part(Part::Tree(sort.of_values())),
            Item::Symbol(Symbol::CloseAngle),
        ],
    )
}

// The same of a constant: all of it tells its bits.
fn strict_segment(stack: &mut Stack, depth: u32) -> Result<(), NoMemory>
    requires { depth ≤ 2000 }
    ensures { OnOk result (stack.new ≡ stacked depth strict_segment stack.old) }
{
    let comma = Item::Symbol(Symbol::Comma);
    let flags = Item::Part(Part::Flags);
    stack.put(depth, &[comma, flags, Item::Symbol(Symbol::CloseParen)])?;
    stack.put(depth, &[Item::UnitNext, comma, Item::Part(Part::Kind)])?;
    stack.put(
        depth,
        &[Item::Symbol(Symbol::OpenParen), Item::Part(Part::Size)],
    )?;
    stack.put(
        depth,
        &[Item::Part(Part::Value), Item::Symbol(Symbol::CloseAngle)],
    )
}

// Patterns in angle brackets, an annotated clause or pattern, a pattern.
fn head(stack: &mut Stack, depth: u32, kind: &TokenKind) -> Result<Outcome, NoMemory>
    requires { depth ≤ 2001 }
    ensures { IfOk result (λ told. Tells (head depth kind.now stack.old) told stack.new) }
{
    let inner = deeper(depth);
    if is_symbol(Symbol::OpenAngle, kind) {
        return angled_head(stack, depth);
    }
    if is_symbol(Symbol::OpenParen, kind) {
        return noted_head(stack, depth);
    }
    stack.push(depth, Item::HeadEnd)?;
    tree(stack, Sort::Pattern, inner, kind)
}

fn angled_head(stack: &mut Stack, depth: u32) -> Result<Outcome, NoMemory>
    requires { depth ≤ 2001 }
    ensures { IfOk result (λ told. Tells (head depth (K.Symbol OpenAngle) stack.old) told stack.new) }
{
    let inner = deeper(depth);
    let patterns = Item::Maybe(Part::Items(Sort::Pattern, Count::Zero));
    if inner > MOST_DEPTH {
        return Ok(Outcome::TooDeep);
    }
    stack.push(depth, Item::Becomes(Shape::Clause))?;
    stack.put(inner, &GUARDED)?;
    stack.put(
        inner,
        &[
            patterns,
            Item::Symbol(Symbol::CloseAngle),
            Item::Word(Word::When),
        ],
    )?;
    Ok(Outcome::Taken(Shape::Other))
}

fn noted_head(stack: &mut Stack, depth: u32) -> Result<Outcome, NoMemory>
    requires { depth ≤ 2001 }
    ensures { IfOk result (λ told. Tells (head depth (K.Symbol OpenParen) stack.old) told stack.new) }
{
    let inner = deeper(depth);
    if deeper(inner) > MOST_DEPTH {
        return Ok(Outcome::TooDeep);
    }
    stack.push(depth, Item::NotedHead)?;
    stack.push(inner, Item::Part(Part::Head))?;
    Ok(Outcome::Taken(Shape::Other))
}

fn clause(stack: &mut Stack, depth: u32, kind: &TokenKind) -> Result<Outcome, NoMemory>
    requires { depth ≤ 2001 }
    ensures { IfOk result (λ told. Tells (clause depth kind.now stack.old) told stack.new) }
{
    stack.push(depth, Item::ClauseEnd)?;
    head(stack, depth, kind)
}

// key = value
fn attributes(stack: &mut Stack, depth: u32, kind: &TokenKind) -> Result<Outcome, NoMemory>
    requires { depth ≤ 2001 }
    ensures { IfOk result (λ told. Tells (begin P.Attributes depth kind.now stack.old) told stack.new) }
{
    let value = Item::Part(Part::Tree(Sort::Constant));
    stack.put(
        depth,
        &[Item::Symbol(Symbol::Equals), value, Item::MoreAttributes],
    )?;
    tree(stack, Sort::Atom, depth, kind)
}

fn module(stack: &mut Stack, depth: u32, kind: &TokenKind) -> Result<Outcome, NoMemory>
    requires { depth ≤ 2001 }
    ensures { IfOk result (λ told. Tells (begin P.Module depth kind.now stack.old) told stack.new) }
{
    if is_symbol(Symbol::OpenParen, kind) {
        let inside = [Item::Part(Part::Module), Item::Noted];
        return take(stack, true, deeper(depth), &inside, Shape::Other);
    }
    take(
        stack,
        is_word(Word::Module, kind),
        depth,
        &MODULE,
        Shape::Other,
    )
}

// Parts of a segment that is a constant.
fn begin_constant(
    stack: &mut Stack,
    part: Part,
    depth: u32,
    kind: &TokenKind,
) -> Result<Outcome, NoMemory>
    requires depth { depth ≤ 2001 }
    requires family { IsConstantPart part }
    ensures { IfOk result (λ told. Tells (begin part depth kind.now stack.old) told stack.new) }
{
    let own = constant_depth(depth, kind);
    match part {
        Part::Value => constant(
            stack,
            part,
            takes_value(kind),
            own,
            depth,
            kind,
            Shape::Other,
        ),
        Part::Size => size(stack, depth, kind),
        Part::Unit(n) => constant(
            stack,
            part,
            takes_unit(n, kind),
            own,
            depth,
            kind,
            Shape::Other,
        ),
        Part::Kind => {
            let own = kind_depth(depth, kind);
            constant(
                stack,
                part,
                takes_kind(kind),
                own,
                depth,
                kind,
                Shape::Other,
            )
        }
        Part::Flags => constant(
            stack,
            part,
            takes_flags(kind),
            own,
            depth,
            kind,
            Shape::Other,
        ),
        Part::Flag => flag(stack, depth, kind),
        Part::FlagItems => {
            stack.push(depth, Item::MoreFlags)?;
            flag(stack, depth, kind)
        }
        _ => unreachable!(),
    }
}

fn size(stack: &mut Stack, depth: u32, kind: &TokenKind) -> Result<Outcome, NoMemory>
    requires { depth ≤ 2001 }
    ensures { IfOk result (λ told. Tells (begin P.Size depth kind.now stack.old) told stack.new) }
{
    if !takes_size(kind) {
        return Ok(Outcome::Refused);
    }
    let own = constant_depth(depth, kind);
    constant(stack, Part::Size, true, own, depth, kind, size_shape(kind))
}

fn flag(stack: &mut Stack, depth: u32, kind: &TokenKind) -> Result<Outcome, NoMemory>
    requires { depth ≤ 2001 }
    ensures { IfOk result (λ told. Tells (flag depth kind.now stack.old) told stack.new) }
{
    let own = constant_depth(depth, kind);
    constant(
        stack,
        Part::Flag,
        takes_flag(kind),
        own,
        depth,
        kind,
        Shape::Other,
    )
}
