// What a token does where something goes on behind what was read, and what need not stand there.
ghost use Rattle.std.specs.Prelude.{◌≡◌, ◌≤◌, ◌∷◌, IfOk};
ghost use Rattle.core_syntax.specs.declared.item.Item.TheVariants as I;
ghost use Rattle.core_syntax.specs.declared.item.Shape.TheVariants.{Other};
ghost use Rattle.core_syntax.specs.Shallow.{IsAround, IsInside};
ghost use Rattle.core_syntax.specs.Beginnings.{on_test, at};
ghost use Rattle.core_syntax.specs.Reactions.{passed, alias_passed, clause_passed, unless, note, head_note, key_weight_of, pair_arrow, map_end, catches, unit_wanted, fun_rest, list_rest, list_end, flags_rest, at_item, Tells};

use crate::item::{Count, Entry, Item, Part, Shape};
use crate::kinds::{is_arity_token, is_atom, is_end, is_symbol, is_word, opens};
use crate::outcome::{MOST_DEPTH, Outcome, deeper, take};
use crate::parts::{GUARDED, begin};
use crate::sort::Sort;
use crate::stack::Stack;
use crate::trees::{EXPRESSION, EXTERNAL_REST, LOCAL_REST};
use core_lex::{Symbol, Token, TokenKind, Word};
use erl_base::NoMemory;

// ---- what need not stand there

fn unless(stands: bool, shape: Shape) -> Option<Shape>
    ensures { result ≡ unless stands shape }
{
    if stands { None } else { Some(shape) }
}

// Only a variable may have a pattern behind it.
fn alias_passed(stands: bool, shape: Shape) -> Option<Shape>
    ensures { result ≡ alias_passed stands shape }
{
    match shape {
        Shape::Variable => unless(stands, shape),
        Shape::Other | Shape::Clause | Shape::Counted(_) | Shape::Size(_) => Some(shape),
    }
}

fn clause_passed(shape: Shape) -> Option<Shape>
    ensures { result ≡ clause_passed shape }
{
    match shape {
        Shape::Clause => Some(Shape::Other),
        Shape::Other | Shape::Variable | Shape::Counted(_) | Shape::Size(_) => None,
    }
}

/// Whether an item is passed at a token, and what was read last counts as then.
pub fn passed(kind: &TokenKind, item: Item, shape: Shape) -> Option<Shape>
    ensures { result ≡ passed kind.now item shape }
{
    match item {
        Item::Maybe(_) => unless(opens(kind), Shape::Counted(Count::Zero)),
        Item::Becomes(now) => Some(now),
        Item::Alias => alias_passed(is_symbol(Symbol::Equals, kind), shape),
        Item::NameRest => unless(is_symbol(Symbol::Slash, kind), Shape::Other),
        Item::MoreItems(_, count) => {
            unless(is_symbol(Symbol::Comma, kind), Shape::Counted(count))
        }
        Item::MorePairs(_) | Item::MoreSegments(_) | Item::MoreAttributes | Item::MoreFlags => {
            unless(is_symbol(Symbol::Comma, kind), Shape::Other)
        }
        Item::HeadEnd => unless(is_word(Word::When, kind), shape),
        Item::ClauseEnd => clause_passed(shape),
        Item::Part(_)
        | Item::Symbol(_)
        | Item::Word(_)
        | Item::Atom
        | Item::Arity
        | Item::End
        | Item::Noted
        | Item::NotedKey
        | Item::NotedHead
        | Item::Close(_)
        | Item::FunRest
        | Item::ListRest(_)
        | Item::ListEnd(_)
        | Item::PairArrow(_)
        | Item::MapEnd(_)
        | Item::CloseGroup
        | Item::CatchArrow
        | Item::DefinitionRest
        | Item::UnitNext
        | Item::FlagsRest
        | Item::FlagsEnd => None,
    }
}

// ---- what goes on

/// What a token does where this item is to be read.
pub fn at_item(
    stack: &mut Stack,
    token: &Token,
    entry: Entry,
    shape: Shape,
) -> Result<Outcome, NoMemory>
    requires { entry.depth ≤ 2001 }
    ensures { IfOk result (λ told. Tells (at_item token.now entry.item entry.depth shape stack.old) told stack.new) }
{
    let Entry { item, depth } = entry;
    let kind = &token.kind;
    let comma = is_symbol(Symbol::Comma, kind);
    match item {
        Item::Part(part) | Item::Maybe(part) => begin(stack, part, depth, kind),
        Item::Symbol(symbol) => take(stack, is_symbol(symbol, kind), depth, &[], Shape::Other),
        Item::Word(word) => take(stack, is_word(word, kind), depth, &[], Shape::Other),
        Item::Atom => take(stack, is_atom(kind), depth, &[], Shape::Other),
        Item::Arity => take(stack, is_arity_token(token), depth, &[], Shape::Other),
        Item::End => take(stack, is_end(kind), depth, &[], Shape::Other),
        Item::Becomes(_) => Ok(Outcome::Refused),
        Item::MoreItems(sort, count) => more(stack, comma, depth, Part::Items(sort, count)),
        Item::MorePairs(sort) => more(stack, comma, depth, Part::Pairs(sort)),
        Item::MoreSegments(sort) => more(stack, comma, depth, Part::Segments(sort)),
        Item::MoreAttributes => more(stack, comma, depth, Part::Attributes),
        Item::MoreFlags => more(stack, comma, depth, Part::FlagItems),
        Item::Noted
        | Item::NotedKey
        | Item::NotedHead
        | Item::Close(_)
        | Item::HeadEnd
        | Item::ClauseEnd
        | Item::DefinitionRest => around(stack, token, entry, shape),
        Item::Alias
        | Item::NameRest
        | Item::FunRest
        | Item::ListRest(_)
        | Item::ListEnd(_)
        | Item::PairArrow(_)
        | Item::MapEnd(_)
        | Item::CloseGroup
        | Item::CatchArrow
        | Item::UnitNext
        | Item::FlagsRest
        | Item::FlagsEnd => inside(stack, token, entry, shape),
    }
}

fn more(stack: &mut Stack, comma: bool, depth: u32, part: Part) -> Result<Outcome, NoMemory>
    ensures { IfOk result (λ told.
        Tells (on_test comma depth (at depth (I.Part part) ∷ stack.old) Other) told stack.new) }
{
    take(stack, comma, depth, &[Item::Part(part)], Shape::Other)
}

// Annotations, clauses and definitions.
fn around(stack: &mut Stack, token: &Token, entry: Entry, shape: Shape) -> Result<Outcome, NoMemory>
    requires depth { entry.depth ≤ 2001 }
    requires family { IsAround entry.item }
    ensures { IfOk result (λ told. Tells (at_item token.now entry.item entry.depth shape stack.old) told stack.new) }
{
    let Entry { item, depth } = entry;
    let kind = &token.kind;
    match item {
        Item::Noted => note(stack, depth, shape, kind),
        Item::NotedKey => note(stack, deeper(key_weight(shape) + depth), shape, kind),
        Item::NotedHead => head_note(stack, depth, shape, kind),
        Item::Close(now) => take(stack, is_symbol(Symbol::CloseParen, kind), depth, &[], now),
        Item::HeadEnd => {
            stack.push(depth, Item::Becomes(Shape::Clause))?;
            take(
                stack,
                is_word(Word::When, kind),
                deeper(depth),
                &GUARDED,
                Shape::Other,
            )
        }
        Item::ClauseEnd => {
            take(
                stack,
                is_word(Word::When, kind),
                deeper(depth),
                &GUARDED,
                Shape::Other,
            )
        }
        Item::DefinitionRest => {
            stack.push(depth, Item::Maybe(Part::Definitions))?;
            let function = [Item::Part(Part::Tree(Sort::Fun))];
            take(
                stack,
                is_symbol(Symbol::Equals, kind),
                deeper(depth),
                &function,
                Shape::Other,
            )
        }
        _ => unreachable!(),
    }
}

// `-|` behind what is annotated, and its note.
fn note(stack: &mut Stack, depth: u32, shape: Shape, kind: &TokenKind) -> Result<Outcome, NoMemory>
    ensures { IfOk result (λ told. Tells (note depth shape kind.now stack.old) told stack.new) }
{
    let items = [Item::Part(Part::Tree(Sort::Note)), Item::Close(shape)];
    take(
        stack,
        is_symbol(Symbol::AnnotationBar, kind),
        depth,
        &items,
        Shape::Other,
    )
}

// A key that is a variable counts nothing.
fn key_weight(shape: Shape) -> u32
    ensures value { result ≡ key_weight_of shape }
    ensures bound { result ≤ 1 }
{
    match shape {
        Shape::Variable => 0,
        Shape::Other | Shape::Clause | Shape::Counted(_) | Shape::Size(_) => 1,
    }
}

// An annotated clause, or an annotated pattern, which is one deeper.
fn head_note(
    stack: &mut Stack,
    depth: u32,
    shape: Shape,
    kind: &TokenKind,
) -> Result<Outcome, NoMemory>
    requires { depth ≤ 2001 }
    ensures { IfOk result (λ told. Tells (head_note depth shape kind.now stack.old) told stack.new) }
{
    let inner = deeper(depth);
    match shape {
        Shape::Clause => note(stack, deeper(inner), shape, kind),
        Shape::Other | Shape::Variable | Shape::Counted(_) | Shape::Size(_) => {
            if !is_symbol(Symbol::AnnotationBar, kind) {
                return Ok(Outcome::Refused);
            }
            let own = deeper(1 + inner);
            if own > MOST_DEPTH {
                return Ok(Outcome::TooDeep);
            }
            stack.push(depth, Item::HeadEnd)?;
            stack.push(inner, Item::Alias)?;
            note(stack, own, shape, kind)
        }
    }
}

// ---- in trees and in flags

fn inside(stack: &mut Stack, token: &Token, entry: Entry, shape: Shape) -> Result<Outcome, NoMemory>
    requires depth { entry.depth ≤ 2001 }
    requires family { IsInside entry.item }
    ensures { IfOk result (λ told. Tells (at_item token.now entry.item entry.depth shape stack.old) told stack.new) }
{
    let Entry { item, depth } = entry;
    let kind = &token.kind;
    match item {
        Item::Alias => {
            let items = [
                Item::Part(Part::Tree(Sort::Pattern)),
                Item::Becomes(Shape::Other),
            ];
            take(
                stack,
                is_symbol(Symbol::Equals, kind),
                deeper(depth),
                &items,
                Shape::Other,
            )
        }
        Item::NameRest => {
            let slash = is_symbol(Symbol::Slash, kind);
            take(stack, slash, depth, &[Item::Arity], Shape::Other)
        }
        Item::FunRest => fun_rest(stack, depth, kind),
        Item::ListRest(sort) => list_rest(stack, sort, depth, kind),
        Item::ListEnd(sort) => list_end(stack, Part::Tree(sort), depth, kind),
        Item::PairArrow(sort) => {
            let items = [
                Item::Part(Part::Tree(sort.of_items())),
                Item::MorePairs(sort),
            ];
            take(stack, pair_arrow(sort, kind), depth, &items, Shape::Other)
        }
        Item::MapEnd(sort) => map_end(stack, sort, depth, kind),
        Item::CloseGroup => take(
            stack,
            is_symbol(Symbol::CloseAngle, kind),
            depth,
            &[],
            shape,
        ),
        Item::CatchArrow => {
            let holds = catches(shape) && is_symbol(Symbol::Arrow, kind);
            take(stack, holds, depth, &[], Shape::Other)
        }
        Item::UnitNext => {
            let comma = is_symbol(Symbol::Comma, kind);
            take(stack, comma, depth, &[unit_wanted(shape)], Shape::Other)
        }
        Item::FlagsRest => flags_rest(stack, depth, kind),
        Item::FlagsEnd => list_end(stack, Part::Flags, depth, kind),
        _ => unreachable!(),
    }
}

fn fun_rest(stack: &mut Stack, depth: u32, kind: &TokenKind) -> Result<Outcome, NoMemory>
    ensures { IfOk result (λ told. Tells (fun_rest depth kind.now stack.old) told stack.new) }
{
    if is_symbol(Symbol::OpenParen, kind) {
        return take(stack, true, depth, &LOCAL_REST, Shape::Other);
    }
    take(stack, is_atom(kind), depth, &EXTERNAL_REST, Shape::Other)
}

fn list_rest(
    stack: &mut Stack,
    sort: Sort,
    depth: u32,
    kind: &TokenKind,
) -> Result<Outcome, NoMemory>
    requires { depth ≤ 2001 }
    ensures { IfOk result (λ told. Tells (list_rest sort depth kind.now stack.old) told stack.new) }
{
    if opens(kind) {
        stack.push(depth, Item::ListEnd(sort))?;
        return begin(stack, Part::Items(sort, Count::Zero), depth, kind);
    }
    take(
        stack,
        is_symbol(Symbol::CloseBracket, kind),
        depth,
        &[],
        Shape::Other,
    )
}

// A tail or none behind items.
fn list_end(
    stack: &mut Stack,
    tail: Part,
    depth: u32,
    kind: &TokenKind,
) -> Result<Outcome, NoMemory>
    ensures { IfOk result (λ told. Tells (list_end tail depth kind.now stack.old) told stack.new) }
{
    if is_symbol(Symbol::Bar, kind) {
        let items = [Item::Part(tail), Item::Symbol(Symbol::CloseBracket)];
        return take(stack, true, depth, &items, Shape::Other);
    }
    take(
        stack,
        is_symbol(Symbol::CloseBracket, kind),
        depth,
        &[],
        Shape::Other,
    )
}

fn flags_rest(stack: &mut Stack, depth: u32, kind: &TokenKind) -> Result<Outcome, NoMemory>
    requires { depth ≤ 2001 }
    ensures { IfOk result (λ told. Tells (flags_rest depth kind.now stack.old) told stack.new) }
{
    if opens(kind) {
        stack.push(depth, Item::FlagsEnd)?;
        return begin(stack, Part::FlagItems, depth, kind);
    }
    take(
        stack,
        is_symbol(Symbol::CloseBracket, kind),
        depth,
        &[],
        Shape::Other,
    )
}

// `=>` and `:=` in an expression, one of them elsewhere.
fn pair_arrow(sort: Sort, kind: &TokenKind) -> bool
    ensures { result ≡ pair_arrow sort kind.now }
{
    match sort {
        Sort::Expression => {
            is_symbol(Symbol::ExactAssociation, kind) || is_symbol(Symbol::Association, kind)
        }
        Sort::Pattern => is_symbol(Symbol::ExactAssociation, kind),
        Sort::Constant
        | Sort::Note
        | Sort::Key
        | Sort::SegmentValue
        | Sort::Variable
        | Sort::FunctionName
        | Sort::Atom
        | Sort::Fun => is_symbol(Symbol::Association, kind),
    }
}

// The base of a map, or none.
fn map_end(stack: &mut Stack, sort: Sort, depth: u32, kind: &TokenKind) -> Result<Outcome, NoMemory>
    ensures { IfOk result (λ told. Tells (map_end sort depth kind.now stack.old) told stack.new) }
{
    let close = is_symbol(Symbol::CloseMap, kind);
    match sort {
        Sort::Expression => {
            if is_symbol(Symbol::Bar, kind) {
                let base = [EXPRESSION, Item::Symbol(Symbol::CloseMap)];
                return take(stack, true, depth, &base, Shape::Other);
            }
            take(stack, close, depth, &[], Shape::Other)
        }
        Sort::Pattern
        | Sort::Constant
        | Sort::Note
        | Sort::Key
        | Sort::SegmentValue
        | Sort::Variable
        | Sort::FunctionName
        | Sort::Atom
        | Sort::Fun => take(stack, close, depth, &[], Shape::Other),
    }
}

// Two or three variables.
fn catches(shape: Shape) -> bool
    ensures { result ≡ catches shape }
{
    match shape {
        Shape::Counted(Count::Two | Count::Three) => true,
        Shape::Counted(Count::Zero | Count::One | Count::Many)
        | Shape::Other
        | Shape::Variable
        | Shape::Clause
        | Shape::Size(_) => false,
    }
}

fn unit_wanted(shape: Shape) -> Item
    ensures { result ≡ unit_wanted shape }
{
    match shape {
        Shape::Size(size) => Item::Part(Part::Unit(size)),
        Shape::Other | Shape::Variable | Shape::Clause | Shape::Counted(_) => {
            Item::Part(Part::Unit(0))
        }
    }
}
