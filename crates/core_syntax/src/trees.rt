// What begins a tree, how deep it is, and what is to be read behind it.
ghost use Rattle.std.specs.Prelude.{◌≡◌, ◌+◌, ◌≤◌, suc, IfOk, OnOk};
ghost use Rattle.core_lex.specs.declared.token.Word.TheVariants.{Try};
ghost use Rattle.core_syntax.specs.declared.sort.Sort.TheVariants.{Expression};
ghost use Rattle.core_syntax.specs.Sorts.{leaf_weight, open_weight};
ghost use Rattle.core_syntax.specs.Beginnings.{takes_symbol, takes_word, takes_tree, symbol_depth, tree_depth, variable_next, atom_next, noted_next, bracket_next, fun_next, form_next, tree_next, tree_shape, tree};
ghost use Rattle.core_syntax.specs.Reactions.{Tells};

use crate::item::{Count, Item, Part, Shape};
use crate::kinds::{are_codes, is_code, is_variable_name, is_within};
use crate::outcome::{MOST_DEPTH, Outcome, deeper};
use crate::sort::Sort;
use crate::stack::Stack;
use core_lex::{Symbol, TokenKind, Word};
use erl_base::NoMemory;

pub const EXPRESSION: Item = Item::Part(Part::Tree(Sort::Expression));

pub fn tree(
    stack: &mut Stack,
    sort: Sort,
    depth: u32,
    kind: &TokenKind,
) -> Result<Outcome, NoMemory>
    requires { depth ≤ 2002 }
    ensures { IfOk result (λ told. Tells (tree sort depth kind.now stack.old) told stack.new) }
{
    if !takes_tree(sort, kind) {
        return Ok(Outcome::Refused);
    }
    if tree_depth(sort, depth, kind) > MOST_DEPTH {
        return Ok(Outcome::TooDeep);
    }
    tree_next(stack, sort, depth, kind)?;
    Ok(Outcome::Taken(tree_shape(kind)))
}

fn takes_symbol(sort: Sort, symbol: Symbol) -> bool
    ensures { result ≡ takes_symbol sort symbol }
{
    match symbol {
        Symbol::OpenParen => true,
        Symbol::OpenBracket => sort.takes_list(),
        Symbol::OpenBinary | Symbol::OpenMap | Symbol::OpenBrace => sort.takes_constant(),
        Symbol::OpenAngle => sort.takes_expression(),
        Symbol::Arrow
        | Symbol::AnnotationBar
        | Symbol::Association
        | Symbol::ExactAssociation
        | Symbol::CloseBinary
        | Symbol::OpenSegment
        | Symbol::CloseMap
        | Symbol::CloseParen
        | Symbol::CloseBrace
        | Symbol::CloseBracket
        | Symbol::CloseAngle
        | Symbol::Bar
        | Symbol::Comma
        | Symbol::Slash
        | Symbol::Colon
        | Symbol::Equals => false,
    }
}

fn takes_word(sort: Sort, word: Word) -> bool
    ensures { result ≡ takes_word sort word }
{
    match word {
        Word::Fun => sort.takes_fun() || sort.takes_constant(),
        Word::Apply
        | Word::Call
        | Word::Case
        | Word::Catch
        | Word::Do
        | Word::Let
        | Word::Letrec
        | Word::Primop
        | Word::Receive
        | Word::Try => sort.takes_expression(),
        Word::After
        | Word::Attributes
        | Word::End
        | Word::In
        | Word::Module
        | Word::Of
        | Word::When => false,
    }
}

fn takes_tree(sort: Sort, kind: &TokenKind) -> bool
    ensures { result ≡ takes_tree sort kind.now }
{
    match kind {
        TokenKind::Word(word) => takes_word(sort, *word),
        TokenKind::Symbol(symbol) => takes_symbol(sort, *symbol),
        TokenKind::Variable(name) => sort.takes_variable() && is_variable_name(name),
        TokenKind::Atom(_) => sort.takes_atom() || sort.takes_name(),
        TokenKind::Number(_, value) => sort.takes_integer() && is_within(*value),
        TokenKind::Wide(_) => sort.takes_integer(),
        TokenKind::Float => sort.takes_constant(),
        TokenKind::Character(code) => sort.takes_constant() && is_code(*code),
        TokenKind::Letters(codes) => sort.takes_list() && are_codes(codes),
        TokenKind::Bad | TokenKind::End => false,
    }
}

fn symbol_depth(sort: Sort, depth: u32, symbol: Symbol) -> u32
    requires { depth ≤ 2002 }
    ensures { result ≡ symbol_depth sort depth symbol }
{
    match symbol {
        Symbol::OpenParen => deeper(sort.open_weight() + depth),
        Symbol::Arrow
        | Symbol::AnnotationBar
        | Symbol::Association
        | Symbol::ExactAssociation
        | Symbol::OpenBinary
        | Symbol::CloseBinary
        | Symbol::OpenSegment
        | Symbol::OpenMap
        | Symbol::CloseMap
        | Symbol::CloseParen
        | Symbol::OpenBrace
        | Symbol::CloseBrace
        | Symbol::OpenBracket
        | Symbol::CloseBracket
        | Symbol::OpenAngle
        | Symbol::CloseAngle
        | Symbol::Bar
        | Symbol::Comma
        | Symbol::Slash
        | Symbol::Colon
        | Symbol::Equals => deeper(depth),
    }
}

fn tree_depth(sort: Sort, depth: u32, kind: &TokenKind) -> u32
    requires { depth ≤ 2002 }
    ensures { result ≡ tree_depth sort depth kind.now }
{
    match kind {
        TokenKind::Symbol(symbol) => symbol_depth(sort, depth, *symbol),
        TokenKind::Variable(_) => sort.open_weight() + depth,
        TokenKind::Atom(_) | TokenKind::Number(..) | TokenKind::Wide(_) => {
            sort.leaf_weight() + depth
        }
        TokenKind::Word(_)
        | TokenKind::Float
        | TokenKind::Character(_)
        | TokenKind::Letters(_)
        | TokenKind::Bad
        | TokenKind::End => deeper(depth),
    }
}

fn tree_shape(kind: &TokenKind) -> Shape
    ensures { result ≡ tree_shape kind.now }
{
    match kind {
        TokenKind::Variable(_) => Shape::Variable,
        TokenKind::Word(_)
        | TokenKind::Symbol(_)
        | TokenKind::Atom(_)
        | TokenKind::Number(..)
        | TokenKind::Wide(_)
        | TokenKind::Float
        | TokenKind::Character(_)
        | TokenKind::Letters(_)
        | TokenKind::Bad
        | TokenKind::End => Shape::Other,
    }
}

fn tree_next(stack: &mut Stack, sort: Sort, depth: u32, kind: &TokenKind) -> Result<(), NoMemory>
    requires { tree_depth sort depth kind.now ≤ 2000 }
    ensures { OnOk result (stack.new ≡ tree_next sort depth kind.now stack.old) }
{
    match kind {
        TokenKind::Word(word) => form_next(stack, sort, deeper(depth), *word),
        TokenKind::Symbol(symbol) => bracket_next(stack, sort, depth, *symbol),
        TokenKind::Variable(_) => variable_next(stack, sort, depth),
        TokenKind::Atom(_) => atom_next(stack, sort, sort.leaf_weight() + depth),
        TokenKind::Number(..)
        | TokenKind::Wide(_)
        | TokenKind::Float
        | TokenKind::Character(_)
        | TokenKind::Letters(_)
        | TokenKind::Bad
        | TokenKind::End => Ok(()),
    }
}

fn variable_next(stack: &mut Stack, sort: Sort, depth: u32) -> Result<(), NoMemory>
    requires { depth ≤ 2000 }
    ensures { OnOk result (stack.new ≡ variable_next sort depth stack.old) }
{
    match sort {
        Sort::Pattern => stack.push(depth, Item::Alias),
        Sort::Expression
        | Sort::Constant
        | Sort::Note
        | Sort::Key
        | Sort::SegmentValue
        | Sort::Variable
        | Sort::FunctionName
        | Sort::Atom
        | Sort::Fun => Ok(()),
    }
}

fn atom_next(stack: &mut Stack, sort: Sort, depth: u32) -> Result<(), NoMemory>
    requires { depth ≤ 2000 }
    ensures { OnOk result (stack.new ≡ atom_next sort depth stack.old) }
{
    match sort {
        Sort::Expression => stack.push(depth, Item::NameRest),
        Sort::FunctionName => stack.put(depth, &[Item::Symbol(Symbol::Slash), Item::Arity]),
        Sort::Pattern
        | Sort::Constant
        | Sort::Note
        | Sort::Key
        | Sort::SegmentValue
        | Sort::Variable
        | Sort::Atom
        | Sort::Fun => Ok(()),
    }
}

fn noted_next(stack: &mut Stack, sort: Sort, depth: u32) -> Result<(), NoMemory>
    requires { suc (open_weight sort + depth) ≤ 2000 }
    ensures { OnOk result (stack.new ≡ noted_next sort depth stack.old) }
{
    let inner = deeper(depth);
    match sort {
        Sort::Pattern => {
            stack.push(depth, Item::Alias)?;
            stack.push(deeper(1 + depth), Item::Noted)?;
            stack.push(inner, Item::Part(Part::Tree(Sort::Pattern)))
        }
        Sort::Key => {
            stack.push(depth, Item::NotedKey)?;
            stack.push(inner, Item::Part(Part::Tree(Sort::Key)))
        }
        Sort::Expression
        | Sort::Constant
        | Sort::Note
        | Sort::SegmentValue
        | Sort::Variable
        | Sort::FunctionName
        | Sort::Atom
        | Sort::Fun => {
            stack.push(deeper(sort.open_weight() + depth), Item::Noted)?;
            stack.push(inner, Item::Part(Part::Tree(sort.inner())))
        }
    }
}

fn bracket_next(stack: &mut Stack, sort: Sort, depth: u32, symbol: Symbol) -> Result<(), NoMemory>
    requires { symbol_depth sort depth symbol ≤ 2000 }
    ensures { OnOk result (stack.new ≡ bracket_next sort depth symbol stack.old) }
{
    let inner = deeper(depth);
    match symbol {
        Symbol::OpenParen => noted_next(stack, sort, depth),
        Symbol::OpenBracket => stack.push(inner, Item::ListRest(sort.of_items())),
        Symbol::OpenBrace => {
            let items = Item::Maybe(Part::Items(sort.of_items(), Count::Zero));
            stack.put(inner, &[items, Item::Symbol(Symbol::CloseBrace)])
        }
        Symbol::OpenAngle => {
            let items = Item::Maybe(Part::Items(Sort::Expression, Count::Zero));
            stack.put(inner, &[items, Item::Symbol(Symbol::CloseAngle)])
        }
        Symbol::OpenMap => stack.put(inner, &[Item::Maybe(Part::Pairs(sort)), Item::MapEnd(sort)]),
        Symbol::OpenBinary => {
            let segments = Item::Maybe(Part::Segments(sort));
            stack.put(inner, &[segments, Item::Symbol(Symbol::CloseBinary)])
        }
        Symbol::Arrow
        | Symbol::AnnotationBar
        | Symbol::Association
        | Symbol::ExactAssociation
        | Symbol::CloseBinary
        | Symbol::OpenSegment
        | Symbol::CloseMap
        | Symbol::CloseParen
        | Symbol::CloseBrace
        | Symbol::CloseBracket
        | Symbol::CloseAngle
        | Symbol::Bar
        | Symbol::Comma
        | Symbol::Slash
        | Symbol::Colon
        | Symbol::Equals => Ok(()),
    }
}

fn fun_next(stack: &mut Stack, sort: Sort, depth: u32) -> Result<(), NoMemory>
    requires { depth ≤ 2000 }
    ensures { OnOk result (stack.new ≡ fun_next sort depth stack.old) }
{
    match sort {
        Sort::Expression => stack.push(depth, Item::FunRest),
        Sort::Fun => {
            stack.put(depth, &LOCAL_REST)?;
            stack.push(depth, Item::Symbol(Symbol::OpenParen))
        }
        Sort::Pattern
        | Sort::Constant
        | Sort::Note
        | Sort::Key
        | Sort::SegmentValue
        | Sort::Variable
        | Sort::FunctionName
        | Sort::Atom => {
            stack.put(depth, &EXTERNAL_REST)?;
            stack.push(depth, Item::Atom)
        }
    }
}

/// parameters ) -> body
pub const LOCAL_REST: [Item; 4] = [
    Item::Maybe(Part::Items(Sort::Variable, Count::Zero)),
    Item::Symbol(Symbol::CloseParen),
    Item::Symbol(Symbol::Arrow),
    EXPRESSION,
];

/// : name / arity
pub const EXTERNAL_REST: [Item; 4] = [
    Item::Symbol(Symbol::Colon),
    Item::Atom,
    Item::Symbol(Symbol::Slash),
    Item::Arity,
];

// ( arguments )
const ARGUMENTS: [Item; 3] = [
    Item::Symbol(Symbol::OpenParen),
    Item::Maybe(Part::Items(Sort::Expression, Count::Zero)),
    Item::Symbol(Symbol::CloseParen),
];

fn form_next(stack: &mut Stack, sort: Sort, depth: u32, word: Word) -> Result<(), NoMemory>
    requires { depth ≤ 2000 }
    ensures { OnOk result (stack.new ≡ form_next sort depth word stack.old) }
{
    match word {
        Word::Apply => {
            stack.put(depth, &ARGUMENTS)?;
            stack.push(depth, EXPRESSION)
        }
        Word::Call => {
            stack.put(depth, &ARGUMENTS)?;
            stack.put(
                depth,
                &[EXPRESSION, Item::Symbol(Symbol::Colon), EXPRESSION],
            )
        }
        Word::Case => {
            let clauses = [Item::Part(Part::Clause), Item::Maybe(Part::Clauses)];
            stack.push(depth, Item::Word(Word::End))?;
            stack.put(depth, &clauses)?;
            stack.put(depth, &[EXPRESSION, Item::Word(Word::Of)])
        }
        Word::Catch => stack.push(depth, EXPRESSION),
        Word::Do => stack.put(depth, &[EXPRESSION, EXPRESSION]),
        Word::Fun => fun_next(stack, sort, depth),
        Word::Let => {
            stack.put(depth, &[EXPRESSION, Item::Word(Word::In), EXPRESSION])?;
            stack.put(
                depth,
                &[Item::Part(Part::Group), Item::Symbol(Symbol::Equals)],
            )
        }
        Word::Letrec => {
            let definitions = Item::Maybe(Part::Definitions);
            stack.put(depth, &[definitions, Item::Word(Word::In), EXPRESSION])
        }
        Word::Primop => {
            stack.put(depth, &ARGUMENTS)?;
            stack.push(depth, Item::Atom)
        }
        Word::Receive => {
            stack.put(
                depth,
                &[EXPRESSION, Item::Symbol(Symbol::Arrow), EXPRESSION],
            )?;
            stack.put(
                depth,
                &[Item::Maybe(Part::Clauses), Item::Word(Word::After)],
            )
        }
        Word::Try => try_next(stack, depth),
        Word::After
        | Word::Attributes
        | Word::End
        | Word::In
        | Word::Module
        | Word::Of
        | Word::When => Ok(()),
    }
}

// tried of variables -> body catch variables -> handler
fn try_next(stack: &mut Stack, depth: u32) -> Result<(), NoMemory>
    requires { depth ≤ 2000 }
    ensures { OnOk result (stack.new ≡ form_next Expression depth Try stack.old) }
{
    stack.put(
        depth,
        &[Item::Part(Part::Group), Item::CatchArrow, EXPRESSION],
    )?;
    stack.put(
        depth,
        &[
            Item::Symbol(Symbol::Arrow),
            EXPRESSION,
            Item::Word(Word::Catch),
        ],
    )?;
    stack.put(
        depth,
        &[EXPRESSION, Item::Word(Word::Of), Item::Part(Part::Group)],
    )
}
