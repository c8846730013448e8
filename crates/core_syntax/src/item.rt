// What stands on the stack.
use crate::sort::Sort;
use core_lex::{Symbol, Word};

/// How many items there are.
#[derive(Clone, Copy, Debug)]
pub enum Count {
    Zero,
    One,
    Two,
    Three,
    Many,
}

/// What the part that was read last is to what goes on behind it: a variable, annotated or not; all of a clause; so
/// many items; a size; anything else.
#[derive(Clone, Copy, Debug)]
pub enum Shape {
    Other,
    Variable,
    Clause,
    Counted(Count),
    Size(u32),
}

/// A part of a text. Items, pairs, segments, clauses, definitions and attributes are at least one; items come with how
/// many stood before them. A head is what begins a clause: all of it, or its only pattern. From `Value` on they are
/// parts of a segment that is a constant, the unit with the size before it.
#[derive(Clone, Copy, Debug)]
pub enum Part {
    Tree(Sort),
    Items(Sort, Count),
    Group,
    Pairs(Sort),
    Segment(Sort),
    Segments(Sort),
    Head,
    Clause,
    Clauses,
    Definitions,
    Attributes,
    Module,
    Value,
    Size,
    Unit(u32),
    Kind,
    Flags,
    Flag,
    FlagItems,
}

/// What is to be read: a part, a part or nothing, a token, or what goes on behind what was read.
#[derive(Clone, Copy, Debug)]
pub enum Item {
    Part(Part),
    Maybe(Part),
    Symbol(Symbol),
    Word(Word),
    Atom,
    Arity,
    End,
    // nothing is read, and what was read counts as this
    Becomes(Shape),
    // annotations: `-|` behind a part, behind a key, behind a head; their `)`, with what they annotate
    Noted,
    NotedKey,
    NotedHead,
    Close(Shape),
    // behind a variable or `)`, an atom, `fun`, `[`, the items of a list, a key, the pairs of a map
    Alias,
    NameRest,
    FunRest,
    ListRest(Sort),
    ListEnd(Sort),
    PairArrow(Sort),
    MapEnd(Sort),
    // more of them, or none
    MoreItems(Sort, Count),
    MorePairs(Sort),
    MoreSegments(Sort),
    MoreAttributes,
    MoreFlags,
    // `>` of a group, which keeps its count, and `->` of a catch part
    CloseGroup,
    CatchArrow,
    // behind a head, in a head's brackets and outside of them
    HeadEnd,
    ClauseEnd,
    // behind a definition's name
    DefinitionRest,
    // behind a size, `[` of flags, flags
    UnitNext,
    FlagsRest,
    FlagsEnd,
}

/// An item, and how many nodes hold it.
#[derive(Clone, Copy, Debug)]
pub struct Entry {
    pub item: Item,
    pub depth: u32,
}
