//! Nodes of the syntax tree from parts that were read: what a parser does where a part of a text ends.
//!
//! Of `[1|[2|[X]]]` the items 1, 2 and X become one list, and of `{'a',[1|[2]]}` one literal, since all its parts are
//! literals. `#{#<1>(8,1,'integer',['big'])}#` is the literal of eight bits.
//!
//! Sound, since the laws say that what is kept of a written tree gives the node that the grammar's module has for it,
//! and each call gives the node of what was kept of its parts. The catch: a list may be the tail of another, whose
//! items it then adds to, so it stays open, as rows of items with the last row first; each item is moved once.
//!
//! Nothing is recursive but along a segment's flags. Where each form may stand, and what is one, the grammar says.
#![tactic(auto)]

mod binaries;
mod bits;
mod exprs;
mod flags;
mod known;
mod laws;
mod lists;
mod literals;
mod pattern_lists;
mod pattern_rows;
mod patterns;
mod rows;
mod tuples;

pub use binaries::{ReadSegment, SegmentParts, binary_of, seg_pattern_of, segment_of, with_bits};
pub use exprs::{ReadExpr, closed, list_before};
pub use laws::{binaries_are_read, expressions_are_read, patterns_are_read};
pub use patterns::{ReadPattern, closed_pattern, list_before_pattern, tuple_of_patterns};
pub use tuples::{map_of_pairs, tuple_of};
