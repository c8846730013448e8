//! What the trees of kernel form are made of: values, simple steps, patterns, the shapes that a switch asks for and
//! the steps over a bit string; and their copies.
//!
//! `KSimple` has `{a,Y}` as a tuple of a literal and a variable by its number. Its copy is equal to it.
//!
//! Sound, since each form has one arm, and the parts that are plain numbers are copied as they are. No expression
//! stands in them: those are in kernel_form.
#![tactic(auto)]

mod pattern;
mod shape;
mod value;

pub use pattern::{KKeyPat, KKeyPats, KPat, KPats, KSeg, KSegs};
pub use shape::{BinStep, Shape};
pub use value::{KPair, KPairs, KPart, KParts, KSimple, KValue, KValues, Vars};
