//! What names mean at a place of a module: one table, which whoever walks through a module keeps on the way.
//!
//! In `let <X> = 'a' in let <X> = 'b' in X` the table has two bindings of X at its use, and X means number 1; behind
//! the inner `let` the inner binding is left, and X means number 0 again. A function's name means a site, with how many
//! bindings stand outside of it.
//!
//! Sound, since each binding keeps what its name meant before it. Two maps from names to what they mean now are
//! changed by each binding, and changed back where it is left.
//!
//! Contracts see the table as a scope of core_form, the innermost binding first. What a function captures is not kept:
//! in this scope it captures nothing. Looking up takes no memory and the expected time of one look-up of a hash map;
//! leaving takes the time of what is left behind.
//!
//! Beside it stand what walks through a module ask of names: whether one is a word, and which atom a literal
//! is, and whether that is a flag of a segment.
#![tactic(auto)]

mod table;
mod words;

pub use table::{Known, Names};
pub use words::{atom_of, is_flag, is_word, literal_name};
