//! Terms: their types and copies, their order, and how deep they nest.
//!
//! `#{b => 1, a => 2}` and `#{a => 2, b => 1}` stand for one plain term, the one whose keys rise. `compare` puts 1
//! before `a`, `a` before `{}`, and `{}` before `[]`.
//!
//! Sound, since clauses speak of the plain term that a value stands for, and well-formed values with one plain term
//! are equal. The functions of `laws` have no body: their clauses are laws of the definitions that the working clauses
//! cite.
//!
//! There are no floats. What the functions of the module erlang make of terms is said in bif_table.
#![tactic(auto)]

mod depth;
mod laws;
mod maps;
mod order;
mod term;

pub use laws::{
    bits_hold_their_number, maps_keep_what_is_put, order_is_total, order_tells_terms_apart,
};
pub use maps::map_of;
pub use order::compare;
pub use term::{Attribute, Attributes, Bits, Class, Pair, Pairs, Term, Terms};
