//! Copies of the syntax tree of a Core Erlang module, equal to what is copied.
//!
//! The copy of `let <X> = 'a' in X` is a tree of its own with the same places, names and terms.
//!
//! Sound, since each form has one arm, which hands the copies of its parts to the builder of core_form, whose contract
//! says what it makes. The catch: each item of a list is copied by way of a box, which costs an allocation that is
//! freed at once.
//!
//! Nothing is renamed or shared: that is for passes.
#![tactic(auto)]

mod copies;
mod tree;

pub use tree::CoreCopy;
