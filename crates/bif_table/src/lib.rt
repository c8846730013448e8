//! The functions of the module erlang that a run answers itself, and the tests of terms that the machine has.
//!
//! `lookup` finds `+` of two arguments as `Bif::Add`; the table says that a guard may call it and that the machine
//! collects for it. What it answers is a definition, `BuiltinAnswer.answer`: for 2 and 3 the value 5, for 2 and an
//! atom the error badarith. `TypeTest` and `Comparison` are the machine's own tests, whose meaning is
//! `TermTests.type_holds` and `compare_holds`.
//!
//! Sound, since the table is one match over one enum, and each answer was computed row by row in the proofs.
//! Answering a function on the program's terms is not done.
#![tactic(auto)]

mod table;
mod term_test;

pub use table::{Bif, is_guard, lookup};
pub use term_test::{Comparison, TypeTest};
