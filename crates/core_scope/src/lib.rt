//! The faults of names, degrees and guards of a module: the first one.
//!
//! In `case <X,1> of <Y> when apply Y() -> Y end` at 1:1, where nothing binds X, the variable X at 1:7 is unbound, the
//! clause at 1:15 has one pattern for two values, and its guard at 1:24 may not apply; the unbound variable is told.
//!
//! Sound, since a name means what the scopes of core_form say, which captures, sites and the meaning rest on too. An
//! expression that never returns has every number of values, so it is nowhere of a wrong degree. The way through the
//! module is one: where bodies have to agree, the first one with a fixed degree settles what is held against the
//! others; a name is doubled where it is bound already inside of the form that binds it.
//!
//! What is not compiled and what passes a limit are no faults here.
#![tactic(auto)]

mod bindings;
mod check;
mod judged;
mod laws;
mod patterns;
mod walk;
mod words;

pub use check::check_scope;
pub use laws::{its_own_degree_is_wanted, what_never_returns_has_every_degree};
pub use words::gives_float;
