//! What a module has that is not compiled, and the limits that it passes: the first of either.
//!
//! In `case X of #{#<Y>(8, 1, 'float', [])}# when 'true' -> primop 'raise'(Y) end` the segment at `#<` has a type that
//! is left out, and the primop a wrong number of arguments; the segment is told, whose place comes first.
//!
//! Sound, since both lists of faults are definitions on the plain tree, and a check keeps the earlier of two faults on
//! its way through the whole tree. Neither check takes memory, so both answer.
//!
//! Names and degrees are judged elsewhere, and nesting with the grammar.
#![tactic(auto)]

mod counts;
mod laws;
mod limit_walk;
mod limits;
mod profile;
mod progress;
mod segments;

pub use laws::a_lawful_text_has_one_module;
pub use limits::{check_limits, check_limits_by};
pub use profile::check_profile;
