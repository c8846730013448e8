//! Listed functions computed: what a call of a function of the module erlang answers, within 128 signed bits.
//!
//! `div` of -7 and 2 is the value -3, of -7 and 0 the error badarith, and `*` of 2^64 and 2^64 is wide: an integer past
//! 128 signed bits. `answer_values` computes on values, whose parts are shared, so that `tl` of a list or `element` of
//! a tuple copies nothing of what hangs on it. `answer` and `fold` do the same for terms, which they convert; `fold`
//! gives the value alone, and needs no own pid.
//!
//! Sound, since a number is made only where it is known to fit, and each function is one equation of the definition
//! `BuiltinAnswer.answer`, whose integers have no limit. No pair of arguments loops or takes memory by its size: a
//! shift never makes a power that can not be held. `length` and comparisons go along lists in a loop.
//!
//! The catch: true, false and the reasons are atoms that are made anew at each call.
#![tactic(auto)]

mod bits;
mod comparisons;
mod functions;
mod kinds;
mod laws;
mod numbers;
mod outcome;
mod parts;
mod records;
mod terms;
mod values;

pub use laws::only_integers_leave_the_range;
pub use outcome::BifAnswer;
pub use terms::{answer, fold};
pub use values::answer_values;
