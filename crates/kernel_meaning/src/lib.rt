//! What functions in kernel form mean, which of them are well formed, and how the contract of passes sees them.
//!
//! Kernel form is Core Erlang with its names gone and its patterns taken apart: variables are numbers, each call names
//! its site, and clauses become trees. `case X of {a,Y} when 'true' -> Y` is a switch on the variable of X with one
//! case for a tuple of two, in it a switch with one case for `a`, and a body that gives the variable of the second
//! part. A tree tries its rows from left to right; `fall k` goes on behind `either_in k`.
//!
//! - `KernelRun` is one function on expressions and trees, by the same words as the meaning of Core Erlang, so that
//!   closure conversion can be shown rule by rule.
//! - `WellFormed` says what the construction of blocks may count on: scopes, fitting calls, guards without requests.
//!   Nothing here checks it: it is a `requires` of passes, and what they give keeps it.
//! - A function agrees with itself, so functions with the same meaning agree: the one law.
//!
//! There is no working call here; small functions are computed and judged in proofs/.
#![tactic(auto)]

mod laws;

pub use laws::{
    core_and_kernel_runs_are_proper, core_runs_mean_the_module, functions_agree_at_nodes,
    same_meaning_agrees,
};
