//! Copies of whole expressions and decision trees of kernel form, equal to what is copied.
//!
//! The copy of `let X = {a,Y} in f(X)` has the same variables by their numbers: nothing is renamed.
//!
//! Sound, since each form has one arm, whose parts go to the builder of kernel_form. Let chains and the second parts
//! of trees are as long as a body; they are copied along in a loop, so no body is too long.
#![tactic(auto)]

mod chains;
mod copies;
mod nodes;
mod tree;

pub use tree::KernelCopy;
