//! Kernel form: functions whose bodies are lets over simple steps, with decision trees in place of clauses.
//!
//! `case X of {a,Y} when 'true' -> Y; Z when 'true' -> 'no' end` is the tree
//!
//! ```text
//! either 0 (switch X [{2 parts P Q} -> switch P [a -> body Q] else fall 0] else fall 0) (body 'no')
//! ```
//!
//! where `fall 0` goes on behind `either 0`. Variables are numbers, and each call of the module's own functions names
//! a site.
//!
//! Sound, since the reading as plain trees is one fold, and the builders say which tree each makes. Drops promise only
//! that they end: what they let go of is not seen again.
//!
//! What such a body means is said in kernel_meaning, how Core Erlang comes to it in no crate yet.
#![tactic(auto)]

mod apart;
pub mod build;
mod kernel;
mod tree;

pub use apart::{ExprParts, TreeParts};
pub use kernel::{FunKeys, KFun, KFuns, Kernel};
pub use tree::{Case, Cases, KExpr, Row, Rows, SegRow, SegRows, Tree};
