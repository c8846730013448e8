//! Bodies of functions as basic blocks in SSA form, plain, with spots and with stack frames: what they mean, and which
//! are well formed. Who makes them is said elsewhere.
//!
//! A function that gives `{X,1}` is one block with the set `v1 = tuple v0 1` and the last `ret v1`. With spots v0 and
//! v1 are in X register 0; with frames the block says too which stack frame it has.
//!
//! - What an operation does stands once, in `Operations`, over any storage of values. The three forms differ in their
//!   storage alone.
//! - Reading what is not there, as a spot that holds another variable's value, breaks a rule; a broken run is a result
//!   of its own.
//! - A body at a stage of the compiler is an `Ssa` of that stage, which allows well-formed bodies only.
//!
//! Sound, since under the cycle rule each form's meaning is total, and a well-formed body never looks at a variable
//! that was not set. A law's function has no code: its contract is the law.
//!
//! Nothing here checks or changes a body. `Arg::default` fills unused places of short lists, and no clause speaks of
//! it.
#![tactic(auto)]

mod args;
mod block;
mod body;
mod build;
mod laws;
mod op;
mod placed;
mod small;
mod stage;

pub use args::{Arg, Args};
pub use block::{Block, Edges, Last, Phi, Phis, SwitchChoices};
pub use body::{
    Body, Fact, Interval, Intervals, Mark, Marks, NodeIds, Regions, Reuse, ReusedParam, SetLists,
    VarFacts,
};
pub use laws::{
    bodies_are_proper, body_has_one_result, liveness_goes_over_a_set, more_blocks_change_nothing,
    runs_end_under_the_cycle_rule, runs_give_no_entries_back, unset_variables_are_never_seen,
};
pub use op::{Check, Field, Fields, Op, Set};
pub use placed::{
    BlockFrame, BlockFrames, FrameAction, FrameActions, Framed, Move, MoveStep, MoveSteps, Moves,
    Needs, NodeActions, Placed, Spot, VarSpots,
};
pub use small::SmallList;
pub use stage::{Formed, Ssa, Stage};
