//! Machines that make steps, whatever their states are: their runs, and what it is to follow a meaning.
//!
//! A step goes to another state, ends, notes something or asks the world; `run step k` makes at most k of them from a
//! state and a list of replies, and gives what was noted, the latest first, and how it ended. So a machine that asks
//! for one reply and ends with its term is over after one step; without a reply it ends waiting on its request.
//!
//! - `Follows`: for each bound on entries some number of steps notes and ends as the meaning does, and each number of
//!   steps stays within it. `one_direction_suffices` gets this from steps that come to each meaning.
//! - `entered_deep`: functions that enter one another by their sites; `EntryBound` says how they count their entries.
//! - Registers and slots are written in lists by a machine and by their numbers where a form has no end of them:
//!   `listed_registers_agree` and `slots_agree` say that these are one.
//! - A step that must not be is `bad`, which is an end of its own, so that a run that is never bad can be asked for.
//!
//! The public functions have no code: the contract of each is a law of all runs. What holds of one machine alone stands
//! in that machine's crate.
#![tactic(auto)]

mod laws;

pub use laws::{
    earlier_notes_do_not_matter, ended_run_stays_ended, listed_registers_agree, log_only_grows,
    one_direction_suffices, run_splits, slots_agree, unasked_replies_do_not_matter,
};
