//! The top call: words in, status out.
//!
//! The words are read into an action, the action is done over a store, and its answer goes as a line into notes:
//!
//! ```text
//! compile IN OUT   0, and OUT holds the assembly text of IN
//! compile IN       2, and the notes end with the line of usage
//! ```
//!
//! An action is a case of `specs/Actions`; what it may answer, reads, leaves and puts out are definitions by cases in
//! `specs/Answers`, and what they say of one action stands in a file of its own, as `specs/CompileAnswers`. The notes
//! need no memory.
//!
//! The words need memory: a command of `clap` reads them (`specs/Command`), and what it takes is named by hand. It has
//! one positional and no flag, so it takes what `specs/Actions` says and refuses the rest; that is proved of any number
//! of words, whatever actions there are.
#![tactic(auto)]

mod act;
mod action;
mod compile;
mod line;
mod notes;
mod status;

pub use act::{run, run_without_words};
pub use status::Status;
