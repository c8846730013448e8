//! What a Core Erlang module means: an evaluator over its source tree, as definitions, with laws that say them in other
//! words.
//!
//! `evaluated m f vs x n` calls the export f with the terms vs, in a world that does what the script x says, and enters
//! at most n functions of the module. Of `'f'/1 = fun (X) -> call 'io':'nl' (X)` with one reply that returns `ok` it
//! gives that one call happened, that nothing else was entered, and the end `gives ok`; without a reply it ends
//! waiting.
//!
//! - Every call that is no local one is a request of the script, but for the listed functions of `erlang`; what comes
//!   back, and which messages come meanwhile, stands in the reply.
//! - The bound is on entries, so that a loop has a meaning at each bound; `a_larger_bound_prolongs` and
//!   `entries_stay_within_the_bound` say that bounds only cut a run off.
//! - Where the evaluator follows the text, a relation says the same: `Matches` of patterns, `Chosen` of clauses,
//!   `TakesTheFirst` of receives.
//! - Beside what happens it tells what a run costs: the messages that receives examine, where references mark them, and
//!   the sub-binaries that matching may make.
//!
//! There is no working call here; small modules are computed in proofs/. Floats and the contents of traces have no
//! meaning, and faults of a text are another crate's: a name that means nothing gives no value.
#![tactic(auto)]

mod laws;

pub use laws::{
    a_larger_bound_prolongs, depth_never_ends_a_run, entries_stay_within_the_bound,
    matching_is_the_relation, receives_take_the_first_accepted,
    the_first_clause_that_accepts_is_chosen,
};
