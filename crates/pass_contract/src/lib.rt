//! What every pass over functions keeps, whatever its forms: when two functions agree, when one refines the other, and
//! how both compose.
//!
//! A form tells a contract what a function does with arguments, where the other functions are entered in some way. The
//! new function *agrees* with the old one where it gives the same result from the same state, for every way of entering
//! that agrees: what happens, what is entered and what is looked at; and, as is asked, marks of receives and no more
//! sub-binaries. It *refines* the old one where it gives the very same results. So a pass that folds `1 + 1` to `2`
//! refines; one that drops a send does neither, nor does one that enters a function twice.
//!
//! - A pass shows `Keeps` or `KeepsResults` of single functions. `functions_make_modules` and
//!   `refinement_keeps_meanings` make modules of them, and `rows_mean_the_same` puts passes in a row.
//! - What is entered is lawful: no entry comes back, notes are only added, serials only rise. A pass may rest on that;
//!   the runs of every form are so where what they enter is.
//! - A function entered with another number of terms than it has parameters raises undef, as one that is not there
//!   does, so `fitting_terms_suffice`.
//! - Forms that need turns, as blocks do, and forms that are over at once have one contract; `results_make_agreement`
//!   serves the second kind.
//!
//! A refinement is no agreement: a body that uses a marker goes by notes, and two states that differ in notes of marks
//! lead it to different messages. The public functions have no code: the contract of each is a law.
#![tactic(auto)]

mod laws;

pub use laws::{
    fitting_terms_suffice, functions_make_modules, modules_compose, refinement_keeps_meanings,
    results_make_agreement, rows_mean_the_same,
};
