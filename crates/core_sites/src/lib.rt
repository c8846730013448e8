//! The functions of a module with what each captures: one walk gathers what the text of each function uses, and one
//! lists them.
//!
//! In `let <X> = 1 in letrec 'f'/0 = fun () -> X in fun () -> apply 'f'/0()` the last fun uses `'f'/0` alone, once; and
//! since X is what `'f'/0` captures, the fun captures X, at the place of `'f'/0`.
//!
//! Sound, since a function's name stands for what its group captures, wherever it stands: the uses of a text, each
//! function standing for itself, become the captures when each function's own captures are put in its stead.
#![tactic(auto)]

mod bind;
mod gather;
mod held;
mod laws;
mod listing;
mod putting;
mod texts;
mod told;
mod used;

pub use laws::{captures_are_expanded, group_captures_are_expanded};
pub use listing::{capture_counts, sites};
