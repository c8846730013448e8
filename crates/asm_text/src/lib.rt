//! The printed text of an assembly module. It reads no text.
//!
//! The function `one/0` with the entry 2, which moves 1 to `{x,0}` and returns, is printed as
//!
//! ```text
//! {function,one,0,2}.
//!   {label,1}.
//!     {func_info,{atom,one},{atom,one},0}.
//!   {label,2}.
//!     {move,{integer,1},{x,0}}.
//!     return.
//! ```
//!
//! behind a head with the module's name, its exports and attributes, and one more than its greatest label.
//!
//! Sound, since each form is printed as its term is, on a line of its own, and such lines have the module whose forms
//! they are. No two modules have one text.
//!
//! The catch: a form that nests deeper than a text may is not read again, so a module with one is not printed.
#![tactic(auto)]

mod encode;
mod first;
mod laws;
mod printer;

pub use encode::encoded;
pub use laws::{examples_have_their_texts, printed_modules_are_read};
pub use printer::print;
