//! The printed text of a term, and of the atoms and numbers in it. It sees no forms of an assembly, and reads nothing.
//!
//! A list of 1 and of the string `a`, with a map behind the bar, is printed as `[1,[97]|#{}]`.
//!
//! Sound, since a text is one definition on the plain term, and each call adds to its output what that definition
//! says. Strings are printed as the lists that they are, and binaries by their bytes.
#![tactic(auto)]

mod atoms;
mod bits;
mod bytes;
mod numbers;
mod write;

pub use atoms::{is_name_character, is_plain_name, is_same, put_name, put_word};
pub use bytes::{push_bytes, put_str};
pub use numbers::{put_integer, put_number, put_u32};
pub use write::{put_term, write_term};
