//! The term of a text: what `term_text` prints of a term, and its other spellings. It sees no forms of an assembly, and
//! no places.
//!
//! `[1,"a"|#{}]` is read as a list of two items with a map behind the bar.
//!
//! The characters are gone through once. Each call is given those that are left, and gives a term and those behind it;
//! each equals one function of `specs/Reading.antt`, and these functions decide the relations of
//! `specs/TermGrammar.antt`. The catch: the tail of a list is read one level deeper, and its items are added to those
//! before the bar. No item is moved, but for those of a string in a tail, once: the time is linear, but for the pairs
//! of a map, which are put in order by merging runs.
#![tactic(auto)]

mod bitstrings;
mod flat;
mod laws;
mod leaves;
mod lexemes;
mod lists;
mod read;
mod reader;
mod unread;

pub use bitstrings::bits_of_parts;
pub use flat::{FunHead, Part};
pub use laws::{printed_terms_are_read, reading_decides_the_grammar, text_has_one_term};
pub use lexemes::{behind_blanks, expect, is_space};
pub use lists::list_of;
pub use read::read_at;
pub use reader::{MOST_NESTING, read_term};
pub use unread::Unread;
