//! The forms of a text: terms, each with its full stop. It sees no bytes, and does not know what a form is for.
//!
//! From `{a,1} . % one` and `b.` in a second line come the forms `{a,1}`, before which stand no characters, and `b`,
//! before which stand fourteen; then the end. `b.c` is no form: its full stop must be followed by a blank, a comment or
//! the end.
//!
//! One form is read at a time, and what is left behind it is read next, so a text of millions of forms is never held as
//! terms. `next_form` equals one function of `specs/Forms.antt`, and that function decides the relations there.
//!
//! The catch: a full stop belongs to the form and is looked for behind blanks, but the place of a form that has none is
//! where the form begins.
#![tactic(auto)]

mod forms;
mod laws;

pub use forms::{form_start, next_form, place_at};
pub use laws::{next_form_decides, printed_forms_are_read, text_has_one_row_of_forms};
