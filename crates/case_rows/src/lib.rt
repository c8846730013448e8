//! What programs of cases share: they show the rows of a table, and below each what comes of it.
//!
//! In a text of a row `~` and two hexadecimal digits write a byte, and any other `~` nothing, so that `~` alone is the
//! empty text: `a~0a` is `a` and a new line.
//!
//! There is no clause, since what these programs print is compared with what must come.
#![tactic(auto)]

mod bytes;
mod rows;
mod shown;

pub use bytes::bytes_of;
pub use rows::{Show, show_all};
pub use shown::show_term;
