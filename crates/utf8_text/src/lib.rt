//! UTF-8 text that comes in pieces: its characters, their places, and where bytes stop being text.
//!
//! From `é`, a line end and `x`, cut anywhere, come three characters; `x` stands at 2:1 and at byte 3. After the bytes
//! `X\n\xe2(` the text is refused at 2:1, at once and whatever follows, for no character begins so.
//!
//! `feed` keeps the bytes and checks each piece from the last whole character on, so a byte is looked at at most four
//! times there. `finish` checks and decodes them once more. It takes the bytes, and then four bytes a character.
//!
//! The catch: a character that is cut by the end of a piece is no fault until the text ends there.
#![tactic(auto)]

mod pieces;
mod place;

pub use pieces::{Pieces, characters};
pub use place::{byte_len, past, place_after};
