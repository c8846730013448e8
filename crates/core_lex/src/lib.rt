//! The lexer of Core Erlang: the tokens of a UTF-8 text that comes in pieces. It does not see what the tokens form.
//!
//! From `let X = %one` and a line end and `'a'` it makes a word, a variable, a symbol, an atom and the end:
//!
//! ```text
//! Word(let) 1:1 0..3   Variable(X) 1:5 4..5   Symbol(=) 1:7 6..7   Atom(a) 2:1 13..16   End 2:4 16..16
//! ```
//!
//! The characters come from utf8_text, which refuses bytes that are no text. `finish` cuts them lexeme by lexeme: each
//! function of a lexeme is given the characters that are left, and gives the kind and how many characters write it;
//! each equals one definition of `specs/Tokens.antt`. Nothing is read again behind a lexeme, and the first bad token
//! ends the list, so the time is linear. Beside the tokens it takes the bytes and four bytes a character.
//!
//! The catch: the bytes behind a bad token still have to be text, which is why they are checked before the scan. A
//! token takes 64 bytes, so a text takes 24 bytes a byte, and 84 where each byte is a token and each second one a
//! variable.
#![tactic(auto)]

mod laws;
mod lexer;
mod listed;
mod number;
mod quoted;
mod scan;
mod token;

pub use laws::{lexemes_cut_the_text, longest_symbol_is_taken, short_numbers_are_small};
pub use lexer::{Lexer, lex};
pub use listed::{LONG_SYMBOLS, SHORT_SYMBOLS, WORDS};
pub use token::{Codes, Symbol, Token, TokenKind, Tokens, Word};
