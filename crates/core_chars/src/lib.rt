//! What lexemes are made of: the classes of characters, escapes, quoted texts, names and the numbers that digits
//! write.
//!
//! Of `a\x41b'` behind a quote come the name `aAb` and that seven characters write it, the closing quote counted.
//!
//! Sound, since each function equals one definition of `specs/`, and looks at no character behind those that it counts
//! but the next. Where the characters write nothing the answer is `None`; which place is at fault, and what the
//! lexemes form, is said by the crates above.
#![tactic(auto)]

mod classes;
mod digits;
mod escape;
mod laws;
mod quoted;

pub use classes::{
    digits_len, is_blank, is_capital, is_digit, is_exponent_mark, is_lower, is_sign, is_upper,
    line_len, name_len,
};
pub use digits::{CEILING, magnitude_of, negative};
pub use escape::quoted_char;
pub use laws::digits_have_their_value;
pub use quoted::{name_in, name_of, quoted_in, quoted_text};
