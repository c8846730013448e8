//! Tests of the crates from bytes to bytes: what no clause says and no row of a table can show.
//!
//! A lexer that refused refuses again; terms nest as deep as they may; a store that fails at any of its calls is told
//! by the answer and leaves the input.
#![tactic(auto)]

#[cfg(test)]
mod of_core_lex;
#[cfg(test)]
mod of_erlc_cli;
#[cfg(test)]
mod of_term_read;
