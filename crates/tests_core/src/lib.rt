//! Tests of the syntax tree and its copies: what no clause says and no row of a table can show.
//!
//! Each builder and each copy gives its value when there is memory, at a tree that has every form.
#![tactic(auto)]

#[cfg(test)]
mod of_core_copy;
#[cfg(test)]
mod of_core_form;
