//! Tests of the crates of the ground: what no clause says and no row of a table can show.
//!
//! Each call that takes memory gives its value when there is memory; stores refuse and fail where they should; texts
//! and their refusals are the same however the bytes are cut.
#![tactic(auto)]

#[cfg(test)]
mod of_bif_table;
#[cfg(test)]
mod of_erl_base;
#[cfg(test)]
mod of_erl_term;
#[cfg(test)]
mod of_store_io;
#[cfg(test)]
mod of_utf8_text;
#[cfg(test)]
mod of_world_model;
