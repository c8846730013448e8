//! Tests of nodes that are read, and of names: what no clause says and no row of a table can show.
//!
//! Each node of parts that were read, the table of names, the check of scopes and the list of functions answer when
//! there is memory.
#![tactic(auto)]

#[cfg(test)]
mod of_core_actions;
#[cfg(test)]
mod of_core_names;
#[cfg(test)]
mod of_core_scope;
#[cfg(test)]
mod of_core_sites;
