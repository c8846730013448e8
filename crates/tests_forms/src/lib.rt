//! Tests of SSA form, of the machine's instructions and of their text: what no clause and no row of a table can show.
//!
//! Each call that takes memory gives its value when there is memory; sets are read in their order; an
//! instruction has the text that stands here.
#![tactic(auto)]

#[cfg(test)]
mod of_asm_text;
#[cfg(test)]
mod of_beam_table;
#[cfg(test)]
mod of_insn_text;
#[cfg(test)]
mod of_ssa_form;
