//! The text of an instruction, as it is printed into an assembly text. It sees no forms of a module, and reads nothing.
//!
//! The move of X register 1 to slot 0 is printed as `{move,{x,1},{y,0}}`, and a return as `return`.
//!
//! Sound, since the text is that of the term which beam_table's table of operands has for the instruction.
#![tactic(auto)]

mod control;
mod data;
mod events;
mod insn;
mod items;
mod row;
mod singles;

pub use insn::put_insn;
