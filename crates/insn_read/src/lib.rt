//! Instructions of BEAM assembly and the other forms of a text, read from their terms. It sees no characters, and knows
//! no order of forms.
//!
//! From the term `{move,{tr,{x,1},{t_atom,any}},{y,0}}` comes `Insn::Move` of X register 1 to slot 0. The term
//! `{move,{x,1023},{y,0}}` is no instruction, since there is no such register.
//!
//! An opcode is found by its name, and its operands are read by the types that an arm of its family names, so an
//! instruction is one arm. `read_insn` equals `insn_of` of insn_terms, and that function decides which terms stand for
//! an instruction. What else is read equals its definition in asm_forms.
//!
//! The catch: names of opcodes are compared one by one, some sixty at most.
#![tactic(auto)]

mod agreement;
mod control;
mod data;
mod events;
mod forms;
mod opcodes;
mod read;

pub use forms::{
    attributes_form_of, exports_form_of, func_info_form_of, function_form_of, is_dropped,
    labels_form_of, module_form_of,
};
pub use read::read_insn;
