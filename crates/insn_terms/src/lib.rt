//! Instructions of BEAM assembly and the terms that stand for them in a text. It sees no characters and knows no order
//! of forms, and it reads nothing yet: it holds what a reader's answers are to be.
//!
//! The term `{move,{tr,{x,1},any},{y,0}}` stands for the move of X register 1 to slot 0, as `{move,{x,1},{y,0}}` does,
//! which is what is printed of it. `{move,{x,1023},{y,0}}` stands for no instruction, since there is no such register.
//!
//! `Spells` says which terms stand for which instruction, from the one table of operands. `insn_of` is a function, from
//! the one table of opcodes with the kinds of their operands: it decides the relation, so a term stands for one
//! instruction at most. An opcode has a row in each table, and one in `Values` for the instruction that it makes.
//!
//! The catch: integers and maps inside a term are not looked at, since the reader of terms answers for them.
#![tactic(auto)]

mod laws;

pub use laws::{printed_instructions_are_read, reading_decides_the_terms};
