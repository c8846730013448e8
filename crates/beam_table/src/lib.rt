//! The instructions of BEAM assembly, modules of them, and the machine that runs them.
//!
//! `{move,{integer,1},{x,0}}` is `Insn::Move` of a source and a register. The machine writes 1 to X register 0 and
//! goes on behind it; `return` then goes on behind the call that waits, or ends the run with that term where none
//! does.
//!
//! - `InstructionStep` has a row an instruction. What rows share, as reading, collecting or raising, stands once in
//!   `GeneralRules`.
//! - A step that must not be, as reading an unset register, is the end `bad`. That runs are never bad is for the
//!   passes to show.
//! - `Valid` says what a module of a text has to meet: labels, arities, exports and the bounds of operands.
//!
//! That the rows say what is meant is seen in small programs, computed in proofs/, and in laws of every step: what it
//! enters, what becomes of the mailbox, and which activations stay. The functions of `laws` have no code: the contract
//! of each is its law.
//!
//! Nothing here runs a module of the program, and nothing judges one: the machine is a definition.
#![tactic(auto)]

mod asm;
mod copies;
mod family;
mod insn;
mod laws;
mod opcode;
mod operand;

pub use asm::{AsmFun, AsmFuns, AsmModule, FunKeys};
pub use family::Family;
pub use insn::{Insn, Insns};
pub use laws::{
    local_call_adds_one_entry, only_events_change_the_mailbox, opcodes_tell_operands,
    raise_unwinds_the_stack, steps_enter_at_most_one, steps_keep_the_stack,
};
pub use opcode::{Kind, Opcode};
pub use operand::{
    BuiltSegments, Extern, Flags, GetPair, GetPairs, PutPair, PutPairs, Reg, Segment, SegmentKind,
    SizeChoice, SizeChoices, Slots, Source, Sources, ValueChoice, ValueChoices,
};
