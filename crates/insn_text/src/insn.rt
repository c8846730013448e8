ghost use Rattle.std.specs.Prelude.{◌≡◌, Contains, false, true, IsTrue, OnOk};
ghost use Rattle.erl_term.specs.declared.term.Term.{Term};
ghost use Rattle.erl_term.specs.Terms.{terms};
ghost use Rattle.erl_term.specs.WellFormed.{IsWellFormed};
ghost use Rattle.term_text.specs.Printing.{Adds};
ghost use Rattle.term_text.specs.TermText.{term_on, row_on};
ghost use Rattle.beam_table.specs.InstructionText.{form};
ghost use Rattle.beam_table.specs.Opcodes.{opcode_row};
ghost use Rattle.beam_table.specs.View.{insn_view};
ghost use Rattle.beam_table.specs.WellFormedModule.{sources_in};
ghost use Rattle.beam_table.specs.declared.operand.Source.TheVariants.{Literal};
ghost use Rattle.insn_text.specs.Literals.{sources_normal};
ghost use Rattle.insn_text.specs.Rows.{head_terms, tail_terms};

use crate::control::{put_call, put_choice, put_test};
use crate::data::{put_building, put_frames, put_taking_apart};
use crate::events::{put_context, put_handler, put_receive, put_segments};
use beam_table::{Family, Insn, Opcode};
use erl_base::{NoMemory, Text};
use term_text::{put_str, put_word};

/// Writes an instruction: its name alone, or a tuple of its name and its operands.
pub fn put_insn(out: &mut Text, insn: &Insn) -> Result<(), NoMemory>
    requires { (t : Term) → Contains (sources_in insn.now) (Literal t) → IsWellFormed t }
    ensures { OnOk result (Adds out.old out.new (term_on (form (insn_view insn.now)))) }
{
    let opcode = insn.opcode();
    if opcode.kinds().is_empty() {
        return put_word(out, opcode.name());
    }
    put_str(out, "{")?;
    put_head(out, opcode)?;
    put_tail(out, insn)?;
    put_str(out, "}")
}

// The name, behind `test` where it is one.
fn put_head(out: &mut Text, opcode: Opcode) -> Result<(), NoMemory>
    ensures { OnOk result (Adds out.old out.new (row_on true (terms (head_terms (opcode_row opcode))))) }
{
    if opcode.is_test() {
        put_str(out, "test,")?;
        return put_word(out, opcode.name());
    }
    put_word(out, opcode.name())
}

// The operands, each behind a comma.
fn put_tail(out: &mut Text, insn: &Insn) -> Result<(), NoMemory>
    requires { IsTrue (sources_normal (sources_in insn.now)) }
    ensures { OnOk result (Adds out.old out.new (row_on false (terms (tail_terms insn.now)))) }
{
    match insn.family() {
        Family::Frames => put_frames(out, insn),
        Family::Building => put_building(out, insn),
        Family::TakingApart => put_taking_apart(out, insn),
        Family::Tests => put_test(out, insn),
        Family::Choices => put_choice(out, insn),
        Family::Calls => put_call(out, insn),
        Family::Handlers => put_handler(out, insn),
        Family::Receives => put_receive(out, insn),
        Family::Contexts => put_context(out, insn),
        Family::Segments => put_segments(out, insn),
    }
}
