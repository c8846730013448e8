ghost use Rattle.beam_table.specs.Code.{AsmModule};
ghost use Rattle.std.specs.Prelude.{IsTrue};
ghost use Rattle.beam_table.specs.declared.insn.Insn.{Insn};
ghost use Rattle.beam_table.specs.Opcodes.{opcode_of, opcode_row, has_row};
ghost use Rattle.beam_table.specs.Operands.{operands};
ghost use Rattle.beam_table.specs.View.{insn_view};
ghost use Rattle.beam_table.specs.StepFacts.{OnlyEventsChangeTheMailbox, StepsKeepTheStack, StepsEnterAtMostOne, LocalCallsEnterOne, RaiseUnwinds};

/// Between two steps the mailbox changes only by the arrivals of replies that are asked for, and by the message taken.
pub fn only_events_change_the_mailbox()
    ensures { OnlyEventsChangeTheMailbox }
{}

/// A step adds at most the one activation of a call, and keeps or drops those that wait.
pub fn steps_keep_the_stack()
    ensures { StepsKeepTheStack }
{}

/// As many steps enter at most as many functions.
pub fn steps_enter_at_most_one()
    ensures { (a : AsmModule) → StepsEnterAtMostOne a }
{}

/// `call`, `call_only` and `call_last` that are not bad note exactly one entry.
pub fn local_call_adds_one_entry()
    ensures { (a : AsmModule) → LocalCallsEnterOne a }
{}

/// A raise drops the activations without a tag up to the first with one.
pub fn raise_unwinds_the_stack()
    ensures { (a : AsmModule) → RaiseUnwinds a }
{}

/// An instruction's text has the name and the kinds of operands of its opcode.
pub fn opcodes_tell_operands()
    ensures { (i : Insn)
        → IsTrue (has_row (opcode_row (opcode_of i)) (operands (insn_view i)).0 (operands (insn_view i)).1) }
{}
