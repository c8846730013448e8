ghost use Rattle.std.specs.Prelude.{◌≡◌, ◌↔◌, Some, IsTrue};
ghost use Rattle.erl_term.specs.Term.{Term};
ghost use Rattle.erl_term.specs.Ranges.{fits};
ghost use Rattle.erl_term.specs.WellFormed.{maps_rise};
ghost use Rattle.beam_table.specs.Code.{Insn};
ghost use Rattle.beam_table.specs.OperandBounds.{insn_ok};
ghost use Rattle.beam_table.specs.InstructionText.{form};
ghost use Rattle.insn_terms.specs.Spelling.{IsInsnTerm};
ghost use Rattle.insn_terms.specs.Reading.{insn_of};

/// One function decides which instruction a term stands for, where the term's numbers are in range and its maps rise,
/// as in every term that is read.
pub fn reading_decides_the_terms()
    ensures { (t : Term) (i : Insn) → IsTrue (fits t) → IsTrue (maps_rise t)
        → IsInsnTerm t i ↔ (insn_of t ≡ Some i) }
{}

/// An instruction within its bounds is read from the term that is printed of it.
pub fn printed_instructions_are_read()
    ensures { (i : Insn) → IsTrue (insn_ok i) → insn_of (form i) ≡ Some i }
{}
