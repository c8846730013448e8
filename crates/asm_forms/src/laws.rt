ghost use Rattle.std.specs.Prelude.{◌≡◌, List, ℕ, None, IsTrue, map};
ghost use Rattle.beam_table.specs.Code.{AsmModule};
ghost use Rattle.beam_table.specs.ModuleForms.{forms};
ghost use Rattle.beam_table.specs.ValidModule.{every, Valid};
ghost use Rattle.asm_forms.specs.ModuleOfText.{FormsOf, CharactersOf, AssemblyText, fault_at};
ghost use Rattle.asm_forms.specs.Lines.{Line, lines, is_line, is_sane};

use form_read::text_has_one_row_of_forms;
use insn_terms::printed_instructions_are_read;

/// A text has at most one module.
pub fn text_has_one_module_of_forms()
    ensures { (bytes : List ℕ) (a b : AsmModule) → AssemblyText bytes a → AssemblyText bytes b → a ≡ b }
{
    text_has_one_row_of_forms();
}

/// A text has a fault exactly where it has no module.
pub fn faults_decide_texts()
    ensures none { (bytes : List ℕ) → fault_at bytes ≡ None → (a : AsmModule) × AssemblyText bytes a }
    ensures read { (bytes : List ℕ) (a : AsmModule) → AssemblyText bytes a → fault_at bytes ≡ None }
{}

/// The forms that are printed of a valid module are, in their order, those of this module.
pub fn printed_forms_have_their_module()
    ensures { (a : AsmModule) → Valid a → FormsOf (forms a) a }
{
    printed_instructions_are_read();
}

/// The forms of a valid module on lines of their own, each behind any blanks, are characters that have this module.
pub fn printed_lines_have_their_module()
    ensures { (ls : List Line) (a : AsmModule) → Valid a → IsTrue (every is_line ls)
        → map (λ l. l.form) ls ≡ forms a → CharactersOf (lines ls) a }
{
    printed_forms_have_their_module();
}

/// The forms that are printed of a valid module have numbers in range, and maps that rise.
pub fn printed_forms_are_in_range()
    ensures { (a : AsmModule) → Valid a → IsTrue (every is_sane (forms a)) }
{}
