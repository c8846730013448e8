ghost use Rattle.term_read.specs.TermGrammar.{most_nesting};
ghost use Rattle.beam_table.specs.Code.{AsmModule};
ghost use Rattle.beam_table.specs.FormBounds.{FormsNest};
ghost use Rattle.beam_table.specs.ValidModule.{Valid};
ghost use Rattle.asm_forms.specs.ModuleOfText.{CharactersOf, AssemblyText};
ghost use Rattle.asm_text.specs.Examples.{one, text_of_one, three, text_of_three};
ghost use Rattle.asm_text.specs.PrintedModule.{module_text};

use asm_forms::{printed_forms_are_in_range, printed_lines_have_their_module};

/// What is printed of a valid module whose forms nest no deeper than a text may is characters that have this module.
pub fn printed_modules_are_read()
    ensures { (a : AsmModule) → Valid a → FormsNest most_nesting a → CharactersOf (module_text a) a }
{
    printed_lines_have_their_module();
    printed_forms_are_in_range();
}

/// Two modules have the texts that are written out for them.
pub fn examples_have_their_texts()
    ensures one { AssemblyText text_of_one one }
    ensures three { AssemblyText text_of_three three }
{
    printed_modules_are_read();
}
