ghost use Rattle.std.specs.Prelude.{◌≡◌, map, codes, Contains, OnOk, IfOk, IsTrue, [], ◌∷◌, encode_utf8_all, chars};
ghost use Rattle.erl_term.specs.WellFormed.{IsWellFormed};
ghost use Rattle.erl_term.specs.declared.term.Term.{Term};
ghost use Rattle.term_text.specs.Printing.{Adds};
ghost use Rattle.term_read.specs.TermGrammar.{most_nesting};
ghost use Rattle.beam_table.specs.Code.{AsmModule as Plain, label};
ghost use Rattle.beam_table.specs.FormBounds.{FormsNest, is_text};
ghost use Rattle.beam_table.specs.ModuleForms.{function_form, func_info_form};
ghost use Rattle.beam_table.specs.ValidModule.{Valid};
ghost use Rattle.beam_table.specs.View.{insn_view, fun_view, module_view};
ghost use Rattle.beam_table.specs.WellFormedModule.{IsWellFormedModule, sources_in};
ghost use Rattle.beam_table.specs.declared.operand.Source.TheVariants.{Literal};
ghost use Rattle.asm_forms.specs.ModuleOfText.{AssemblyText};
ghost use Rattle.asm_text.specs.Literals.{AreWellFormed};
ghost use Rattle.asm_text.specs.PrintedModule.{line, indent_of, insn_line, function_lines, module_text, line_on, lines_on};

use crate::first::put_first;
use crate::laws::printed_modules_are_read;
use asm_forms::text_has_one_module_of_forms;
use beam_table::{AsmFun, AsmModule, Insn};
use erl_base::{FunKey, LabelId, List, Name, NoMemory, Text};
use insn_text::put_insn;
use std::alloc::Global;
use term_text::{put_name, put_str, put_u32};

/// The printed text of a module. It is the text of this module, and of no other.
pub fn print(alloc: Global, a: &AsmModule) -> Result<Text, NoMemory>
    requires valid { Valid (module_view a.now) }
    requires nests { FormsNest most_nesting (module_view a.now) }
    requires well_formed { IsWellFormedModule a.now }
    ensures text { IfOk result (λ text. text ≡ module_text (module_view a.now)) }
    ensures own { IfOk result (λ text. AssemblyText (encode_utf8_all text) (module_view a.now)) }
    ensures no_other { IfOk result
        (λ text. (b : Plain) → AssemblyText (encode_utf8_all text) b → b ≡ module_view a.now) }
{
    let mut out = List::new(alloc);
    put_first(&mut out, a)?;
    for function in a.funs.as_slice() {
        put_function(&mut out, &a.name, function)?;
    }
    are_characters(out.as_slice());
    printed_modules_are_read();
    text_has_one_module_of_forms();
    Ok(out)
}

// What is written has UTF-8 bytes. Nothing is done: the contract is the law.
fn are_characters(text: &[char])
    ensures { IsTrue (is_text text.now) }
{
    for c in text {
        is_character(*c);
    }
}

fn is_character(_c: char)
    ensures { IsTrue (is_text (_c ∷ [])) }
{}

fn put_function(out: &mut Text, of: &Name, function: &AsmFun) -> Result<(), NoMemory>
    requires { AreWellFormed function.now.code }
    ensures { OnOk result (Adds out.old out.new (lines_on (function_lines of.now (fun_view function.now)))) }
{
    put_function_form(out, function)?;
    put_label(out, function.info)?;
    put_func_info(out, of, &function.key)?;
    put_label(out, function.entry)?;
    put_code(out, function.code.as_slice())
}

fn put_function_form(out: &mut Text, function: &AsmFun) -> Result<(), NoMemory>
    ensures { OnOk result
        (Adds out.old out.new (line_on (line (codes "\n") (function_form (fun_view function.now))))) }
{
    put_str(out, "\n{function,")?;
    put_name(out, &function.key.name)?;
    put_str(out, ",")?;
    put_u32(out, function.key.arity)?;
    put_str(out, ",")?;
    put_u32(out, function.entry.0)?;
    put_str(out, "}.\n")
}

fn put_func_info(out: &mut Text, of: &Name, key: &FunKey) -> Result<(), NoMemory>
    ensures { OnOk result (Adds out.old out.new (line_on (line (codes "    ") (func_info_form of.now key.now)))) }
{
    put_str(out, "    {func_info,{atom,")?;
    put_name(out, of)?;
    put_str(out, "},{atom,")?;
    put_name(out, &key.name)?;
    put_str(out, "},")?;
    put_u32(out, key.arity)?;
    put_str(out, "}.\n")
}

fn put_label(out: &mut Text, at: LabelId) -> Result<(), NoMemory>
    ensures { OnOk result (Adds out.old out.new (line_on (insn_line (label at.0)))) }
{
    put_str(out, "  {label,")?;
    put_u32(out, at.0)?;
    put_str(out, "}.\n")
}

fn put_code(out: &mut Text, code: &[Insn]) -> Result<(), NoMemory>
    requires { AreWellFormed code.now }
    ensures { OnOk result (Adds out.old out.new (lines_on (map insn_line (map insn_view code.now)))) }
{
    for insn in code {
        put_line(out, insn)?;
    }
    Ok(())
}

fn put_line(out: &mut Text, insn: &Insn) -> Result<(), NoMemory>
    requires { (t : Term) → Contains (sources_in insn.now) (Literal t) → IsWellFormed t }
    ensures { OnOk result (Adds out.old out.new (line_on (insn_line (insn_view insn.now)))) }
{
    put_str(out, indent_of(insn))?;
    put_insn(out, insn)?;
    put_str(out, ".\n")
}

fn indent_of(insn: &Insn) -> &'static str
    ensures { chars result.now ≡ indent_of (insn_view insn.now) }
{
    if let Insn::Label(_) = insn {
        "  "
    } else {
        "    "
    }
}
