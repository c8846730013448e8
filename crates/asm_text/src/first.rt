// The forms before the functions.
ghost use Rattle.std.specs.Prelude.{◌≡◌, ◌+◌, ◌++◌, [], ◌∷◌, true, Contains, OnOk, map};
ghost use Rattle.erl_term.specs.Term as T;
ghost use Rattle.erl_term.specs.Terms.{terms, list_of};
ghost use Rattle.erl_term.specs.View.{attribute_view};
ghost use Rattle.erl_term.specs.WellFormed.{IsWellFormed};
ghost use Rattle.erl_term.specs.declared.term.Attribute.{Attribute};
ghost use Rattle.term_text.specs.Printing.{Adds};
ghost use Rattle.term_text.specs.TermText.{comma, term_on, row_on};
ghost use Rattle.beam_table.specs.ModuleForms.{key_term, attribute_term, greatest};
ghost use Rattle.beam_table.specs.ValidModule.{all_labels, labels_in};
ghost use Rattle.beam_table.specs.View.{insn_view, fun_view, module_view};
ghost use Rattle.asm_text.specs.PrintedModule.{first_lines, lines_on};

use beam_table::{AsmFun, AsmModule, Insn};
use erl_base::{FunKey, NoMemory, Text};
use erl_term::Attribute;
use term_text::{put_name, put_number, put_str, put_term, put_u32};

/// The forms before the functions.
pub(crate) fn put_first(out: &mut Text, a: &AsmModule) -> Result<(), NoMemory>
    requires { (p : Attribute) → Contains a.now.attributes p → IsWellFormed p.value }
    ensures { OnOk result (Adds out.old out.new (lines_on (first_lines (module_view a.now)))) }
{
    put_str(out, "{module,")?;
    put_name(out, &a.name)?;
    put_str(out, "}.\n{exports,[")?;
    put_keys(out, a.exports.as_slice())?;
    put_str(out, "]}.\n{attributes,[")?;
    put_attributes(out, a.attributes.as_slice())?;
    put_str(out, "]}.\n{labels,")?;
    put_number(out, label_bound(a.funs.as_slice()))?;
    put_str(out, "}.\n")
}

fn put_keys(out: &mut Text, keys: &[FunKey]) -> Result<(), NoMemory>
    ensures { OnOk result (Adds out.old out.new (row_on true (terms (map key_term keys.now)))) }
{
    let mut first = true;
    for key in keys {
        put_comma(out, first)?;
        put_key(out, key)?;
        first = false;
    }
    Ok(())
}

fn put_attributes(out: &mut Text, attributes: &[Attribute]) -> Result<(), NoMemory>
    requires { (p : Attribute) → Contains attributes.now p → IsWellFormed p.value }
    ensures { OnOk result
        (Adds out.old out.new (row_on true (terms (map attribute_term (map attribute_view attributes.now))))) }
{
    let mut first = true;
    for attribute in attributes {
        put_comma(out, first)?;
        put_attribute(out, attribute)?;
        first = false;
    }
    Ok(())
}

fn put_comma(out: &mut Text, first: bool) -> Result<(), NoMemory>
    ensures { OnOk result (Adds out.old out.new (λ r. comma first ++ r)) }
{
    if first {
        return Ok(());
    }
    put_str(out, ",")
}

fn put_key(out: &mut Text, key: &FunKey) -> Result<(), NoMemory>
    ensures { OnOk result (Adds out.old out.new (term_on (key_term key.now))) }
{
    put_str(out, "{")?;
    put_name(out, &key.name)?;
    put_str(out, ",")?;
    put_u32(out, key.arity)?;
    put_str(out, "}")
}

fn put_attribute(out: &mut Text, attribute: &Attribute) -> Result<(), NoMemory>
    requires { IsWellFormed attribute.now.value }
    ensures { OnOk result (Adds out.old out.new (term_on (attribute_term (attribute_view attribute.now)))) }
{
    put_str(out, "{")?;
    put_name(out, &attribute.key)?;
    put_str(out, ",")?;
    put_term(out, &attribute.value)?;
    put_str(out, "}")
}

// One more than the greatest label.
fn label_bound(functions: &[AsmFun]) -> u128
    ensures { result ≡ greatest (all_labels (map fun_view functions.now)) + 1 }
{
    u128::from(greatest_label(functions)) + 1
}

fn greatest_label(functions: &[AsmFun]) -> u32
    ensures { result ≡ greatest (all_labels (map fun_view functions.now)) }
{
    let mut most: u32 = 0;
    for function in functions {
        let head = function.info.0.max(function.entry.0);
        most = most.max(head.max(greatest_in(function.code.as_slice())));
    }
    most
}

fn greatest_in(code: &[Insn]) -> u32
    ensures { result ≡ greatest (labels_in (map insn_view code.now)) }
{
    let mut most: u32 = 0;
    for insn in code {
        most = most.max(label_or_zero(insn));
    }
    most
}

fn label_or_zero(insn: &Insn) -> u32
    ensures { result ≡ greatest (labels_in (insn_view insn.now ∷ [])) }
{
    if let Insn::Label(label) = insn {
        label.0
    } else {
        0
    }
}
