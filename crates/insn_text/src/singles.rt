// Operands that are no lists, at the end of a text.
ghost use Rattle.std.specs.Prelude.{◌≡◌, ◌++◌, map, codes, chars, false, IsTrue, OnOk};
ghost use Rattle.std.specs.List.{list_all};
ghost use Rattle.bif_table.specs.Builtins.{bif_name};
ghost use Rattle.bif_table.specs.View.{bif_view};
ghost use Rattle.erl_term.specs.Term as T;
ghost use Rattle.erl_term.specs.Terms.{terms, tagged, list_of};
ghost use Rattle.erl_term.specs.View.{view};
ghost use Rattle.erl_term.specs.WellFormed.{IsNormal};
ghost use Rattle.term_text.specs.Printing.{Adds};
ghost use Rattle.term_text.specs.TermText.{comma, term_on, row_on};
ghost use Rattle.beam_table.specs.InstructionText.{number_term, label_term, register_term, source_term, operand_term, flag_words};
ghost use Rattle.beam_table.specs.Operands.{label_or_zero, label_or_no_fail, atom_operand, kind_word, extfunc, field_flags, flag_list};
ghost use Rattle.beam_table.specs.View.{reg_view, source_view, is_binary, extern_view, flags_view, label_view};
ghost use Rattle.insn_text.specs.Rows.{single_term};
ghost use Rattle.insn_text.specs.Literals.{source_normal, single_normal};

use crate::row::Single;
use beam_table::{Extern, Flags, Reg, SegmentKind, Source};
use bif_table::Bif;
use erl_base::{LabelId, Name, NoMemory, Text};
use erl_term::Term;
use term_text::{put_integer, put_name, put_str, put_term, put_u32, put_word};

/// Operands with commas between, and before the first where another stands before it.
#[tactic(auto, unfolding(term_text::specs::TermText::texts))]
pub(crate) fn put_singles(
    out: &mut Text,
    is_first: bool,
    singles: &[Single<'_>],
) -> Result<(), NoMemory>
    requires { IsTrue (list_all single_normal singles.now) }
    ensures { OnOk result (Adds out.old out.new (row_on is_first (terms (map single_term singles.now)))) }
{
    let mut first = is_first;
    for single in singles {
        put_comma(out, first)?;
        put_single(out, single)?;
        first = false;
    }
    Ok(())
}

pub(crate) fn put_comma(out: &mut Text, first: bool) -> Result<(), NoMemory>
    ensures { OnOk result (Adds out.old out.new (λ r. comma first ++ r)) }
{
    if first {
        return Ok(());
    }
    put_str(out, ",")
}

pub(crate) fn put_single(out: &mut Text, single: &Single<'_>) -> Result<(), NoMemory>
    requires { IsTrue (single_normal single.now) }
    ensures { OnOk result (Adds out.old out.new (term_on (single_term single.now))) }
{
    match single {
        Single::Source(source) => put_source(out, source),
        Single::Register(register) => put_register(out, *register),
        Single::Label(label) => put_label(out, *label),
        Single::LabelOrZero(label) => put_label_or_zero(out, *label),
        Single::LabelOrNoFail(label) => put_label_or_no_fail(out, *label),
        Single::Number(number) => put_bare(out, *number),
        Single::Function(function) => put_function(out, *function),
        Single::Atom(name) => put_atom(out, name),
        Single::Kind(kind) => put_kind(out, *kind),
        Single::Extern(function) => put_extern(out, function),
        Single::FieldFlags(flags) => put_field_flags(out, *flags),
        Single::FlagList(flags) => put_flag_list(out, *flags),
    }
}

fn put_source(out: &mut Text, source: &Source) -> Result<(), NoMemory>
    requires { IsTrue (source_normal source.now) }
    ensures { OnOk result (Adds out.old out.new (term_on (source_term (source_view source.now)))) }
{
    match source {
        Source::Reg(register) => put_register(out, *register),
        Source::Atom(name) => put_atom(out, name),
        Source::Integer(integer) => put_whole(out, integer),
        Source::Nil => put_str(out, "nil"),
        Source::Literal(term) => put_literal(out, term.get()),
    }
}

#[tactic(auto, unfolding(term_text::specs::TermText::texts))]
fn put_register(out: &mut Text, register: Reg) -> Result<(), NoMemory>
    ensures { OnOk result (Adds out.old out.new (term_on (register_term (reg_view register)))) }
{
    match register {
        Reg::X(number) => put_numbered(out, "{x,", number),
        Reg::Y(number) => put_numbered(out, "{y,", number),
    }
}

fn put_numbered(out: &mut Text, opening: &str, number: u32) -> Result<(), NoMemory>
    ensures { OnOk result (Adds out.old out.new (λ r.
        chars opening.now ++ term_on (number_term number) (codes "}" ++ r))) }
{
    put_str(out, opening)?;
    put_bare(out, number)?;
    put_str(out, "}")
}

#[tactic(auto, unfolding(term_text::specs::TermText::texts))]
fn put_bare(out: &mut Text, number: u32) -> Result<(), NoMemory>
    ensures { OnOk result (Adds out.old out.new (term_on (number_term number))) }
{
    put_u32(out, number)
}

#[tactic(auto, unfolding(term_text::specs::TermText::texts))]
fn put_label(out: &mut Text, label: LabelId) -> Result<(), NoMemory>
    ensures { OnOk result (Adds out.old out.new (term_on (label_term label.0))) }
{
    put_numbered(out, "{f,", label.0)
}

fn put_label_or_zero(out: &mut Text, label: Option<LabelId>) -> Result<(), NoMemory>
    ensures { OnOk result (Adds out.old out.new (term_on (operand_term (label_or_zero (label_view label))))) }
{
    match label {
        Some(label) => put_label(out, label),
        None => put_label(out, LabelId(0)),
    }
}

#[tactic(auto, unfolding(term_text::specs::TermText::texts))]
fn put_label_or_no_fail(out: &mut Text, label: Option<LabelId>) -> Result<(), NoMemory>
    ensures { OnOk result (Adds out.old out.new (term_on (operand_term (label_or_no_fail (label_view label))))) }
{
    match label {
        Some(label) => put_label(out, label),
        None => put_str(out, "{atom,no_fail}"),
    }
}

fn put_atom(out: &mut Text, name: &Name) -> Result<(), NoMemory>
    ensures { OnOk result (Adds out.old out.new (term_on (operand_term (atom_operand name.now)))) }
{
    put_str(out, "{atom,")?;
    put_name(out, name)?;
    put_str(out, "}")
}

fn put_whole(out: &mut Text, integer: &i128) -> Result<(), NoMemory>
    ensures { OnOk result (Adds out.old out.new (term_on (tagged (codes "integer") (T.int integer.now)))) }
{
    put_str(out, "{integer,")?;
    put_integer(out, *integer)?;
    put_str(out, "}")
}

fn put_literal(out: &mut Text, term: &Term) -> Result<(), NoMemory>
    requires { IsNormal term.now }
    ensures { OnOk result (Adds out.old out.new (term_on (tagged (codes "literal") (view term.now)))) }
{
    put_str(out, "{literal,")?;
    put_term(out, term)?;
    put_str(out, "}")
}

fn put_function(out: &mut Text, function: Bif) -> Result<(), NoMemory>
    ensures { OnOk result (Adds out.old out.new (term_on (T.atom (bif_name (bif_view function))))) }
{
    put_word(out, function.name())
}

#[tactic(auto, unfolding(term_text::specs::TermText::texts))]
fn put_kind(out: &mut Text, kind: SegmentKind) -> Result<(), NoMemory>
    ensures { OnOk result (Adds out.old out.new (term_on (operand_term (atom_operand (kind_word (is_binary kind)))))) }
{
    match kind {
        SegmentKind::Integer => put_str(out, "{atom,integer}"),
        SegmentKind::Binary => put_str(out, "{atom,binary}"),
    }
}

fn put_extern(out: &mut Text, function: &Extern) -> Result<(), NoMemory>
    ensures { OnOk result (Adds out.old out.new (term_on (operand_term (extfunc (extern_view function.now))))) }
{
    put_str(out, "{extfunc,")?;
    put_name(out, &function.module)?;
    put_str(out, ",")?;
    put_name(out, &function.name)?;
    put_str(out, ",")?;
    put_u32(out, function.arity)?;
    put_str(out, "}")
}

fn put_field_flags(out: &mut Text, flags: Flags) -> Result<(), NoMemory>
    ensures { OnOk result (Adds out.old out.new (term_on (operand_term (field_flags (flags_view flags))))) }
{
    put_str(out, "{field_flags,")?;
    put_flags(out, flags)?;
    put_str(out, "}")
}

fn put_flag_list(out: &mut Text, flags: Flags) -> Result<(), NoMemory>
    ensures { OnOk result (Adds out.old out.new (term_on (operand_term (flag_list (flags_view flags))))) }
{
    put_str(out, "{literal,")?;
    put_flags(out, flags)?;
    put_str(out, "}")
}

#[tactic(auto, unfolding(term_text::specs::TermText::texts))]
fn put_flags(out: &mut Text, flags: Flags) -> Result<(), NoMemory>
    ensures { OnOk result (Adds out.old out.new (term_on (list_of (flag_words (flags_view flags)) T.nil))) }
{
    match (flags.signed, flags.little) {
        (true, true) => put_str(out, "[signed,little]"),
        (true, false) => put_str(out, "[signed,big]"),
        (false, true) => put_str(out, "[unsigned,little]"),
        (false, false) => put_str(out, "[unsigned,big]"),
    }
}
