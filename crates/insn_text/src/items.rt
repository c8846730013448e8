// Lists of operands, and rows of them, at the end of a text: one walk a kind of list.
ghost use Rattle.std.specs.Prelude.{◌≡◌, ◌∷◌, [], map, codes, false, true, IsTrue, OnOk};
ghost use Rattle.std.specs.List.{list_all};
ghost use Rattle.erl_term.specs.Term as T;
ghost use Rattle.erl_term.specs.Terms.{terms, tagged, list_of};
ghost use Rattle.term_text.specs.Printing.{Adds};
ghost use Rattle.term_text.specs.TermText.{term_on, row_on};
ghost use Rattle.beam_table.specs.InstructionText.{operand_terms};
ghost use Rattle.beam_table.specs.Operands.{◌then◌, each, sources, segment, source, register, y_slot, own_label, amount, end};
ghost use Rattle.beam_table.specs.View.{source_view, segment_view, put_view, get_view, choice_view, size_choice_view};
ghost use Rattle.beam_table.specs.WellFormedModule.{put_sources, segment_sources};
ghost use Rattle.insn_text.specs.Rows.{items_terms, row_term};
ghost use Rattle.insn_text.specs.Literals.{sources_normal, items_normal, operand_normal};

use crate::row::{Items, Operand, Single};
use crate::singles::{put_comma, put_single, put_singles};
use beam_table::{GetPair, PutPair, Reg, Segment, SizeChoice, Source, ValueChoice};
use erl_base::{NoMemory, Text};
use term_text::put_str;

/// The operands of a row, each behind a comma.
#[tactic(auto, unfolding(term_text::specs::TermText::texts))]
pub(crate) fn put_row(out: &mut Text, row: &[Operand<'_>]) -> Result<(), NoMemory>
    requires { IsTrue (list_all operand_normal row.now) }
    ensures { OnOk result (Adds out.old out.new (row_on false (terms (map row_term row.now)))) }
{
    for operand in row {
        put_comma(out, false)?;
        put_operand(out, operand)?;
    }
    Ok(())
}

fn put_operand(out: &mut Text, operand: &Operand<'_>) -> Result<(), NoMemory>
    requires { IsTrue (operand_normal operand.now) }
    ensures { OnOk result (Adds out.old out.new (term_on (row_term operand.now))) }
{
    match operand {
        Operand::One(single) => put_single(out, single),
        Operand::Bare(items) => put_bare_list(out, items),
        Operand::Listed(items) => put_tagged_list(out, items),
    }
}

fn put_tagged_list(out: &mut Text, items: &Items<'_>) -> Result<(), NoMemory>
    requires { IsTrue (items_normal items.now) }
    ensures { OnOk result
        (Adds out.old out.new (term_on (tagged (codes "list") (list_of (items_terms items.now) T.nil)))) }
{
    put_str(out, "{list,")?;
    put_bare_list(out, items)?;
    put_str(out, "}")
}

fn put_bare_list(out: &mut Text, items: &Items<'_>) -> Result<(), NoMemory>
    requires { IsTrue (items_normal items.now) }
    ensures { OnOk result (Adds out.old out.new (term_on (list_of (items_terms items.now) T.nil))) }
{
    put_str(out, "[")?;
    put_items(out, items)?;
    put_str(out, "]")
}

fn put_items(out: &mut Text, items: &Items<'_>) -> Result<(), NoMemory>
    requires { IsTrue (items_normal items.now) }
    ensures { OnOk result (Adds out.old out.new (row_on true (terms (items_terms items.now)))) }
{
    match items {
        Items::Singles(singles) => put_singles(out, true, singles),
        Items::Slots(slots) => put_slots(out, slots.as_slice()),
        Items::Sources(sources) => put_sources(out, sources.as_slice()),
        Items::PutPairs(pairs) => put_put_pairs(out, pairs.as_slice()),
        Items::GetPairs(pairs) => put_get_pairs(out, pairs.as_slice()),
        Items::ValueChoices(choices) => put_value_choices(out, choices.as_slice()),
        Items::SizeChoices(choices) => put_size_choices(out, choices.as_slice()),
        Items::Segments(segments) => put_segments(out, segments.as_slice()),
    }
}

#[tactic(auto, unfolding(term_text::specs::TermText::texts))]
fn put_slots(out: &mut Text, slots: &[u32]) -> Result<(), NoMemory>
    ensures { OnOk result
        (Adds out.old out.new (row_on true (terms (operand_terms (each (λ n r. y_slot n then r) slots.now))))) }
{
    let mut first = true;
    for slot in slots {
        put_singles(out, first, &[Single::Register(Reg::Y(*slot))])?;
        first = false;
    }
    Ok(())
}

#[tactic(auto, unfolding(term_text::specs::TermText::texts))]
fn put_sources(out: &mut Text, values: &[Source]) -> Result<(), NoMemory>
    requires { IsTrue (sources_normal values.now) }
    ensures { OnOk result
        (Adds out.old out.new (row_on true (terms (operand_terms (sources (map source_view values.now)))))) }
{
    let mut first = true;
    for value in values {
        put_singles(out, first, &[Single::Source(value)])?;
        first = false;
    }
    Ok(())
}

#[tactic(auto, unfolding(term_text::specs::TermText::texts))]
fn put_put_pairs(out: &mut Text, pairs: &[PutPair]) -> Result<(), NoMemory>
    requires { IsTrue (sources_normal (put_sources pairs.now)) }
    ensures { OnOk result (Adds out.old out.new (row_on true (terms (operand_terms
        (each (λ p r. source p.0 then source p.1 then r) (map put_view pairs.now)))))) }
{
    let mut first = true;
    for pair in pairs {
        put_singles(
            out,
            first,
            &[Single::Source(&pair.key), Single::Source(&pair.value)],
        )?;
        first = false;
    }
    Ok(())
}

#[tactic(auto, unfolding(term_text::specs::TermText::texts))]
fn put_get_pairs(out: &mut Text, pairs: &[GetPair]) -> Result<(), NoMemory>
    requires { IsTrue (sources_normal (map (λ p. p.key) pairs.now)) }
    ensures { OnOk result (Adds out.old out.new (row_on true (terms (operand_terms
        (each (λ p r. source p.0 then register p.1 then r) (map get_view pairs.now)))))) }
{
    let mut first = true;
    for pair in pairs {
        put_singles(
            out,
            first,
            &[Single::Source(&pair.key), Single::Register(pair.to)],
        )?;
        first = false;
    }
    Ok(())
}

#[tactic(auto, unfolding(term_text::specs::TermText::texts))]
fn put_value_choices(out: &mut Text, choices: &[ValueChoice]) -> Result<(), NoMemory>
    requires { IsTrue (sources_normal (map (λ c. c.value) choices.now)) }
    ensures { OnOk result (Adds out.old out.new (row_on true (terms (operand_terms
        (each (λ c r. source c.0 then own_label c.1 then r) (map choice_view choices.now)))))) }
{
    let mut first = true;
    for choice in choices {
        put_singles(
            out,
            first,
            &[Single::Source(&choice.value), Single::Label(choice.label)],
        )?;
        first = false;
    }
    Ok(())
}

#[tactic(auto, unfolding(term_text::specs::TermText::texts))]
fn put_size_choices(out: &mut Text, choices: &[SizeChoice]) -> Result<(), NoMemory>
    ensures { OnOk result (Adds out.old out.new (row_on true (terms (operand_terms
        (each (λ c r. amount c.0 then own_label c.1 then r) (map size_choice_view choices.now)))))) }
{
    let mut first = true;
    for choice in choices {
        put_singles(
            out,
            first,
            &[Single::Number(choice.size), Single::Label(choice.label)],
        )?;
        first = false;
    }
    Ok(())
}

#[tactic(auto, unfolding(term_text::specs::TermText::texts))]
fn put_segments(out: &mut Text, segments: &[Segment]) -> Result<(), NoMemory>
    requires { IsTrue (sources_normal (segment_sources segments.now)) }
    ensures { OnOk result (Adds out.old out.new
        (row_on true (terms (operand_terms (each segment (map segment_view segments.now)))))) }
{
    let mut first = true;
    for segment in segments {
        put_segment(out, first, segment)?;
        first = false;
    }
    Ok(())
}

fn put_segment(out: &mut Text, first: bool, of: &Segment) -> Result<(), NoMemory>
    requires { IsTrue (sources_normal (segment_sources (of.now ∷ []))) }
    ensures { OnOk result (Adds out.old out.new
        (row_on first (terms (operand_terms (segment (segment_view of.now) end))))) }
{
    let singles = [
        Single::Kind(of.kind),
        Single::Number(of.number),
        Single::Number(of.unit),
        Single::FlagList(of.flags),
        Single::Source(&of.value),
        Single::Source(&of.size),
    ];
    put_singles(out, first, &singles)
}
