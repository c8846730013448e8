// The instruction that a term stands for.
ghost use Rattle.std.specs.Prelude.{◌≡◌, map, IfOk};
ghost use Rattle.std.specs.Option.{option_map};
ghost use Rattle.erl_term.specs.Comparing.{AllNormal};
ghost use Rattle.erl_term.specs.View.{view};
ghost use Rattle.erl_term.specs.WellFormed.{IsNormal};
ghost use Rattle.term_read.specs.Reading.{Gives};
ghost use Rattle.beam_table.specs.View.{insn_view};
ghost use Rattle.insn_terms.specs.Reading as Plain;

use crate::opcodes::{insn_by, plain_opcode, test_opcode};
use beam_table::Insn;
use erl_base::{Name, NoMemory};
use erl_term::Term;
use operand_read::{atom_of, bare_label, elements_of, is_word};
use std::alloc::Global;
use term_read::Unread;

/// The instruction that a term stands for, if there is one.
pub fn read_insn(alloc: Global, term: &Term) -> Result<Option<Insn>, NoMemory>
    requires { IsNormal term.now }
    ensures { IfOk result (λ insn. option_map insn_view insn ≡ Plain.insn_of (view term.now)) }
{
    match insn_of(alloc, term) {
        Ok(insn) => Ok(Some(insn)),
        Err(Unread::Syntax) => Ok(None),
        Err(Unread::NoMemory) => Err(NoMemory),
    }
}

// An atom, or else a tuple.
fn insn_of(alloc: Global, term: &Term) -> Result<Insn, Unread>
    requires { IsNormal term.now }
    ensures { Gives insn_view result (Plain.insn_of (view term.now)) }
{
    match atom_of(term) {
        Ok(name) => insn_named(alloc, name, &[]),
        Err(_) => insn_in(alloc, elements_of(term)?),
    }
}

// An atom with terms behind it.
fn insn_in(alloc: Global, terms: &[Term]) -> Result<Insn, Unread>
    requires { AllNormal terms.now }
    ensures { Gives insn_view result (Plain.insn_in (map view terms.now)) }
{
    let [name, operands @ ..] = terms else {
        return Err(Unread::Syntax);
    };
    let name = atom_of(name)?;
    if operands.is_empty() {
        return Err(Unread::Syntax);
    }
    insn_named(alloc, name, operands)
}

// Behind an atom.
#[tactic(auto, unfolding(insn_terms::specs::Reading::insn_named))]
fn insn_named(alloc: Global, name: &Name, terms: &[Term]) -> Result<Insn, Unread>
    requires { AllNormal terms.now }
    ensures { Gives insn_view result (Plain.insn_named name.now (map view terms.now)) }
{
    if is_word(name, "label") {
        return label_in(terms);
    }
    if is_word(name, "test") {
        return test_in(alloc, terms);
    }
    match plain_opcode(name) {
        None => Err(Unread::Syntax),
        Some(opcode) => insn_by(alloc, opcode, terms),
    }
}

// A label.
fn label_in(terms: &[Term]) -> Result<Insn, Unread>
    requires { AllNormal terms.now }
    ensures { Gives insn_view result (Plain.label_in (map view terms.now)) }
{
    let [label, others @ ..] = terms else {
        return Err(Unread::Syntax);
    };
    let label = bare_label(label)?;
    if !others.is_empty() {
        return Err(Unread::Syntax);
    }
    Ok(Insn::Label(label))
}

// Behind `test`.
fn test_in(alloc: Global, terms: &[Term]) -> Result<Insn, Unread>
    requires { AllNormal terms.now }
    ensures { Gives insn_view result (Plain.test_in (map view terms.now)) }
{
    let [name, operands @ ..] = terms else {
        return Err(Unread::Syntax);
    };
    let name = atom_of(name)?;
    match test_opcode(name) {
        None => Err(Unread::Syntax),
        Some(opcode) => insn_by(alloc, opcode, operands),
    }
}
