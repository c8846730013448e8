// What is read: registers, atoms, integers, `nil` and literals.
ghost use Rattle.std.specs.Prelude.{◌≡◌, map};
ghost use Rattle.erl_term.specs.Comparing.{AllNormal};
ghost use Rattle.erl_term.specs.View.{view};
ghost use Rattle.erl_term.specs.WellFormed.{IsNormal};
ghost use Rattle.term_read.specs.Reading.{Gives};
ghost use Rattle.beam_table.specs.View.{source_view};
ghost use Rattle.beam_table.specs.declared.opcode.Kind.TheVariants as K;
ghost use Rattle.insn_terms.specs.Reading as Plain;

use crate::operand::Operand;
use crate::registers::{register_behind, register_named};
use crate::terms::{atom_of, elements_of, integer_of, is_word};
use beam_table::Source;
use erl_base::{Boxed, Name};
use erl_term::Term;
use std::alloc::Global;
use term_read::Unread;

impl Operand for Source {
    ghost kind = { K.Source };

    ghost plain = { source_view };

    fn read(alloc: Global, term: &Term) -> Result<Source, Unread> {
        match atom_of(term) {
            Ok(word) => nil_source(word),
            Err(_) => source_in(alloc, elements_of(term)?),
        }
    }
}

fn nil_source(word: &Name) -> Result<Source, Unread>
    ensures { Gives source_view result (Plain.nil_source word.now) }
{
    if is_word(word, "nil") {
        Ok(Source::Nil)
    } else {
        Err(Unread::Syntax)
    }
}

// The elements of what is read.
fn source_in(alloc: Global, terms: &[Term]) -> Result<Source, Unread>
    requires { AllNormal terms.now }
    ensures { Gives source_view result (Plain.source_in (map view terms.now)) }
{
    let [tag, part, rest @ ..] = terms else {
        return Err(Unread::Syntax);
    };
    let tag = atom_of(tag)?;
    let [_known, others @ ..] = rest else {
        return source_named(alloc, tag, part);
    };
    if !others.is_empty() {
        return Err(Unread::Syntax);
    }
    let register = register_behind(tag, part)?;
    Ok(Source::Reg(register))
}

// By an atom and what stands behind it.
fn source_named(alloc: Global, tag: &Name, part: &Term) -> Result<Source, Unread>
    requires { IsNormal part.now }
    ensures { Gives source_view result (Plain.source_named tag.now (view part.now)) }
{
    if is_word(tag, "atom") {
        let name = atom_of(part)?;
        return Ok(Source::Atom(name.copy(alloc)?));
    }
    if is_word(tag, "integer") {
        let number = integer_of(part)?;
        return Ok(Source::Integer(number));
    }
    if is_word(tag, "literal") {
        let literal = part.copy(alloc)?;
        return Ok(Source::Literal(Boxed::new(alloc, literal)?));
    }
    let register = register_named(tag, part)?;
    Ok(Source::Reg(register))
}
