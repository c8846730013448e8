// Registers, and what is read.
ghost use Rattle.std.specs.Prelude.{◌≡◌};
ghost use Rattle.erl_term.specs.View.{view};
ghost use Rattle.erl_term.specs.WellFormed.{IsNormal};
ghost use Rattle.term_read.specs.Reading.{Gives};
ghost use Rattle.beam_table.specs.View.{reg_view};
ghost use Rattle.beam_table.specs.declared.opcode.Kind.TheVariants as K;
ghost use Rattle.insn_terms.specs.Reading as Plain;

use crate::operand::Operand;
use crate::terms::{atom_of, elements_of, is_word, number_of, pair_of};
use beam_table::Reg;
use erl_base::Name;
use erl_term::Term;
use std::alloc::Global;
use term_read::Unread;

/// The greatest number of an X register.
const MOST_X: u128 = 1022;

/// Slots and other counts stay below.
const COUNTS: u128 = 16777216;

impl Operand for Reg {
    ghost kind = { K.Register };

    ghost plain = { reg_view };

    fn read(_alloc: Global, term: &Term) -> Result<Reg, Unread> {
        register_of(term)
    }
}

/// A register, alone or with a type.
pub fn register_of(term: &Term) -> Result<Reg, Unread>
    requires { IsNormal term.now }
    ensures { Gives reg_view result (Plain.register_of (view term.now)) }
{
    let [tag, part, rest @ ..] = elements_of(term)? else {
        return Err(Unread::Syntax);
    };
    let tag = atom_of(tag)?;
    let [_known, others @ ..] = rest else {
        return register_named(tag, part);
    };
    if !others.is_empty() {
        return Err(Unread::Syntax);
    }
    register_behind(tag, part)
}

/// A register that there is, by its letter.
pub fn register_named(letter: &Name, part: &Term) -> Result<Reg, Unread>
    requires { IsNormal part.now }
    ensures { Gives reg_view result (Plain.register_named letter.now (view part.now)) }
{
    if is_word(letter, "x") {
        let number = number_of(part)?;
        if number > MOST_X {
            return Err(Unread::Syntax);
        }
        return Ok(Reg::X(number as u32));
    }
    if is_word(letter, "y") {
        let number = number_of(part)?;
        if number >= COUNTS {
            return Err(Unread::Syntax);
        }
        return Ok(Reg::Y(number as u32));
    }
    Err(Unread::Syntax)
}

/// A register without a type, behind `tr`.
pub fn register_behind(tag: &Name, part: &Term) -> Result<Reg, Unread>
    requires { IsNormal part.now }
    ensures { Gives reg_view result (Plain.register_behind tag.now (view part.now)) }
{
    if !is_word(tag, "tr") {
        return Err(Unread::Syntax);
    }
    let (letter, part) = pair_of(part)?;
    register_named(letter, part)
}
