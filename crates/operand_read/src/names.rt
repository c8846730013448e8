// Atoms, and functions of any module.
ghost use Rattle.std.specs.Prelude.{◌≡◌, map};
ghost use Rattle.erl_term.specs.Comparing.{AllNormal};
ghost use Rattle.erl_term.specs.View.{view};
ghost use Rattle.erl_term.specs.WellFormed.{IsNormal};
ghost use Rattle.term_read.specs.Reading.{Gives};
ghost use Rattle.beam_table.specs.View.{extern_view};
ghost use Rattle.beam_table.specs.declared.opcode.Kind.TheVariants as K;
ghost use Rattle.insn_terms.specs.Reading as Plain;

use crate::numbers::Arity;
use crate::operand::Operand;
use crate::terms::{atom_of, behind, elements_of, is_word};
use beam_table::Extern;
use erl_base::Name;
use erl_term::Term;
use std::alloc::Global;
use term_read::Unread;

/// The name of a listed function.
#[derive(Drop)]
pub struct Function(pub Name);

/// `{atom,A}`.
#[derive(Drop)]
pub struct Atom(pub Name);

impl Operand for Function {
    ghost kind = { K.Function };

    ghost plain = { λ v. v.0 };

    fn read(alloc: Global, term: &Term) -> Result<Function, Unread> {
        let name = atom_of(term)?;
        Ok(Function(name.copy(alloc)?))
    }
}

impl Operand for Atom {
    ghost kind = { K.Atom };

    ghost plain = { λ v. v.0 };

    fn read(alloc: Global, term: &Term) -> Result<Atom, Unread> {
        let part = behind("atom", term)?;
        let name = atom_of(part)?;
        Ok(Atom(name.copy(alloc)?))
    }
}

impl Operand for Extern {
    ghost kind = { K.Extern };

    ghost plain = { extern_view };

    fn read(alloc: Global, term: &Term) -> Result<Extern, Unread> {
        let elements = elements_of(term)?;
        extern_in(alloc, elements)
    }
}

fn extern_in(alloc: Global, terms: &[Term]) -> Result<Extern, Unread>
    requires { AllNormal terms.now }
    ensures { Gives extern_view result (Plain.extern_in (map view terms.now)) }
{
    let [word, module, name, arity] = terms else {
        return Err(Unread::Syntax);
    };
    let word = atom_of(word)?;
    let module = atom_of(module)?;
    let name = atom_of(name)?;
    let Arity(arity) = Arity::read(alloc, arity)?;
    if !is_word(word, "extfunc") {
        return Err(Unread::Syntax);
    }
    let module = module.copy(alloc)?;
    let name = name.copy(alloc)?;
    Ok(Extern {
        module,
        name,
        arity,
    })
}
