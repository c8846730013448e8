// What stands behind the name of an instruction: operands, each of its kind, and rows of them.
ghost use Rattle.std.specs.Prelude.{◌≡◌, map, [], ◌∷◌, List};
ghost use Rattle.erl_term.specs.Comparing.{AllNormal};
ghost use Rattle.erl_term.specs.View.{view};
ghost use Rattle.erl_term.specs.WellFormed.{IsNormal};
ghost use Rattle.term_read.specs.Reading.{Gives};
ghost use Rattle.beam_table.specs.declared.opcode.Kind.{Kind};
ghost use Rattle.insn_terms.specs.Reading.{value_of, values_of};
ghost use Rattle.insn_terms.specs.Values.{Value, Values};

use erl_term::Term;
use std::alloc::Global;
use term_read::Unread;

/// An operand of one kind.
pub trait Operand: Drop {
    ghost kind: { Kind };

    ghost plain: { Self → Value kind };

    fn read(alloc: Global, term: &Term) -> Result<Self, Unread>
        requires { IsNormal term.now }
        ensures { Gives plain result (value_of kind (view term.now)) };
}

/// Operands in a row, each of its kind.
pub trait Row: Drop {
    ghost kinds: { List Kind };

    ghost plain: { Self → Values kinds };

    fn read(alloc: Global, terms: &[Term]) -> Result<Self, Unread>
        requires { AllNormal terms.now }
        ensures { Gives plain result (values_of kinds (map view terms.now)) };
}

impl Row for () {
    ghost kinds = { [] };

    ghost plain = { λ v. tt };

    fn read(_alloc: Global, terms: &[Term]) -> Result<(), Unread> {
        match terms {
            [] => Ok(()),
            [_, ..] => Err(Unread::Syntax),
        }
    }
}

impl<A: Operand, B: Row> Row for (A, B) {
    ghost kinds = { A.kind ∷ B.kinds };

    ghost plain = { λ v. (A.plain v.0, B.plain v.1) };

    fn read(alloc: Global, terms: &[Term]) -> Result<(A, B), Unread> {
        let [first, others @ ..] = terms else {
            return Err(Unread::Syntax);
        };
        let first = A::read(alloc, first)?;
        let others = B::read(alloc, others)?;
        Ok((first, others))
    }
}
