// Operands.
ghost use Rattle.std.specs.Prelude.{◌≡◌, IfOk};

use crate::small::SmallList;
use erl_base::{Duplicate, NoMemory, VarId};
use erl_term::Term;
use std::alloc::Global;

/// An operand: a variable's value, or a literal.
#[derive(Debug, Drop)]
pub enum Arg {
    Var(VarId),
    Lit(Term),
}

impl Default for Arg {
    fn default() -> Arg {
        Arg::Lit(Term::Nil)
    }
}

/// Operands in order.
pub type Args = SmallList<Arg>;

impl Arg {
    pub fn copy(&self, alloc: Global) -> Result<Arg, NoMemory>
        ensures { IfOk result (λ copy. copy ≡ self.now) }
    {
        match self {
            Arg::Var(var) => Ok(Arg::Var(*var)),
            Arg::Lit(term) => Ok(Arg::Lit(term.copy(alloc)?)),
        }
    }
}

impl Duplicate for Arg {
    fn copy(&self, alloc: Global) -> Result<Arg, NoMemory> {
        Arg::copy(self, alloc)
    }
}
