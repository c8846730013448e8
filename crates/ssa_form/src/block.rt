// Basic blocks.
ghost use Rattle.std.specs.Prelude.{◌≡◌, IfOk, take};

use crate::args::Arg;
use erl_base::{BlockId, ChainId, Duplicate, List, NoMemory, VarId};
use erl_term::Term;
use std::alloc::Global;

/// The value that a phi takes from each block that leads to its own.
pub type Edges = List<(BlockId, Arg)>;

pub type SwitchChoices = List<(Term, BlockId)>;

/// A variable whose value is chosen by the block that control comes from.
#[derive(Drop)]
pub struct Phi {
    pub dst: VarId,
    pub from: Edges,
}

pub type Phis = List<Phi>;

/// Where a block leads. `Br` goes by a truth value, `Switch` to the first equal literal's block or else to its own.
/// `Succeeded` goes to its first block if the set just before gave a value or held, else to its second; after a
/// `TryStart` the second is the block where raises land.
#[derive(Drop)]
pub enum Last {
    Br(Arg, BlockId, BlockId),
    Succeeded(VarId, BlockId, BlockId),
    Switch(Arg, BlockId, SwitchChoices),
    Ret(Arg),
}

/// Phis, then the sets of a chain in order, then the last.
#[derive(Drop)]
pub struct Block {
    pub phis: Phis,
    pub chain: ChainId,
    pub last: Last,
}

impl Duplicate for Phi {
    fn copy(&self, alloc: Global) -> Result<Phi, NoMemory> {
        let from = copy_edges(self.from.as_slice(), alloc)?;
        Ok(Phi {
            dst: self.dst,
            from,
        })
    }
}

fn copy_edges(edges: &[(BlockId, Arg)], alloc: Global) -> Result<Edges, NoMemory>
    ensures { IfOk result (λ copy. copy ≡ edges.now) }
{
    let mut copy = List::new(alloc);
    for edge in edges {
        let arg = edge.1.copy(alloc)?;
        copy.push((edge.0, arg))?;
    }
    Ok(copy)
}

fn copy_choices(choices: &[(Term, BlockId)], alloc: Global) -> Result<SwitchChoices, NoMemory>
    ensures { IfOk result (λ copy. copy ≡ choices.now) }
{
    let mut copy = List::new(alloc);
    for choice in choices {
        let value = choice.0.copy(alloc)?;
        copy.push((value, choice.1))?;
    }
    Ok(copy)
}

impl Duplicate for Last {
    fn copy(&self, alloc: Global) -> Result<Last, NoMemory> {
        match self {
            Last::Br(arg, then, other) => Ok(Last::Br(arg.copy(alloc)?, *then, *other)),
            Last::Succeeded(var, then, other) => Ok(Last::Succeeded(*var, *then, *other)),
            Last::Switch(arg, other, choices) => {
                let arg = arg.copy(alloc)?;
                let choices = copy_choices(choices.as_slice(), alloc)?;
                Ok(Last::Switch(arg, *other, choices))
            }
            Last::Ret(arg) => Ok(Last::Ret(arg.copy(alloc)?)),
        }
    }
}
