ghost use Rattle.std.specs.Prelude.{◌≡◌, ◌↔◌, IfOk, IsTrue};

use crate::memory::NoMemory;
use crate::name::Name;
use std::alloc::Global;

/// A variable of a renamed module, or of a form made of it.
#[derive(Clone, Copy, Debug, PartialEq, Eq, PartialOrd, Ord)]
pub struct VarId(pub u32);

/// A basic block of one function's body.
#[derive(Clone, Copy, Debug, PartialEq, Eq, PartialOrd, Ord)]
pub struct BlockId(pub u32);

/// A label of the assembly; labels count from 1.
#[derive(Clone, Copy, Debug, PartialEq, Eq, PartialOrd, Ord)]
pub struct LabelId(pub u32);

/// A function of a module: its definitions first, then its other funs in the order of the text.
#[derive(Clone, Copy, Debug, PartialEq, Eq, PartialOrd, Ord)]
pub struct SiteId(pub u32);

/// A list of an arena.
#[derive(Clone, Copy, Debug, PartialEq, Eq, PartialOrd, Ord)]
pub struct ChainId(pub u32);

/// A node of a list of an arena.
#[derive(Clone, Copy, Debug, PartialEq, Eq, PartialOrd, Ord)]
pub struct NodeId(pub u32);

/// The name and arity of a function.
#[derive(Debug, PartialEq, Eq, Hash, Drop)]
pub struct FunKey {
    pub name: Name,
    pub arity: u32,
}

impl FunKey {
    pub fn copy(&self, alloc: Global) -> Result<FunKey, NoMemory>
        ensures { IfOk result (λ key. key ≡ self.now) }
    {
        Ok(FunKey {
            name: self.name.copy(alloc)?,
            arity: self.arity,
        })
    }

    pub fn is(&self, other: &FunKey) -> bool
        ensures { IsTrue result ↔ (self.now ≡ other.now) }
    {
        self.arity == other.arity && self.name.is(&other.name)
    }
}

/// A place in a text: a line and a column, both from 1, the column in characters. 0, 0 is no place.
#[derive(Clone, Copy, Debug, PartialEq, Eq, PartialOrd, Ord)]
pub struct Place {
    pub line: u64,
    pub column: u64,
}
