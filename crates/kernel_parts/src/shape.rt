// What a decision tree asks of a term: its shape, and steps on its bits.
ghost use Rattle.std.specs.Prelude.{◌≡◌, IfOk};

use crate::pattern::KSeg;
use crate::value::KValue;
use erl_base::{Duplicate, NoMemory, VarId};
use erl_term::Term;
use std::alloc::Global;

/// `MapHas` is a map that has the key; its part is the key's value.
#[derive(Drop)]
pub enum Shape {
    Lit(Term),
    Cons,
    Tuple(u32),
    MapHas(KValue),
}

/// A step on the bits of a term. `Start` opens the bits of a variable as a context, `Integer` and `Bits` take a segment
/// from a context, `Done` wants that nothing is left, `Mark` keeps the position and `Back` goes back to it.
#[derive(Drop)]
pub enum BinStep {
    Start(VarId, VarId),
    Integer(VarId, KSeg),
    Bits(VarId, KSeg),
    Done(VarId),
    Mark(VarId, VarId),
    Back(VarId, VarId),
}

impl Shape {
    pub fn copy(&self, alloc: Global) -> Result<Shape, NoMemory>
        ensures { IfOk result (λ copy. copy ≡ self.now) }
    {
        match self {
            Shape::Lit(term) => Ok(Shape::Lit(term.copy(alloc)?)),
            Shape::Cons => Ok(Shape::Cons),
            Shape::Tuple(size) => Ok(Shape::Tuple(*size)),
            Shape::MapHas(key) => Ok(Shape::MapHas(key.copy(alloc)?)),
        }
    }
}

impl BinStep {
    pub fn copy(&self, alloc: Global) -> Result<BinStep, NoMemory>
        ensures { IfOk result (λ copy. copy ≡ self.now) }
    {
        match self {
            BinStep::Start(from, context) => Ok(BinStep::Start(*from, *context)),
            BinStep::Integer(context, seg) => Ok(BinStep::Integer(*context, seg.copy(alloc)?)),
            BinStep::Bits(context, seg) => Ok(BinStep::Bits(*context, seg.copy(alloc)?)),
            BinStep::Done(context) => Ok(BinStep::Done(*context)),
            BinStep::Mark(context, position) => Ok(BinStep::Mark(*context, *position)),
            BinStep::Back(context, position) => Ok(BinStep::Back(*context, *position)),
        }
    }
}

impl Duplicate for Shape {
    fn copy(&self, alloc: Global) -> Result<Shape, NoMemory> {
        Shape::copy(self, alloc)
    }
}

impl Duplicate for BinStep {
    fn copy(&self, alloc: Global) -> Result<BinStep, NoMemory> {
        BinStep::copy(self, alloc)
    }
}
