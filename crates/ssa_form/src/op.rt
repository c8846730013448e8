// Operations.
ghost use Rattle.std.specs.Prelude.{◌≡◌, IfOk};

use crate::args::Args;
use bif_table::{Bif, Comparison, TypeTest};
use erl_base::{Duplicate, List, Name, NoMemory, SiteId, VarId};
use std::alloc::Global;

/// A test of the machine, by its name there.
#[derive(Debug, Drop)]
pub enum Check {
    Test(TypeTest),
    Compare(Comparison),
    TestArity(u32),
    IsTaggedTuple(u32, Name),
    HasMapFields,
}

/// What a segment of a bit string says beside its value and size. `whole`: the size was written as the literal `'all'`;
/// an operand that holds this atom does not say so.
#[derive(Clone, Copy, Debug, PartialEq, Eq)]
pub struct Field {
    pub unit: u32,
    pub signed: bool,
    pub little: bool,
    pub whole: bool,
    pub binary: bool,
}

pub type Fields = List<Field>;

/// What a set does with its operands. `MapPut` of true puts keys that are there already. A receive is `Peek` with its
/// number, `Take`, `Skip`, `Wait` and `Reset`; a marker of messages is `Reserve`, `Bind` and `UseMark`.
#[derive(Debug, Drop)]
pub enum Op {
    Copy,
    Bif(Bif),
    Cons,
    Tuple,
    MapPut(bool),
    MapGet,
    Element(u32),
    Hd,
    Tl,
    Check(Check),
    MakeFun(SiteId),
    CallLocal(SiteId),
    CallFun,
    CallRemote,
    Send,
    Trace,
    Raise,
    BsStart,
    BsInteger(Field),
    BsBinary(Field),
    BsSkip(Field),
    BsDone,
    BsUnit(u32),
    BsTail,
    BsPosition,
    BsRestore,
    BsCreate(Fields),
    TryStart,
    TryEnd,
    Landing,
    CatchEnd,
    Peek(u32),
    Take,
    Skip,
    Wait,
    Reset,
    Reserve,
    Bind,
    UseMark,
}

/// One assignment: an operation on operands, and the variable that takes its value, if it is kept.
#[derive(Drop)]
pub struct Set {
    pub dst: Option<VarId>,
    pub op: Op,
    pub args: Args,
}

impl Check {
    pub fn copy(&self, alloc: Global) -> Result<Check, NoMemory>
        ensures { IfOk result (λ copy. copy ≡ self.now) }
    {
        match self {
            Check::Test(test) => Ok(Check::Test(*test)),
            Check::Compare(test) => Ok(Check::Compare(*test)),
            Check::TestArity(size) => Ok(Check::TestArity(*size)),
            Check::IsTaggedTuple(size, name) => {
                Ok(Check::IsTaggedTuple(*size, name.copy(alloc)?))
            }
            Check::HasMapFields => Ok(Check::HasMapFields),
        }
    }
}

impl Duplicate for Field {
    fn copy(&self, _alloc: Global) -> Result<Field, NoMemory> {
        Ok(*self)
    }
}

impl Op {
    pub fn copy(&self, alloc: Global) -> Result<Op, NoMemory>
        ensures { IfOk result (λ copy. copy ≡ self.now) }
    {
        match self {
            Op::Copy => Ok(Op::Copy),
            Op::Bif(bif) => Ok(Op::Bif(*bif)),
            Op::Cons => Ok(Op::Cons),
            Op::Tuple => Ok(Op::Tuple),
            Op::MapPut(exact) => Ok(Op::MapPut(*exact)),
            Op::MapGet => Ok(Op::MapGet),
            Op::Element(place) => Ok(Op::Element(*place)),
            Op::Hd => Ok(Op::Hd),
            Op::Tl => Ok(Op::Tl),
            Op::Check(check) => Ok(Op::Check(check.copy(alloc)?)),
            Op::MakeFun(site) => Ok(Op::MakeFun(*site)),
            Op::CallLocal(site) => Ok(Op::CallLocal(*site)),
            Op::CallFun => Ok(Op::CallFun),
            Op::CallRemote => Ok(Op::CallRemote),
            Op::Send => Ok(Op::Send),
            Op::Trace => Ok(Op::Trace),
            Op::Raise => Ok(Op::Raise),
            Op::BsStart => Ok(Op::BsStart),
            Op::BsInteger(field) => Ok(Op::BsInteger(*field)),
            Op::BsBinary(field) => Ok(Op::BsBinary(*field)),
            Op::BsSkip(field) => Ok(Op::BsSkip(*field)),
            Op::BsDone => Ok(Op::BsDone),
            Op::BsUnit(unit) => Ok(Op::BsUnit(*unit)),
            Op::BsTail => Ok(Op::BsTail),
            Op::BsPosition => Ok(Op::BsPosition),
            Op::BsRestore => Ok(Op::BsRestore),
            Op::BsCreate(fields) => Ok(Op::BsCreate(fields.copy(alloc)?)),
            Op::TryStart => Ok(Op::TryStart),
            Op::TryEnd => Ok(Op::TryEnd),
            Op::Landing => Ok(Op::Landing),
            Op::CatchEnd => Ok(Op::CatchEnd),
            Op::Peek(receive) => Ok(Op::Peek(*receive)),
            Op::Take => Ok(Op::Take),
            Op::Skip => Ok(Op::Skip),
            Op::Wait => Ok(Op::Wait),
            Op::Reset => Ok(Op::Reset),
            Op::Reserve => Ok(Op::Reserve),
            Op::Bind => Ok(Op::Bind),
            Op::UseMark => Ok(Op::UseMark),
        }
    }
}

impl Duplicate for Set {
    fn copy(&self, alloc: Global) -> Result<Set, NoMemory> {
        let op = self.op.copy(alloc)?;
        let args = self.args.copy(alloc)?;
        Ok(Set {
            dst: self.dst,
            op,
            args,
        })
    }
}
