ghost use Rattle.std.specs.Prelude.{◌≡◌, IfOk};

use erl_base::{Boxed, Duplicate, LabelId, List, Name, NoMemory};
use erl_term::Term;
use std::alloc::Global;

/// A register: X registers belong to the run, Y registers are the slots of the current frame.
#[derive(Clone, Copy, Debug, PartialEq, Eq)]
pub enum Reg {
    X(u32),
    Y(u32),
}

/// What is read. Only `Atom` of the name `all` says "the whole" as a size; the literal `all` does not.
#[derive(Debug, Drop)]
pub enum Source {
    Reg(Reg),
    Atom(Name),
    Integer(i128),
    Nil,
    Literal(Boxed<Term>),
}

/// A function of any module, written `{extfunc,M,F,A}`.
#[derive(Debug, Drop)]
pub struct Extern {
    pub module: Name,
    pub name: Name,
    pub arity: u32,
}

/// How the bits of a segment are read as a number. Unsigned and big are written where neither is set.
#[derive(Clone, Copy, Debug, PartialEq, Eq)]
pub struct Flags {
    pub signed: bool,
    pub little: bool,
}

/// The type of a segment that is built.
#[derive(Clone, Copy, Debug, PartialEq, Eq)]
pub enum SegmentKind {
    Integer,
    Binary,
}

/// A segment that is built; its number is written and not used.
#[derive(Debug, Drop)]
pub struct Segment {
    pub kind: SegmentKind,
    pub number: u32,
    pub unit: u32,
    pub flags: Flags,
    pub value: Source,
    pub size: Source,
}

/// A pair that is put into a map.
#[derive(Debug, Drop)]
pub struct PutPair {
    pub key: Source,
    pub value: Source,
}

/// A key, and the register that its value goes to.
#[derive(Debug, Drop)]
pub struct GetPair {
    pub key: Source,
    pub to: Reg,
}

/// A value, and where it leads.
#[derive(Debug, Drop)]
pub struct ValueChoice {
    pub value: Source,
    pub label: LabelId,
}

/// A size of tuples, and where it leads.
#[derive(Clone, Copy, Debug, PartialEq, Eq)]
pub struct SizeChoice {
    pub size: u32,
    pub label: LabelId,
}

/// Numbers of Y registers.
pub type Slots = List<u32>;

/// Operands in a row.
pub type Sources = List<Source>;

/// The segments of a bit string that is built.
pub type BuiltSegments = List<Segment>;

/// Pairs that are put into a map.
pub type PutPairs = List<PutPair>;

/// Keys with registers.
pub type GetPairs = List<GetPair>;

/// Values with labels.
pub type ValueChoices = List<ValueChoice>;

/// Sizes with labels.
pub type SizeChoices = List<SizeChoice>;

impl Source {
    pub fn copy(&self, alloc: Global) -> Result<Source, NoMemory>
        ensures { IfOk result (λ source. source ≡ self.now) }
    {
        match self {
            Source::Reg(reg) => Ok(Source::Reg(*reg)),
            Source::Atom(name) => Ok(Source::Atom(name.copy(alloc)?)),
            Source::Integer(number) => Ok(Source::Integer(*number)),
            Source::Nil => Ok(Source::Nil),
            Source::Literal(term) => Ok(Source::Literal(term.copy(alloc)?)),
        }
    }
}

impl Extern {
    pub fn copy(&self, alloc: Global) -> Result<Extern, NoMemory>
        ensures { IfOk result (λ function. function ≡ self.now) }
    {
        Ok(Extern {
            module: self.module.copy(alloc)?,
            name: self.name.copy(alloc)?,
            arity: self.arity,
        })
    }
}

impl Duplicate for Source {
    fn copy(&self, alloc: Global) -> Result<Source, NoMemory> {
        Source::copy(self, alloc)
    }
}

impl Duplicate for Segment {
    fn copy(&self, alloc: Global) -> Result<Segment, NoMemory> {
        let (value, size) = copy_both(&self.value, &self.size, alloc)?;
        Ok(Segment {
            kind: self.kind,
            number: self.number,
            unit: self.unit,
            flags: self.flags,
            value,
            size,
        })
    }
}

impl Duplicate for PutPair {
    fn copy(&self, alloc: Global) -> Result<PutPair, NoMemory> {
        let (key, value) = copy_both(&self.key, &self.value, alloc)?;
        Ok(PutPair { key, value })
    }
}

impl Duplicate for GetPair {
    fn copy(&self, alloc: Global) -> Result<GetPair, NoMemory> {
        Ok(GetPair {
            key: self.key.copy(alloc)?,
            to: self.to,
        })
    }
}

impl Duplicate for ValueChoice {
    fn copy(&self, alloc: Global) -> Result<ValueChoice, NoMemory> {
        Ok(ValueChoice {
            value: self.value.copy(alloc)?,
            label: self.label,
        })
    }
}

impl Duplicate for SizeChoice {
    fn copy(&self, _alloc: Global) -> Result<SizeChoice, NoMemory> {
        Ok(*self)
    }
}

// Copies of two operands.
pub(crate) fn copy_both<A: Duplicate + Drop, B: Duplicate + Drop>(
    one: &A,
    other: &B,
    alloc: Global,
) -> Result<(A, B), NoMemory>
    ensures one { IfOk result (λ both. both.0 ≡ one.now) }
    ensures other { IfOk result (λ both. both.1 ≡ other.now) }
{
    let one = one.copy(alloc)?;
    let other = other.copy(alloc)?;
    Ok((one, other))
}
