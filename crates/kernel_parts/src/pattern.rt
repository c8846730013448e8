// Patterns. A decision tree holds them only in its segments, where each is `Any`, `Var` or `Lit`.
ghost use Rattle.std.specs.Prelude.{◌≡◌, IfOk};

use crate::value::KValue;
use erl_base::{Boxed, Duplicate, List, NoMemory, VarId};
use erl_term::Term;
use std::alloc::Global;

#[cycle(pattern)]
#[derive(Drop)]
pub enum KPat {
    Any,
    Var(VarId),
    Lit(Term),
    Cons(Boxed<KPat>, Boxed<KPat>),
    Tuple(KPats),
    Map(KKeyPats),
    Bits(KSegs),
    Alias(VarId, Boxed<KPat>),
}

/// A segment of a binary that is matched; `whole` where its size was written as the literal `'all'`.
#[cycle(pattern)]
#[derive(Drop)]
pub struct KSeg {
    pub value: KPat,
    pub size: KValue,
    pub unit: u32,
    pub signed: bool,
    pub little: bool,
    pub whole: bool,
    pub binary: bool,
}

/// A key of a map and what its value matches.
#[cycle(pattern)]
#[derive(Drop)]
pub struct KKeyPat {
    pub key: KValue,
    pub pat: KPat,
}

pub type KPats = List<KPat>;

pub type KSegs = List<KSeg>;

pub type KKeyPats = List<KKeyPat>;

impl KPat {
    #[cycle(copy)]
    pub fn copy(&self, alloc: Global) -> Result<KPat, NoMemory>
        ensures { IfOk result (λ copy. copy ≡ self.now) }
    {
        match self {
            KPat::Any => Ok(KPat::Any),
            KPat::Var(var) => Ok(KPat::Var(*var)),
            KPat::Lit(term) => Ok(KPat::Lit(term.copy(alloc)?)),
            KPat::Cons(head, tail) => {
                let head = copy_boxed(head.get(), alloc)?;
                Ok(KPat::Cons(head, copy_boxed(tail.get(), alloc)?))
            }
            KPat::Tuple(items) => Ok(KPat::Tuple(copy_pats(items.as_slice(), alloc)?)),
            KPat::Map(keys) => Ok(KPat::Map(copy_keys(keys.as_slice(), alloc)?)),
            KPat::Bits(segs) => Ok(KPat::Bits(copy_segs(segs.as_slice(), alloc)?)),
            KPat::Alias(var, pat) => Ok(KPat::Alias(*var, copy_boxed(pat.get(), alloc)?)),
        }
    }
}

#[cycle(copy)]
fn copy_boxed(pat: &KPat, alloc: Global) -> Result<Boxed<KPat>, NoMemory>
    ensures { IfOk result (λ copy. copy ≡ pat.now) }
{
    let copy = pat.copy(alloc)?;
    Boxed::new(alloc, copy)
}

#[cycle(copy)]
fn copy_pats(pats: &[KPat], alloc: Global) -> Result<KPats, NoMemory>
    ensures { IfOk result (λ copy. copy ≡ pats.now) }
{
    let mut copy = List::new(alloc);
    for pat in pats {
        copy.push(pat.copy(alloc)?)?;
    }
    Ok(copy)
}

impl KSeg {
    #[cycle(copy)]
    pub fn copy(&self, alloc: Global) -> Result<KSeg, NoMemory>
        ensures { IfOk result (λ copy. copy ≡ self.now) }
    {
        let value = self.value.copy(alloc)?;
        let size = self.size.copy(alloc)?;
        Ok(KSeg {
            value,
            size,
            unit: self.unit,
            signed: self.signed,
            little: self.little,
            whole: self.whole,
            binary: self.binary,
        })
    }
}

#[cycle(copy)]
fn copy_segs(segs: &[KSeg], alloc: Global) -> Result<KSegs, NoMemory>
    ensures { IfOk result (λ copy. copy ≡ segs.now) }
{
    let mut copy = List::new(alloc);
    for seg in segs {
        copy.push(seg.copy(alloc)?)?;
    }
    Ok(copy)
}

impl KKeyPat {
    #[cycle(copy)]
    pub fn copy(&self, alloc: Global) -> Result<KKeyPat, NoMemory>
        ensures { IfOk result (λ copy. copy ≡ self.now) }
    {
        let key = self.key.copy(alloc)?;
        let pat = self.pat.copy(alloc)?;
        Ok(KKeyPat { key, pat })
    }
}

#[cycle(copy)]
fn copy_keys(keys: &[KKeyPat], alloc: Global) -> Result<KKeyPats, NoMemory>
    ensures { IfOk result (λ copy. copy ≡ keys.now) }
{
    let mut copy = List::new(alloc);
    for key in keys {
        copy.push(key.copy(alloc)?)?;
    }
    Ok(copy)
}

impl Duplicate for KPat {
    fn copy(&self, alloc: Global) -> Result<KPat, NoMemory> {
        KPat::copy(self, alloc)
    }
}

impl Duplicate for KSeg {
    fn copy(&self, alloc: Global) -> Result<KSeg, NoMemory> {
        KSeg::copy(self, alloc)
    }
}

impl Duplicate for KKeyPat {
    fn copy(&self, alloc: Global) -> Result<KKeyPat, NoMemory> {
        KKeyPat::copy(self, alloc)
    }
}
