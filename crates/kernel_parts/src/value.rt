// Values and the simple steps that are made of them; a step evaluates nothing else.
ghost use Rattle.std.specs.Prelude.{◌≡◌, IfOk};
ghost use Rattle.kernel_parts.specs.declared.value.KSimple.TheVariants as S;

use bif_table::Bif;
use erl_base::{Duplicate, List, NoMemory, SiteId, VarId};
use erl_term::Term;
use std::alloc::Global;

/// A variable, or a term that is known.
#[derive(Drop)]
pub enum KValue {
    Var(VarId),
    Lit(Term),
}

/// A pair of a map that is built; `exact` where its key has to be there.
#[derive(Drop)]
pub struct KPair {
    pub key: KValue,
    pub value: KValue,
    pub exact: bool,
}

/// A segment of a binary that is built; `whole` where its size was written as the literal `'all'`.
#[derive(Drop)]
pub struct KPart {
    pub value: KValue,
    pub size: KValue,
    pub unit: u32,
    pub signed: bool,
    pub little: bool,
    pub whole: bool,
    pub binary: bool,
}

/// What gives one value. `Fun` makes a fun of a function and the terms that it captured, `Local` calls a function of
/// the module by its site, `Apply` a fun value, `Remote` a function of a module by their names; `Raise` raises again
/// what a trace keeps, and `Fail` raises an error.
#[derive(Drop)]
pub enum KSimple {
    Value(KValue),
    Cons(KValue, KValue),
    Tuple(KValues),
    MapPut(KValue, KPairs),
    Bits(KParts),
    Fun(SiteId, KValues),
    Bif(Bif, KValues),
    Local(SiteId, KValues),
    Apply(KValue, KValues),
    Remote(KValue, KValue, KValues),
    Send(KValue, KValue),
    Trace,
    Raise(KValue, KValue),
    Fail(KValue),
}

pub type Vars = List<VarId>;

pub type KValues = List<KValue>;

pub type KPairs = List<KPair>;

pub type KParts = List<KPart>;

impl KValue {
    pub fn copy(&self, alloc: Global) -> Result<KValue, NoMemory>
        ensures { IfOk result (λ copy. copy ≡ self.now) }
    {
        match self {
            KValue::Var(var) => Ok(KValue::Var(*var)),
            KValue::Lit(term) => Ok(KValue::Lit(term.copy(alloc)?)),
        }
    }
}

impl KPair {
    pub fn copy(&self, alloc: Global) -> Result<KPair, NoMemory>
        ensures { IfOk result (λ copy. copy ≡ self.now) }
    {
        let key = self.key.copy(alloc)?;
        let value = self.value.copy(alloc)?;
        Ok(KPair {
            key,
            value,
            exact: self.exact,
        })
    }
}

impl KPart {
    pub fn copy(&self, alloc: Global) -> Result<KPart, NoMemory>
        ensures { IfOk result (λ copy. copy ≡ self.now) }
    {
        let value = self.value.copy(alloc)?;
        let size = self.size.copy(alloc)?;
        Ok(KPart {
            value,
            size,
            unit: self.unit,
            signed: self.signed,
            little: self.little,
            whole: self.whole,
            binary: self.binary,
        })
    }
}

impl KSimple {
    pub fn copy(&self, alloc: Global) -> Result<KSimple, NoMemory>
        ensures { IfOk result (λ copy. copy ≡ self.now) }
    {
        match self {
            KSimple::Value(value) => Ok(KSimple::Value(value.copy(alloc)?)),
            KSimple::Cons(head, tail) => copy_cons(head, tail, alloc),
            KSimple::Tuple(items) => Ok(KSimple::Tuple(items.copy(alloc)?)),
            KSimple::MapPut(base, pairs) => copy_map_put(base, pairs, alloc),
            KSimple::Bits(parts) => Ok(KSimple::Bits(parts.copy(alloc)?)),
            KSimple::Fun(site, captured) => Ok(KSimple::Fun(*site, captured.copy(alloc)?)),
            KSimple::Bif(bif, arguments) => Ok(KSimple::Bif(*bif, arguments.copy(alloc)?)),
            KSimple::Local(site, arguments) => Ok(KSimple::Local(*site, arguments.copy(alloc)?)),
            KSimple::Apply(function, arguments) => copy_apply(function, arguments, alloc),
            KSimple::Remote(module, function, arguments) => {
                copy_remote(module, function, arguments, alloc)
            }
            KSimple::Send(to, message) => copy_send(to, message, alloc),
            KSimple::Trace => Ok(KSimple::Trace),
            KSimple::Raise(trace, reason) => copy_raise(trace, reason, alloc),
            KSimple::Fail(reason) => Ok(KSimple::Fail(reason.copy(alloc)?)),
        }
    }
}

// A step with several parts has a function of its own, which keeps the proof of the match over all steps small.
fn copy_cons(head: &KValue, tail: &KValue, alloc: Global) -> Result<KSimple, NoMemory>
    ensures { IfOk result (λ copy. copy ≡ S.Cons head.now tail.now) }
{
    let head = head.copy(alloc)?;
    Ok(KSimple::Cons(head, tail.copy(alloc)?))
}

fn copy_map_put(base: &KValue, pairs: &KPairs, alloc: Global) -> Result<KSimple, NoMemory>
    ensures { IfOk result (λ copy. copy ≡ S.MapPut base.now pairs.now) }
{
    let base = base.copy(alloc)?;
    Ok(KSimple::MapPut(base, pairs.copy(alloc)?))
}

fn copy_apply(function: &KValue, arguments: &KValues, alloc: Global) -> Result<KSimple, NoMemory>
    ensures { IfOk result (λ copy. copy ≡ S.Apply function.now arguments.now) }
{
    let function = function.copy(alloc)?;
    Ok(KSimple::Apply(function, arguments.copy(alloc)?))
}

fn copy_remote(
    module_name: &KValue,
    function: &KValue,
    arguments: &KValues,
    alloc: Global,
) -> Result<KSimple, NoMemory>
    ensures { IfOk result (λ copy. copy ≡ S.Remote module_name.now function.now arguments.now) }
{
    let module = module_name.copy(alloc)?;
    let function = function.copy(alloc)?;
    Ok(KSimple::Remote(module, function, arguments.copy(alloc)?))
}

fn copy_send(to: &KValue, message: &KValue, alloc: Global) -> Result<KSimple, NoMemory>
    ensures { IfOk result (λ copy. copy ≡ S.Send to.now message.now) }
{
    let to = to.copy(alloc)?;
    Ok(KSimple::Send(to, message.copy(alloc)?))
}

fn copy_raise(trace: &KValue, reason: &KValue, alloc: Global) -> Result<KSimple, NoMemory>
    ensures { IfOk result (λ copy. copy ≡ S.Raise trace.now reason.now) }
{
    let trace = trace.copy(alloc)?;
    Ok(KSimple::Raise(trace, reason.copy(alloc)?))
}

impl Duplicate for KValue {
    fn copy(&self, alloc: Global) -> Result<KValue, NoMemory> {
        KValue::copy(self, alloc)
    }
}

impl Duplicate for KPair {
    fn copy(&self, alloc: Global) -> Result<KPair, NoMemory> {
        KPair::copy(self, alloc)
    }
}

impl Duplicate for KPart {
    fn copy(&self, alloc: Global) -> Result<KPart, NoMemory> {
        KPart::copy(self, alloc)
    }
}

impl Duplicate for KSimple {
    fn copy(&self, alloc: Global) -> Result<KSimple, NoMemory> {
        KSimple::copy(self, alloc)
    }
}
