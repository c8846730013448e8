ghost use Rattle.std.specs.Prelude.{◌≡◌, IfOk, All, map};
ghost use Rattle.erl_term.specs.Depth.{deepest};
ghost use Rattle.erl_term.specs.Term as P;
ghost use Rattle.erl_term.specs.Terms.{terms};
ghost use Rattle.shared_term.specs.View.{view, IsWhole};

use crate::value::{Cell, External, Local, Row, Value};
use erl_base::{List, Name, NoMemory, SiteId};
use std::alloc::Global;
use std::cmp::max;
use std::rc::Rc;

/// The cell of an item and what follows it.
#[tactic(auto, unfolding(erl_term::specs::Depth::depths, erl_term::specs::WellFormed::maps_rise))]
pub fn cons(alloc: Global, head: Value, tail: Value) -> Result<Value, NoMemory>
    requires head { IsWhole head }
    requires tail { IsWhole tail }
    ensures cell { IfOk result (λ value. view value ≡ P.cons (view head) (view tail)) }
    ensures whole { IfOk result IsWhole }
{
    let deepest = kept(max(head.depth(), tail.depth_as_rest()))?;
    match Rc::new(
        alloc,
        Cell {
            deepest,
            head,
            tail,
        },
    ) {
        Ok(cell) => Ok(Value::Cons(cell)),
        Err(_) => Err(NoMemory),
    }
}

/// The tuple of elements.
#[tactic(auto, using(crate::proofs::Rows::row_tuple, crate::proofs::Rows::row_tuple_whole))]
pub fn tuple(alloc: Global, items: List<Value>) -> Result<Value, NoMemory>
    requires { All IsWhole items }
    ensures tuple { IfOk result (λ value. view value ≡ P.tuple (terms (map view items))) }
    ensures whole { IfOk result IsWhole }
{
    let row = row_of(items)?;
    match Rc::new(alloc, row) {
        Ok(row) => Ok(Value::Tuple(row)),
        Err(_) => Err(NoMemory),
    }
}

/// The fun of a module, with its site, its arity and what it captured.
#[tactic(auto, using(crate::proofs::Rows::row_fun, crate::proofs::Rows::row_fun_whole))]
pub fn fun_value(
    alloc: Global,
    module: Name,
    site: SiteId,
    arity: u32,
    captured: List<Value>,
) -> Result<Value, NoMemory>
    requires { All IsWhole captured }
    ensures fun { IfOk result (λ value. view value ≡ P.fun «module» site.0 arity (terms (map view captured))) }
    ensures whole { IfOk result IsWhole }
{
    let captured = row_of(captured)?;
    let fun = Local {
        module,
        site,
        arity,
        captured,
    };
    match Rc::new(alloc, fun) {
        Ok(fun) => Ok(Value::Fun(fun)),
        Err(_) => Err(NoMemory),
    }
}

/// The fun that names a function of a module.
#[tactic(auto, unfolding(erl_term::specs::WellFormed::maps_rise))]
pub fn extern_value(alloc: Global, module: Name, name: Name, arity: u32) -> Result<Value, NoMemory>
    ensures fun { IfOk result (λ value. view value ≡ P.extern «module» name arity) }
    ensures whole { IfOk result IsWhole }
{
    match Rc::new(
        alloc,
        External {
            module,
            name,
            arity,
        },
    ) {
        Ok(fun) => Ok(Value::Extern(fun)),
        Err(_) => Err(NoMemory),
    }
}

/// An atom.
#[tactic(auto, unfolding(erl_term::specs::WellFormed::maps_rise))]
pub fn atom(alloc: Global, name: Name) -> Result<Value, NoMemory>
    ensures atom { IfOk result (λ value. view value ≡ P.atom name) }
    ensures whole { IfOk result IsWhole }
{
    match Rc::new(alloc, name) {
        Ok(name) => Ok(Value::Atom(name)),
        Err(_) => Err(NoMemory),
    }
}

/// Values in a row, with how deep the deepest nests.
fn row_of(items: List<Value>) -> Result<Row, NoMemory>
    requires { All IsWhole items }
    ensures items { IfOk result (λ row. row.items ≡ items) }
    ensures deepest { IfOk result (λ row. row.deepest ≡ deepest (terms (map view items))) }
{
    let deepest = kept(deepest_of(items.as_slice()))?;
    Ok(Row { deepest, items })
}

/// How deep the deepest of the values nests.
#[tactic(auto, unfolding(erl_term::specs::Depth::depths))]
fn deepest_of(values: &[Value]) -> u64
    requires { All IsWhole values.now }
    ensures { result ≡ deepest (terms (map view values.now)) }
{
    let mut deepest = 0;
    for value in values {
        deepest = max(deepest, value.depth());
    }
    deepest
}

/// A depth as it is kept; one past 2^32 - 1 is refused as a growth without memory is.
pub fn kept(depth: u64) -> Result<u32, NoMemory>
    ensures { IfOk result (λ n. n ≡ depth) }
{
    match u32::try_from(depth) {
        Ok(depth) => Ok(depth),
        Err(_) => Err(NoMemory),
    }
}
