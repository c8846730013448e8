ghost use Rattle.std.specs.Prelude.{◌≡◌, IfOk, All, map};
ghost use Rattle.erl_term.specs.Term as P;
ghost use Rattle.erl_term.specs.Terms.{list_of};
ghost use Rattle.erl_term.specs.View as Kept;
ghost use Rattle.erl_term.specs.WellFormed.{IsWellFormed, IsFull};
ghost use Rattle.erl_term.specs.WellRows.{IsPairWellFormed};
ghost use Rattle.shared_term.specs.Comparing.{IsCellWhole};
ghost use Rattle.shared_term.specs.View.{view, row, pair_view, IsWhole, IsPairWhole};

use crate::build::{atom, cons, extern_value, fun_value, tuple};
use crate::maps::map_value;
use crate::octets::own_bits;
use crate::plain::{fun_term, list_term, map_term, tuple_term};
use crate::value::{BitRange, Cell, Local, Value, ValuePair};
use erl_base::{Duplicate, List, NoMemory};
use erl_term::{Bits, Pair, Pairs, Term, Terms};
use std::alloc::Global;
use std::rc::Rc;

/// The value of a term.
#[cycle(from_term)]
pub fn from_term(alloc: Global, term: &Term) -> Result<Value, NoMemory>
    requires { IsWellFormed term.now }
    ensures same { IfOk result (λ value. view value ≡ Kept.view term.now) }
    ensures whole { IfOk result IsWhole }
{
    match term {
        Term::Int(number) => Ok(Value::Int(*number)),
        Term::Atom(name) => atom(alloc, name.copy(alloc)?),
        Term::Nil => Ok(Value::Nil),
        Term::List(items, tail) => {
            let tail = from_term(alloc, tail.get())?;
            put_before(alloc, items.as_slice(), tail)
        }
        Term::Tuple(items) => tuple(alloc, from_terms(alloc, items.as_slice())?),
        Term::Map(pairs) => map_value(alloc, from_pairs(alloc, pairs.as_slice())?),
        Term::Bits(bits) => from_bits(alloc, bits),
        Term::Fun(module, site, arity, captured) => {
            let captured = from_terms(alloc, captured.as_slice())?;
            fun_value(alloc, module.copy(alloc)?, *site, *arity, captured)
        }
        Term::Extern(module, name, arity) => {
            extern_value(alloc, module.copy(alloc)?, name.copy(alloc)?, *arity)
        }
        Term::Pid(number) => Ok(Value::Pid(*number)),
        Term::Reference(number) => Ok(Value::Reference(*number)),
        Term::Port(number) => Ok(Value::Port(*number)),
        Term::RawTrace(class) => Ok(Value::RawTrace(*class)),
    }
}

#[cycle(from_term)]
fn from_terms(alloc: Global, terms: &[Term]) -> Result<List<Value>, NoMemory>
    requires { All IsWellFormed terms.now }
    ensures same { IfOk result (λ values. map view values ≡ map Kept.view terms.now) }
    ensures whole { IfOk result (λ values. All IsWhole values) }
{
    let mut values = List::new(alloc);
    for term in terms {
        values.push(from_term(alloc, term)?)?;
    }
    Ok(values)
}

#[cycle(from_term)]
fn from_pairs(alloc: Global, pairs: &[Pair]) -> Result<List<ValuePair>, NoMemory>
    requires { All IsPairWellFormed pairs.now }
    ensures same { IfOk result (λ values. map pair_view values ≡ map Kept.pair_view pairs.now) }
    ensures whole { IfOk result (λ values. All IsPairWhole values) }
{
    let mut values = List::new(alloc);
    for pair in pairs {
        let key = from_term(alloc, &pair.key)?;
        let value = from_term(alloc, &pair.value)?;
        values.push(ValuePair { key, value })?;
    }
    Ok(values)
}

/// The items before what follows them, from the last on.
#[cycle(from_term)]
fn put_before(alloc: Global, items: &[Term], tail: Value) -> Result<Value, NoMemory>
    requires items { All IsWellFormed items.now }
    requires tail { IsWhole tail }
    ensures same { IfOk result (λ value. view value ≡ list_of (map Kept.view items.now) (view tail)) }
    ensures whole { IfOk result IsWhole }
{
    let mut list = tail;
    let mut left = items.len();
    while left > 0 {
        left -= 1;
        let item = from_term(alloc, &items[left])?;
        list = cons(alloc, item, list)?;
    }
    Ok(list)
}

fn from_bits(alloc: Global, bits: &Bits) -> Result<Value, NoMemory>
    requires { IsFull bits.now }
    ensures same { IfOk result (λ value. view value ≡ P.bits (Kept.bits_view bits.now)) }
    ensures whole { IfOk result IsWhole }
{
    match Rc::new(alloc, bits.bytes.copy(alloc)?) {
        Ok(bytes) => Ok(Value::Bits(BitRange {
            bytes,
            from: 0,
            length: bits.length,
        })),
        Err(_) => Err(NoMemory),
    }
}

/// The term of a value.
#[cycle(to_term)]
pub fn to_term(alloc: Global, value: &Value) -> Result<Term, NoMemory>
    requires { IsWhole value.now }
    ensures same { IfOk result (λ term. Kept.view term ≡ view value.now) }
    ensures well_formed { IfOk result IsWellFormed }
{
    match value {
        Value::Int(number) => Ok(Term::Int(*number)),
        Value::Atom(name) => Ok(Term::Atom(name.copy(alloc)?)),
        Value::Nil => Ok(Term::Nil),
        Value::Cons(cell) => to_list(alloc, cell),
        Value::Tuple(row) => Ok(tuple_term(to_terms(alloc, row.items.as_slice())?)),
        Value::Map(map) => Ok(map_term(to_pairs(alloc, map.pairs.as_slice())?)),
        Value::Bits(range) => Ok(Term::Bits(own_bits(alloc, range)?)),
        Value::Fun(fun) => to_fun(alloc, fun),
        Value::Extern(fun) => Ok(Term::Extern(
            fun.module.copy(alloc)?,
            fun.name.copy(alloc)?,
            fun.arity,
        )),
        Value::Pid(number) => Ok(Term::Pid(*number)),
        Value::Reference(number) => Ok(Term::Reference(*number)),
        Value::Port(number) => Ok(Term::Port(*number)),
        Value::RawTrace(class) => Ok(Term::RawTrace(*class)),
    }
}

/// The list of a cell, along the cells behind it.
#[cycle(to_term)]
fn to_list(alloc: Global, cell: &Cell) -> Result<Term, NoMemory>
    requires { IsCellWhole cell.now }
    ensures same { IfOk result (λ term. Kept.view term ≡ P.cons (view cell.now.head) (view cell.now.tail)) }
    ensures well_formed { IfOk result IsWellFormed }
{
    let mut items = List::new(alloc);
    let mut at = cell;
    'along: loop {
        items.push(to_term(alloc, &at.head)?)?;
        match &at.tail {
            Value::Cons(next) => at = next,
            tail => {
                let tail = to_term(alloc, tail)?;
                return list_term(alloc, items, tail);
            }
        }
    }
}

#[cycle(to_term)]
fn to_fun(alloc: Global, fun: &Local) -> Result<Term, NoMemory>
    requires { All IsWhole fun.now.captured.items }
    ensures same { IfOk result
        (λ term. Kept.view term ≡ P.fun fun.now.module fun.now.site.0 fun.now.arity (row fun.now.captured.items)) }
    ensures well_formed { IfOk result IsWellFormed }
{
    let captured = to_terms(alloc, fun.captured.items.as_slice())?;
    Ok(fun_term(fun.module.copy(alloc)?, fun.site, fun.arity, captured))
}

#[cycle(to_term)]
fn to_terms(alloc: Global, values: &[Value]) -> Result<Terms, NoMemory>
    requires { All IsWhole values.now }
    ensures same { IfOk result (λ terms. map Kept.view terms ≡ map view values.now) }
    ensures well_formed { IfOk result (λ terms. All IsWellFormed terms) }
{
    let mut terms = List::new(alloc);
    for value in values {
        terms.push(to_term(alloc, value)?)?;
    }
    Ok(terms)
}

#[cycle(to_term)]
fn to_pairs(alloc: Global, values: &[ValuePair]) -> Result<Pairs, NoMemory>
    requires { All IsPairWhole values.now }
    ensures same { IfOk result (λ pairs. map Kept.pair_view pairs ≡ map pair_view values.now) }
    ensures well_formed { IfOk result (λ pairs. All IsPairWellFormed pairs) }
{
    let mut pairs = List::new(alloc);
    for pair in values {
        let key = to_term(alloc, &pair.key)?;
        let value = to_term(alloc, &pair.value)?;
        pairs.push(Pair { key, value })?;
    }
    Ok(pairs)
}
