// Sizes and parts of compound terms, records, and funs of an arity.
ghost use Rattle.std.specs.Prelude.{◌≡◌, ◌+◌, ◌/◌, ◌<◌, ◌≤◌, ℕ, suc, pos, IfOk, MatchOption};
ghost use Rattle.erl_term.specs.Term as P;
ghost use Rattle.bif_table.specs.BuiltinAnswer as B;
ghost use Rattle.shared_term.specs.View.{view, IsWhole};
ghost use Rattle.bif_answer.specs.Answers.{Answers, Holds};

use crate::numbers::int_in;
use crate::outcome::{Answered, badarg, badkey, badmap, counted, shared, truth};
use erl_base::NoMemory;
use shared_term::Value;
use std::alloc::Global;

#[tactic(auto, using(crate::proofs::Plain::sizes))]
pub fn tuple_size(alloc: Global, a: &Value) -> Answered
    requires { IsWhole a.now }
    ensures answers { Answers result (B.tuple_size (view a.now)) }
    ensures whole { IfOk result (Holds IsWhole) }
{
    match a.tuple_len() {
        Some(count) => Ok(counted(count as u64)),
        None => badarg(alloc),
    }
}

/// Of a tuple its elements, of bits their whole bytes.
#[tactic(auto, using(crate::proofs::Plain::sizes))]
pub fn size(alloc: Global, a: &Value) -> Answered
    requires { IsWhole a.now }
    ensures answers { Answers result (B.size (view a.now)) }
    ensures whole { IfOk result (Holds IsWhole) }
{
    match (a.tuple_len(), a.bit_len()) {
        (Some(count), _) => Ok(counted(count as u64)),
        (None, Some(bits)) => Ok(counted(bits / 8)),
        (None, None) => badarg(alloc),
    }
}

/// In bytes, rounded up.
#[tactic(auto, using(crate::proofs::Plain::sizes))]
pub fn byte_size(alloc: Global, a: &Value) -> Answered
    requires { IsWhole a.now }
    ensures answers { Answers result (B.bits_size (λ n. (n + 7) / 8) (view a.now)) }
    ensures whole { IfOk result (Holds IsWhole) }
{
    match a.bit_len() {
        Some(bits) => Ok(counted(bits.div_ceil(8))),
        None => badarg(alloc),
    }
}

#[tactic(auto, using(crate::proofs::Plain::sizes))]
pub fn bit_size(alloc: Global, a: &Value) -> Answered
    requires { IsWhole a.now }
    ensures answers { Answers result (B.bits_size (λ n. n) (view a.now)) }
    ensures whole { IfOk result (Holds IsWhole) }
{
    match a.bit_len() {
        Some(bits) => Ok(counted(bits)),
        None => badarg(alloc),
    }
}

/// The items of a list that ends in nil, in a loop. More than 2^64 - 1 are refused as a growth without memory is.
#[tactic(auto, using(crate::proofs::Plain::lists))]
pub fn length(alloc: Global, a: &Value) -> Answered
    requires { IsWhole a.now }
    ensures answers { Answers result (B.items 0 (view a.now)) }
    ensures whole { IfOk result (Holds IsWhole) }
{
    let mut count: u64 = 0;
    let mut at = a;
    'along: while let Some(rest) = at.tail() {
        count = match count.checked_add(1) {
            Some(count) => count,
            None => return Err(NoMemory),
        };
        at = rest;
    }
    match at {
        Value::Nil => Ok(counted(count)),
        Value::Int(_)
        | Value::Atom(_)
        | Value::Cons(_)
        | Value::Tuple(_)
        | Value::Map(_)
        | Value::Bits(_)
        | Value::Fun(_)
        | Value::Extern(_)
        | Value::Pid(_)
        | Value::Reference(_)
        | Value::Port(_)
        | Value::RawTrace(_) => badarg(alloc),
    }
}

#[tactic(auto, using(crate::proofs::Plain::sizes))]
pub fn map_size(alloc: Global, a: &Value) -> Answered
    requires { IsWhole a.now }
    ensures answers { Answers result (B.map_size (view a.now)) }
    ensures whole { IfOk result (Holds IsWhole) }
{
    match a.map_len() {
        Some(count) => Ok(counted(count as u64)),
        None => badmap(alloc, a),
    }
}

/// The first item of a list.
#[tactic(auto, using(crate::proofs::Plain::lists))]
pub fn head(alloc: Global, a: &Value) -> Answered
    requires { IsWhole a.now }
    ensures answers { Answers result (B.head (view a.now)) }
    ensures whole { IfOk result (Holds IsWhole) }
{
    match a.head() {
        Some(item) => shared(item),
        None => badarg(alloc),
    }
}

/// And the rest.
#[tactic(auto, using(crate::proofs::Plain::lists))]
pub fn tail(alloc: Global, a: &Value) -> Answered
    requires { IsWhole a.now }
    ensures answers { Answers result (B.tail (view a.now)) }
    ensures whole { IfOk result (Holds IsWhole) }
{
    match a.tail() {
        Some(rest) => shared(rest),
        None => badarg(alloc),
    }
}

/// The element of a tuple, counted from 1.
#[tactic(auto, using(crate::proofs::Plain::no_elements))]
pub fn element(alloc: Global, at: &Value, tuple: &Value) -> Answered
    requires at { IsWhole at.now }
    requires tuple { IsWhole tuple.now }
    ensures answers { Answers result (B.element (view at.now) (view tuple.now)) }
    ensures whole { IfOk result (Holds IsWhole) }
{
    match tuple.elements() {
        Some(elements) => match place_in(at, elements.len()) {
            Some(at) => shared(&elements[at]),
            None => badarg(alloc),
        },
        None => badarg(alloc),
    }
}

/// The place from 0 on that a value says from 1 on, where there are that many.
fn place_in(at: &Value, count: usize) -> Option<usize>
    ensures { MatchOption result ((n : ℕ) → view at.now ≡ P.int (pos (suc n)) → count ≤ n)
        (λ n. (view at.now ≡ P.int (pos (suc n))) × (n < count)) }
{
    match int_in(at) {
        Some(at) => place(at, count),
        None => None,
    }
}

/// A place from 1 on as one from 0 on, where there are that many.
fn place(at: i128, count: usize) -> Option<usize>
    ensures { MatchOption result ((n : ℕ) → at ≡ pos (suc n) → count ≤ n) (λ n. (at ≡ pos (suc n)) × (n < count)) }
{
    if 1 <= at && at <= count as i128 {
        Some((at - 1) as usize)
    } else {
        None
    }
}

/// Whether a map has the key.
#[tactic(auto, using(crate::proofs::Plain::keys))]
pub fn is_map_key(alloc: Global, key: &Value, map: &Value) -> Answered
    requires key { IsWhole key.now }
    requires map { IsWhole map.now }
    ensures answers { Answers result (B.is_map_key (view key.now) (view map.now)) }
    ensures whole { IfOk result (Holds IsWhole) }
{
    match map.map_len() {
        Some(_) => truth(alloc, map.get(key).is_some()),
        None => badmap(alloc, map),
    }
}

/// The value of a key.
#[tactic(auto, using(crate::proofs::Plain::keys))]
pub fn map_get(alloc: Global, key: &Value, map: &Value) -> Answered
    requires key { IsWhole key.now }
    requires map { IsWhole map.now }
    ensures answers { Answers result (B.map_get (view key.now) (view map.now)) }
    ensures whole { IfOk result (Holds IsWhole) }
{
    match (map.map_len(), map.get(key)) {
        (Some(_), Some(value)) => shared(value),
        (Some(_), None) => badkey(alloc, key),
        (None, _) => badmap(alloc, map),
    }
}
