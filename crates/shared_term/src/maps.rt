// The pairs of a map: a key is sought by halves, and a pair that is put in copies pairs, and not what they hold.
ghost use Rattle.std.specs.Prelude.{◌≡◌, ◌++◌, IfOk, IfErr, IfSome, OnOk, All, map, option_map};
ghost use Rattle.erl_term.specs.Depth.{deepest_pair};
ghost use Rattle.erl_term.specs.Term as P;
ghost use Rattle.erl_term.specs.Terms.{put, value_at};
ghost use Rattle.shared_term.specs.Parts.{value_of, put_of};
ghost use Rattle.shared_term.specs.Places.{IsFound, IsMissing, IsRoom};
ghost use Rattle.shared_term.specs.View.{view, pair_view, pair_row, IsWhole, IsPairWhole, AreMapPairs};

use crate::build::kept;
use crate::order::compare;
use crate::value::{MapPairs, Value, ValuePair};
use erl_base::{List, NoMemory};
use std::alloc::Global;
use std::cmp::{Ordering, max};
use std::rc::Rc;

impl Value {
    /// The value of a key in a map; None where the map has no such key, or the value is no map.
    pub fn get(&self, key: &Value) -> Option<&Value>
        requires whole { IsWhole self.now }
        requires key { IsWhole key.now }
        ensures found { option_map (λ value. view value.now) result ≡ value_of (view key.now) (view self.now) }
        ensures whole { IfSome result (λ value. IsWhole value.now) }
    {
        match self {
            Value::Map(map) => get_pair(map.pairs.as_slice(), key),
            Value::Int(_)
            | Value::Atom(_)
            | Value::Nil
            | Value::Cons(_)
            | Value::Tuple(_)
            | Value::Bits(_)
            | Value::Fun(_)
            | Value::Extern(_)
            | Value::Pid(_)
            | Value::Reference(_)
            | Value::Port(_)
            | Value::RawTrace(_) => None,
        }
    }
}

fn get_pair<'a>(pairs: &'a [ValuePair], key: &Value) -> Option<&'a Value>
    requires pairs { AreMapPairs pairs.now }
    requires key { IsWhole key.now }
    ensures found { option_map (λ value. view value.now) result ≡ value_at (pair_row pairs.now) (view key.now) }
    ensures whole { IfSome result (λ value. IsWhole value.now) }
{
    match find(pairs, key) {
        Ok(at) => Some(&pairs[at].value),
        Err(_) => None,
    }
}

/// The map with this value at this key; None where it is no map.
pub fn put(alloc: Global, map: &Value, key: Value, value: Value) -> Result<Option<Value>, NoMemory>
    requires map { IsWhole map.now }
    requires key { IsWhole key }
    requires value { IsWhole value }
    ensures put { IfOk result (λ new. option_map view new ≡ put_of (view key) (view value) (view map.now)) }
    ensures whole { IfOk result (λ new. IfSome new IsWhole) }
{
    match map {
        Value::Map(map) => Ok(Some(put_pair(
            alloc,
            map.pairs.as_slice(),
            ValuePair { key, value },
        )?)),
        Value::Int(_)
        | Value::Atom(_)
        | Value::Nil
        | Value::Cons(_)
        | Value::Tuple(_)
        | Value::Bits(_)
        | Value::Fun(_)
        | Value::Extern(_)
        | Value::Pid(_)
        | Value::Reference(_)
        | Value::Port(_)
        | Value::RawTrace(_) => Ok(None),
    }
}

fn put_pair(alloc: Global, pairs: &[ValuePair], pair: ValuePair) -> Result<Value, NoMemory>
    requires pairs { AreMapPairs pairs.now }
    requires pair { IsPairWhole pair }
    ensures map { IfOk result (λ new. view new ≡ P.map (put (view pair.key) (view pair.value) (pair_row pairs.now))) }
    ensures whole { IfOk result IsWhole }
{
    let (first, last) = room(pairs, &pair.key);
    let mut all = List::new(alloc);
    share_pairs(&mut all, &pairs[..first])?;
    all.push(pair)?;
    share_pairs(&mut all, &pairs[last..])?;
    map_value(alloc, all)
}

/// The map of pairs that rise by their keys.
pub fn map_value(alloc: Global, pairs: List<ValuePair>) -> Result<Value, NoMemory>
    requires { AreMapPairs pairs }
    ensures map { IfOk result (λ value. view value ≡ P.map (pair_row pairs)) }
    ensures whole { IfOk result IsWhole }
{
    let deepest = kept(deepest_of_pairs(pairs.as_slice()))?;
    match Rc::new(alloc, MapPairs { deepest, pairs }) {
        Ok(map) => Ok(Value::Map(map)),
        Err(_) => Err(NoMemory),
    }
}

/// How deep the deepest key or value nests.
#[tactic(auto, unfolding(erl_term::specs::Depth::depths))]
fn deepest_of_pairs(pairs: &[ValuePair]) -> u64
    requires { All IsPairWhole pairs.now }
    ensures { result ≡ deepest_pair (pair_row pairs.now) }
{
    let mut deepest = 0;
    for pair in pairs {
        deepest = max(deepest, max(pair.key.depth(), pair.value.depth()));
    }
    deepest
}

/// Adds pairs behind others.
fn share_pairs(all: &mut List<ValuePair>, pairs: &[ValuePair]) -> Result<(), NoMemory>
    requires all { All IsPairWhole all.old }
    requires pairs { All IsPairWhole pairs.now }
    ensures added { OnOk result (map pair_view all.new ≡ map pair_view all.old ++ map pair_view pairs.now) }
    ensures whole { OnOk result (All IsPairWhole all.new) }
{
    for pair in pairs {
        all.push(share_pair(pair)?)?;
    }
    Ok(())
}

fn share_pair(pair: &ValuePair) -> Result<ValuePair, NoMemory>
    requires { IsPairWhole pair.now }
    ensures same { IfOk result (λ copy. pair_view copy ≡ pair_view pair.now) }
    ensures whole { IfOk result IsPairWhole }
{
    Ok(ValuePair {
        key: pair.key.share()?,
        value: pair.value.share()?,
    })
}

/// How many pairs stand before the key, and where those behind it begin.
fn room(pairs: &[ValuePair], key: &Value) -> (usize, usize)
    requires pairs { AreMapPairs pairs.now }
    requires key { IsWhole key.now }
    ensures { IsRoom (view key.now) pairs.now result.0 result.1 }
{
    match find(pairs, key) {
        Ok(at) => (at, at + 1),
        Err(at) => (at, at),
    }
}

/// Where the key stands among the pairs, or where it would.
fn find(pairs: &[ValuePair], key: &Value) -> Result<usize, usize>
    requires pairs { AreMapPairs pairs.now }
    requires key { IsWhole key.now }
    ensures found { IfOk result (IsFound (view key.now) pairs.now) }
    ensures missing { IfErr result (IsMissing (view key.now) pairs.now) }
{
    let mut low = 0;
    let mut high = pairs.len();
    while low < high {
        let middle = low + (high - low) / 2;
        match compare(key, &pairs[middle].key) {
            Ordering::Less => high = middle,
            Ordering::Equal => return Ok(middle),
            Ordering::Greater => low = middle + 1,
        }
    }
    Err(low)
}
