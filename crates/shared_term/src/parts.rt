ghost use Rattle.std.specs.Prelude.{◌≡◌, ◌+◌, IfSome, IfOk, All, map, length, option_map};
ghost use Rattle.erl_term.specs.Term as P;
ghost use Rattle.erl_term.specs.Terms.{terms};
ghost use Rattle.shared_term.specs.Parts.{head_of, tail_of, elements_of, element_of, captured_of, slice_of};
ghost use Rattle.shared_term.specs.View.{view, IsWhole};

use crate::value::{BitRange, Value};
use erl_base::NoMemory;

impl Value {
    /// The item of a cell.
    #[tactic(auto, unfolding(erl_term::specs::WellFormed::maps_rise))]
    pub fn head(&self) -> Option<&Value>
        requires { IsWhole self.now }
        ensures item { option_map (λ value. view value.now) result ≡ head_of (view self.now) }
        ensures whole { IfSome result (λ value. IsWhole value.now) }
    {
        match self {
            Value::Cons(cell) => Some(&cell.head),
            Value::Int(_)
            | Value::Atom(_)
            | Value::Nil
            | Value::Tuple(_)
            | Value::Map(_)
            | Value::Bits(_)
            | Value::Fun(_)
            | Value::Extern(_)
            | Value::Pid(_)
            | Value::Reference(_)
            | Value::Port(_)
            | Value::RawTrace(_) => None,
        }
    }

    /// What follows the item of a cell.
    #[tactic(auto, unfolding(erl_term::specs::WellFormed::maps_rise))]
    pub fn tail(&self) -> Option<&Value>
        requires { IsWhole self.now }
        ensures rest { option_map (λ value. view value.now) result ≡ tail_of (view self.now) }
        ensures whole { IfSome result (λ value. IsWhole value.now) }
    {
        match self {
            Value::Cons(cell) => Some(&cell.tail),
            Value::Int(_)
            | Value::Atom(_)
            | Value::Nil
            | Value::Tuple(_)
            | Value::Map(_)
            | Value::Bits(_)
            | Value::Fun(_)
            | Value::Extern(_)
            | Value::Pid(_)
            | Value::Reference(_)
            | Value::Port(_)
            | Value::RawTrace(_) => None,
        }
    }

    /// The elements of a tuple.
    #[tactic(auto)]
    pub fn elements(&self) -> Option<&[Value]>
        requires { IsWhole self.now }
        ensures elements { option_map (λ values. map view values.now) result ≡ elements_of (view self.now) }
        ensures whole { IfSome result (λ values. All IsWhole values.now) }
    {
        match self {
            Value::Tuple(row) => Some(row.items.as_slice()),
            Value::Int(_)
            | Value::Atom(_)
            | Value::Nil
            | Value::Cons(_)
            | Value::Map(_)
            | Value::Bits(_)
            | Value::Fun(_)
            | Value::Extern(_)
            | Value::Pid(_)
            | Value::Reference(_)
            | Value::Port(_)
            | Value::RawTrace(_) => None,
        }
    }

    /// How many elements a tuple has.
    #[tactic(auto, using(crate::proofs::Rows::elements_counted))]
    pub fn tuple_len(&self) -> Option<usize>
        requires { IsWhole self.now }
        ensures { result ≡ option_map length (elements_of (view self.now)) }
    {
        match self.elements() {
            Some(elements) => Some(elements.len()),
            None => None,
        }
    }

    /// The element of a tuple at a place, counted from 0.
    #[tactic(auto, using(crate::proofs::Rows::element_got))]
    pub fn element(&self, at: usize) -> Option<&Value>
        requires { IsWhole self.now }
        ensures element { option_map (λ value. view value.now) result ≡ element_of at (view self.now) }
        ensures whole { IfSome result (λ value. IsWhole value.now) }
    {
        match self.elements() {
            Some(elements) if at < elements.len() => Some(&elements[at]),
            Some(_) | None => None,
        }
    }

    /// The terms that a fun of a module captured.
    #[tactic(auto)]
    pub fn captured(&self) -> Option<&[Value]>
        requires { IsWhole self.now }
        ensures captured { option_map (λ values. map view values.now) result ≡ captured_of (view self.now) }
        ensures whole { IfSome result (λ values. All IsWhole values.now) }
    {
        match self {
            Value::Fun(fun) => Some(fun.captured.items.as_slice()),
            Value::Int(_)
            | Value::Atom(_)
            | Value::Nil
            | Value::Cons(_)
            | Value::Tuple(_)
            | Value::Map(_)
            | Value::Bits(_)
            | Value::Extern(_)
            | Value::Pid(_)
            | Value::Reference(_)
            | Value::Port(_)
            | Value::RawTrace(_) => None,
        }
    }
}

impl Value {
    /// `length` bits of a bit string, from the bit `from` on; None where they do not stand there.
    #[tactic(auto)]
    pub fn slice(&self, from: u64, length: u64) -> Result<Option<Value>, NoMemory>
        requires { IsWhole self.now }
        ensures bits { IfOk result (λ value. option_map view value ≡ slice_of from length (view self.now)) }
        ensures whole { IfOk result (λ value. IfSome value IsWhole) }
    {
        match self {
            Value::Bits(range) => {
                if from > range.length || length > range.length - from {
                    return Ok(None);
                }
                // (shaped for the prover: there are fewer than 2^32 bytes, so the sum fits)
                let _count = range.bytes.len();
                Ok(Some(Value::Bits(BitRange {
                    bytes: range.bytes.clone()?,
                    from: range.from + from,
                    length,
                })))
            }
            Value::Int(_)
            | Value::Atom(_)
            | Value::Nil
            | Value::Cons(_)
            | Value::Tuple(_)
            | Value::Map(_)
            | Value::Fun(_)
            | Value::Extern(_)
            | Value::Pid(_)
            | Value::Reference(_)
            | Value::Port(_)
            | Value::RawTrace(_) => Ok(None),
        }
    }
}
