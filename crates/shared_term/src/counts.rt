// How many parts a value has, and how many arguments a fun takes.
ghost use Rattle.std.specs.Prelude.{◌≡◌};
ghost use Rattle.shared_term.specs.Parts.{bit_count_of, key_count_of, fun_arity_of};
ghost use Rattle.shared_term.specs.View.{view, IsWhole};

use crate::value::Value;

impl Value {
    /// How many bits a bit string has.
    #[tactic(auto, using(crate::proofs::Bits::bits_counted))]
    pub fn bit_len(&self) -> Option<u64>
        requires { IsWhole self.now }
        ensures { result ≡ bit_count_of (view self.now) }
    {
        match self {
            Value::Bits(range) => Some(range.length),
            Value::Int(_)
            | Value::Atom(_)
            | Value::Nil
            | Value::Cons(_)
            | Value::Tuple(_)
            | Value::Map(_)
            | Value::Fun(_)
            | Value::Extern(_)
            | Value::Pid(_)
            | Value::Reference(_)
            | Value::Port(_)
            | Value::RawTrace(_) => None,
        }
    }

    /// How many keys a map has.
    #[tactic(auto)]
    pub fn map_len(&self) -> Option<usize>
        ensures { result ≡ key_count_of (view self.now) }
    {
        match self {
            Value::Map(map) => Some(map.pairs.len()),
            Value::Int(_)
            | Value::Atom(_)
            | Value::Nil
            | Value::Cons(_)
            | Value::Tuple(_)
            | Value::Bits(_)
            | Value::Fun(_)
            | Value::Extern(_)
            | Value::Pid(_)
            | Value::Reference(_)
            | Value::Port(_)
            | Value::RawTrace(_) => None,
        }
    }

    /// How many arguments a fun takes.
    #[tactic(auto)]
    pub fn fun_arity(&self) -> Option<u32>
        ensures { result ≡ fun_arity_of (view self.now) }
    {
        match self {
            Value::Fun(fun) => Some(fun.arity),
            Value::Extern(fun) => Some(fun.arity),
            Value::Int(_)
            | Value::Atom(_)
            | Value::Nil
            | Value::Cons(_)
            | Value::Tuple(_)
            | Value::Map(_)
            | Value::Bits(_)
            | Value::Pid(_)
            | Value::Reference(_)
            | Value::Port(_)
            | Value::RawTrace(_) => None,
        }
    }
}
