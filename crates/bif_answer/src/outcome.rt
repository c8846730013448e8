// What is answered, and the makers of answers.
ghost use Rattle.std.specs.Prelude.{◌≡◌, ℤ, IfOk, FitsSigned, chars};
ghost use Rattle.std.specs.Int.{w128};
ghost use Rattle.std.specs.Option.{SomeIff};
ghost use Rattle.erl_term.specs.Term as P;
ghost use Rattle.erl_term.specs.Terms as W;
ghost use Rattle.bif_table.specs.BuiltinAnswer as B;
ghost use Rattle.shared_term.specs.View.{view, IsWhole};
ghost use Rattle.bif_answer.specs.Answers.{Answers, answer_view, bounded, Holds};

use erl_base::{List, Name, NoMemory};
use erl_term::Class;
use shared_term::{Value, atom, tuple};
use std::alloc::Global;

/// What a listed function answers: a value, or a class and a reason, or an integer past 128 signed bits.
#[derive(Drop)]
pub enum BifAnswer<T> {
    Value(T),
    Raises(Class, T),
    Wide,
}

/// An answer whose parts are shared.
pub type Answered = Result<BifAnswer<Value>, NoMemory>;

/// The number.
#[tactic(auto, using(crate::proofs::Fitting::bounded_within), unfolding(erl_term::specs::WellFormed::maps_rise))]
pub fn integer(number: i128) -> BifAnswer<Value>
    ensures answers { answer_view result ≡ bounded (B.value (P.int number)) }
    ensures whole { Holds IsWhole result }
{
    BifAnswer::Value(Value::Int(number))
}

/// The number where it has 128 signed bits.
#[tactic(auto, using(crate::proofs::Fitting::bounded_past))]
pub fn integer_or_wide(number: Option<i128>) -> BifAnswer<Value>
    ensures answers { (z : ℤ) → SomeIff number (FitsSigned w128 z) z
        → answer_view result ≡ bounded (B.value (P.int z)) }
    ensures whole { Holds IsWhole result }
{
    match number {
        Some(number) => integer(number),
        None => BifAnswer::Wide,
    }
}

/// How many there are.
pub fn counted(number: u64) -> BifAnswer<Value>
    ensures answers { answer_view result ≡ bounded (B.number_of number) }
    ensures whole { Holds IsWhole result }
{
    integer(number as i128)
}

/// A value that is held elsewhere too.
#[tactic(auto, using(crate::proofs::Fitting::bounded_other))]
pub fn shared(value: &Value) -> Answered
    requires { IsWhole value.now }
    ensures answers { Answers result (B.value (view value.now)) }
    ensures whole { IfOk result (Holds IsWhole) }
{
    match value {
        Value::Int(number) => Ok(integer(*number)),
        Value::Atom(_)
        | Value::Nil
        | Value::Cons(_)
        | Value::Tuple(_)
        | Value::Map(_)
        | Value::Bits(_)
        | Value::Fun(_)
        | Value::Extern(_)
        | Value::Pid(_)
        | Value::Reference(_)
        | Value::Port(_)
        | Value::RawTrace(_) => Ok(BifAnswer::Value(value.share()?)),
    }
}

fn word(alloc: Global, text: &str) -> Result<Value, NoMemory>
    ensures word { IfOk result (λ value. view value ≡ W.word (chars text.now)) }
    ensures whole { IfOk result IsWhole }
{
    atom(alloc, Name::from_text(alloc, text)?)
}

/// `true` or `false`.
#[tactic(auto, using(crate::proofs::Names::spelled))]
pub fn truth(alloc: Global, holds: bool) -> Answered
    ensures answers { Answers result (B.value (W.truth holds)) }
    ensures whole { IfOk result (Holds IsWhole) }
{
    if holds {
        Ok(BifAnswer::Value(word(alloc, "true")?))
    } else {
        Ok(BifAnswer::Value(word(alloc, "false")?))
    }
}

/// An argument of arithmetic is no number, or the divisor is 0.
#[tactic(auto, using(crate::proofs::Names::spelled))]
pub fn badarith(alloc: Global) -> Answered
    ensures answers { Answers result B.badarith }
    ensures whole { IfOk result (Holds IsWhole) }
{
    Ok(BifAnswer::Raises(Class::Error, word(alloc, "badarith")?))
}

/// An argument is not of the right kind.
#[tactic(auto, using(crate::proofs::Names::spelled))]
pub fn badarg(alloc: Global) -> Answered
    ensures answers { Answers result B.bad_argument }
    ensures whole { IfOk result (Holds IsWhole) }
{
    Ok(BifAnswer::Raises(Class::Error, word(alloc, "badarg")?))
}

/// What should be a map is none.
#[tactic(auto, using(crate::proofs::Names::spelled))]
pub fn badmap(alloc: Global, value: &Value) -> Answered
    requires { IsWhole value.now }
    ensures answers { Answers result (B.badmap (view value.now)) }
    ensures whole { IfOk result (Holds IsWhole) }
{
    Ok(BifAnswer::Raises(Class::Error, tagged(alloc, "badmap", value)?))
}

/// A map has no such key.
#[tactic(auto, using(crate::proofs::Names::spelled))]
pub fn badkey(alloc: Global, key: &Value) -> Answered
    requires { IsWhole key.now }
    ensures answers { Answers result (B.badkey (view key.now)) }
    ensures whole { IfOk result (Holds IsWhole) }
{
    Ok(BifAnswer::Raises(Class::Error, tagged(alloc, "badkey", key)?))
}

/// The pair of an atom and a value.
fn tagged(alloc: Global, text: &str, value: &Value) -> Result<Value, NoMemory>
    requires { IsWhole value.now }
    ensures pair { IfOk result (λ pair. view pair ≡ W.tagged (chars text.now) (view value.now)) }
    ensures whole { IfOk result IsWhole }
{
    let mut items = List::new(alloc);
    items.push(word(alloc, text)?)?;
    items.push(value.share()?)?;
    tuple(alloc, items)
}
