// Arithmetic. A number past 128 signed bits is found out before it is made.
ghost use Rattle.std.specs.Prelude.{◌≡◌, ◌+ℤ◌, ◌-ℤ◌, ◌*ℤ◌, neg_ℤ, pos, nat_abs, IfOk, IsFalse, MatchOption, ◌&&◌};
ghost use Rattle.erl_term.specs.Term as P;
ghost use Rattle.bif_table.specs.BuiltinAnswer as B;
ghost use Rattle.bif_table.specs.Kinds.{is_int};
ghost use Rattle.shared_term.specs.View.{view, IsWhole};
ghost use Rattle.bif_answer.specs.Answers.{Answers, Holds};

use crate::outcome::{Answered, BifAnswer, badarg, badarith, integer, integer_or_wide};
use shared_term::Value;
use std::alloc::Global;

/// The number that a value is.
pub fn int_in(value: &Value) -> Option<i128>
    ensures { MatchOption result (IsFalse (is_int (view value.now))) (λ number. view value.now ≡ P.int number) }
{
    match value {
        Value::Int(number) => Some(*number),
        Value::Atom(_)
        | Value::Nil
        | Value::Cons(_)
        | Value::Tuple(_)
        | Value::Map(_)
        | Value::Bits(_)
        | Value::Fun(_)
        | Value::Extern(_)
        | Value::Pid(_)
        | Value::Reference(_)
        | Value::Port(_)
        | Value::RawTrace(_) => None,
    }
}

/// The numbers that two values are.
pub fn ints_in(a: &Value, b: &Value) -> Option<(i128, i128)>
    ensures { MatchOption result (IsFalse (is_int (view a.now) && is_int (view b.now)))
        (λ both. (view a.now ≡ P.int both.0) × (view b.now ≡ P.int both.1)) }
{
    match (int_in(a), int_in(b)) {
        (Some(x), Some(y)) => Some((x, y)),
        (None, _) | (Some(_), None) => None,
    }
}

#[tactic(auto, using(crate::proofs::Plain::numbers))]
pub fn plus(alloc: Global, a: &Value) -> Answered
    ensures answers { Answers result (B.of_number (λ x. x) (view a.now) B.badarith) }
    ensures whole { IfOk result (Holds IsWhole) }
{
    match int_in(a) {
        Some(x) => Ok(integer(x)),
        None => badarith(alloc),
    }
}

#[tactic(auto, using(crate::proofs::Plain::numbers))]
pub fn negate(alloc: Global, a: &Value) -> Answered
    ensures answers { Answers result (B.of_number neg_ℤ (view a.now) B.badarith) }
    ensures whole { IfOk result (Holds IsWhole) }
{
    match int_in(a) {
        Some(x) => Ok(integer_or_wide(x.checked_neg())),
        None => badarith(alloc),
    }
}

#[tactic(auto, using(crate::proofs::Plain::numbers))]
pub fn abs(alloc: Global, a: &Value) -> Answered
    ensures answers { Answers result (B.of_number (λ x. pos (nat_abs x)) (view a.now) B.bad_argument) }
    ensures whole { IfOk result (Holds IsWhole) }
{
    match int_in(a) {
        Some(x) if x < 0 => Ok(integer_or_wide(x.checked_neg())),
        Some(x) => Ok(integer(x)),
        None => badarg(alloc),
    }
}

/// The whole part of a number, rounded in whichever way: all numbers are whole.
#[tactic(auto, using(crate::proofs::Plain::numbers))]
pub fn rounded(alloc: Global, a: &Value) -> Answered
    ensures answers { Answers result (B.of_number (λ x. x) (view a.now) B.bad_argument) }
    ensures whole { IfOk result (Holds IsWhole) }
{
    match int_in(a) {
        Some(x) => Ok(integer(x)),
        None => badarg(alloc),
    }
}

#[tactic(auto, using(crate::proofs::Plain::numbers))]
pub fn add(alloc: Global, a: &Value, b: &Value) -> Answered
    ensures answers { Answers result (B.number_by (λ x y. x +ℤ y) (view a.now) (view b.now)) }
    ensures whole { IfOk result (Holds IsWhole) }
{
    match ints_in(a, b) {
        Some((x, y)) => Ok(integer_or_wide(x.checked_add(y))),
        None => badarith(alloc),
    }
}

#[tactic(auto, using(crate::proofs::Plain::numbers))]
pub fn subtract(alloc: Global, a: &Value, b: &Value) -> Answered
    ensures answers { Answers result (B.number_by (λ x y. x -ℤ y) (view a.now) (view b.now)) }
    ensures whole { IfOk result (Holds IsWhole) }
{
    match ints_in(a, b) {
        Some((x, y)) => Ok(integer_or_wide(x.checked_sub(y))),
        None => badarith(alloc),
    }
}

#[tactic(auto, using(crate::proofs::Plain::numbers))]
pub fn multiply(alloc: Global, a: &Value, b: &Value) -> Answered
    ensures answers { Answers result (B.number_by (λ x y. x *ℤ y) (view a.now) (view b.now)) }
    ensures whole { IfOk result (Holds IsWhole) }
{
    match ints_in(a, b) {
        Some((x, y)) => Ok(integer_or_wide(x.checked_mul(y))),
        None => badarith(alloc),
    }
}

/// Rounded towards zero.
#[tactic(auto, using(crate::proofs::Plain::numbers))]
pub fn divide(alloc: Global, a: &Value, b: &Value) -> Answered
    ensures answers { Answers result (B.quotient (view a.now) (view b.now)) }
    ensures whole { IfOk result (Holds IsWhole) }
{
    match ints_in(a, b) {
        Some((_, 0)) => badarith(alloc),
        Some((x, y)) => Ok(integer_or_wide(x.checked_div(y))),
        None => badarith(alloc),
    }
}

/// With the sign of the dividend.
#[tactic(auto, using(crate::proofs::Plain::numbers))]
pub fn remainder(alloc: Global, a: &Value, b: &Value) -> Answered
    ensures answers { Answers result (B.remainder (view a.now) (view b.now)) }
    ensures whole { IfOk result (Holds IsWhole) }
{
    match ints_in(a, b) {
        Some((_, 0)) => badarith(alloc),
        Some((x, y)) => Ok(integer(x.wrapping_rem(y))),
        None => badarith(alloc),
    }
}
