// Bits of numbers in endless two's complement, and shifts, whose powers are never made where they can not be held.
ghost use Rattle.std.specs.Prelude.{◌≡◌, ◌<◌, ◌^◌, ◌/◌, ◌*ℤ◌, ◌+◌, pos, negsuc, IfOk, FitsSigned};
ghost use Rattle.std.specs.Int.{w128};
ghost use Rattle.std.specs.Option.{SomeIff};
ghost use Rattle.bif_table.specs.BuiltinAnswer as B;
ghost use Rattle.bif_table.specs.TwosComplement as C;
ghost use Rattle.shared_term.specs.View.{view, IsWhole};
ghost use Rattle.bif_answer.specs.Answers.{Answers, Holds};
ghost use Rattle.bif_answer.specs.Endless.{endless_view, endless_number};

use crate::numbers::{int_in, ints_in};
use crate::outcome::{Answered, badarith, integer, integer_or_wide};
use shared_term::Value;
use std::alloc::Global;

/// A number as endless two's complement has it: a number's bits behind zeros, or the opposite of them behind ones.
#[derive(Clone, Copy)]
enum Endless {
    Zeros(u128),
    Ones(u128),
}

fn endless_of(number: i128) -> Endless
    ensures view { endless_view result ≡ number }
    ensures bound { endless_number result < 2 ^ 127 }
{
    if number < 0 {
        Endless::Ones(!number as u128)
    } else {
        Endless::Zeros(number as u128)
    }
}

/// The number of these bits behind zeros.
fn zeros(bits: u128) -> i128
    requires { bits < 2 ^ 127 }
    ensures { result ≡ pos bits }
{
    bits as i128
}

/// The number of the opposite of these bits behind ones.
fn ones(bits: u128) -> i128
    requires { bits < 2 ^ 127 }
    ensures { result ≡ negsuc bits }
{
    !(bits as i128)
}

fn complement(number: i128) -> i128
    ensures { result ≡ C.int_not number }
{
    match endless_of(number) {
        Endless::Zeros(n) => ones(n),
        Endless::Ones(n) => zeros(n),
    }
}

#[tactic(auto, using(crate::proofs::Powers::below))]
fn and_bits(x: i128, y: i128) -> i128
    ensures { result ≡ C.int_and x y }
{
    match (endless_of(x), endless_of(y)) {
        (Endless::Zeros(a), Endless::Zeros(b)) => zeros(a & b),
        (Endless::Zeros(a), Endless::Ones(b)) => zeros(a - (a & b)),
        (Endless::Ones(a), Endless::Zeros(b)) => zeros(b - (a & b)),
        (Endless::Ones(a), Endless::Ones(b)) => ones(a | b),
    }
}

#[tactic(auto, using(crate::proofs::Powers::below))]
fn or_bits(x: i128, y: i128) -> i128
    ensures { result ≡ C.int_or x y }
{
    match (endless_of(x), endless_of(y)) {
        (Endless::Zeros(a), Endless::Zeros(b)) => zeros(a | b),
        (Endless::Zeros(a), Endless::Ones(b)) => ones(b - (a & b)),
        (Endless::Ones(a), Endless::Zeros(b)) => ones(a - (a & b)),
        (Endless::Ones(a), Endless::Ones(b)) => ones(a & b),
    }
}

#[tactic(auto, using(crate::proofs::Powers::below))]
fn xor_bits(x: i128, y: i128) -> i128
    ensures { result ≡ C.int_xor x y }
{
    match (endless_of(x), endless_of(y)) {
        (Endless::Zeros(a), Endless::Zeros(b)) => zeros(a ^ b),
        (Endless::Zeros(a), Endless::Ones(b)) => ones(a ^ b),
        (Endless::Ones(a), Endless::Zeros(b)) => ones(a ^ b),
        (Endless::Ones(a), Endless::Ones(b)) => zeros(a ^ b),
    }
}

/// 2^k.
#[tactic(auto, using(crate::proofs::Powers::held))]
fn power(k: u128) -> i128
    requires { k < 127 }
    ensures { result ≡ pos (2 ^ k) }
{
    zeros(1 << k)
}

/// The number times 2^k, where it has 128 signed bits.
#[tactic(auto, using(crate::proofs::Powers::past_power))]
fn raised_by(number: i128, k: u128) -> Option<i128>
    ensures { let exact = number *ℤ pos (2 ^ k) in SomeIff result (FitsSigned w128 exact) exact }
{
    if k < 127 {
        number.checked_mul(power(k))
    } else if number == 0 {
        Some(0)
    } else if k == 127 && number == -1 {
        Some(i128::MIN)
    } else {
        None
    }
}

/// n divided by 2^k.
#[tactic(auto, using(crate::proofs::Powers::none_left))]
fn without_low(n: u128, k: u128) -> u128
    requires { n < 2 ^ 127 }
    ensures value { result ≡ n / 2 ^ k }
    ensures bound { result < 2 ^ 127 }
{
    if k < 127 { n >> k } else { 0 }
}

/// The number divided by 2^k, rounded down.
fn halved(number: i128, k: u128) -> i128
    ensures { result ≡ C.halved number k }
{
    match endless_of(number) {
        Endless::Zeros(n) => zeros(without_low(n, k)),
        Endless::Ones(n) => ones(without_low(n, k)),
    }
}

fn shifted_left(number: i128, by: i128) -> Option<i128>
    ensures { let exact = C.shift_left number by in SomeIff result (FitsSigned w128 exact) exact }
{
    match endless_of(by) {
        Endless::Zeros(k) => raised_by(number, k),
        Endless::Ones(k) => Some(halved(number, k + 1)),
    }
}

fn shifted_right(number: i128, by: i128) -> Option<i128>
    ensures { let exact = C.shift_right number by in SomeIff result (FitsSigned w128 exact) exact }
{
    match endless_of(by) {
        Endless::Zeros(k) => Some(halved(number, k)),
        Endless::Ones(k) => raised_by(number, k + 1),
    }
}

#[tactic(auto, using(crate::proofs::Plain::numbers))]
pub fn bnot(alloc: Global, a: &Value) -> Answered
    ensures answers { Answers result (B.of_number C.int_not (view a.now) B.badarith) }
    ensures whole { IfOk result (Holds IsWhole) }
{
    match int_in(a) {
        Some(x) => Ok(integer(complement(x))),
        None => badarith(alloc),
    }
}

#[tactic(auto, using(crate::proofs::Plain::numbers))]
pub fn band(alloc: Global, a: &Value, b: &Value) -> Answered
    ensures answers { Answers result (B.number_by C.int_and (view a.now) (view b.now)) }
    ensures whole { IfOk result (Holds IsWhole) }
{
    match ints_in(a, b) {
        Some((x, y)) => Ok(integer(and_bits(x, y))),
        None => badarith(alloc),
    }
}

#[tactic(auto, using(crate::proofs::Plain::numbers))]
pub fn bor(alloc: Global, a: &Value, b: &Value) -> Answered
    ensures answers { Answers result (B.number_by C.int_or (view a.now) (view b.now)) }
    ensures whole { IfOk result (Holds IsWhole) }
{
    match ints_in(a, b) {
        Some((x, y)) => Ok(integer(or_bits(x, y))),
        None => badarith(alloc),
    }
}

#[tactic(auto, using(crate::proofs::Plain::numbers))]
pub fn bxor(alloc: Global, a: &Value, b: &Value) -> Answered
    ensures answers { Answers result (B.number_by C.int_xor (view a.now) (view b.now)) }
    ensures whole { IfOk result (Holds IsWhole) }
{
    match ints_in(a, b) {
        Some((x, y)) => Ok(integer(xor_bits(x, y))),
        None => badarith(alloc),
    }
}

/// A negative shift goes the other way.
#[tactic(auto, using(crate::proofs::Plain::numbers))]
pub fn bsl(alloc: Global, a: &Value, b: &Value) -> Answered
    ensures answers { Answers result (B.number_by C.shift_left (view a.now) (view b.now)) }
    ensures whole { IfOk result (Holds IsWhole) }
{
    match ints_in(a, b) {
        Some((x, y)) => Ok(integer_or_wide(shifted_left(x, y))),
        None => badarith(alloc),
    }
}

/// Rounded down; a negative shift goes the other way.
#[tactic(auto, using(crate::proofs::Plain::numbers))]
pub fn bsr(alloc: Global, a: &Value, b: &Value) -> Answered
    ensures answers { Answers result (B.number_by C.shift_right (view a.now) (view b.now)) }
    ensures whole { IfOk result (Holds IsWhole) }
{
    match ints_in(a, b) {
        Some((x, y)) => Ok(integer_or_wide(shifted_right(x, y))),
        None => badarith(alloc),
    }
}
