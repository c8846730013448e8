// Comparisons by the order of terms, and functions of truth values.
ghost use Rattle.std.specs.Prelude.{◌≡◌, ◌↔◌, IfOk, IsTrue, not, chars};
ghost use Rattle.erl_term.specs.Terms as W;
ghost use Rattle.erl_term.specs.TermOrder.{same_term};
ghost use Rattle.bif_table.specs.BuiltinAnswer as B;
ghost use Rattle.bif_table.specs.Kinds.{truth_of};
ghost use Rattle.shared_term.specs.View.{view, IsWhole};
ghost use Rattle.bif_answer.specs.Answers.{Answers, Holds};

use crate::outcome::{Answered, badarg, truth};
use erl_base::Name;
use shared_term::{Value, compare};
use std::alloc::Global;
use std::cmp::Ordering;

#[tactic(auto, unfolding(erl_term::specs::TermOrder::same_term))]
pub fn is_same(a: &Value, b: &Value) -> bool
    requires first { IsWhole a.now }
    requires second { IsWhole b.now }
    ensures { result ≡ same_term (view a.now) (view b.now) }
{
    match compare(a, b) {
        Ordering::Equal => true,
        Ordering::Less | Ordering::Greater => false,
    }
}

#[tactic(auto, unfolding(bif_table::specs::BuiltinAnswer::below))]
pub fn is_below(a: &Value, b: &Value) -> bool
    requires first { IsWhole a.now }
    requires second { IsWhole b.now }
    ensures { result ≡ B.below (view a.now) (view b.now) }
{
    match compare(a, b) {
        Ordering::Less => true,
        Ordering::Equal | Ordering::Greater => false,
    }
}

/// The truth value that an atom is.
pub fn truth_in(value: &Value) -> Option<bool>
    ensures { result ≡ truth_of (view value.now) }
{
    match value {
        Value::Atom(name) => truth_named(name),
        Value::Int(_)
        | Value::Nil
        | Value::Cons(_)
        | Value::Tuple(_)
        | Value::Map(_)
        | Value::Bits(_)
        | Value::Fun(_)
        | Value::Extern(_)
        | Value::Pid(_)
        | Value::Reference(_)
        | Value::Port(_)
        | Value::RawTrace(_) => None,
    }
}

fn truth_named(name: &Name) -> Option<bool>
    ensures { result ≡ truth_of (W.word name.now) }
{
    if is_text(name, "true") {
        Some(true)
    } else if is_text(name, "false") {
        Some(false)
    } else {
        None
    }
}

/// Whether the name has the characters of the text.
fn is_text(name: &Name, text: &str) -> bool
    ensures { IsTrue result ↔ (name.now ≡ chars text.now) }
{
    name.as_str() == text
}

pub fn negation(alloc: Global, a: &Value) -> Answered
    ensures answers { Answers result (B.by_truth not (truth_of (view a.now))) }
    ensures whole { IfOk result (Holds IsWhole) }
{
    match truth_in(a) {
        Some(x) => truth(alloc, !x),
        None => badarg(alloc),
    }
}

pub fn both(alloc: Global, a: &Value, b: &Value) -> Answered
    ensures answers { Answers result (B.by_truths B.and_bool (truth_of (view a.now)) (truth_of (view b.now))) }
    ensures whole { IfOk result (Holds IsWhole) }
{
    match (truth_in(a), truth_in(b)) {
        (Some(x), Some(y)) => truth(alloc, x && y),
        (None, _) | (Some(_), None) => badarg(alloc),
    }
}

pub fn either(alloc: Global, a: &Value, b: &Value) -> Answered
    ensures answers { Answers result (B.by_truths B.or_bool (truth_of (view a.now)) (truth_of (view b.now))) }
    ensures whole { IfOk result (Holds IsWhole) }
{
    match (truth_in(a), truth_in(b)) {
        (Some(x), Some(y)) => truth(alloc, x || y),
        (None, _) | (Some(_), None) => badarg(alloc),
    }
}

pub fn one_alone(alloc: Global, a: &Value, b: &Value) -> Answered
    ensures answers { Answers result (B.by_truths B.xor_bool (truth_of (view a.now)) (truth_of (view b.now))) }
    ensures whole { IfOk result (Holds IsWhole) }
{
    match (truth_in(a), truth_in(b)) {
        (Some(x), Some(y)) => truth(alloc, x != y),
        (None, _) | (Some(_), None) => badarg(alloc),
    }
}
