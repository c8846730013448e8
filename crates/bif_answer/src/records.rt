// Funs of an arity, and records.
ghost use Rattle.std.specs.Prelude.{◌≡◌, ◌&&◌, ℕ, List, IfOk};
ghost use Rattle.erl_term.specs.Terms as W;
ghost use Rattle.bif_table.specs.BuiltinAnswer as B;
ghost use Rattle.bif_table.specs.Kinds as K;
ghost use Rattle.shared_term.specs.View.{view, IsWhole};
ghost use Rattle.bif_answer.specs.Answers.{Answers, Holds};

use crate::comparisons::is_same;
use crate::kinds::is_of_type;
use crate::numbers::int_in;
use crate::outcome::{Answered, badarg, truth};
use bif_table::TypeTest;
use shared_term::Value;
use std::alloc::Global;

/// Whether a value is a fun of the arity that a number says.
#[tactic(auto, using(crate::proofs::Plain::arities))]
pub fn is_fun_of(alloc: Global, value: &Value, arity: &Value) -> Answered
    ensures answers { Answers result (B.is_fun_of (view value.now) (view arity.now)) }
    ensures whole { IfOk result (Holds IsWhole) }
{
    match int_in(arity) {
        Some(arity) if arity >= 0 => truth(alloc, has_arity(value, arity as u128)),
        Some(_) | None => badarg(alloc),
    }
}

#[tactic(auto, using(crate::proofs::Plain::arities))]
fn has_arity(value: &Value, arity: u128) -> bool
    ensures { result ≡ K.has_arity (view value.now) arity }
{
    match value.fun_arity() {
        Some(own) => own as u128 == arity,
        None => false,
    }
}

/// Whether a tuple begins with this atom.
#[tactic(auto, using(crate::proofs::Plain::records))]
fn has_tag(value: &Value, tag: &Value) -> bool
    requires value { IsWhole value.now }
    requires tag { IsWhole tag.now }
    ensures { (a : List ℕ) → view tag.now ≡ W.word a → result ≡ B.has_tag (view value.now) a }
{
    match value.element(0) {
        Some(first) => is_same(first, tag),
        None => false,
    }
}

/// Whether a tuple has this size.
#[tactic(auto, using(crate::proofs::Plain::records))]
fn has_size(value: &Value, size: i128) -> bool
    requires { IsWhole value.now }
    ensures { result ≡ B.has_size (view value.now) size }
{
    match value.tuple_len() {
        Some(count) => count as i128 == size,
        None => false,
    }
}

/// Whether a tuple begins with this atom and has this size.
#[tactic(auto, using(crate::proofs::Plain::tagged_and_sized))]
fn has_tag_and_size(value: &Value, tag: &Value, size: i128) -> bool
    requires value { IsWhole value.now }
    requires tag { IsWhole tag.now }
    ensures { (a : List ℕ) → view tag.now ≡ W.word a
        → result ≡ B.has_tag (view value.now) a && B.has_size (view value.now) size }
{
    if has_tag(value, tag) {
        has_size(value, size)
    } else {
        false
    }
}

/// Whether a value is a record of this tag.
#[tactic(auto, using(crate::proofs::Plain::records))]
pub fn is_record(alloc: Global, value: &Value, tag: &Value) -> Answered
    requires value { IsWhole value.now }
    requires tag { IsWhole tag.now }
    ensures answers { Answers result (B.is_record (view value.now) (view tag.now)) }
    ensures whole { IfOk result (Holds IsWhole) }
{
    if is_of_type(TypeTest::IsAtom, tag) {
        truth(alloc, has_tag(value, tag))
    } else {
        badarg(alloc)
    }
}

/// Whether it is one of this size.
#[tactic(auto, using(crate::proofs::Plain::records))]
pub fn is_record_of(alloc: Global, value: &Value, tag: &Value, size: &Value) -> Answered
    requires value { IsWhole value.now }
    requires tag { IsWhole tag.now }
    ensures answers { Answers result (B.is_record_of (view value.now) (view tag.now) (view size.now)) }
    ensures whole { IfOk result (Holds IsWhole) }
{
    match int_in(size) {
        Some(size) if is_of_type(TypeTest::IsAtom, tag) => {
            truth(alloc, has_tag_and_size(value, tag, size))
        }
        Some(_) | None => badarg(alloc),
    }
}
