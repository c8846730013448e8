// Each listed function by the number of its arguments.
ghost use Rattle.std.specs.Prelude.{◌≡◌, IfOk};
ghost use Rattle.erl_term.specs.Terms as W;
ghost use Rattle.erl_term.specs.View.{class_view};
ghost use Rattle.bif_table.specs.BuiltinAnswer as B;
ghost use Rattle.bif_table.specs.Builtins.{arity_of};
ghost use Rattle.bif_table.specs.TermTests.{type_holds};
ghost use Rattle.bif_table.specs.View.{bif_view, type_view};
ghost use Rattle.shared_term.specs.View.{view, IsWhole};
ghost use Rattle.bif_answer.specs.Answers.{Answers, Holds};

use crate::comparisons::{both, either, is_below, is_same, negation, one_alone};
use crate::kinds::is_of_type;
use crate::outcome::{Answered, BifAnswer, truth};
use crate::{bits, numbers, parts, records};
use bif_table::{Bif, TypeTest};
use erl_term::Class;
use shared_term::Value;
use std::alloc::Global;

/// A function of one argument.
#[tactic(auto, unfolding(bif_table::specs::BuiltinAnswer::one_answer))]
pub fn of_one(alloc: Global, bif: Bif, a: &Value) -> Answered
    requires arity { arity_of (bif_view bif) ≡ 1 }
    requires whole { IsWhole a.now }
    ensures answers { Answers result (B.one_answer (bif_view bif) (view a.now)) }
    ensures whole { IfOk result (Holds IsWhole) }
{
    match bif {
        Bif::Plus => numbers::plus(alloc, a),
        Bif::Negate => numbers::negate(alloc, a),
        Bif::Bnot => bits::bnot(alloc, a),
        Bif::Abs => numbers::abs(alloc, a),
        Bif::Round | Bif::Trunc | Bif::Ceil | Bif::Floor => numbers::rounded(alloc, a),
        Bif::Not => negation(alloc, a),
        Bif::IsAtom => typed(alloc, TypeTest::IsAtom, a),
        Bif::IsBinary => typed(alloc, TypeTest::IsBinary, a),
        Bif::IsBitstring => typed(alloc, TypeTest::IsBitstr, a),
        Bif::IsBoolean => typed(alloc, TypeTest::IsBoolean, a),
        Bif::IsFloat => truth(alloc, false),
        Bif::IsFunction => typed(alloc, TypeTest::IsFunction, a),
        Bif::IsInteger | Bif::IsNumber => typed(alloc, TypeTest::IsInteger, a),
        Bif::IsList => typed(alloc, TypeTest::IsList, a),
        Bif::IsMap => typed(alloc, TypeTest::IsMap, a),
        Bif::IsPid => typed(alloc, TypeTest::IsPid, a),
        Bif::IsPort => typed(alloc, TypeTest::IsPort, a),
        Bif::IsReference => typed(alloc, TypeTest::IsReference, a),
        Bif::IsTuple => typed(alloc, TypeTest::IsTuple, a),
        Bif::TupleSize => parts::tuple_size(alloc, a),
        Bif::Size => parts::size(alloc, a),
        Bif::ByteSize => parts::byte_size(alloc, a),
        Bif::BitSize => parts::bit_size(alloc, a),
        Bif::Length => parts::length(alloc, a),
        Bif::Hd => parts::head(alloc, a),
        Bif::Tl => parts::tail(alloc, a),
        Bif::MapSize => parts::map_size(alloc, a),
        Bif::Error1 => raised(Class::Error, a),
        Bif::Exit1 => raised(Class::Exit, a),
        Bif::Throw1 => raised(Class::Throw, a),
        _ => unreachable!(),
    }
}

/// A function of two arguments.
#[tactic(auto, unfolding(bif_table::specs::BuiltinAnswer::two_answer))]
pub fn of_two(alloc: Global, bif: Bif, a: &Value, b: &Value) -> Answered
    requires arity { arity_of (bif_view bif) ≡ 2 }
    requires first { IsWhole a.now }
    requires second { IsWhole b.now }
    ensures answers { Answers result (B.two_answer (bif_view bif) (view a.now) (view b.now)) }
    ensures whole { IfOk result (Holds IsWhole) }
{
    match bif {
        Bif::Add => numbers::add(alloc, a, b),
        Bif::Subtract => numbers::subtract(alloc, a, b),
        Bif::Multiply => numbers::multiply(alloc, a, b),
        Bif::Div => numbers::divide(alloc, a, b),
        Bif::Rem => numbers::remainder(alloc, a, b),
        Bif::Band => bits::band(alloc, a, b),
        Bif::Bor => bits::bor(alloc, a, b),
        Bif::Bxor => bits::bxor(alloc, a, b),
        Bif::Bsl => bits::bsl(alloc, a, b),
        Bif::Bsr => bits::bsr(alloc, a, b),
        Bif::Equals | Bif::Exactly => truth(alloc, is_same(a, b)),
        Bif::Differs | Bif::ExactlyNot => truth(alloc, !is_same(a, b)),
        Bif::Below => truth(alloc, is_below(a, b)),
        Bif::AtMost => truth(alloc, !is_below(b, a)),
        Bif::Above => truth(alloc, is_below(b, a)),
        Bif::AtLeast => truth(alloc, !is_below(a, b)),
        Bif::And => both(alloc, a, b),
        Bif::Or => either(alloc, a, b),
        Bif::Xor => one_alone(alloc, a, b),
        Bif::IsFunction2 => records::is_fun_of(alloc, a, b),
        Bif::IsRecord2 => records::is_record(alloc, a, b),
        Bif::Element => parts::element(alloc, a, b),
        Bif::IsMapKey => parts::is_map_key(alloc, a, b),
        Bif::MapGet => parts::map_get(alloc, a, b),
        Bif::Error2 => raised(Class::Error, a),
        _ => unreachable!(),
    }
}

/// A function of three arguments.
#[tactic(auto, unfolding(bif_table::specs::BuiltinAnswer::three_answer))]
pub fn of_three(alloc: Global, bif: Bif, a: &Value, b: &Value, c: &Value) -> Answered
    requires arity { arity_of (bif_view bif) ≡ 3 }
    requires first { IsWhole a.now }
    requires second { IsWhole b.now }
    ensures answers { Answers result (B.three_answer (bif_view bif) (view a.now) (view b.now) (view c.now)) }
    ensures whole { IfOk result (Holds IsWhole) }
{
    match bif {
        Bif::IsRecord3 => records::is_record_of(alloc, a, b, c),
        _ => unreachable!(),
    }
}

/// Whether a value is of a type.
fn typed(alloc: Global, test: TypeTest, value: &Value) -> Answered
    requires { IsWhole value.now }
    ensures answers { Answers result (B.value (W.truth (type_holds (type_view test) (view value.now)))) }
    ensures whole { IfOk result (Holds IsWhole) }
{
    truth(alloc, is_of_type(test, value))
}

/// A raise whose reason is held elsewhere too.
fn raised(class: Class, reason: &Value) -> Answered
    requires { IsWhole reason.now }
    ensures answers { Answers result (B.raised (class_view class) (view reason.now)) }
    ensures whole { IfOk result (Holds IsWhole) }
{
    Ok(BifAnswer::Raises(class, reason.share()?))
}
