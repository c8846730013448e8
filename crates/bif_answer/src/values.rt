// What a listed function answers to values.
ghost use Rattle.std.specs.Prelude.{◌≡◌, IfOk, All, map, length};
ghost use Rattle.erl_term.specs.View.{class_view};
ghost use Rattle.bif_table.specs.BuiltinAnswer as B;
ghost use Rattle.bif_table.specs.Builtins.{arity_of};
ghost use Rattle.bif_table.specs.View.{bif_view};
ghost use Rattle.shared_term.specs.View.{view, IsWhole};
ghost use Rattle.bif_answer.specs.Answers.{Answers, Holds, IfValue, IfRaises, IfWide, IsWide};

use crate::functions::{of_one, of_three, of_two};
use crate::outcome::{Answered, BifAnswer, shared};
use bif_table::Bif;
use erl_base::NoMemory;
use shared_term::Value;
use std::alloc::Global;

/// What a listed function answers to values, in the process with this own pid.
#[tactic(auto, using(crate::proofs::Readings::readings))]
pub fn answer_values(
    alloc: Global,
    bif: Bif,
    own: &Value,
    args: &[Value],
) -> Result<BifAnswer<Value>, NoMemory>
    requires arity { length args.now ≡ arity_of (bif_view bif) }
    requires own { IsWhole own.now }
    requires args { All IsWhole args.now }
    ensures value { IfOk result (λ answer. IfValue answer
        (λ value. B.answer (bif_view bif) (view own.now) (map view args.now) ≡ B.value (view value))) }
    ensures raises { IfOk result (λ answer. IfRaises answer
        (λ class reason. B.answer (bif_view bif) (view own.now) (map view args.now)
        ≡ B.raised (class_view class) (view reason))) }
    ensures wide { IfOk result (λ answer. IfWide answer
        (IsWide (B.answer (bif_view bif) (view own.now) (map view args.now)))) }
    ensures whole { IfOk result (Holds IsWhole) }
{
    by_count(alloc, bif, own, args)
}

fn by_count(alloc: Global, bif: Bif, own: &Value, args: &[Value]) -> Answered
    requires arity { length args.now ≡ arity_of (bif_view bif) }
    requires own { IsWhole own.now }
    requires args { All IsWhole args.now }
    ensures answers { Answers result (B.answer (bif_view bif) (view own.now) (map view args.now)) }
    ensures whole { IfOk result (Holds IsWhole) }
{
    match args {
        [] => shared(own),
        [a] => of_one(alloc, bif, a),
        [a, b] => of_two(alloc, bif, a, b),
        [a, b, c] => of_three(alloc, bif, a, b, c),
        _ => unreachable!(),
    }
}
