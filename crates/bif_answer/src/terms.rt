// The same for terms, which are converted.
ghost use Rattle.std.specs.Prelude.{◌≡◌, ◌≢◌, IfOk, IfSome, IfNone, All, map, length};
ghost use Rattle.erl_term.specs.Term as P;
ghost use Rattle.erl_term.specs.View.{view, class_view};
ghost use Rattle.erl_term.specs.WellFormed.{IsWellFormed};
ghost use Rattle.bif_table.specs.BuiltinAnswer as B;
ghost use Rattle.bif_table.specs.Builtins as L;
ghost use Rattle.bif_table.specs.View.{bif_view};
ghost use Rattle.shared_term.specs.View as S;
ghost use Rattle.bif_answer.specs.Answers.{Holds, IfValue, IfRaises, IfWide, IsWide, IsNoValue};

use crate::outcome::BifAnswer;
use crate::values::answer_values;
use bif_table::Bif;
use erl_base::{List, NoMemory};
use erl_term::Term;
use shared_term::{Value, from_term, to_term};
use std::alloc::Global;

/// What a listed function answers to terms, in the process with this own pid.
pub fn answer(
    alloc: Global,
    bif: Bif,
    own: &Term,
    args: &[Term],
) -> Result<BifAnswer<Term>, NoMemory>
    requires arity { length args.now ≡ L.arity_of (bif_view bif) }
    requires own { IsWellFormed own.now }
    requires args { All IsWellFormed args.now }
    ensures value { IfOk result (λ answer. IfValue answer
        (λ term. B.answer (bif_view bif) (view own.now) (map view args.now) ≡ B.value (view term))) }
    ensures raises { IfOk result (λ answer. IfRaises answer
        (λ class reason. B.answer (bif_view bif) (view own.now) (map view args.now)
        ≡ B.raised (class_view class) (view reason))) }
    ensures wide { IfOk result (λ answer. IfWide answer
        (IsWide (B.answer (bif_view bif) (view own.now) (map view args.now)))) }
    ensures well_formed { IfOk result (Holds IsWellFormed) }
{
    let own = from_term(alloc, own)?;
    let values = values_of(alloc, args)?;
    match answer_values(alloc, bif, &own, values.as_slice())? {
        BifAnswer::Value(value) => Ok(BifAnswer::Value(to_term(alloc, &value)?)),
        BifAnswer::Raises(class, reason) => {
            Ok(BifAnswer::Raises(class, to_term(alloc, &reason)?))
        }
        BifAnswer::Wide => Ok(BifAnswer::Wide),
    }
}

/// The value of a listed function, if it has one within 128 signed bits; not of `self`, which answers by its process.
#[tactic(auto, unfolding(erl_term::specs::WellFormed::maps_rise))]
pub fn fold(alloc: Global, bif: Bif, args: &[Term]) -> Result<Option<Term>, NoMemory>
    requires arity { length args.now ≡ L.arity_of (bif_view bif) }
    requires not_self { bif_view bif ≢ L.Self }
    requires args { All IsWellFormed args.now }
    ensures some { IfOk result (λ folded. IfSome folded (λ term. (own : P.Term)
        → B.answer (bif_view bif) own (map view args.now) ≡ B.value (view term))) }
    ensures none { IfOk result (λ folded. IfNone folded ((own : P.Term)
        → IsNoValue (B.answer (bif_view bif) own (map view args.now)))) }
    ensures well_formed { IfOk result (λ folded. IfSome folded IsWellFormed) }
{
    match answer(alloc, bif, &Term::Nil, args)? {
        BifAnswer::Value(term) => Ok(Some(term)),
        BifAnswer::Raises(_, _) => Ok(None),
        BifAnswer::Wide => Ok(None),
    }
}

fn values_of(alloc: Global, terms: &[Term]) -> Result<List<Value>, NoMemory>
    requires { All IsWellFormed terms.now }
    ensures same { IfOk result (λ values. map S.view values ≡ map view terms.now) }
    ensures whole { IfOk result (λ values. All S.IsWhole values) }
{
    let mut values = List::new(alloc);
    for term in terms {
        values.push(from_term(alloc, term)?)?;
    }
    Ok(values)
}
