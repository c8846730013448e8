// Operands that stand in lists: a fixed number of them, or any number.
ghost use Rattle.std.specs.Prelude.{◌≡◌, ◌<◌, ◌∷◌, length, map, MatchOption};
ghost use Rattle.erl_term.specs.Comparing.{AllNormal};
ghost use Rattle.erl_term.specs.View.{view};
ghost use Rattle.erl_term.specs.WellFormed.{IsNormal};
ghost use Rattle.term_read.specs.Reading.{Gives};
ghost use Rattle.beam_table.specs.declared.opcode.Kind.{Kind};
ghost use Rattle.insn_terms.specs.Reading.{value_of, alone, and_then, singles, in_pairs, both};
ghost use Rattle.insn_terms.specs.Values.{Value};

use crate::operand::Operand;
use erl_base::List;
use erl_term::Term;
use std::alloc::Global;
use term_read::Unread;

/// One operand and nothing more.
pub fn one<A: Operand>(alloc: Global, terms: &[Term]) -> Result<A, Unread>
    requires { AllNormal terms.now }
    ensures { Gives A.plain result (alone (value_of A.kind) (map view terms.now)) }
{
    let [first, others @ ..] = terms else {
        return Err(Unread::Syntax);
    };
    let first = A::read(alloc, first)?;
    if !others.is_empty() {
        return Err(Unread::Syntax);
    }
    Ok(first)
}

/// Two, and nothing more.
pub fn two<A: Operand, B: Operand>(alloc: Global, terms: &[Term]) -> Result<(A, B), Unread>
    requires { AllNormal terms.now }
    ensures { Gives (λ v. (A.plain v.0, B.plain v.1)) result
        (and_then (value_of A.kind) (alone (value_of B.kind)) (map view terms.now)) }
{
    let [first, others @ ..] = terms else {
        return Err(Unread::Syntax);
    };
    let first = A::read(alloc, first)?;
    let others = one::<B>(alloc, others)?;
    Ok((first, others))
}

/// Three.
pub fn three<A: Operand, B: Operand, C: Operand>(
    alloc: Global,
    terms: &[Term],
) -> Result<(A, (B, C)), Unread>
    requires { AllNormal terms.now }
    ensures { Gives (λ v. (A.plain v.0, (B.plain v.1.0, C.plain v.1.1))) result
        (and_then (value_of A.kind) (and_then (value_of B.kind) (alone (value_of C.kind))) (map view terms.now)) }
{
    let [first, others @ ..] = terms else {
        return Err(Unread::Syntax);
    };
    let first = A::read(alloc, first)?;
    let others = two::<B, C>(alloc, others)?;
    Ok((first, others))
}

/// Four.
pub fn four<A: Operand, B: Operand, C: Operand, D: Operand>(
    alloc: Global,
    terms: &[Term],
) -> Result<(A, (B, (C, D))), Unread>
    requires { AllNormal terms.now }
    ensures { Gives (λ v. (A.plain v.0, (B.plain v.1.0, (C.plain v.1.1.0, D.plain v.1.1.1)))) result
        (and_then (value_of A.kind) (and_then (value_of B.kind) (and_then (value_of C.kind)
        (alone (value_of D.kind)))) (map view terms.now)) }
{
    let [first, others @ ..] = terms else {
        return Err(Unread::Syntax);
    };
    let first = A::read(alloc, first)?;
    let others = three::<B, C, D>(alloc, others)?;
    Ok((first, others))
}

/// Five.
pub fn five<A: Operand, B: Operand, C: Operand, D: Operand, E: Operand>(
    alloc: Global,
    terms: &[Term],
) -> Result<(A, (B, (C, (D, E)))), Unread>
    requires { AllNormal terms.now }
    ensures { Gives
        (λ v. (A.plain v.0, (B.plain v.1.0, (C.plain v.1.1.0, (D.plain v.1.1.1.0, E.plain v.1.1.1.1)))))
        result
        (and_then (value_of A.kind) (and_then (value_of B.kind) (and_then (value_of C.kind)
        (and_then (value_of D.kind) (alone (value_of E.kind))))) (map view terms.now)) }
{
    let [first, others @ ..] = terms else {
        return Err(Unread::Syntax);
    };
    let first = A::read(alloc, first)?;
    let others = four::<B, C, D, E>(alloc, others)?;
    Ok((first, others))
}

/// What stands any number of times in a list.
pub trait Item: Drop {
    ghost kind: { Kind };

    ghost plain: { Self → Value kind };

    fn read_item(alloc: Global, term: &Term) -> Result<Self, Unread>
        requires { IsNormal term.now }
        ensures { Gives plain result (value_of kind (view term.now)) };
}

/// Any number of items.
pub fn singles<I: Item>(alloc: Global, terms: &[Term]) -> Result<List<I>, Unread>
    requires { AllNormal terms.now }
    ensures { Gives (map I.plain) result (singles (value_of I.kind) (map view terms.now)) }
{
    let mut items = List::new(alloc);
    for term in terms {
        let item = I::read_item(alloc, term)?;
        items.push(item)?;
    }
    Ok(items)
}

/// Two operands that belong together.
pub trait Pair: Drop {
    ghost first: { Kind };

    ghost second: { Kind };

    ghost plain: { Self → Value first × Value second };

    fn read_pair(alloc: Global, one: &Term, other: &Term) -> Result<Self, Unread>
        requires one { IsNormal one.now }
        requires other { IsNormal other.now }
        ensures { Gives plain result (both (value_of first) (value_of second) (view one.now) (view other.now)) };
}

/// Any number of pairs.
pub fn in_pairs<P: Pair>(alloc: Global, terms: &[Term]) -> Result<List<P>, Unread>
    requires { AllNormal terms.now }
    ensures { Gives (map P.plain) result
        (in_pairs (both (value_of P.first) (value_of P.second)) (map view terms.now)) }
{
    let mut pairs = List::new(alloc);
    let mut left = terms;
    'left: while let Some((one, other, others)) = next_two(left) {
        let pair = P::read_pair(alloc, one, other)?;
        pairs.push(pair)?;
        left = others;
    }
    if !left.is_empty() {
        return Err(Unread::Syntax);
    }
    Ok(pairs)
}

// The first two terms and those behind them, where there are two.
fn next_two(terms: &[Term]) -> Option<(&Term, &Term, &[Term])>
    ensures { MatchOption result (length terms.now < 2)
        (λ found. terms.now ≡ found.0.now ∷ found.1.now ∷ found.2.now) }
{
    let [one, other, others @ ..] = terms else {
        return None;
    };
    Some((one, other, others))
}
