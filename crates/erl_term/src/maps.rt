// The map of pairs in any order: runs whose keys rise are merged, each as long as the other.
ghost use Rattle.std.specs.Prelude.{◌≡◌, ◌≤◌, [], ◌∷◌, take, drop, length, map, IfOk, OnOk};
ghost use Rattle.erl_term.specs.Term as Plain;
ghost use Rattle.erl_term.specs.View.{pair_view};
ghost use Rattle.erl_term.specs.Comparing.{pair_row};
ghost use Rattle.erl_term.specs.Terms.{put_all};
ghost use Rattle.erl_term.specs.Merging.{IsRun, front_order, merge, TakesLeast};
ghost use Rattle.erl_term.specs.WellRows.{PairsWellFormed};

use crate::order::compare;
use crate::term::{Pair, Pairs};
use erl_base::{List, NoMemory};
use std::alloc::Global;
use std::cmp::Ordering;
use std::collections::VecDeque;

/// The pairs in the order of their keys, the last of those with equal keys.
pub fn map_of(alloc: Global, found: Pairs) -> Result<Pairs, NoMemory>
    requires { PairsWellFormed found }
    ensures value { IfOk result (λ all. pair_row all ≡ put_all (map pair_view found) Plain.no_pair) }
    ensures well_formed { IfOk result (λ all. IsRun all) }
{
    let count = found.len();
    let mut left = VecDeque::from_vec(found.into_vec());
    let mut merged = run(alloc, &mut left, count)?;
    let mut all = List::new(alloc);
    while let Some(pair) = merged.pop_front() {
        all.push(pair)?;
    }
    Ok(all)
}

/// The map of the next pairs.
fn run(alloc: Global, left: &mut VecDeque<Pair>, count: usize) -> Result<VecDeque<Pair>, NoMemory>
    requires enough { count ≤ length left.old.items }
    requires well_formed { PairsWellFormed left.old.items }
    ensures left { OnOk result (left.new.items ≡ drop count left.old.items) }
    ensures value { IfOk result (λ run.
        pair_row run.items ≡ put_all (map pair_view (take count left.old.items)) Plain.no_pair) }
    ensures run { IfOk result (λ run. IsRun run.items) }
{
    if count <= 1 {
        return single(alloc, left, count);
    }
    let first = run(alloc, left, count / 2)?;
    let second = run(alloc, left, count - count / 2)?;
    let all = merged(alloc, first, second)?;
    Ok(all)
}

/// At most one pair.
fn single(
    alloc: Global,
    left: &mut VecDeque<Pair>,
    count: usize,
) -> Result<VecDeque<Pair>, NoMemory>
    requires few { count ≤ 1 }
    requires enough { count ≤ length left.old.items }
    requires well_formed { PairsWellFormed left.old.items }
    ensures left { OnOk result (left.new.items ≡ drop count left.old.items) }
    ensures value { IfOk result (λ run.
        pair_row run.items ≡ put_all (map pair_view (take count left.old.items)) Plain.no_pair) }
    ensures run { IfOk result (λ run. IsRun run.items) }
{
    if count == 0 {
        return Ok(VecDeque::new(alloc));
    }
    match left.pop_front() {
        None => Ok(VecDeque::new(alloc)),
        Some(pair) => run_of(alloc, pair),
    }
}

#[tactic(auto, unfolding(crate::specs::Terms::put))]
fn run_of(alloc: Global, pair: Pair) -> Result<VecDeque<Pair>, NoMemory>
    requires { PairsWellFormed (pair ∷ []) }
    ensures value { IfOk result (λ run.
        pair_row run.items ≡ put_all (map pair_view (pair ∷ [])) Plain.no_pair) }
    ensures run { IfOk result (λ run. IsRun run.items) }
{
    let mut run = VecDeque::new(alloc);
    run.push_back(pair)?;
    Ok(run)
}

fn merged(
    alloc: Global,
    first: VecDeque<Pair>,
    second: VecDeque<Pair>,
) -> Result<VecDeque<Pair>, NoMemory>
    requires first { IsRun first.items }
    requires second { IsRun second.items }
    ensures value { IfOk result (λ all. pair_row all.items ≡ merge first.items second.items) }
    ensures run { IfOk result (λ all. IsRun all.items) }
{
    let mut first = first;
    let mut second = second;
    let mut all = VecDeque::new(alloc);
    while let Some(pair) = least(&mut first, &mut second) {
        all.push_back(pair)?;
    }
    Ok(all)
}

/// Takes the pair with the least key off, and of two with equal keys the second.
fn least(first: &mut VecDeque<Pair>, second: &mut VecDeque<Pair>) -> Option<Pair>
    requires first { IsRun first.old.items }
    requires second { IsRun second.old.items }
    ensures { TakesLeast result first.old.items second.old.items first.new.items second.new.items }
{
    match front_order(first, second) {
        Ordering::Less => first.pop_front(),
        Ordering::Equal => {
            let _replaced = first.pop_front();
            second.pop_front()
        }
        Ordering::Greater => second.pop_front(),
    }
}

fn front_order(first: &VecDeque<Pair>, second: &VecDeque<Pair>) -> Ordering
    requires first { IsRun first.now.items }
    requires second { IsRun second.now.items }
    ensures { result ≡ front_order (pair_row first.now.items) (pair_row second.now.items) }
{
    let Some(other) = second.front() else {
        return Ordering::Less;
    };
    let Some(one) = first.front() else {
        return Ordering::Greater;
    };
    compare(&one.key, &other.key)
}
