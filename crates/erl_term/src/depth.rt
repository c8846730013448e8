ghost use Rattle.std.specs.Prelude.{◌≤◌, ◌↔◌, ◌+◌, ◌<◌, IsTrue, max};
ghost use Rattle.erl_term.specs.Depth.{depth, deepest, deepest_pair};
ghost use Rattle.erl_term.specs.View.{view};
ghost use Rattle.erl_term.specs.WellFormed.{IsNormal, pair_normal};
ghost use Rattle.erl_term.specs.Comparing.{row, pair_row, AllNormal, PairsNormal};

use crate::term::{Pair, Term};

impl Term {
    /// Whether the term nests at most `limit` deep. It goes no deeper than the limit.
    #[cycle(nests)]
    #[tactic(auto, using(crate::proofs::Deep::parts), unfolding(crate::specs::Depth::depths))]
    pub fn nests_within(&self, limit: u32) -> bool
        requires { IsNormal self.now }
        ensures { IsTrue result ↔ (depth (view self.now) ≤ limit) }
    {
        if limit == 0 {
            return false;
        }
        match self {
            Term::List(items, tail) => {
                all_nest_within(items.as_slice(), limit - 1) && tail.get().nests_within(limit - 1)
            }
            Term::Tuple(items) => all_nest_within(items.as_slice(), limit - 1),
            Term::Map(pairs) => pairs_nest_within(pairs.as_slice(), limit - 1),
            Term::Fun(_, _, _, captured) => all_nest_within(captured.as_slice(), limit - 1),
            Term::Int(_)
            | Term::Atom(_)
            | Term::Nil
            | Term::Bits(_)
            | Term::Extern(..)
            | Term::Pid(_)
            | Term::Reference(_)
            | Term::Port(_)
            | Term::RawTrace(_) => true,
        }
    }
}

#[cycle(nests)]
#[tactic(auto, unfolding(crate::specs::Depth::depths))]
fn all_nest_within(terms: &[Term], limit: u32) -> bool
    requires { AllNormal terms.now }
    ensures { IsTrue result ↔ (deepest (row terms.now) ≤ limit) }
{
    for term in terms {
        if !term.nests_within(limit) {
            return false;
        }
    }
    true
}

#[cycle(nests)]
#[tactic(auto, unfolding(crate::specs::Depth::depths))]
fn pairs_nest_within(pairs: &[Pair], limit: u32) -> bool
    requires { PairsNormal pairs.now }
    ensures { IsTrue result ↔ (deepest_pair (pair_row pairs.now) ≤ limit) }
{
    for pair in pairs {
        if !pair_nests_within(pair, limit) {
            return false;
        }
    }
    true
}

#[cycle(nests)]
#[tactic(auto, using(crate::proofs::Forms::value_normal))]
fn pair_nests_within(pair: &Pair, limit: u32) -> bool
    requires { IsTrue (pair_normal pair.now) }
    ensures { IsTrue result ↔ (max (depth (view pair.now.key)) (depth (view pair.now.value)) ≤ limit) }
{
    pair.key.nests_within(limit) && pair.value.nests_within(limit)
}
