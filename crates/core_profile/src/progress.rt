// How far the walk for limits is.
ghost use Rattle.std.specs.Prelude.{◌≡◌, ◌+◌, length};
ghost use Rattle.core_profile.specs.Counted.{counted};
ghost use Rattle.core_profile.specs.LimitFaults.{capped, over, over_arity};
ghost use Rattle.first_fault.specs.FirstFault.{first_with};
ghost use Rattle.core_profile.specs.LimitWalk.{meeting, with_nodes, nodes_from, function_at, function_if, receive_end};

use crate::counts::Counts;
use erl_base::{Kind, LimitName, Place, Refusal};
use first_fault::keep_if;

/// Parameters of a function, with its captures, and arguments of a call.
const MOST_ARITY: u64 = 255;

/// Nodes in the patterns and guards of a receive.
const MOST_RECEIVE_NODES: u64 = 340;

/// The first limit so far, the nodes so far, and the number of the next function.
#[derive(Clone, Copy)]
pub struct Progress {
    pub first: Option<Refusal>,
    pub nodes: u64,
    pub site: usize,
}

/// The same within the clauses of a receive, with the nodes of their patterns and guards.
#[derive(Clone, Copy)]
pub struct InReceive {
    pub progress: Progress,
    pub heads: u64,
}

/// The sum, at most the largest number.
pub fn plus(a: u64, b: u64) -> u64
    ensures { result ≡ capped (a + b) }
{
    if b > u64::MAX - a {
        return u64::MAX;
    }
    a + b
}

/// The first limit so far and this one, where the count is over it.
pub fn keep_over(
    first: Option<Refusal>,
    name: LimitName,
    most: u64,
    place: Place,
    count: u64,
) -> Option<Refusal>
    ensures { result ≡ first_with first (over name most place count) }
{
    keep_if(first, count > most, place, Kind::Limit(name, count))
}

pub fn keep_arity(first: Option<Refusal>, place: Place, count: u64) -> Option<Refusal>
    ensures { result ≡ first_with first (over_arity place count) }
{
    keep_over(first, LimitName::Arity, MOST_ARITY, place, count)
}

impl Progress {
    pub fn with_nodes(self, count: u64) -> Progress
        ensures { result ≡ with_nodes count self }
    {
        Progress {
            nodes: plus(self.nodes, count),
            ..self
        }
    }

    pub fn nodes_from(self, count: u64) -> Progress
        ensures { result ≡ nodes_from count self }
    {
        Progress {
            nodes: count,
            ..self
        }
    }

    /// The arity of a name or the number of arguments, at this place.
    pub fn with_arity(self, place: Place, count: usize) -> Progress
        ensures { result ≡ meeting (over_arity place count) self }
    {
        Progress {
            first: keep_arity(self.first, place, count as u64),
            ..self
        }
    }

    fn function_at(self, place: Place, params: usize, counts: Counts) -> Progress
        ensures { result ≡ function_at (counted counts.entry) place params self }
    {
        match counts.of(self.site) {
            None => Progress {
                first: keep_arity(self.first, place, params as u64),
                ..self
            },
            Some(count) => Progress {
                first: keep_arity(self.first, place, plus(params as u64, count)),
                nodes: self.nodes,
                site: self.site + 1,
            },
        }
    }

    /// A function with so many parameters, whose `fun` stands here, where functions are told.
    pub fn function_if(self, told: bool, place: Place, params: usize, counts: Counts) -> Progress
        ensures { result ≡ function_if (counted counts.entry) told place params self }
    {
        if told {
            return self.function_at(place, params, counts);
        }
        self
    }
}

impl InReceive {
    /// The end of a receive that stands here.
    pub fn end(self, place: Place) -> Progress
        ensures { result ≡ receive_end place self }
    {
        let progress = self.progress;
        Progress {
            first: keep_over(
                progress.first,
                LimitName::Receive,
                MOST_RECEIVE_NODES,
                place,
                self.heads,
            ),
            ..progress
        }
    }
}
