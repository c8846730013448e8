// What is wanted where an expression stands, and the first fault so far.
ghost use Rattle.std.specs.Prelude.{◌≡◌};
ghost use Rattle.core_scope.specs.Degrees.{agrees_with};
ghost use Rattle.core_scope.specs.ScopeWalk.{fixed, settled, with_first, leaf, unguarded};
ghost use Rattle.first_fault.specs.FirstFault.{first_with};

use erl_base::{Kind, Place, Refusal, ScopeFault};
use first_fault::keep_if;

/// How many values are wanted where an expression stands.
#[derive(Clone, Copy)]
pub enum Wanted {
    /// It is not asked.
    Nothing,
    /// As many as the first body has that has a fixed number.
    Alike,
    Exactly(u64),
}

/// The first fault so far, and how many values are wanted.
#[derive(Clone, Copy)]
pub struct Judged {
    pub first: Option<Refusal>,
    pub wanted: Wanted,
}

impl Wanted {
    pub fn fixed(self) -> Option<u64>
        ensures { result ≡ fixed self }
    {
        match self {
            Wanted::Nothing | Wanted::Alike => None,
            Wanted::Exactly(number) => Some(number),
        }
    }

    /// What is wanted behind a body with this degree.
    pub fn settled(self, degree: Option<u64>) -> Wanted
        ensures { result ≡ settled self degree }
    {
        match (self, degree) {
            (Wanted::Alike, Some(number)) => Wanted::Exactly(number),
            (Wanted::Nothing | Wanted::Alike | Wanted::Exactly(_), _) => self,
        }
    }
}

impl Judged {
    pub fn with_first(self, first: Option<Refusal>) -> Judged
        ensures { result ≡ with_first first self }
    {
        Judged { first, ..self }
    }

    /// An expression with this degree that is no body of another one.
    pub fn leaf(self, place: Place, degree: Option<u64>) -> Judged
        ensures { result ≡ leaf place degree self }
    {
        let wrong = !agrees(degree, self.wanted.fixed());
        Judged {
            first: keep_if(
                self.first,
                wrong,
                place,
                Kind::Scope(ScopeFault::WrongDegree),
            ),
            wanted: self.wanted.settled(degree),
        }
    }
}

/// Whether two degrees can be one.
pub fn agrees(degree: Option<u64>, other: Option<u64>) -> bool
    ensures { result ≡ agrees_with degree other }
{
    match (degree, other) {
        (Some(degree), Some(other)) => degree == other,
        (None, _) | (_, None) => true,
    }
}

/// A form that no guard has.
pub fn keep_unguarded(first: Option<Refusal>, guard: bool, place: Place) -> Option<Refusal>
    ensures { result ≡ unguarded guard place first }
{
    keep_if(first, guard, place, Kind::Scope(ScopeFault::GuardForm))
}
