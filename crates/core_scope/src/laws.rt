ghost use Rattle.core_scope.specs.Degrees.{ItsOwnDegree, EveryDegree};

/// Where no degree is wanted, it is the same as if its own were.
#[tactic(auto, using(crate::proofs::Degree::its_own))]
pub fn its_own_degree_is_wanted()
    ensures { ItsOwnDegree }
{}

/// An expression without a fixed degree has no wrong one in it, whatever is wanted.
#[tactic(auto, using(crate::proofs::Degree::every))]
pub fn what_never_returns_has_every_degree()
    ensures { EveryDegree }
{}
