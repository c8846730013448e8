// What holds of the runs of all bodies.
ghost use Rattle.ssa_form.specs.RunLaws.{MoreBlocksChangeNothing, GivesOneResult, RunsEnd, RunsLower, UnsetIsNeverSeen};
ghost use Rattle.ssa_form.specs.Liveness.{LiveBeforeSet};
ghost use Rattle.ssa_form.specs.PassView.{BodiesAreProper};
ghost use Rattle.ssa_form.specs.Ssa as Plain;

/// A run that is over stays so, however many blocks more it is allowed; likewise one that broke a rule.
pub fn more_blocks_change_nothing<S>()
    ensures { MoreBlocksChangeNothing S }
{}

/// A body has at most one result.
pub fn body_has_one_result()
    ensures { GivesOneResult }
{}

/// Under the cycle rule each form's meaning is total: with enough blocks a run is over, or broke a rule.
#[tactic(auto, using(crate::proofs::RunsEnd::runs_end))]
pub fn runs_end_under_the_cycle_rule()
    ensures { RunsEnd }
{}

/// A run gives no entries back.
#[tactic(auto, using(crate::proofs::RunsEnd::runs_lower_all))]
pub fn runs_give_no_entries_back()
    ensures { RunsLower }
{}

/// A body of each form has at most one result, as the contract of passes sees it, and that is lawful where what it
/// enters is.
#[tactic(auto, using(crate::proofs::OneResult::proper_each))]
pub fn bodies_are_proper()
    ensures { BodiesAreProper }
{}

/// A variable is live before a set that reads it, or that leaves it and behind which it is live, where only the next
/// place follows.
pub fn liveness_goes_over_a_set()
    ensures { (b : Plain.Body) → LiveBeforeSet b }
{}

/// A well-formed body never looks at a variable that was not set: what such variables hold at first changes nothing.
pub fn unset_variables_are_never_seen()
    ensures { UnsetIsNeverSeen }
{}
