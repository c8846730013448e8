ghost use Rattle.core_meaning.specs.PatternMatch.{AllMatchingIsTheRelation, MatchingIsTheRelation};
ghost use Rattle.core_meaning.specs.RunLaws.{DepthIsEnough, EntersFirst, EntersWithin, EntriesAreSpent, HappensFirst, SameWithMore, SpentAtBound};
ghost use Rattle.core_meaning.specs.SelectiveReceive.{FirstAcceptingIsChosen, LooksForMoreMessages, TakesTheFirst};

use world_model::{receiving_looks_for_more, receiving_takes_the_first_accepted};

/// A pattern matches a term, and binds these values, exactly where the function that the evaluator uses gives them.
#[tactic(auto, using(crate::proofs::Matching::one_and_the_same, crate::proofs::Matching::all_the_same))]
pub fn matching_is_the_relation()
    ensures one { MatchingIsTheRelation }
    ensures each { AllMatchingIsTheRelation }
{}

/// The clause that is chosen is the first that accepts.
#[tactic(auto, using(crate::proofs::Selecting::chosen_exactly))]
pub fn the_first_clause_that_accepts_is_chosen()
    ensures { FirstAcceptingIsChosen }
{}

/// A receive takes the first message in the order of the mailbox that a clause accepts; where there is none, it looks
/// for more.
pub fn receives_take_the_first_accepted()
    ensures takes { TakesTheFirst }
    ensures looks { LooksForMoreMessages }
{
    receiving_takes_the_first_accepted();
    receiving_looks_for_more();
}

/// A run enters at most as many functions as its bound allows, and is spent only where it entered that many.
#[tactic(auto, using(crate::proofs::Bounds::staying_within))]
pub fn entries_stay_within_the_bound()
    ensures constant { EntriesAreSpent }
    ensures within { EntersWithin }
    ensures spent { SpentAtBound }
{}

/// A larger bound only prolongs a run: one that the bound did not end is the same, and what happened and was entered
/// before comes first.
#[tactic(auto, using(crate::proofs::Bounds::larger_prolongs))]
pub fn a_larger_bound_prolongs()
    ensures same { SameWithMore }
    ensures happens { HappensFirst }
    ensures enters { EntersFirst }
{}

/// The depth by which the evaluator is seen to end is never what ends a run: the entries are.
#[tactic(auto, using(crate::proofs::Depth::depth_is_enough))]
pub fn depth_never_ends_a_run()
    ensures { DepthIsEnough }
{}
