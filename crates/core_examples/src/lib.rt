//! Small modules of Core Erlang with what their calls do, computed. Each example tells a definition of the language
//! from a wrong one that no law would notice; the line above it says which slip that is.
//!
//! The expected values are written by hand, from the rules in docs/LANGUAGE.md. The public functions have no code: the
//! contract of each names the examples of one subject.
#![tactic(auto)]

ghost use Rattle.core_examples.specs.EvaluationOrder.{EvaluationOrder};
ghost use Rattle.core_examples.specs.TailMarks.{TailMarks};
ghost use Rattle.core_examples.specs.Raises.{Raises};
ghost use Rattle.core_examples.specs.FunCalls.{FunCalls};
ghost use Rattle.core_examples.specs.WorldRequests.{WorldRequests};
ghost use Rattle.core_examples.specs.SiteNumbers.{SiteNumbers};
ghost use Rattle.core_examples.specs.MapsAndForms.{MapsAndForms};
ghost use Rattle.core_examples.specs.ReceiveMarkers.{ReceiveMarkers};
ghost use Rattle.core_examples.specs.PassedOnRests.{PassedOnRests};
ghost use Rattle.core_examples.specs.BitSegments.{BitSegments};
ghost use Rattle.core_examples.specs.ListedAnswers.{ListedAnswers};
ghost use Rattle.core_examples.specs.TermsInOrder.{TermsInOrder};

/// The parts of an expression are evaluated from left to right.
#[tactic(auto, using(crate::proofs::Computed::evaluation_order))]
pub fn parts_go_from_left_to_right()
    ensures { EvaluationOrder }
{}

/// A call by name is marked as a tail call where it stands in tail position, and there alone.
#[tactic(auto, using(crate::proofs::Computed::tail_marks))]
pub fn tail_calls_are_marked()
    ensures { TailMarks }
{}

/// A raise goes to the handler around it, with its class, its reason and its trace.
#[tactic(auto, using(crate::proofs::Computed::raises))]
pub fn raises_go_to_their_handlers()
    ensures { Raises }
{}

/// A fun of the module is entered where it fits, and any other one is called by the world.
#[tactic(auto, using(crate::proofs::Computed::fun_calls))]
pub fn own_funs_are_entered()
    ensures { FunCalls }
{}

/// A send gives the message or raises badarg, and a wait is as long as the language lets it be.
#[tactic(auto, using(crate::proofs::Computed::world_requests))]
pub fn sends_and_waits_ask_the_world()
    ensures { WorldRequests }
{}

/// Functions are numbered, and what they capture stands, in the order of the text.
#[tactic(auto, using(crate::proofs::Computed::site_numbers))]
pub fn sites_follow_the_text()
    ensures { SiteNumbers }
{}

/// Maps take the later value of a key; aliases, lists and keys match as they are written.
#[tactic(auto, using(crate::proofs::Computed::maps_and_forms))]
pub fn rare_forms_mean_what_they_say()
    ensures { MapsAndForms }
{}

/// A receive passes over old messages where its reference is bound, and there alone.
#[tactic(auto, using(crate::proofs::Computed::receive_markers))]
pub fn markers_skip_old_messages()
    ensures { ReceiveMarkers }
{}

/// A rest that is handed on to a function which takes it apart is not made, and any other one that is used is.
#[tactic(auto, using(crate::proofs::Computed::passed_on_rests))]
pub fn used_rests_are_made()
    ensures { PassedOnRests }
{}

/// Segments count their units, built and matched.
#[tactic(auto, using(crate::proofs::Computed::bit_segments))]
pub fn segments_count_units()
    ensures { BitSegments }
{}

/// Listed functions answer as the module erlang does.
#[tactic(auto, using(crate::proofs::Computed::listed_answers))]
pub fn listed_functions_answer()
    ensures { ListedAnswers }
{}

/// Terms are ordered as Erlang orders them.
#[tactic(auto, using(crate::proofs::Computed::terms_in_order))]
pub fn terms_are_ordered()
    ensures { TermsInOrder }
{}
