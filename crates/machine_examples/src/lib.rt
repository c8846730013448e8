//! Small runs of the machine, computed. Each example tells a rule of the machine from a wrong one that no law would
//! notice; the line above it says which slip that is.
//!
//! The expected values are written by hand, from the rules in docs/MACHINE.md. The public functions have no code: the
//! contract of each names the examples of one subject.
#![tactic(auto)]

ghost use Rattle.machine_examples.specs.RoomAndRegisters.{RoomAndRegisters};
ghost use Rattle.machine_examples.specs.FramesAndTags.{FramesAndTags};
ghost use Rattle.machine_examples.specs.SelectionsAndTests.{SelectionsAndTests};
ghost use Rattle.machine_examples.specs.CallRules.{CallRules};
ghost use Rattle.machine_examples.specs.ReceivePlaces.{ReceivePlaces};
ghost use Rattle.machine_examples.specs.MarkerRules.{MarkerRules};
ghost use Rattle.machine_examples.specs.BitContexts.{BitContexts};
ghost use Rattle.machine_examples.specs.StepRules.{StepRules};
ghost use Rattle.machine_examples.specs.InvalidModules.{InvalidModules};

/// Behind a call, a raise, a wait and whatever collects, registers and room are gone.
#[tactic(auto, using(crate::proofs::Computed::room_and_registers))]
pub fn registers_and_room_are_lost()
    ensures { RoomAndRegisters }
{}

/// A frame and the tags in it are there where they have to be, and gone where they must not be.
#[tactic(auto, using(crate::proofs::Computed::frames_and_tags))]
pub fn frames_keep_their_tags()
    ensures { FramesAndTags }
{}

/// A selection takes the first that fits, and a test holds of its type alone.
#[tactic(auto, using(crate::proofs::Computed::selections_and_tests))]
pub fn tests_tell_types_apart()
    ensures { SelectionsAndTests }
{}

/// A call that may return needs a frame, and a fun is entered where it fits.
#[tactic(auto, using(crate::proofs::Computed::call_rules))]
pub fn calls_find_their_functions()
    ensures { CallRules }
{}

/// A message that is taken, a timeout and a wrong timeout bring a receive to the start of the mailbox.
#[tactic(auto, using(crate::proofs::Computed::receive_places))]
pub fn receives_begin_at_the_start()
    ensures { ReceivePlaces }
{}

/// A marker that is kept lets a receive begin behind older messages, and any other one at the start.
#[tactic(auto, using(crate::proofs::Computed::marker_rules))]
pub fn markers_are_kept_or_forgotten()
    ensures { MarkerRules }
{}

/// Contexts keep their positions, and sub-binaries are counted.
#[tactic(auto, using(crate::proofs::Computed::bit_contexts))]
pub fn contexts_keep_their_positions()
    ensures { BitContexts }
{}

/// Labels are passed, and one instruction writes in the order of its operands.
#[tactic(auto, using(crate::proofs::Computed::step_rules))]
pub fn steps_pass_labels()
    ensures { StepRules }
{}

/// What breaks a bound, a name or a label is no valid module.
#[tactic(auto, using(crate::proofs::Computed::invalid_modules))]
pub fn broken_modules_are_invalid()
    ensures { InvalidModules }
{}
