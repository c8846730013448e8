//! Small functions along the passes, each step shown to keep its contract; a module of some of them, shown to behave
//! the same by these alone; and wrong bodies, each refused.
//!
//! A function that gives its parameter keeps it in a slot of a frame, so that the frame has to go behind the last read;
//! one that calls another module's function in tail position gets a variable for the call's value, which its source
//! does not name. The public functions have no code: the contract of each is a law.
#![tactic(auto)]

ghost use Rattle.std.specs.Prelude.{◌≡◌, suc};
ghost use Rattle.beam_table.specs.OperandBounds.{count_limit};
ghost use Rattle.pass_contract.specs.PassContract.{most_named};
ghost use Rattle.pass_examples.specs.SmallPath.{SmallPathsKeep};
ghost use Rattle.pass_examples.specs.WholePath.{WholePath};
ghost use Rattle.pass_examples.specs.MarkRoom.{CallsLeaveRoom};
ghost use Rattle.pass_examples.specs.UpdatingGuard.{UpdatingGuardsKeep};
ghost use Rattle.pass_examples.specs.Refused.{WrongPassesRefused};

/// Functions of one parameter, from kernel form to a body with frames: each step keeps what passes keep, and tests and
/// chooses no more.
pub fn small_paths_keep()
    ensures { SmallPathsKeep }
{}

/// A small module from Core Erlang to its assembly, shown function by function along the forms between them; its costs
/// too.
pub fn whole_path_behaves()
    ensures { WholePath }
{}

/// Another value, no end, another parameter, a receive of its own, a number that no instruction holds, one test, one
/// choice and one sub-binary more are refused; what is not compared is not.
pub fn wrong_passes_refused()
    ensures { WrongPassesRefused }
{}

/// A receive whose guard updates a map, and its body: both are well formed, and the body keeps what passes keep,
/// whatever the mailbox and the world.
pub fn updating_guards_keep()
    ensures { UpdatingGuardsKeep }
{}

/// A let-bound call leaves room for the variable of its marker.
#[tactic(auto, using(crate::proofs::MarkRoom::calls_leave_room))]
pub fn calls_leave_room_for_marks()
    ensures { CallsLeaveRoom }
{}

/// A pass may name what the machine's instructions hold.
pub fn instructions_hold_what_passes_name()
    ensures { suc most_named ≡ count_limit }
{}
