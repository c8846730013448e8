ghost use Rattle.step_machine.specs.Follows.{OneWaySuffices};
ghost use Rattle.step_machine.specs.FrameFacts.{ListedRegistersAgree, SlotsAgree};
ghost use Rattle.step_machine.specs.RunFacts.{EndedRunStays, LogGrows, RunSplits, EarlierNotesStay, UnaskedRepliesStay};

/// After an end, further steps change nothing.
pub fn ended_run_stays_ended<S>()
    ensures { EndedRunStays S }
{}

/// More steps only add notes in front.
pub fn log_only_grows<S>()
    ensures { LogGrows S }
{}

/// A run of j and k steps is a run of k steps from where j steps lead.
pub fn run_splits<S>()
    ensures { RunSplits S }
{}

/// A run does the same whatever was noted before.
pub fn earlier_notes_do_not_matter<S>()
    ensures { EarlierNotesStay S }
{}

/// A run that does not end waiting does the same with further replies.
pub fn unasked_replies_do_not_matter<S>()
    ensures { UnaskedRepliesStay S }
{}

/// Runs that reach what a meaning gives with each bound follow it both ways.
pub fn one_direction_suffices<S>()
    ensures { OneWaySuffices S }
{}

/// A register written in a list holds what it holds where it is written by its number.
pub fn listed_registers_agree<Cell>()
    ensures { ListedRegistersAgree Cell }
{}

/// A slot within its frame is written as a cell of a list that may grow.
pub fn slots_agree<Cell>()
    ensures { SlotsAgree Cell }
{}
