ghost use Rattle.std.specs.Prelude.{◌≡◌, [], ◌∷◌, List, length};
ghost use Rattle.erl_term.specs.Term.{Term};
ghost use Rattle.erl_term.specs.Terms.{Values};
ghost use Rattle.world_model.specs.World.{Request, Reply};
ghost use Rattle.world_model.specs.Run.{State, M, ask, waits, numbered};
ghost use Rattle.world_model.specs.Receive.{Tried, Timeout};
ghost use Rattle.world_model.specs.Laws.{AsksOnce, RiseFrom, SerialsRise, TakesFirst, LooksForMore, TakesOneOut};

/// A request that finds a reply is one happening, and the messages that came join the end of the mailbox with the
/// next serials.
#[tactic(auto, using(crate::proofs::Asking::asks_once))]
pub fn asking_happens_once()
    ensures { (q : Request) (r : Reply) (rs : List Reply) (s : State) → s.replies ≡ r ∷ rs → AsksOnce q r rs s }
{}

/// A request that finds no reply ends the run, which waits on it; nothing else changes.
#[tactic(auto, using(crate::proofs::Asking::asks_none))]
pub fn asking_waits_without_replies()
    ensures { (q : Request) (s : State) → s.replies ≡ [] → ask q s ≡ (s, waits q) }
{}

/// The serials of a mailbox rise, from the first mailbox on and over each request.
#[tactic(auto, using(crate::proofs::Asking::rising))]
pub fn serials_rise()
    ensures first { (ts : List Term) → RiseFrom 0 (numbered 0 ts) (length ts) }
    ensures asking { (q : Request) (s : State) → SerialsRise s → SerialsRise (ask q s).0 }
{}

/// Where serials rise, taking a message takes it out alone, and the others keep their order.
#[tactic(auto, using(crate::proofs::Receiving::one_out))]
pub fn taking_takes_one_out()
    ensures { (s : State) → SerialsRise s → TakesOneOut s.mailbox }
{}

/// A receive takes the first message in mailbox order that a clause accepts.
pub fn receiving_takes_the_first_accepted()
    ensures { (pick : Term → Tried Values) (timeout : Timeout) (late : M Values) → TakesFirst pick timeout late }
{}

/// A receive whose clauses accept no message of the mailbox looks for more.
#[tactic(auto, using(crate::proofs::Receiving::looks_for_more))]
pub fn receiving_looks_for_more()
    ensures { (pick : Term → Tried Values) (timeout : Timeout) (late : M Values) → LooksForMore pick timeout late }
{}
