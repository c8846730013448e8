//! Runs of assembly modules as a program can make them: they end before the first step that makes a term out of range.
//!
//! The machine has whole numbers without limit and terms as deep as memory; a program has numbers of 128 signed bits
//! and terms that nest at most 2,100 deep. `2^126 + 2^126` is one past the range, so a trace ends *beyond* before the
//! step that would make it; where that step may not write its result, it is bad, as in the run.
//!
//! Sound, since a trace that does not go beyond is the run of the machine, and one that does has what the run has noted
//! until the first step out of range.
//!
//! The public functions have no code: the contract of each is a law. What makes such runs is another crate's.
#![tactic(auto)]

ghost use Rattle.std.specs.Prelude.{◌≡◌, ◌≢◌, ℕ, List, []};
ghost use Rattle.erl_base.specs.declared.ids.FunKey.{FunKey};
ghost use Rattle.erl_term.specs.Term.{Term};
ghost use Rattle.world_model.specs.World.{Script};
ghost use Rattle.step_machine.specs.Steps.{up, unfinished};
ghost use Rattle.beam_table.specs.Code.{AsmModule};
ghost use Rattle.beam_table.specs.InstructionStep.{step};
ghost use Rattle.beam_table.specs.MachineRun.{asm_run, start, code_of};
ghost use Rattle.traced_run.specs.Traces.{ended, beyond};
ghost use Rattle.traced_run.specs.TraceLaws.{IsRun, StopsAt};
ghost use Rattle.traced_run.specs.TracedRun.{step_in_range, traced_run};
ghost use Rattle.traced_run.specs.Examples.{SumsAtTheRange};

/// A trace that does not go beyond is the run.
pub fn a_trace_is_the_run()
    ensures { (a : AsmModule) (f : FunKey) (ts : List Term) (s : Script) (k : ℕ)
        → IsRun (traced_run a f ts s k) (asm_run a f ts s k) }
{}

/// A trace that goes beyond has the notes of fewer steps, and the next step is the first out of range.
pub fn a_trace_beyond_stops_at_the_first_step_out_of_range()
    ensures { (a : AsmModule) (f : FunKey) (ts : List Term) (s : Script) (k : ℕ)
        → (traced_run a f ts s k).end ≡ beyond
        → StopsAt step_in_range (step a) k (start s ts (code_of a.funs f)) s.replies [] (traced_run a f ts s k).log }
{}

/// A trace that has ended is the same for any more steps.
pub fn an_ended_trace_stays()
    ensures { (a : AsmModule) (f : FunKey) (ts : List Term) (s : Script) (j k : ℕ)
        → (traced_run a f ts s k).end ≢ ended unfinished → traced_run a f ts s (up j k) ≡ traced_run a f ts s k }
{}

/// At the end of the range, and past it.
#[tactic(auto, using(crate::proofs::Computed::sums))]
pub fn sums_at_the_range()
    ensures { SumsAtTheRange }
{}
