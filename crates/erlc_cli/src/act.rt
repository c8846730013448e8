ghost use Rattle.std.specs.Prelude.{◌≡◌, ◌⊎◌, ◌<◌, ℕ, List, None, length, take, drop};
ghost use Rattle.erlc_cli.specs.ActionView.{asked};
ghost use Rattle.erlc_cli.specs.Answers.{IsAnswer, Leaves, LacksFile, LacksRoomToWrite, IsRight, PutsOut, CannotRead, WritesFailed};
ghost use Rattle.erlc_cli.specs.Notes.{Noted, note_of};

use crate::action::{Action, action_in};
use crate::compile::compile_file;
use crate::notes::note;
use crate::status::Status;
use std::alloc::{AllocError, Global};
use store_io::{Sink, Store};

/// Does what the words ask for: `compile IN OUT` reads the module text IN and writes its assembly text to OUT.
///
/// IN and OUT may be one name. A fault of `notes` changes no status. The store is asked to append the assembly text in
/// pieces of 4,096 bytes and then what is left.
pub fn run<S: Store, O: Sink, N: Sink>(
    alloc: Global,
    words: &[String],
    store: &mut S,
    out: &mut O,
    notes: &mut N,
) -> Status
    requires { (s : S) → (name text : List ℕ) → (done : ℕ) → done < length text
        → S.may_append s name (take 4096 (drop done text)) }
    ensures answers { IsAnswer (asked words.now) result }
    ensures usage { result ≡ Status.Usage → asked words.now ≡ None }
    ensures files { Leaves (asked words.now) result (S.told store.old) (S.told store.new) }
    ensures absent { LacksFile (asked words.now) (S.told store.old)
        → (result ≡ Status.ReadFault) ⊎ (result ≡ Status.NoMemory) }
    ensures read { result ≡ Status.ReadFault → CannotRead (asked words.now) (S.told store.old) (S.told store.new) }
    ensures write { result ≡ Status.WriteFault → WritesFailed (S.told store.old) (S.told store.new) }
    ensures no_room { result ≡ Status.WriteFault → LacksRoomToWrite (asked words.now) (S.told store.old) }
    ensures headline { IsRight (asked words.now) result (S.told store.old) (S.told store.new) }
    ensures out { PutsOut O.bytes O.faults (asked words.now) out.old out.new }
    ensures notes { Noted N.bytes N.faults (note_of (asked words.now) result) notes.old notes.new }
{
    let _ = &out;
    match action_in(alloc, words) {
        Ok(Some(Action::Compile(input, output))) => {
            let status = compile_file(alloc, store, input, output);
            note(notes, status, input, output);
            status
        }
        Ok(None) => {
            note(notes, Status::Usage, "", "");
            Status::Usage
        }
        Err(AllocError) => run_without_words(notes),
    }
}

/// The answer where the words themselves could not be had for want of memory.
pub fn run_without_words<N: Sink>(notes: &mut N) -> Status
    ensures status { result ≡ Status.NoMemory }
    ensures notes { Noted N.bytes N.faults (note_of None result) notes.old notes.new }
{
    note(notes, Status::NoMemory, "", "");
    Status::NoMemory
}
