ghost use Rattle.std.specs.Prelude.{◌≡◌, ◌<◌, ℕ, List, Some, Err, IfOk, length, take, drop};
ghost use Rattle.erl_base.specs.declared.refusal.Refusal.{Refusal};
ghost use Rattle.core_form.specs.Core.{Module};
ghost use Rattle.pass_line.specs.CompileCorrect.{AcceptedText, IsCompiled};
ghost use Rattle.erlc_cli.specs.Actions.{compile};
ghost use Rattle.erlc_cli.specs.Answers.{Leaves, LacksFile, CannotRead, WritesFailed, LacksRoomToWrite, IsRight};
ghost use Rattle.erlc_cli.specs.CompileAnswers.{IsCompileAnswer, not_built};

use crate::status::Status;
use asm_text::{encoded, print};
use erl_base::{Bytes, Fault, Kind, Place, Refusal};
use pass_line::compile;
use std::alloc::Global;
use store_io::{Failed, LoadFault, Store, load_all, store_all};

/// Compiles one file into another.
pub fn compile_file<S: Store>(alloc: Global, store: &mut S, input: &str, output: &str) -> Status
    requires { (s : S) → (name text : List ℕ) → (done : ℕ) → done < length text
        → S.may_append s name (take 4096 (drop done text)) }
    ensures answers { IsCompileAnswer result }
    ensures files { Leaves (Some (compile input.now output.now)) result (S.told store.old) (S.told store.new) }
    ensures absent { LacksFile (Some (compile input.now output.now)) (S.told store.old) → result ≡ Status.ReadFault }
    ensures read { result ≡ Status.ReadFault
        → CannotRead (Some (compile input.now output.now)) (S.told store.old) (S.told store.new) }
    ensures write { result ≡ Status.WriteFault → WritesFailed (S.told store.old) (S.told store.new) }
    ensures no_room { result ≡ Status.WriteFault
        → LacksRoomToWrite (Some (compile input.now output.now)) (S.told store.old) }
    ensures headline { IsRight (Some (compile input.now output.now)) result (S.told store.old) (S.told store.new) }
{
    let text = match load_all(alloc, store, input) {
        Ok(text) => text,
        Err(LoadFault::Failed) => return Status::ReadFault,
        Err(LoadFault::TooLarge) => {
            return Status::Refused(Refusal {
                kind: Kind::TooLarge,
                place: Place { line: 0, column: 0 },
            });
        }
        Err(LoadFault::NoMemory) => return Status::NoMemory,
    };
    let asm = match compiled(alloc, text.as_slice()) {
        Ok(asm) => asm,
        Err(Fault::Refused(refusal)) => return Status::Refused(refusal),
        Err(Fault::NoMemory) => return Status::NoMemory,
    };
    match store_all(store, output, asm.as_slice()) {
        Ok(()) => Status::Done,
        Err(Failed) => Status::WriteFault,
    }
}

/// The bytes of the assembly text of a module text.
pub fn compiled(alloc: Global, text: &[u8]) -> Result<Bytes, Fault>
    ensures ok { IfOk result (λ asm. IsCompiled text.now asm) }
    ensures refused { (r : Refusal) → result ≡ Err (Fault.Refused r) → (r ≡ not_built) × ((m : Module)
        → AcceptedText text.now m → ⊥) }
{
    let module = compile(alloc, text)?;
    let printed = print(alloc, &module)?;
    Ok(encoded(alloc, printed.as_slice())?)
}
