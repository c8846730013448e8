//! The compiler on bytes, today for plain modules: functions that give an integer, an atom or one of their parameters.
//! It does not see files or notes.
//!
//! Of `module 'm' ['f'/1] attributes [] 'f'/1 = fun (X) -> X end` it makes a module with one function, whose code is
//! `return`; `'f'/1 = fun (X) -> {X}` is refused at 1:1 as not built.
//!
//! Sound, since the reader gives the tree of exactly those texts, and the assembly of that tree behaves as it:
//! `IsCorrect` says both of what `compile` gives. Every text of a plain module is compiled, and what is refused has
//! none.
//!
//! The passes of the other modules, and the causes of faults in texts, are to come.
#![tactic(auto)]

ghost use Rattle.std.specs.Prelude.{IfOk, IfErr};
ghost use Rattle.term_read.specs.TermGrammar.{most_nesting};
ghost use Rattle.beam_table.specs.FormBounds.{FormsNest};
ghost use Rattle.beam_table.specs.ValidModule.{Valid};
ghost use Rattle.beam_table.specs.View.{module_view};
ghost use Rattle.beam_table.specs.WellFormedModule.{IsWellFormedModule};
ghost use Rattle.pass_line.specs.CompileCorrect.{IsCorrect};
ghost use Rattle.pass_line.specs.Compiled.{HasCode, IsNotBuilt};

mod code;
mod plain;
mod reader;
mod spelling;
mod text;

use beam_table::AsmModule;
use behaviour::{plain_assembly_is_valid, plain_modules_behave_the_same};
use code::assembly;
use erl_base::{Fault, Kind, Outside, Place, Refusal};
use std::alloc::Global;
use text::plain_module;

/// The assembly of the module whose text the bytes are. Every other text is refused as not built.
pub fn compile(alloc: Global, bytes: &[u8]) -> Result<AsmModule, Fault>
    ensures ok { IfOk result (λ a. HasCode bytes.now (module_view a)) }
    ensures nests { IfOk result (λ a. FormsNest most_nesting (module_view a)) }
    ensures well_formed { IfOk result IsWellFormedModule }
    ensures valid { IfOk result (λ a. Valid (module_view a)) }
    ensures refused { IfErr result (λ fault. IsNotBuilt bytes.now fault) }
    ensures correct { IfOk result (λ a. IsCorrect bytes.now (module_view a)) }
{
    let Some(tree) = plain_module(alloc, bytes)? else {
        return Err(Fault::Refused(Refusal {
            kind: Kind::Profile(Outside::NotBuilt),
            place: Place { line: 1, column: 1 },
        }));
    };
    let made = assembly(alloc, &tree)?;
    plain_assembly_is_valid();
    plain_modules_behave_the_same();
    Ok(made)
}
