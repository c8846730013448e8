// The first fault of scope.
ghost use Rattle.std.specs.Prelude.{◌≡◌, [], IfOk, IfErr};
ghost use Rattle.core_form.specs.View.{module_view};
ghost use Rattle.core_scope.specs.ScopeFaults.{scope_faults, IsFirstScopeFault};
ghost use Rattle.core_scope.specs.ScopeWalk.{judge_module};

use crate::bindings::{bind_defs, keep_exports};
use crate::walk::in_defs;
use core_form::Module;
use core_names::Names;
use erl_base::{Fault, NoMemory, Refusal};
use first_fault::answer;
use std::alloc::Global;

fn first_of(alloc: Global, tree: &Module) -> Result<Option<Refusal>, NoMemory>
    ensures { IfOk result (λ first. first ≡ judge_module (module_view tree.now)) }
{
    let mut names = Names::new(alloc);
    let first = bind_defs(&mut names, tree.defs.as_slice(), None)?;
    let first = keep_exports(&names, tree.exports.as_slice(), first);
    in_defs(tree.defs.as_slice(), alloc, &mut names, false, first)
}

/// Refuses a module with a fault of names, degrees or guards: its first one. The time is that of the text, with the
/// expected time of a look-up in a hash map for each name; the memory is that of the names that are bound at a time.
pub fn check_scope(alloc: Global, tree: &Module) -> Result<(), Fault>
    ensures ok { IfOk result (λ _. scope_faults (module_view tree.now) ≡ []) }
    ensures refused { IfErr result (λ fault. IsFirstScopeFault (module_view tree.now) fault) }
{
    let first = first_of(alloc, tree)?;
    match answer(first) {
        Ok(()) => Ok(()),
        Err(fault) => Err(Fault::Refused(fault)),
    }
}
