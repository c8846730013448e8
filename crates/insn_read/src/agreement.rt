// Instructions whose operands must agree: a listed function stands in the instruction of its group, with its arguments,
// and a call has as many arguments as its function.
ghost use Rattle.std.specs.Prelude.{◌≡◌, ◌&&◌, length, map, not};
ghost use Rattle.std.specs.Option.{option_map};
ghost use Rattle.bif_table.specs.Builtins.{lookup, is_guard, is_collecting};
ghost use Rattle.bif_table.specs.View.{bif_view};
ghost use Rattle.term_read.specs.Reading.{Gives};
ghost use Rattle.beam_table.specs.View.{insn_view, source_view, reg_view, label_view, extern_view};
ghost use Rattle.beam_table.specs.declared.opcode.Opcode.TheVariants as O;
ghost use Rattle.insn_terms.specs.Values.{insn_from};
ghost use Rattle.insn_read.specs.OpcodeReading.{agreeing};

use beam_table::{Extern, Insn, Reg, Sources};
use bif_table::{Bif, is_guard, lookup};
use erl_base::{FunKey, LabelId, Name};
use term_read::Unread;

pub(crate) fn bif(
    name: Name,
    label: Option<LabelId>,
    arguments: Sources,
    to: Reg,
) -> Result<Insn, Unread>
    ensures { Gives insn_view result (agreeing (insn_from O.Bif
        (name, (label_view label, (map source_view arguments, (reg_view to, tt)))))) }
{
    match listed(name, &arguments) {
        None => Err(Unread::Syntax),
        Some(bif) => {
            if !is_plain(bif) {
                return Err(Unread::Syntax);
            }
            Ok(Insn::Bif(bif, label, arguments, to))
        }
    }
}

pub(crate) fn gc_bif(
    name: Name,
    label: Option<LabelId>,
    live: u32,
    arguments: Sources,
    to: Reg,
) -> Result<Insn, Unread>
    ensures { Gives insn_view result (agreeing (insn_from O.GcBif
        (name, (label_view label, (live, (map source_view arguments, (reg_view to, tt))))))) }
{
    match listed(name, &arguments) {
        None => Err(Unread::Syntax),
        Some(bif) => {
            if !bif.is_collecting() {
                return Err(Unread::Syntax);
            }
            Ok(Insn::GcBif(bif, label, live, arguments, to))
        }
    }
}

// The listed function of this name with as many arguments.
fn listed(name: Name, arguments: &Sources) -> Option<Bif>
    ensures { option_map bif_view result ≡ lookup name (length arguments.now) }
{
    let key = FunKey {
        name,
        arity: arguments.len() as u32,
    };
    lookup(&key)
}

// A guard may call it, and the machine does not collect for it.
fn is_plain(bif: Bif) -> bool
    ensures { result ≡ (is_guard (bif_view bif) && not (is_collecting (bif_view bif))) }
{
    is_guard(bif) && !bif.is_collecting()
}

pub(crate) fn call_ext(arity: u32, function: Extern) -> Result<Insn, Unread>
    ensures { Gives insn_view result (agreeing (insn_from O.CallExt (arity, (extern_view function, tt)))) }
{
    if arity != function.arity {
        return Err(Unread::Syntax);
    }
    Ok(Insn::CallExt(arity, function))
}

pub(crate) fn call_ext_only(arity: u32, function: Extern) -> Result<Insn, Unread>
    ensures { Gives insn_view result (agreeing (insn_from O.CallExtOnly (arity, (extern_view function, tt)))) }
{
    if arity != function.arity {
        return Err(Unread::Syntax);
    }
    Ok(Insn::CallExtOnly(arity, function))
}

pub(crate) fn call_ext_last(arity: u32, function: Extern, slots: u32) -> Result<Insn, Unread>
    ensures { Gives insn_view result (agreeing (insn_from O.CallExtLast
        (arity, (extern_view function, (slots, tt))))) }
{
    if arity != function.arity {
        return Err(Unread::Syntax);
    }
    Ok(Insn::CallExtLast(arity, function, slots))
}
