// Instructions of control from their operands: tests, choices, calls and handlers. An arm for the other families is
// never reached.
ghost use Rattle.std.specs.Prelude.{◌≡◌, map};
ghost use Rattle.erl_term.specs.Comparing.{AllNormal};
ghost use Rattle.erl_term.specs.View.{view};
ghost use Rattle.term_read.specs.Reading.{Gives};
ghost use Rattle.beam_table.specs.View.{insn_view};
ghost use Rattle.beam_table.specs.declared.family.Family.TheVariants as F;
ghost use Rattle.insn_terms.specs.Reading.{insn_by};
ghost use Rattle.insn_read.specs.OpcodeFamilies.{opcode_family};

use crate::agreement::{bif, call_ext, call_ext_last, call_ext_only, gc_bif};
use beam_table::{Insn, Opcode};
use erl_term::Term;
use operand_read::{
    Amount, Arguments, Arity, EntryLabel, Function, LabelOrZero, Live, One, OwnLabel, Row, Tagged,
    Two, WithSize, YSlot,
};
use std::alloc::Global;
use term_read::Unread;

pub(crate) fn read_test(alloc: Global, opcode: Opcode, terms: &[Term]) -> Result<Insn, Unread>
    requires family { opcode_family opcode ≡ F.Tests }
    requires normal { AllNormal terms.now }
    ensures { Gives insn_view result (insn_by opcode (map view terms.now)) }
{
    match opcode {
        Opcode::HasMapFields => match Row::read(alloc, terms) {
            Ok((OwnLabel(label), others)) => {
                let (map, (keys, ())) = others;
                Ok(Insn::HasMapFields(label, map, keys))
            }
            Err(unread) => Err(unread),
        },
        Opcode::Jump => match Row::read(alloc, terms) {
            Ok((OwnLabel(label), ())) => Ok(Insn::Jump(label)),
            Err(unread) => Err(unread),
        },
        Opcode::Test(test) => match Row::read(alloc, terms) {
            Ok((OwnLabel(label), (One(source), ()))) => Ok(Insn::Test(test, label, source)),
            Err(unread) => Err(unread),
        },
        Opcode::Compare(test) => match Row::read(alloc, terms) {
            Ok((OwnLabel(label), (Two(left, right), ()))) => Ok(Insn::Compare(
                test, label, left, right,
            )),
            Err(unread) => Err(unread),
        },
        Opcode::TestArity => match Row::read(alloc, terms) {
            Ok((OwnLabel(label), (WithSize(tuple, size), ()))) => Ok(Insn::TestArity(
                label, tuple, size,
            )),
            Err(unread) => Err(unread),
        },
        Opcode::IsTaggedTuple => match Row::read(alloc, terms) {
            Ok((OwnLabel(label), (Tagged(tuple, size, tag), ()))) => Ok(Insn::IsTaggedTuple(
                label, tuple, size, tag,
            )),
            Err(unread) => Err(unread),
        },
        _ => unreachable!(),
    }
}

pub(crate) fn read_choice(alloc: Global, opcode: Opcode, terms: &[Term]) -> Result<Insn, Unread>
    requires family { opcode_family opcode ≡ F.Choices }
    requires normal { AllNormal terms.now }
    ensures { Gives insn_view result (insn_by opcode (map view terms.now)) }
{
    match opcode {
        Opcode::SelectVal => match Row::read(alloc, terms) {
            Ok((source, (OwnLabel(label), (choices, ())))) => Ok(Insn::SelectVal(
                source, label, choices,
            )),
            Err(unread) => Err(unread),
        },
        Opcode::SelectTupleArity => match Row::read(alloc, terms) {
            Ok((tuple, (OwnLabel(label), (choices, ())))) => Ok(Insn::SelectTupleArity(
                tuple, label, choices,
            )),
            Err(unread) => Err(unread),
        },
        Opcode::Bif => match Row::read(alloc, terms) {
            Ok((Function(name), (LabelOrZero(label), (Arguments(arguments), (to, ()))))) => {
                bif(name, label, arguments, to)
            }
            Err(unread) => Err(unread),
        },
        Opcode::GcBif => match Row::read(alloc, terms) {
            Ok(
                (
                    Function(name),
                    (LabelOrZero(label), (Live(live), (Arguments(arguments), (to, ())))),
                ),
            ) => gc_bif(name, label, live, arguments, to),
            Err(unread) => Err(unread),
        },
        _ => unreachable!(),
    }
}

pub(crate) fn read_call(alloc: Global, opcode: Opcode, terms: &[Term]) -> Result<Insn, Unread>
    requires family { opcode_family opcode ≡ F.Calls }
    requires normal { AllNormal terms.now }
    ensures { Gives insn_view result (insn_by opcode (map view terms.now)) }
{
    match opcode {
        Opcode::Return => match Row::read(alloc, terms) {
            Ok(()) => Ok(Insn::Return),
            Err(unread) => Err(unread),
        },
        Opcode::Call => match Row::read(alloc, terms) {
            Ok((Arity(arity), (EntryLabel(entry), ()))) => Ok(Insn::Call(arity, entry)),
            Err(unread) => Err(unread),
        },
        Opcode::CallOnly => match Row::read(alloc, terms) {
            Ok((Arity(arity), (EntryLabel(entry), ()))) => Ok(Insn::CallOnly(arity, entry)),
            Err(unread) => Err(unread),
        },
        Opcode::CallLast => match Row::read(alloc, terms) {
            Ok((Arity(arity), (EntryLabel(entry), (Amount(slots), ())))) => Ok(Insn::CallLast(
                arity, entry, slots,
            )),
            Err(unread) => Err(unread),
        },
        Opcode::CallExt => match Row::read(alloc, terms) {
            Ok((Arity(arity), (function, ()))) => call_ext(arity, function),
            Err(unread) => Err(unread),
        },
        Opcode::CallExtOnly => match Row::read(alloc, terms) {
            Ok((Arity(arity), (function, ()))) => call_ext_only(arity, function),
            Err(unread) => Err(unread),
        },
        Opcode::CallExtLast => match Row::read(alloc, terms) {
            Ok((Arity(arity), others)) => {
                let (function, (Amount(slots), ())) = others;
                call_ext_last(arity, function, slots)
            }
            Err(unread) => Err(unread),
        },
        Opcode::CallFun => match Row::read(alloc, terms) {
            Ok((Arity(arity), ())) => Ok(Insn::CallFun(arity)),
            Err(unread) => Err(unread),
        },
        Opcode::Apply => match Row::read(alloc, terms) {
            Ok((Arity(arity), ())) => Ok(Insn::Apply(arity)),
            Err(unread) => Err(unread),
        },
        Opcode::ApplyLast => match Row::read(alloc, terms) {
            Ok((Arity(arity), (Amount(slots), ()))) => Ok(Insn::ApplyLast(arity, slots)),
            Err(unread) => Err(unread),
        },
        Opcode::Send => match Row::read(alloc, terms) {
            Ok(()) => Ok(Insn::Send),
            Err(unread) => Err(unread),
        },
        _ => unreachable!(),
    }
}

pub(crate) fn read_handler(alloc: Global, opcode: Opcode, terms: &[Term]) -> Result<Insn, Unread>
    requires family { opcode_family opcode ≡ F.Handlers }
    requires normal { AllNormal terms.now }
    ensures { Gives insn_view result (insn_by opcode (map view terms.now)) }
{
    match opcode {
        Opcode::BuildStacktrace => match Row::read(alloc, terms) {
            Ok(()) => Ok(Insn::BuildStacktrace),
            Err(unread) => Err(unread),
        },
        Opcode::Raise => match Row::read(alloc, terms) {
            Ok((trace, (reason, ()))) => Ok(Insn::Raise(trace, reason)),
            Err(unread) => Err(unread),
        },
        Opcode::Badmatch => match Row::read(alloc, terms) {
            Ok((source, ())) => Ok(Insn::Badmatch(source)),
            Err(unread) => Err(unread),
        },
        Opcode::CaseEnd => match Row::read(alloc, terms) {
            Ok((source, ())) => Ok(Insn::CaseEnd(source)),
            Err(unread) => Err(unread),
        },
        Opcode::TryCaseEnd => match Row::read(alloc, terms) {
            Ok((source, ())) => Ok(Insn::TryCaseEnd(source)),
            Err(unread) => Err(unread),
        },
        Opcode::IfEnd => match Row::read(alloc, terms) {
            Ok(()) => Ok(Insn::IfEnd),
            Err(unread) => Err(unread),
        },
        Opcode::Try => match Row::read(alloc, terms) {
            Ok((YSlot(slot), (OwnLabel(label), ()))) => Ok(Insn::Try(slot, label)),
            Err(unread) => Err(unread),
        },
        Opcode::Catch => match Row::read(alloc, terms) {
            Ok((YSlot(slot), (OwnLabel(label), ()))) => Ok(Insn::Catch(slot, label)),
            Err(unread) => Err(unread),
        },
        Opcode::TryEnd => match Row::read(alloc, terms) {
            Ok((YSlot(slot), ())) => Ok(Insn::TryEnd(slot)),
            Err(unread) => Err(unread),
        },
        Opcode::TryCase => match Row::read(alloc, terms) {
            Ok((YSlot(slot), ())) => Ok(Insn::TryCase(slot)),
            Err(unread) => Err(unread),
        },
        Opcode::CatchEnd => match Row::read(alloc, terms) {
            Ok((YSlot(slot), ())) => Ok(Insn::CatchEnd(slot)),
            Err(unread) => Err(unread),
        },
        _ => unreachable!(),
    }
}
