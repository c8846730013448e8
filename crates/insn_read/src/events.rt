// Instructions of receives and of bit strings from their operands. An arm for the other families is never reached.
ghost use Rattle.std.specs.Prelude.{◌≡◌, map};
ghost use Rattle.erl_term.specs.Comparing.{AllNormal};
ghost use Rattle.erl_term.specs.View.{view};
ghost use Rattle.term_read.specs.Reading.{Gives};
ghost use Rattle.beam_table.specs.View.{insn_view};
ghost use Rattle.beam_table.specs.declared.family.Family.TheVariants as F;
ghost use Rattle.insn_terms.specs.Reading.{insn_by};
ghost use Rattle.insn_read.specs.OpcodeFamilies.{opcode_family};

use beam_table::{Insn, Opcode};
use erl_term::Term;
use operand_read::{
    Amount, Counted, Field, LabelOrNoFail, LabelOrZero, Live, OwnLabel, Row, XSlot, Zero,
};
use std::alloc::Global;
use term_read::Unread;

pub(crate) fn read_receive(alloc: Global, opcode: Opcode, terms: &[Term]) -> Result<Insn, Unread>
    requires family { opcode_family opcode ≡ F.Receives }
    requires normal { AllNormal terms.now }
    ensures { Gives insn_view result (insn_by opcode (map view terms.now)) }
{
    match opcode {
        Opcode::LoopRec => match Row::read(alloc, terms) {
            Ok((OwnLabel(label), (XSlot(to), ()))) => Ok(Insn::LoopRec(label, to)),
            Err(unread) => Err(unread),
        },
        Opcode::RemoveMessage => match Row::read(alloc, terms) {
            Ok(()) => Ok(Insn::RemoveMessage),
            Err(unread) => Err(unread),
        },
        Opcode::LoopRecEnd => match Row::read(alloc, terms) {
            Ok((OwnLabel(label), ())) => Ok(Insn::LoopRecEnd(label)),
            Err(unread) => Err(unread),
        },
        Opcode::Wait => match Row::read(alloc, terms) {
            Ok((OwnLabel(label), ())) => Ok(Insn::Wait(label)),
            Err(unread) => Err(unread),
        },
        Opcode::WaitTimeout => match Row::read(alloc, terms) {
            Ok((OwnLabel(label), (time, ()))) => Ok(Insn::WaitTimeout(label, time)),
            Err(unread) => Err(unread),
        },
        Opcode::Timeout => match Row::read(alloc, terms) {
            Ok(()) => Ok(Insn::Timeout),
            Err(unread) => Err(unread),
        },
        Opcode::RecvMarkerReserve => match Row::read(alloc, terms) {
            Ok((to, ())) => Ok(Insn::RecvMarkerReserve(to)),
            Err(unread) => Err(unread),
        },
        Opcode::RecvMarkerBind => match Row::read(alloc, terms) {
            Ok((marker, (reference, ()))) => Ok(Insn::RecvMarkerBind(marker, reference)),
            Err(unread) => Err(unread),
        },
        Opcode::RecvMarkerUse => match Row::read(alloc, terms) {
            Ok((reference, ())) => Ok(Insn::RecvMarkerUse(reference)),
            Err(unread) => Err(unread),
        },
        Opcode::RecvMarkerClear => match Row::read(alloc, terms) {
            Ok((reference, ())) => Ok(Insn::RecvMarkerClear(reference)),
            Err(unread) => Err(unread),
        },
        _ => unreachable!(),
    }
}

pub(crate) fn read_context(alloc: Global, opcode: Opcode, terms: &[Term]) -> Result<Insn, Unread>
    requires family { opcode_family opcode ≡ F.Contexts }
    requires normal { AllNormal terms.now }
    ensures { Gives insn_view result (insn_by opcode (map view terms.now)) }
{
    match opcode {
        Opcode::BsStartMatch4 => match Row::read(alloc, terms) {
            Ok((LabelOrNoFail(label), (Live(live), others))) => {
                let (source, (to, ())) = others;
                Ok(Insn::BsStartMatch4(label, live, source, to))
            }
            Err(unread) => Err(unread),
        },
        Opcode::BsTestTail2 => match Row::read(alloc, terms) {
            Ok((OwnLabel(label), (Counted(context, left), ()))) => Ok(Insn::BsTestTail2(
                label, context, left,
            )),
            Err(unread) => Err(unread),
        },
        Opcode::BsTestUnit => match Row::read(alloc, terms) {
            Ok((OwnLabel(label), (Counted(context, unit), ()))) => Ok(Insn::BsTestUnit(
                label, context, unit,
            )),
            Err(unread) => Err(unread),
        },
        Opcode::BsGetTail => match Row::read(alloc, terms) {
            Ok((context, (to, (Live(live), ())))) => Ok(Insn::BsGetTail(context, to, live)),
            Err(unread) => Err(unread),
        },
        Opcode::BsGetPosition => match Row::read(alloc, terms) {
            Ok((context, (to, (Live(live), ())))) => Ok(Insn::BsGetPosition(context, to, live)),
            Err(unread) => Err(unread),
        },
        Opcode::BsSetPosition => match Row::read(alloc, terms) {
            Ok((context, (position, ()))) => Ok(Insn::BsSetPosition(context, position)),
            Err(unread) => Err(unread),
        },
        _ => unreachable!(),
    }
}

pub(crate) fn read_segments(alloc: Global, opcode: Opcode, terms: &[Term]) -> Result<Insn, Unread>
    requires family { opcode_family opcode ≡ F.Segments }
    requires normal { AllNormal terms.now }
    ensures { Gives insn_view result (insn_by opcode (map view terms.now)) }
{
    match opcode {
        Opcode::BsGetInteger2 => match Row::read(alloc, terms) {
            Ok((OwnLabel(label), (Live(live), others))) => {
                let (Field(context, size, unit, flags), (to, ())) = others;
                Ok(Insn::BsGetInteger2(label, live, context, size, unit, flags, to))
            }
            Err(unread) => Err(unread),
        },
        Opcode::BsGetBinary2 => match Row::read(alloc, terms) {
            Ok((OwnLabel(label), (Live(live), others))) => {
                let (Field(context, size, unit, flags), (to, ())) = others;
                Ok(Insn::BsGetBinary2(label, live, context, size, unit, flags, to))
            }
            Err(unread) => Err(unread),
        },
        Opcode::BsSkipBits2 => match Row::read(alloc, terms) {
            Ok((OwnLabel(label), (Field(context, size, unit, flags), ()))) => Ok(Insn::BsSkipBits2(
                label, context, size, unit, flags,
            )),
            Err(unread) => Err(unread),
        },
        Opcode::BsCreateBin => match Row::read(alloc, terms) {
            Ok((LabelOrZero(label), (Zero, (Live(live), (Amount(unit), (to, (segments, ()))))))) =>
                Ok(Insn::BsCreateBin(label, live, unit, to, segments)),
            Err(unread) => Err(unread),
        },
        _ => unreachable!(),
    }
}
