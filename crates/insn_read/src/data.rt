// Instructions of data from their operands: frames, building, and taking apart. An arm for the other families is never
// reached.
ghost use Rattle.std.specs.Prelude.{◌≡◌, map};
ghost use Rattle.erl_term.specs.Comparing.{AllNormal};
ghost use Rattle.erl_term.specs.View.{view};
ghost use Rattle.term_read.specs.Reading.{Gives};
ghost use Rattle.beam_table.specs.View.{insn_view};
ghost use Rattle.beam_table.specs.declared.family.Family.TheVariants as F;
ghost use Rattle.insn_terms.specs.Reading.{insn_by};
ghost use Rattle.insn_read.specs.OpcodeFamilies.{opcode_family};

use beam_table::{Insn, Opcode};
use erl_term::Term;
use operand_read::{Amount, EntryLabel, Live, NoLabel, OwnLabel, Row, Site, Zero};
use std::alloc::Global;
use term_read::Unread;

pub(crate) fn read_frames(alloc: Global, opcode: Opcode, terms: &[Term]) -> Result<Insn, Unread>
    requires family { opcode_family opcode ≡ F.Frames }
    requires normal { AllNormal terms.now }
    ensures { Gives insn_view result (insn_by opcode (map view terms.now)) }
{
    match opcode {
        Opcode::Label => match Row::read(alloc, terms) {
            Ok((OwnLabel(label), ())) => Ok(Insn::Label(label)),
            Err(unread) => Err(unread),
        },
        Opcode::Move => match Row::read(alloc, terms) {
            Ok((source, (to, ()))) => Ok(Insn::Move(source, to)),
            Err(unread) => Err(unread),
        },
        Opcode::Swap => match Row::read(alloc, terms) {
            Ok((one, (other, ()))) => Ok(Insn::Swap(one, other)),
            Err(unread) => Err(unread),
        },
        Opcode::InitYregs => match Row::read(alloc, terms) {
            Ok((slots, ())) => Ok(Insn::InitYregs(slots)),
            Err(unread) => Err(unread),
        },
        Opcode::Allocate => match Row::read(alloc, terms) {
            Ok((Amount(slots), (Live(live), ()))) => Ok(Insn::Allocate(slots, live)),
            Err(unread) => Err(unread),
        },
        Opcode::AllocateHeap => match Row::read(alloc, terms) {
            Ok((Amount(slots), (Amount(words), (Live(live), ())))) => Ok(Insn::AllocateHeap(
                slots, words, live,
            )),
            Err(unread) => Err(unread),
        },
        Opcode::Deallocate => match Row::read(alloc, terms) {
            Ok((Amount(slots), ())) => Ok(Insn::Deallocate(slots)),
            Err(unread) => Err(unread),
        },
        Opcode::Trim => match Row::read(alloc, terms) {
            Ok((Amount(gone), (Amount(left), ()))) => Ok(Insn::Trim(gone, left)),
            Err(unread) => Err(unread),
        },
        Opcode::TestHeap => match Row::read(alloc, terms) {
            Ok((Amount(words), (Live(live), ()))) => Ok(Insn::TestHeap(words, live)),
            Err(unread) => Err(unread),
        },
        _ => unreachable!(),
    }
}

pub(crate) fn read_building(alloc: Global, opcode: Opcode, terms: &[Term]) -> Result<Insn, Unread>
    requires family { opcode_family opcode ≡ F.Building }
    requires normal { AllNormal terms.now }
    ensures { Gives insn_view result (insn_by opcode (map view terms.now)) }
{
    match opcode {
        Opcode::PutList => match Row::read(alloc, terms) {
            Ok((head, (tail, (to, ())))) => Ok(Insn::PutList(head, tail, to)),
            Err(unread) => Err(unread),
        },
        Opcode::PutTuple2 => match Row::read(alloc, terms) {
            Ok((to, (items, ()))) => Ok(Insn::PutTuple2(to, items)),
            Err(unread) => Err(unread),
        },
        Opcode::MakeFun3 => match Row::read(alloc, terms) {
            Ok((EntryLabel(entry), (Site(site), (Zero, (to, (captures, ())))))) => Ok(
                Insn::MakeFun3(entry, site, to, captures),
            ),
            Err(unread) => Err(unread),
        },
        Opcode::PutMapAssoc => match Row::read(alloc, terms) {
            Ok((NoLabel, (map, (to, (Live(live), (pairs, ())))))) => Ok(Insn::PutMapAssoc(
                map, to, live, pairs,
            )),
            Err(unread) => Err(unread),
        },
        Opcode::PutMapExact => match Row::read(alloc, terms) {
            Ok((NoLabel, (map, (to, (Live(live), (pairs, ())))))) => Ok(Insn::PutMapExact(
                map, to, live, pairs,
            )),
            Err(unread) => Err(unread),
        },
        _ => unreachable!(),
    }
}

pub(crate) fn read_taking_apart(
    alloc: Global,
    opcode: Opcode,
    terms: &[Term],
) -> Result<Insn, Unread>
    requires family { opcode_family opcode ≡ F.TakingApart }
    requires normal { AllNormal terms.now }
    ensures { Gives insn_view result (insn_by opcode (map view terms.now)) }
{
    match opcode {
        Opcode::GetList => match Row::read(alloc, terms) {
            Ok((list, (head, (tail, ())))) => Ok(Insn::GetList(list, head, tail)),
            Err(unread) => Err(unread),
        },
        Opcode::GetHd => match Row::read(alloc, terms) {
            Ok((list, (to, ()))) => Ok(Insn::GetHd(list, to)),
            Err(unread) => Err(unread),
        },
        Opcode::GetTl => match Row::read(alloc, terms) {
            Ok((list, (to, ()))) => Ok(Insn::GetTl(list, to)),
            Err(unread) => Err(unread),
        },
        Opcode::GetTupleElement => match Row::read(alloc, terms) {
            Ok((tuple, (Amount(index), (to, ())))) => Ok(Insn::GetTupleElement(tuple, index, to)),
            Err(unread) => Err(unread),
        },
        Opcode::GetMapElements => match Row::read(alloc, terms) {
            Ok((OwnLabel(label), others)) => {
                let (from, (pairs, ())) = others;
                Ok(Insn::GetMapElements(label, from, pairs))
            }
            Err(unread) => Err(unread),
        },
        _ => unreachable!(),
    }
}
