// Copies of instructions, a function for each family. No arm holds a copy while it makes another, since then each way
// out of the function has to drop it, and none uses `?`, which writes the type of all instructions into the proof
// several times: either makes the proof many times as long. An arm for the other families is never reached.
ghost use Rattle.std.specs.Prelude.{◌≡◌, IfOk};
ghost use Rattle.beam_table.specs.Families.{family};
ghost use Rattle.beam_table.specs.declared.family.Family.TheVariants as F;

use crate::family::Family;
use crate::insn::Insn;
use crate::operand::copy_both;
use erl_base::{Duplicate, NoMemory};
use std::alloc::Global;

impl Insn {
    pub fn copy(&self, alloc: Global) -> Result<Insn, NoMemory>
        ensures { IfOk result (λ copy. copy ≡ self.now) }
    {
        match self.family() {
            Family::Frames => copy_frames(self, alloc),
            Family::Building => copy_building(self, alloc),
            Family::TakingApart => copy_taking_apart(self, alloc),
            Family::Tests => copy_test(self, alloc),
            Family::Choices => copy_choice(self, alloc),
            Family::Calls => copy_call(self, alloc),
            Family::Handlers => copy_handler(self, alloc),
            Family::Receives => copy_receive(self, alloc),
            Family::Contexts => copy_context(self, alloc),
            Family::Segments => copy_segments(self, alloc),
        }
    }
}

impl Duplicate for Insn {
    fn copy(&self, alloc: Global) -> Result<Insn, NoMemory> {
        Insn::copy(self, alloc)
    }
}

fn copy_frames(insn: &Insn, alloc: Global) -> Result<Insn, NoMemory>
    requires { family insn.now ≡ F.Frames }
    ensures { IfOk result (λ copy. copy ≡ insn.now) }
{
    match insn {
        Insn::Label(label) => Ok(Insn::Label(*label)),
        Insn::Move(source, to) => match source.copy(alloc) {
            Ok(source) => Ok(Insn::Move(source, *to)),
            Err(refused) => Err(refused),
        },
        Insn::Swap(one, other) => Ok(Insn::Swap(*one, *other)),
        Insn::InitYregs(slots) => match slots.copy(alloc) {
            Ok(slots) => Ok(Insn::InitYregs(slots)),
            Err(refused) => Err(refused),
        },
        Insn::Allocate(slots, live) => Ok(Insn::Allocate(*slots, *live)),
        Insn::AllocateHeap(slots, words, live) => Ok(Insn::AllocateHeap(*slots, *words, *live)),
        Insn::Deallocate(slots) => Ok(Insn::Deallocate(*slots)),
        Insn::Trim(gone, left) => Ok(Insn::Trim(*gone, *left)),
        Insn::TestHeap(words, live) => Ok(Insn::TestHeap(*words, *live)),
        _ => unreachable!(),
    }
}

fn copy_building(insn: &Insn, alloc: Global) -> Result<Insn, NoMemory>
    requires { family insn.now ≡ F.Building }
    ensures { IfOk result (λ copy. copy ≡ insn.now) }
{
    match insn {
        Insn::PutList(head, tail, to) => match copy_both(head, tail, alloc) {
            Ok((head, tail)) => Ok(Insn::PutList(head, tail, *to)),
            Err(refused) => Err(refused),
        },
        Insn::PutTuple2(to, items) => match items.copy(alloc) {
            Ok(items) => Ok(Insn::PutTuple2(*to, items)),
            Err(refused) => Err(refused),
        },
        Insn::MakeFun3(entry, site, to, captures) => match captures.copy(alloc) {
            Ok(captures) => Ok(Insn::MakeFun3(*entry, *site, *to, captures)),
            Err(refused) => Err(refused),
        },
        Insn::PutMapAssoc(map, to, live, pairs) => match copy_both(map, pairs, alloc) {
            Ok((map, pairs)) => Ok(Insn::PutMapAssoc(map, *to, *live, pairs)),
            Err(refused) => Err(refused),
        },
        Insn::PutMapExact(map, to, live, pairs) => match copy_both(map, pairs, alloc) {
            Ok((map, pairs)) => Ok(Insn::PutMapExact(map, *to, *live, pairs)),
            Err(refused) => Err(refused),
        },
        _ => unreachable!(),
    }
}

fn copy_taking_apart(insn: &Insn, alloc: Global) -> Result<Insn, NoMemory>
    requires { family insn.now ≡ F.TakingApart }
    ensures { IfOk result (λ copy. copy ≡ insn.now) }
{
    match insn {
        Insn::GetList(list, head, tail) => match list.copy(alloc) {
            Ok(list) => Ok(Insn::GetList(list, *head, *tail)),
            Err(refused) => Err(refused),
        },
        Insn::GetHd(list, to) => match list.copy(alloc) {
            Ok(list) => Ok(Insn::GetHd(list, *to)),
            Err(refused) => Err(refused),
        },
        Insn::GetTl(list, to) => match list.copy(alloc) {
            Ok(list) => Ok(Insn::GetTl(list, *to)),
            Err(refused) => Err(refused),
        },
        Insn::GetTupleElement(tuple, index, to) => match tuple.copy(alloc) {
            Ok(tuple) => Ok(Insn::GetTupleElement(tuple, *index, *to)),
            Err(refused) => Err(refused),
        },
        Insn::GetMapElements(label, map, pairs) => match copy_both(map, pairs, alloc) {
            Ok((map, pairs)) => Ok(Insn::GetMapElements(*label, map, pairs)),
            Err(refused) => Err(refused),
        },
        _ => unreachable!(),
    }
}

fn copy_test(insn: &Insn, alloc: Global) -> Result<Insn, NoMemory>
    requires { family insn.now ≡ F.Tests }
    ensures { IfOk result (λ copy. copy ≡ insn.now) }
{
    match insn {
        Insn::HasMapFields(label, map, keys) => match copy_both(map, keys, alloc) {
            Ok((map, keys)) => Ok(Insn::HasMapFields(*label, map, keys)),
            Err(refused) => Err(refused),
        },
        Insn::Jump(label) => Ok(Insn::Jump(*label)),
        Insn::Test(test, label, source) => match source.copy(alloc) {
            Ok(source) => Ok(Insn::Test(*test, *label, source)),
            Err(refused) => Err(refused),
        },
        Insn::Compare(test, label, left, right) => match copy_both(left, right, alloc) {
            Ok((left, right)) => Ok(Insn::Compare(*test, *label, left, right)),
            Err(refused) => Err(refused),
        },
        Insn::TestArity(label, tuple, size) => match tuple.copy(alloc) {
            Ok(tuple) => Ok(Insn::TestArity(*label, tuple, *size)),
            Err(refused) => Err(refused),
        },
        Insn::IsTaggedTuple(label, tuple, size, tag) => match copy_both(tuple, tag, alloc) {
            Ok((tuple, tag)) => Ok(Insn::IsTaggedTuple(*label, tuple, *size, tag)),
            Err(refused) => Err(refused),
        },
        _ => unreachable!(),
    }
}

fn copy_choice(insn: &Insn, alloc: Global) -> Result<Insn, NoMemory>
    requires { family insn.now ≡ F.Choices }
    ensures { IfOk result (λ copy. copy ≡ insn.now) }
{
    match insn {
        Insn::SelectVal(source, label, choices) => match copy_both(source, choices, alloc) {
            Ok((source, choices)) => Ok(Insn::SelectVal(source, *label, choices)),
            Err(refused) => Err(refused),
        },
        Insn::SelectTupleArity(tuple, label, choices) => match copy_both(tuple, choices, alloc) {
            Ok((tuple, choices)) => Ok(Insn::SelectTupleArity(tuple, *label, choices)),
            Err(refused) => Err(refused),
        },
        Insn::Bif(bif, label, arguments, to) => match arguments.copy(alloc) {
            Ok(arguments) => Ok(Insn::Bif(*bif, *label, arguments, *to)),
            Err(refused) => Err(refused),
        },
        Insn::GcBif(bif, label, live, arguments, to) => match arguments.copy(alloc) {
            Ok(arguments) => Ok(Insn::GcBif(*bif, *label, *live, arguments, *to)),
            Err(refused) => Err(refused),
        },
        _ => unreachable!(),
    }
}

fn copy_call(insn: &Insn, alloc: Global) -> Result<Insn, NoMemory>
    requires { family insn.now ≡ F.Calls }
    ensures { IfOk result (λ copy. copy ≡ insn.now) }
{
    match insn {
        Insn::Return => Ok(Insn::Return),
        Insn::Call(arity, entry) => Ok(Insn::Call(*arity, *entry)),
        Insn::CallOnly(arity, entry) => Ok(Insn::CallOnly(*arity, *entry)),
        Insn::CallLast(arity, entry, slots) => Ok(Insn::CallLast(*arity, *entry, *slots)),
        Insn::CallExt(arity, function) => match function.copy(alloc) {
            Ok(function) => Ok(Insn::CallExt(*arity, function)),
            Err(refused) => Err(refused),
        },
        Insn::CallExtOnly(arity, function) => match function.copy(alloc) {
            Ok(function) => Ok(Insn::CallExtOnly(*arity, function)),
            Err(refused) => Err(refused),
        },
        Insn::CallExtLast(arity, function, slots) => match function.copy(alloc) {
            Ok(function) => Ok(Insn::CallExtLast(*arity, function, *slots)),
            Err(refused) => Err(refused),
        },
        Insn::CallFun(arity) => Ok(Insn::CallFun(*arity)),
        Insn::Apply(arity) => Ok(Insn::Apply(*arity)),
        Insn::ApplyLast(arity, slots) => Ok(Insn::ApplyLast(*arity, *slots)),
        Insn::Send => Ok(Insn::Send),
        _ => unreachable!(),
    }
}

fn copy_handler(insn: &Insn, alloc: Global) -> Result<Insn, NoMemory>
    requires { family insn.now ≡ F.Handlers }
    ensures { IfOk result (λ copy. copy ≡ insn.now) }
{
    match insn {
        Insn::BuildStacktrace => Ok(Insn::BuildStacktrace),
        Insn::Raise(trace, reason) => match copy_both(trace, reason, alloc) {
            Ok((trace, reason)) => Ok(Insn::Raise(trace, reason)),
            Err(refused) => Err(refused),
        },
        Insn::Badmatch(source) => match source.copy(alloc) {
            Ok(source) => Ok(Insn::Badmatch(source)),
            Err(refused) => Err(refused),
        },
        Insn::CaseEnd(source) => match source.copy(alloc) {
            Ok(source) => Ok(Insn::CaseEnd(source)),
            Err(refused) => Err(refused),
        },
        Insn::TryCaseEnd(source) => match source.copy(alloc) {
            Ok(source) => Ok(Insn::TryCaseEnd(source)),
            Err(refused) => Err(refused),
        },
        Insn::IfEnd => Ok(Insn::IfEnd),
        Insn::Try(slot, label) => Ok(Insn::Try(*slot, *label)),
        Insn::Catch(slot, label) => Ok(Insn::Catch(*slot, *label)),
        Insn::TryEnd(slot) => Ok(Insn::TryEnd(*slot)),
        Insn::TryCase(slot) => Ok(Insn::TryCase(*slot)),
        Insn::CatchEnd(slot) => Ok(Insn::CatchEnd(*slot)),
        _ => unreachable!(),
    }
}

fn copy_receive(insn: &Insn, alloc: Global) -> Result<Insn, NoMemory>
    requires { family insn.now ≡ F.Receives }
    ensures { IfOk result (λ copy. copy ≡ insn.now) }
{
    match insn {
        Insn::LoopRec(label, to) => Ok(Insn::LoopRec(*label, *to)),
        Insn::RemoveMessage => Ok(Insn::RemoveMessage),
        Insn::LoopRecEnd(label) => Ok(Insn::LoopRecEnd(*label)),
        Insn::Wait(label) => Ok(Insn::Wait(*label)),
        Insn::WaitTimeout(label, time) => match time.copy(alloc) {
            Ok(time) => Ok(Insn::WaitTimeout(*label, time)),
            Err(refused) => Err(refused),
        },
        Insn::Timeout => Ok(Insn::Timeout),
        Insn::RecvMarkerReserve(to) => Ok(Insn::RecvMarkerReserve(*to)),
        Insn::RecvMarkerBind(marker, reference) => match reference.copy(alloc) {
            Ok(reference) => Ok(Insn::RecvMarkerBind(*marker, reference)),
            Err(refused) => Err(refused),
        },
        Insn::RecvMarkerUse(reference) => match reference.copy(alloc) {
            Ok(reference) => Ok(Insn::RecvMarkerUse(reference)),
            Err(refused) => Err(refused),
        },
        Insn::RecvMarkerClear(reference) => match reference.copy(alloc) {
            Ok(reference) => Ok(Insn::RecvMarkerClear(reference)),
            Err(refused) => Err(refused),
        },
        _ => unreachable!(),
    }
}

fn copy_context(insn: &Insn, alloc: Global) -> Result<Insn, NoMemory>
    requires { family insn.now ≡ F.Contexts }
    ensures { IfOk result (λ copy. copy ≡ insn.now) }
{
    match insn {
        Insn::BsStartMatch4(label, live, source, to) => match source.copy(alloc) {
            Ok(source) => Ok(Insn::BsStartMatch4(*label, *live, source, *to)),
            Err(refused) => Err(refused),
        },
        Insn::BsTestTail2(label, context, left) => Ok(Insn::BsTestTail2(*label, *context, *left)),
        Insn::BsTestUnit(label, context, unit) => Ok(Insn::BsTestUnit(*label, *context, *unit)),
        Insn::BsGetTail(context, to, live) => Ok(Insn::BsGetTail(*context, *to, *live)),
        Insn::BsGetPosition(context, to, live) => Ok(Insn::BsGetPosition(*context, *to, *live)),
        Insn::BsSetPosition(context, position) => Ok(Insn::BsSetPosition(*context, *position)),
        _ => unreachable!(),
    }
}

fn copy_segments(insn: &Insn, alloc: Global) -> Result<Insn, NoMemory>
    requires { family insn.now ≡ F.Segments }
    ensures { IfOk result (λ copy. copy ≡ insn.now) }
{
    match insn {
        Insn::BsGetInteger2(label, live, context, size, unit, flags, to) => match size.copy(alloc) {
            Ok(size) => Ok(Insn::BsGetInteger2(*label, *live, *context, size, *unit, *flags, *to)),
            Err(refused) => Err(refused),
        },
        Insn::BsGetBinary2(label, live, context, size, unit, flags, to) => match size.copy(alloc) {
            Ok(size) => Ok(Insn::BsGetBinary2(*label, *live, *context, size, *unit, *flags, *to)),
            Err(refused) => Err(refused),
        },
        Insn::BsSkipBits2(label, context, size, unit, flags) => match size.copy(alloc) {
            Ok(size) => Ok(Insn::BsSkipBits2(*label, *context, size, *unit, *flags)),
            Err(refused) => Err(refused),
        },
        Insn::BsCreateBin(label, live, unit, to, segments) => match segments.copy(alloc) {
            Ok(segments) => Ok(Insn::BsCreateBin(*label, *live, *unit, *to, segments)),
            Err(refused) => Err(refused),
        },
        _ => unreachable!(),
    }
}
