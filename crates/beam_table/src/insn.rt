use crate::operand::{
    BuiltSegments, Extern, Flags, GetPairs, PutPairs, Reg, SizeChoices, Slots, Source, Sources,
    ValueChoices,
};
use bif_table::{Bif, Comparison, TypeTest};
use erl_base::{LabelId, List, Name, SiteId};

/// An instruction with its operands in the order of its text. A label that may be missing (`{f,0}`, or `no_fail`) is
/// an option. `func_info` is none: a function's head has it.
#[derive(Drop)]
pub enum Insn {
    Label(LabelId),
    Move(Source, Reg),
    Swap(Reg, Reg),
    InitYregs(Slots),
    /// slots, live
    Allocate(u32, u32),
    /// slots, words, live
    AllocateHeap(u32, u32, u32),
    Deallocate(u32),
    /// slots that go, slots that stay
    Trim(u32, u32),
    /// words, live
    TestHeap(u32, u32),
    Return,
    PutList(Source, Source, Reg),
    PutTuple2(Reg, Sources),
    MakeFun3(LabelId, SiteId, Reg, Sources),
    /// map, destination, live, pairs
    PutMapAssoc(Source, Reg, u32, PutPairs),
    PutMapExact(Source, Reg, u32, PutPairs),
    GetList(Source, Reg, Reg),
    GetHd(Source, Reg),
    GetTl(Source, Reg),
    GetTupleElement(Source, u32, Reg),
    GetMapElements(LabelId, Source, GetPairs),
    HasMapFields(LabelId, Source, Sources),
    Jump(LabelId),
    Test(TypeTest, LabelId, Source),
    Compare(Comparison, LabelId, Source, Source),
    TestArity(LabelId, Source, u32),
    IsTaggedTuple(LabelId, Source, u32, Name),
    SelectVal(Source, LabelId, ValueChoices),
    SelectTupleArity(Source, LabelId, SizeChoices),
    Bif(Bif, Option<LabelId>, Sources, Reg),
    /// function, label, live, arguments, destination
    GcBif(Bif, Option<LabelId>, u32, Sources, Reg),
    Call(u32, LabelId),
    CallOnly(u32, LabelId),
    /// arity, entry, slots
    CallLast(u32, LabelId, u32),
    CallExt(u32, Extern),
    CallExtOnly(u32, Extern),
    /// arity, function, slots
    CallExtLast(u32, Extern, u32),
    CallFun(u32),
    Apply(u32),
    /// arity, slots
    ApplyLast(u32, u32),
    Send,
    BuildStacktrace,
    /// trace, reason
    Raise(Source, Source),
    Badmatch(Source),
    CaseEnd(Source),
    TryCaseEnd(Source),
    IfEnd,
    Try(u32, LabelId),
    Catch(u32, LabelId),
    TryEnd(u32),
    TryCase(u32),
    CatchEnd(u32),
    /// label, X register
    LoopRec(LabelId, u32),
    RemoveMessage,
    LoopRecEnd(LabelId),
    Wait(LabelId),
    WaitTimeout(LabelId, Source),
    Timeout,
    RecvMarkerReserve(Reg),
    RecvMarkerBind(Reg, Source),
    RecvMarkerUse(Source),
    RecvMarkerClear(Source),
    /// label, live, source, destination
    BsStartMatch4(Option<LabelId>, u32, Source, Reg),
    /// label, live, context, size, unit, flags, destination
    BsGetInteger2(LabelId, u32, Reg, Source, u32, Flags, Reg),
    BsGetBinary2(LabelId, u32, Reg, Source, u32, Flags, Reg),
    /// label, context, size, unit, flags
    BsSkipBits2(LabelId, Reg, Source, u32, Flags),
    BsTestTail2(LabelId, Reg, u32),
    BsTestUnit(LabelId, Reg, u32),
    /// context, destination, live
    BsGetTail(Reg, Reg, u32),
    BsGetPosition(Reg, Reg, u32),
    BsSetPosition(Reg, Reg),
    /// label, live, unit, destination, segments
    BsCreateBin(Option<LabelId>, u32, u32, Reg, BuiltSegments),
}

// A literal stands behind a pointer, so that a list of instructions stays small.
const _: () = prove!(size_of::<Insn>() <= 96);

/// Instructions in a row.
pub type Insns = List<Insn>;
