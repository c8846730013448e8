// Instructions by their opcodes, and the operands that each has in the text.
ghost use Rattle.std.specs.Prelude.{◌≡◌, true, false};
ghost use Rattle.beam_table.specs.Opcodes.{opcode_of, opcode_row, inner};

use crate::insn::Insn;
use bif_table::{Comparison, TypeTest};

/// The kind of an operand in the text.
#[derive(Clone, Copy, Debug, PartialEq, Eq)]
pub enum Kind {
    Source,
    Register,
    /// A label of the same function.
    OwnLabel,
    /// The entry label of any function.
    EntryLabel,
    /// A label of the same function, or `{f,0}`.
    LabelOrZero,
    /// A label of the same function, or `no_fail`.
    LabelOrNoFail,
    /// `{f,0}`.
    NoLabel,
    XSlot,
    YSlot,
    Live,
    Arity,
    Site,
    /// The unit of a segment that is built.
    Unit,
    /// Slots, words, sizes and other counts.
    Amount,
    /// The number 0.
    Zero,
    /// The name of a listed function.
    Function,
    Atom,
    Extern,
    FieldFlags,
    FlagList,
    /// `{list,[..]}`, where the inner kinds come any number of times.
    Slots,
    Sources,
    PutPairs,
    GetPairs,
    ValueChoices,
    SizeChoices,
    Segments,
    /// `[..]` of any number of sources.
    Arguments,
    /// `[..]`, where the inner kinds come once.
    One,
    Two,
    Sized,
    Tagged,
    Field,
    Counted,
}

/// What an instruction is, without its operands. Tests are told apart by what they test.
#[derive(Clone, Copy, Debug, PartialEq, Eq)]
pub enum Opcode {
    Label,
    Move,
    Swap,
    InitYregs,
    Allocate,
    AllocateHeap,
    Deallocate,
    Trim,
    TestHeap,
    Return,
    PutList,
    PutTuple2,
    MakeFun3,
    PutMapAssoc,
    PutMapExact,
    GetList,
    GetHd,
    GetTl,
    GetTupleElement,
    GetMapElements,
    HasMapFields,
    Jump,
    Test(TypeTest),
    Compare(Comparison),
    TestArity,
    IsTaggedTuple,
    SelectVal,
    SelectTupleArity,
    Bif,
    GcBif,
    Call,
    CallOnly,
    CallLast,
    CallExt,
    CallExtOnly,
    CallExtLast,
    CallFun,
    Apply,
    ApplyLast,
    Send,
    BuildStacktrace,
    Raise,
    Badmatch,
    CaseEnd,
    TryCaseEnd,
    IfEnd,
    Try,
    Catch,
    TryEnd,
    TryCase,
    CatchEnd,
    LoopRec,
    RemoveMessage,
    LoopRecEnd,
    Wait,
    WaitTimeout,
    Timeout,
    RecvMarkerReserve,
    RecvMarkerBind,
    RecvMarkerUse,
    RecvMarkerClear,
    BsStartMatch4,
    BsGetInteger2,
    BsGetBinary2,
    BsSkipBits2,
    BsTestTail2,
    BsTestUnit,
    BsGetTail,
    BsGetPosition,
    BsSetPosition,
    BsCreateBin,
}

/// What the table says of an opcode.
#[derive(Clone, Copy)]
struct Row {
    name: &'static str,
    is_test: bool,
    kinds: &'static [Kind],
}

impl Kind {
    /// The kinds of the operands inside one that is a list.
    pub fn inner(self) -> &'static [Kind]
        ensures { result.now ≡ inner self }
    {
        match self {
            Kind::Slots => &[Kind::YSlot],
            Kind::Sources | Kind::Arguments | Kind::One => &[Kind::Source],
            Kind::PutPairs | Kind::Two => &[Kind::Source, Kind::Source],
            Kind::GetPairs => &[Kind::Source, Kind::Register],
            Kind::ValueChoices => &[Kind::Source, Kind::OwnLabel],
            Kind::SizeChoices => &[Kind::Amount, Kind::OwnLabel],
            Kind::Segments => &[
                Kind::Atom,
                Kind::Amount,
                Kind::Unit,
                Kind::FlagList,
                Kind::Source,
                Kind::Source,
            ],
            Kind::Sized => &[Kind::Source, Kind::Amount],
            Kind::Tagged => &[Kind::Source, Kind::Amount, Kind::Atom],
            Kind::Field => &[Kind::Register, Kind::Source, Kind::Amount, Kind::FieldFlags],
            Kind::Counted => &[Kind::Register, Kind::Amount],
            Kind::Source
            | Kind::Register
            | Kind::OwnLabel
            | Kind::EntryLabel
            | Kind::LabelOrZero
            | Kind::LabelOrNoFail
            | Kind::NoLabel
            | Kind::XSlot
            | Kind::YSlot
            | Kind::Live
            | Kind::Arity
            | Kind::Site
            | Kind::Unit
            | Kind::Amount
            | Kind::Zero
            | Kind::Function
            | Kind::Atom
            | Kind::Extern
            | Kind::FieldFlags
            | Kind::FlagList => &[],
        }
    }
}

impl Opcode {
    /// Its name in the text: of a test the one behind `test`.
    pub fn name(self) -> &'static str
        ensures { result.now ≡ (opcode_row self).name }
    {
        self.row().name
    }

    /// Whether the text writes it as a test.
    pub fn is_test(self) -> bool
        ensures { result ≡ (opcode_row self).is_test }
    {
        self.row().is_test
    }

    /// The operands behind its name.
    pub fn kinds(self) -> &'static [Kind]
        ensures { result.now ≡ (opcode_row self).kinds }
    {
        self.row().kinds
    }

    // The table.
    fn row(self) -> Row
        ensures name { result.name.now ≡ (opcode_row self).name }
        ensures is_test { result.is_test ≡ (opcode_row self).is_test }
        ensures kinds { result.kinds.now ≡ (opcode_row self).kinds }
    {
        match self {
            Opcode::Label => plain_row("label", &[Kind::OwnLabel]),
            Opcode::Move => plain_row("move", &[Kind::Source, Kind::Register]),
            Opcode::Swap => plain_row("swap", &[Kind::Register, Kind::Register]),
            Opcode::InitYregs => plain_row("init_yregs", &[Kind::Slots]),
            Opcode::Allocate => plain_row("allocate", &[Kind::Amount, Kind::Live]),
            Opcode::AllocateHeap => plain_row(
                "allocate_heap",
                &[Kind::Amount, Kind::Amount, Kind::Live],
            ),
            Opcode::Deallocate => plain_row("deallocate", &[Kind::Amount]),
            Opcode::Trim => plain_row("trim", &[Kind::Amount, Kind::Amount]),
            Opcode::TestHeap => plain_row("test_heap", &[Kind::Amount, Kind::Live]),
            Opcode::Return => plain_row("return", &[]),
            Opcode::PutList => plain_row("put_list", &[Kind::Source, Kind::Source, Kind::Register]),
            Opcode::PutTuple2 => plain_row("put_tuple2", &[Kind::Register, Kind::Sources]),
            Opcode::MakeFun3 => plain_row(
                "make_fun3",
                &[
                    Kind::EntryLabel,
                    Kind::Site,
                    Kind::Zero,
                    Kind::Register,
                    Kind::Sources,
                ],
            ),
            Opcode::PutMapAssoc => plain_row(
                "put_map_assoc",
                &[
                    Kind::NoLabel,
                    Kind::Source,
                    Kind::Register,
                    Kind::Live,
                    Kind::PutPairs,
                ],
            ),
            Opcode::PutMapExact => plain_row(
                "put_map_exact",
                &[
                    Kind::NoLabel,
                    Kind::Source,
                    Kind::Register,
                    Kind::Live,
                    Kind::PutPairs,
                ],
            ),
            Opcode::GetList => plain_row(
                "get_list",
                &[Kind::Source, Kind::Register, Kind::Register],
            ),
            Opcode::GetHd => plain_row("get_hd", &[Kind::Source, Kind::Register]),
            Opcode::GetTl => plain_row("get_tl", &[Kind::Source, Kind::Register]),
            Opcode::GetTupleElement => plain_row(
                "get_tuple_element",
                &[Kind::Source, Kind::Amount, Kind::Register],
            ),
            Opcode::GetMapElements => plain_row(
                "get_map_elements",
                &[Kind::OwnLabel, Kind::Source, Kind::GetPairs],
            ),
            Opcode::HasMapFields => test_row(
                "has_map_fields",
                &[Kind::OwnLabel, Kind::Source, Kind::Sources],
            ),
            Opcode::Jump => plain_row("jump", &[Kind::OwnLabel]),
            Opcode::Test(test) => test_row(test.name(), &[Kind::OwnLabel, Kind::One]),
            Opcode::Compare(test) => test_row(test.name(), &[Kind::OwnLabel, Kind::Two]),
            Opcode::TestArity => test_row("test_arity", &[Kind::OwnLabel, Kind::Sized]),
            Opcode::IsTaggedTuple => test_row("is_tagged_tuple", &[Kind::OwnLabel, Kind::Tagged]),
            Opcode::SelectVal => plain_row(
                "select_val",
                &[Kind::Source, Kind::OwnLabel, Kind::ValueChoices],
            ),
            Opcode::SelectTupleArity => plain_row(
                "select_tuple_arity",
                &[Kind::Source, Kind::OwnLabel, Kind::SizeChoices],
            ),
            Opcode::Bif => plain_row(
                "bif",
                &[
                    Kind::Function,
                    Kind::LabelOrZero,
                    Kind::Arguments,
                    Kind::Register,
                ],
            ),
            Opcode::GcBif => plain_row(
                "gc_bif",
                &[
                    Kind::Function,
                    Kind::LabelOrZero,
                    Kind::Live,
                    Kind::Arguments,
                    Kind::Register,
                ],
            ),
            Opcode::Call => plain_row("call", &[Kind::Arity, Kind::EntryLabel]),
            Opcode::CallOnly => plain_row("call_only", &[Kind::Arity, Kind::EntryLabel]),
            Opcode::CallLast => plain_row(
                "call_last",
                &[Kind::Arity, Kind::EntryLabel, Kind::Amount],
            ),
            Opcode::CallExt => plain_row("call_ext", &[Kind::Arity, Kind::Extern]),
            Opcode::CallExtOnly => plain_row("call_ext_only", &[Kind::Arity, Kind::Extern]),
            Opcode::CallExtLast => plain_row(
                "call_ext_last",
                &[Kind::Arity, Kind::Extern, Kind::Amount],
            ),
            Opcode::CallFun => plain_row("call_fun", &[Kind::Arity]),
            Opcode::Apply => plain_row("apply", &[Kind::Arity]),
            Opcode::ApplyLast => plain_row("apply_last", &[Kind::Arity, Kind::Amount]),
            Opcode::Send => plain_row("send", &[]),
            Opcode::BuildStacktrace => plain_row("build_stacktrace", &[]),
            Opcode::Raise => plain_row("raise", &[Kind::Source, Kind::Source]),
            Opcode::Badmatch => plain_row("badmatch", &[Kind::Source]),
            Opcode::CaseEnd => plain_row("case_end", &[Kind::Source]),
            Opcode::TryCaseEnd => plain_row("try_case_end", &[Kind::Source]),
            Opcode::IfEnd => plain_row("if_end", &[]),
            Opcode::Try => plain_row("try", &[Kind::YSlot, Kind::OwnLabel]),
            Opcode::Catch => plain_row("catch", &[Kind::YSlot, Kind::OwnLabel]),
            Opcode::TryEnd => plain_row("try_end", &[Kind::YSlot]),
            Opcode::TryCase => plain_row("try_case", &[Kind::YSlot]),
            Opcode::CatchEnd => plain_row("catch_end", &[Kind::YSlot]),
            Opcode::LoopRec => plain_row("loop_rec", &[Kind::OwnLabel, Kind::XSlot]),
            Opcode::RemoveMessage => plain_row("remove_message", &[]),
            Opcode::LoopRecEnd => plain_row("loop_rec_end", &[Kind::OwnLabel]),
            Opcode::Wait => plain_row("wait", &[Kind::OwnLabel]),
            Opcode::WaitTimeout => plain_row("wait_timeout", &[Kind::OwnLabel, Kind::Source]),
            Opcode::Timeout => plain_row("timeout", &[]),
            Opcode::RecvMarkerReserve => plain_row("recv_marker_reserve", &[Kind::Register]),
            Opcode::RecvMarkerBind => plain_row(
                "recv_marker_bind",
                &[Kind::Register, Kind::Source],
            ),
            Opcode::RecvMarkerUse => plain_row("recv_marker_use", &[Kind::Source]),
            Opcode::RecvMarkerClear => plain_row("recv_marker_clear", &[Kind::Source]),
            Opcode::BsStartMatch4 => plain_row(
                "bs_start_match4",
                &[
                    Kind::LabelOrNoFail,
                    Kind::Live,
                    Kind::Source,
                    Kind::Register,
                ],
            ),
            Opcode::BsGetInteger2 => test_row(
                "bs_get_integer2",
                &[Kind::OwnLabel, Kind::Live, Kind::Field, Kind::Register],
            ),
            Opcode::BsGetBinary2 => test_row(
                "bs_get_binary2",
                &[Kind::OwnLabel, Kind::Live, Kind::Field, Kind::Register],
            ),
            Opcode::BsSkipBits2 => test_row("bs_skip_bits2", &[Kind::OwnLabel, Kind::Field]),
            Opcode::BsTestTail2 => test_row("bs_test_tail2", &[Kind::OwnLabel, Kind::Counted]),
            Opcode::BsTestUnit => test_row("bs_test_unit", &[Kind::OwnLabel, Kind::Counted]),
            Opcode::BsGetTail => plain_row(
                "bs_get_tail",
                &[Kind::Register, Kind::Register, Kind::Live],
            ),
            Opcode::BsGetPosition => plain_row(
                "bs_get_position",
                &[Kind::Register, Kind::Register, Kind::Live],
            ),
            Opcode::BsSetPosition => plain_row(
                "bs_set_position",
                &[Kind::Register, Kind::Register],
            ),
            Opcode::BsCreateBin => plain_row(
                "bs_create_bin",
                &[
                    Kind::LabelOrZero,
                    Kind::Zero,
                    Kind::Live,
                    Kind::Amount,
                    Kind::Register,
                    Kind::Segments,
                ],
            ),
        }
    }
}

fn plain_row(name: &'static str, kinds: &'static [Kind]) -> Row
    ensures name { result.name.now ≡ name.now }
    ensures is_test { result.is_test ≡ false }
    ensures kinds { result.kinds.now ≡ kinds.now }
{
    Row {
        name,
        is_test: false,
        kinds,
    }
}

fn test_row(name: &'static str, kinds: &'static [Kind]) -> Row
    ensures name { result.name.now ≡ name.now }
    ensures is_test { result.is_test ≡ true }
    ensures kinds { result.kinds.now ≡ kinds.now }
{
    Row {
        name,
        is_test: true,
        kinds,
    }
}

impl Insn {
    pub fn opcode(&self) -> Opcode
        ensures { result ≡ opcode_of self.now }
    {
        match self {
            Insn::Label(..) => Opcode::Label,
            Insn::Move(..) => Opcode::Move,
            Insn::Swap(..) => Opcode::Swap,
            Insn::InitYregs(..) => Opcode::InitYregs,
            Insn::Allocate(..) => Opcode::Allocate,
            Insn::AllocateHeap(..) => Opcode::AllocateHeap,
            Insn::Deallocate(..) => Opcode::Deallocate,
            Insn::Trim(..) => Opcode::Trim,
            Insn::TestHeap(..) => Opcode::TestHeap,
            Insn::Return => Opcode::Return,
            Insn::PutList(..) => Opcode::PutList,
            Insn::PutTuple2(..) => Opcode::PutTuple2,
            Insn::MakeFun3(..) => Opcode::MakeFun3,
            Insn::PutMapAssoc(..) => Opcode::PutMapAssoc,
            Insn::PutMapExact(..) => Opcode::PutMapExact,
            Insn::GetList(..) => Opcode::GetList,
            Insn::GetHd(..) => Opcode::GetHd,
            Insn::GetTl(..) => Opcode::GetTl,
            Insn::GetTupleElement(..) => Opcode::GetTupleElement,
            Insn::GetMapElements(..) => Opcode::GetMapElements,
            Insn::HasMapFields(..) => Opcode::HasMapFields,
            Insn::Jump(..) => Opcode::Jump,
            Insn::Test(test, ..) => Opcode::Test(*test),
            Insn::Compare(test, ..) => Opcode::Compare(*test),
            Insn::TestArity(..) => Opcode::TestArity,
            Insn::IsTaggedTuple(..) => Opcode::IsTaggedTuple,
            Insn::SelectVal(..) => Opcode::SelectVal,
            Insn::SelectTupleArity(..) => Opcode::SelectTupleArity,
            Insn::Bif(..) => Opcode::Bif,
            Insn::GcBif(..) => Opcode::GcBif,
            Insn::Call(..) => Opcode::Call,
            Insn::CallOnly(..) => Opcode::CallOnly,
            Insn::CallLast(..) => Opcode::CallLast,
            Insn::CallExt(..) => Opcode::CallExt,
            Insn::CallExtOnly(..) => Opcode::CallExtOnly,
            Insn::CallExtLast(..) => Opcode::CallExtLast,
            Insn::CallFun(..) => Opcode::CallFun,
            Insn::Apply(..) => Opcode::Apply,
            Insn::ApplyLast(..) => Opcode::ApplyLast,
            Insn::Send => Opcode::Send,
            Insn::BuildStacktrace => Opcode::BuildStacktrace,
            Insn::Raise(..) => Opcode::Raise,
            Insn::Badmatch(..) => Opcode::Badmatch,
            Insn::CaseEnd(..) => Opcode::CaseEnd,
            Insn::TryCaseEnd(..) => Opcode::TryCaseEnd,
            Insn::IfEnd => Opcode::IfEnd,
            Insn::Try(..) => Opcode::Try,
            Insn::Catch(..) => Opcode::Catch,
            Insn::TryEnd(..) => Opcode::TryEnd,
            Insn::TryCase(..) => Opcode::TryCase,
            Insn::CatchEnd(..) => Opcode::CatchEnd,
            Insn::LoopRec(..) => Opcode::LoopRec,
            Insn::RemoveMessage => Opcode::RemoveMessage,
            Insn::LoopRecEnd(..) => Opcode::LoopRecEnd,
            Insn::Wait(..) => Opcode::Wait,
            Insn::WaitTimeout(..) => Opcode::WaitTimeout,
            Insn::Timeout => Opcode::Timeout,
            Insn::RecvMarkerReserve(..) => Opcode::RecvMarkerReserve,
            Insn::RecvMarkerBind(..) => Opcode::RecvMarkerBind,
            Insn::RecvMarkerUse(..) => Opcode::RecvMarkerUse,
            Insn::RecvMarkerClear(..) => Opcode::RecvMarkerClear,
            Insn::BsStartMatch4(..) => Opcode::BsStartMatch4,
            Insn::BsGetInteger2(..) => Opcode::BsGetInteger2,
            Insn::BsGetBinary2(..) => Opcode::BsGetBinary2,
            Insn::BsSkipBits2(..) => Opcode::BsSkipBits2,
            Insn::BsTestTail2(..) => Opcode::BsTestTail2,
            Insn::BsTestUnit(..) => Opcode::BsTestUnit,
            Insn::BsGetTail(..) => Opcode::BsGetTail,
            Insn::BsGetPosition(..) => Opcode::BsGetPosition,
            Insn::BsSetPosition(..) => Opcode::BsSetPosition,
            Insn::BsCreateBin(..) => Opcode::BsCreateBin,
        }
    }
}
