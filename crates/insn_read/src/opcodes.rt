// The instruction of an opcode: by its name, and then by its family.
ghost use Rattle.std.specs.Prelude.{◌≡◌, map};
ghost use Rattle.erl_term.specs.Comparing.{AllNormal};
ghost use Rattle.erl_term.specs.View.{view};
ghost use Rattle.term_read.specs.Reading.{Gives};
ghost use Rattle.beam_table.specs.View.{insn_view};
ghost use Rattle.insn_terms.specs.Reading as Plain;

use crate::control::{read_call, read_choice, read_handler, read_test};
use crate::data::{read_building, read_frames, read_taking_apart};
use crate::events::{read_context, read_receive, read_segments};
use beam_table::{Insn, Opcode};
use bif_table::{Comparison, TypeTest};
use erl_base::Name;
use erl_term::Term;
use operand_read::is_word;
use std::alloc::Global;
use term_read::Unread;

/// The opcodes whose name comes first, but for labels.
const PLAIN_OPCODES: [Opcode; 60] = [
    Opcode::Move,
    Opcode::Swap,
    Opcode::InitYregs,
    Opcode::Allocate,
    Opcode::AllocateHeap,
    Opcode::Deallocate,
    Opcode::Trim,
    Opcode::TestHeap,
    Opcode::Return,
    Opcode::PutList,
    Opcode::PutTuple2,
    Opcode::MakeFun3,
    Opcode::PutMapAssoc,
    Opcode::PutMapExact,
    Opcode::GetList,
    Opcode::GetHd,
    Opcode::GetTl,
    Opcode::GetTupleElement,
    Opcode::GetMapElements,
    Opcode::Jump,
    Opcode::SelectVal,
    Opcode::SelectTupleArity,
    Opcode::Bif,
    Opcode::GcBif,
    Opcode::Call,
    Opcode::CallOnly,
    Opcode::CallLast,
    Opcode::CallExt,
    Opcode::CallExtOnly,
    Opcode::CallExtLast,
    Opcode::CallFun,
    Opcode::Apply,
    Opcode::ApplyLast,
    Opcode::Send,
    Opcode::BuildStacktrace,
    Opcode::Raise,
    Opcode::Badmatch,
    Opcode::CaseEnd,
    Opcode::TryCaseEnd,
    Opcode::IfEnd,
    Opcode::Try,
    Opcode::Catch,
    Opcode::TryEnd,
    Opcode::TryCase,
    Opcode::CatchEnd,
    Opcode::LoopRec,
    Opcode::RemoveMessage,
    Opcode::LoopRecEnd,
    Opcode::Wait,
    Opcode::WaitTimeout,
    Opcode::Timeout,
    Opcode::RecvMarkerReserve,
    Opcode::RecvMarkerBind,
    Opcode::RecvMarkerUse,
    Opcode::RecvMarkerClear,
    Opcode::BsStartMatch4,
    Opcode::BsGetTail,
    Opcode::BsGetPosition,
    Opcode::BsSetPosition,
    Opcode::BsCreateBin,
];

/// Those whose name stands behind `test`.
const TEST_OPCODES: [Opcode; 30] = [
    Opcode::HasMapFields,
    Opcode::Test(TypeTest::IsAtom),
    Opcode::Test(TypeTest::IsInteger),
    Opcode::Test(TypeTest::IsNumber),
    Opcode::Test(TypeTest::IsList),
    Opcode::Test(TypeTest::IsNonemptyList),
    Opcode::Test(TypeTest::IsNil),
    Opcode::Test(TypeTest::IsTuple),
    Opcode::Test(TypeTest::IsBinary),
    Opcode::Test(TypeTest::IsBitstr),
    Opcode::Test(TypeTest::IsBoolean),
    Opcode::Test(TypeTest::IsFunction),
    Opcode::Test(TypeTest::IsMap),
    Opcode::Test(TypeTest::IsPid),
    Opcode::Test(TypeTest::IsPort),
    Opcode::Test(TypeTest::IsReference),
    Opcode::Compare(Comparison::IsEqExact),
    Opcode::Compare(Comparison::IsNeExact),
    Opcode::Compare(Comparison::IsEq),
    Opcode::Compare(Comparison::IsNe),
    Opcode::Compare(Comparison::IsLt),
    Opcode::Compare(Comparison::IsGe),
    Opcode::Compare(Comparison::IsFunction2),
    Opcode::TestArity,
    Opcode::IsTaggedTuple,
    Opcode::BsGetInteger2,
    Opcode::BsGetBinary2,
    Opcode::BsSkipBits2,
    Opcode::BsTestTail2,
    Opcode::BsTestUnit,
];

/// The opcode of this name whose name comes first.
pub(crate) fn plain_opcode(name: &Name) -> Option<Opcode>
    ensures { result ≡ Plain.named Plain.plain_opcodes name.now }
{
    named(&PLAIN_OPCODES, name)
}

/// The opcode of this name whose name stands behind `test`.
pub(crate) fn test_opcode(name: &Name) -> Option<Opcode>
    ensures { result ≡ Plain.named Plain.test_opcodes name.now }
{
    named(&TEST_OPCODES, name)
}

// The first of opcodes with this name.
fn named(opcodes: &[Opcode], name: &Name) -> Option<Opcode>
    ensures { result ≡ Plain.named opcodes.now name.now }
{
    for opcode in opcodes {
        if is_word(name, opcode.name()) {
            return Some(*opcode);
        }
    }
    None
}

/// The instruction of an opcode with these operands.
pub(crate) fn insn_by(alloc: Global, opcode: Opcode, terms: &[Term]) -> Result<Insn, Unread>
    requires { AllNormal terms.now }
    ensures { Gives insn_view result (Plain.insn_by opcode (map view terms.now)) }
{
    match opcode {
        Opcode::Label
        | Opcode::Move
        | Opcode::Swap
        | Opcode::InitYregs
        | Opcode::Allocate
        | Opcode::AllocateHeap
        | Opcode::Deallocate
        | Opcode::Trim
        | Opcode::TestHeap => read_frames(alloc, opcode, terms),
        Opcode::PutList
        | Opcode::PutTuple2
        | Opcode::MakeFun3
        | Opcode::PutMapAssoc
        | Opcode::PutMapExact => read_building(alloc, opcode, terms),
        Opcode::GetList
        | Opcode::GetHd
        | Opcode::GetTl
        | Opcode::GetTupleElement
        | Opcode::GetMapElements => read_taking_apart(alloc, opcode, terms),
        Opcode::HasMapFields
        | Opcode::Jump
        | Opcode::Test(_)
        | Opcode::Compare(_)
        | Opcode::TestArity
        | Opcode::IsTaggedTuple => read_test(alloc, opcode, terms),
        Opcode::SelectVal | Opcode::SelectTupleArity | Opcode::Bif | Opcode::GcBif => read_choice(
            alloc, opcode, terms,
        ),
        Opcode::Return
        | Opcode::Call
        | Opcode::CallOnly
        | Opcode::CallLast
        | Opcode::CallExt
        | Opcode::CallExtOnly
        | Opcode::CallExtLast
        | Opcode::CallFun
        | Opcode::Apply
        | Opcode::ApplyLast
        | Opcode::Send => read_call(alloc, opcode, terms),
        Opcode::BuildStacktrace
        | Opcode::Raise
        | Opcode::Badmatch
        | Opcode::CaseEnd
        | Opcode::TryCaseEnd
        | Opcode::IfEnd
        | Opcode::Try
        | Opcode::Catch
        | Opcode::TryEnd
        | Opcode::TryCase
        | Opcode::CatchEnd => read_handler(alloc, opcode, terms),
        Opcode::LoopRec
        | Opcode::RemoveMessage
        | Opcode::LoopRecEnd
        | Opcode::Wait
        | Opcode::WaitTimeout
        | Opcode::Timeout
        | Opcode::RecvMarkerReserve
        | Opcode::RecvMarkerBind
        | Opcode::RecvMarkerUse
        | Opcode::RecvMarkerClear => read_receive(alloc, opcode, terms),
        Opcode::BsStartMatch4
        | Opcode::BsTestTail2
        | Opcode::BsTestUnit
        | Opcode::BsGetTail
        | Opcode::BsGetPosition
        | Opcode::BsSetPosition => read_context(alloc, opcode, terms),
        Opcode::BsGetInteger2 | Opcode::BsGetBinary2 | Opcode::BsSkipBits2 | Opcode::BsCreateBin =>
            read_segments(alloc, opcode, terms),
    }
}
