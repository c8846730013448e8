ghost use Rattle.std.specs.Prelude.{◌≡◌};
ghost use Rattle.beam_table.specs.Families.{family};

use crate::insn::Insn;

/// The families of instructions.
#[derive(Clone, Copy, Debug, PartialEq, Eq)]
pub enum Family {
    /// Moves, frames and heap room; labels.
    Frames,
    /// Building lists, tuples, funs and maps.
    Building,
    /// Taking lists, tuples and maps apart.
    TakingApart,
    /// Tests and jumps.
    Tests,
    /// Selections, and the functions that a run answers itself.
    Choices,
    /// Calls, returns and sends.
    Calls,
    /// Raises, and the tags that catch them.
    Handlers,
    /// Receives and their markers.
    Receives,
    /// Contexts and positions of bit strings that are matched.
    Contexts,
    /// Segments that are taken from bit strings, and those that are built.
    Segments,
}

impl Insn {
    pub fn family(&self) -> Family
        ensures { result ≡ family self.now }
    {
        match self {
            Insn::Label(..)
            | Insn::Move(..)
            | Insn::Swap(..)
            | Insn::InitYregs(..)
            | Insn::Allocate(..)
            | Insn::AllocateHeap(..)
            | Insn::Deallocate(..)
            | Insn::Trim(..)
            | Insn::TestHeap(..) => Family::Frames,
            Insn::PutList(..)
            | Insn::PutTuple2(..)
            | Insn::MakeFun3(..)
            | Insn::PutMapAssoc(..)
            | Insn::PutMapExact(..) => Family::Building,
            Insn::GetList(..)
            | Insn::GetHd(..)
            | Insn::GetTl(..)
            | Insn::GetTupleElement(..)
            | Insn::GetMapElements(..) => Family::TakingApart,
            Insn::HasMapFields(..)
            | Insn::Jump(..)
            | Insn::Test(..)
            | Insn::Compare(..)
            | Insn::TestArity(..)
            | Insn::IsTaggedTuple(..) => Family::Tests,
            Insn::SelectVal(..) | Insn::SelectTupleArity(..) | Insn::Bif(..) | Insn::GcBif(..) =>
                Family::Choices,
            Insn::Return
            | Insn::Call(..)
            | Insn::CallOnly(..)
            | Insn::CallLast(..)
            | Insn::CallExt(..)
            | Insn::CallExtOnly(..)
            | Insn::CallExtLast(..)
            | Insn::CallFun(..)
            | Insn::Apply(..)
            | Insn::ApplyLast(..)
            | Insn::Send => Family::Calls,
            Insn::BuildStacktrace
            | Insn::Raise(..)
            | Insn::Badmatch(..)
            | Insn::CaseEnd(..)
            | Insn::TryCaseEnd(..)
            | Insn::IfEnd
            | Insn::Try(..)
            | Insn::Catch(..)
            | Insn::TryEnd(..)
            | Insn::TryCase(..)
            | Insn::CatchEnd(..) => Family::Handlers,
            Insn::LoopRec(..)
            | Insn::RemoveMessage
            | Insn::LoopRecEnd(..)
            | Insn::Wait(..)
            | Insn::WaitTimeout(..)
            | Insn::Timeout
            | Insn::RecvMarkerReserve(..)
            | Insn::RecvMarkerBind(..)
            | Insn::RecvMarkerUse(..)
            | Insn::RecvMarkerClear(..) => Family::Receives,
            Insn::BsStartMatch4(..)
            | Insn::BsTestTail2(..)
            | Insn::BsTestUnit(..)
            | Insn::BsGetTail(..)
            | Insn::BsGetPosition(..)
            | Insn::BsSetPosition(..) => Family::Contexts,
            Insn::BsGetInteger2(..)
            | Insn::BsGetBinary2(..)
            | Insn::BsSkipBits2(..)
            | Insn::BsCreateBin(..) => Family::Segments,
        }
    }
}
