// A row is the text of a term, and what is shown is the instruction that it stands for: its opcode, and behind it the
// labels, numbers, registers, names and terms in it, one by one.
ghost use Rattle.std.specs.Prelude.{◌≡◌};
ghost use Rattle.erl_term.specs.WellFormed.{IsNormal};
ghost use Rattle.beam_table.specs.Families.{family};
ghost use Rattle.beam_table.specs.declared.family.Family.TheVariants as F;

use beam_table::{Family, Insn};
use case_rows::bytes_of;
use erl_term::Term;
use insn_read::read_insn;
use std::io;
use std::test::Fail;
use term_read::read_term;

pub fn show(rt: &HostRuntime, row: &str) -> Result<(), Fail> {
    let alloc = rt.alloc();
    let bytes = bytes_of(alloc, row)?;
    let term = read_term(alloc, bytes.as_slice())?;
    show_read(rt, &term)
}

// No `?` here, which would write the type of all instructions into the proof several times.
fn show_read(rt: &HostRuntime, term: &Term) -> Result<(), Fail>
    requires { IsNormal term.now }
{
    match read_insn(rt.alloc(), term) {
        Ok(read) => show_found(rt, &read),
        Err(refused) => Err(Fail::from(refused)),
    }
}

fn show_found(rt: &HostRuntime, read: &Option<Insn>) -> Result<(), Fail> {
    match read {
        None => Ok(println!(rt; "    no instruction")?),
        Some(insn) => Ok(show_insn(rt, insn)?),
    }
}

fn show_insn(rt: &HostRuntime, insn: &Insn) -> Result<(), io::Error> {
    match insn.family() {
        Family::Frames => show_frames(rt, insn),
        Family::Building => show_building(rt, insn),
        Family::TakingApart => show_taking_apart(rt, insn),
        Family::Tests => show_test(rt, insn),
        Family::Choices => show_choice(rt, insn),
        Family::Calls => show_call(rt, insn),
        Family::Handlers => show_handler(rt, insn),
        Family::Receives => show_receive(rt, insn),
        Family::Contexts => show_context(rt, insn),
        Family::Segments => show_segments(rt, insn),
    }
}

fn show_frames(rt: &HostRuntime, insn: &Insn) -> Result<(), io::Error>
    requires { family insn.now ≡ F.Frames }
{
    match insn {
        Insn::Label(label) => println!(rt; "    Label {label:?}"),
        Insn::Move(source, to) => println!(rt; "    Move {source:?} {to:?}"),
        Insn::Swap(one, other) => println!(rt; "    Swap {one:?} {other:?}"),
        Insn::InitYregs(slots) => println!(rt; "    InitYregs {:?}", slots.as_slice()),
        Insn::Allocate(slots, live) => println!(rt; "    Allocate {slots:?} {live:?}"),
        Insn::AllocateHeap(slots, words, live) => println!(rt;
            "    AllocateHeap {slots:?} {words:?} {live:?}"
        ),
        Insn::Deallocate(slots) => println!(rt; "    Deallocate {slots:?}"),
        Insn::Trim(gone, left) => println!(rt; "    Trim {gone:?} {left:?}"),
        Insn::TestHeap(words, live) => println!(rt; "    TestHeap {words:?} {live:?}"),
        _ => unreachable!(),
    }
}

fn show_building(rt: &HostRuntime, insn: &Insn) -> Result<(), io::Error>
    requires { family insn.now ≡ F.Building }
{
    match insn {
        Insn::PutList(head, tail, to) => println!(rt; "    PutList {head:?} {tail:?} {to:?}"),
        Insn::PutTuple2(to, items) => println!(rt; "    PutTuple2 {to:?} {:?}", items.as_slice()),
        Insn::MakeFun3(entry, site, to, captures) => println!(rt;
            "    MakeFun3 {entry:?} {site:?} {to:?} {:?}",
            captures.as_slice()
        ),
        Insn::PutMapAssoc(map, to, live, pairs) => println!(rt;
            "    PutMapAssoc {map:?} {to:?} {live:?} {:?}",
            pairs.as_slice()
        ),
        Insn::PutMapExact(map, to, live, pairs) => println!(rt;
            "    PutMapExact {map:?} {to:?} {live:?} {:?}",
            pairs.as_slice()
        ),
        _ => unreachable!(),
    }
}

fn show_taking_apart(rt: &HostRuntime, insn: &Insn) -> Result<(), io::Error>
    requires { family insn.now ≡ F.TakingApart }
{
    match insn {
        Insn::GetList(list, head, tail) => println!(rt; "    GetList {list:?} {head:?} {tail:?}"),
        Insn::GetHd(list, to) => println!(rt; "    GetHd {list:?} {to:?}"),
        Insn::GetTl(list, to) => println!(rt; "    GetTl {list:?} {to:?}"),
        Insn::GetTupleElement(tuple, index, to) => println!(rt;
            "    GetTupleElement {tuple:?} {index:?} {to:?}"
        ),
        Insn::GetMapElements(label, map, pairs) => println!(rt;
            "    GetMapElements {label:?} {map:?} {:?}",
            pairs.as_slice()
        ),
        _ => unreachable!(),
    }
}

fn show_test(rt: &HostRuntime, insn: &Insn) -> Result<(), io::Error>
    requires { family insn.now ≡ F.Tests }
{
    match insn {
        Insn::HasMapFields(label, map, keys) => println!(rt;
            "    HasMapFields {label:?} {map:?} {:?}",
            keys.as_slice()
        ),
        Insn::Jump(label) => println!(rt; "    Jump {label:?}"),
        Insn::Test(test, label, source) => println!(rt; "    Test {test:?} {label:?} {source:?}"),
        Insn::Compare(test, label, left, right) => println!(rt;
            "    Compare {test:?} {label:?} {left:?} {right:?}"
        ),
        Insn::TestArity(label, tuple, size) => println!(rt;
            "    TestArity {label:?} {tuple:?} {size:?}"
        ),
        Insn::IsTaggedTuple(label, tuple, size, tag) => println!(rt;
            "    IsTaggedTuple {label:?} {tuple:?} {size:?} {:?}",
            tag.as_str()
        ),
        _ => unreachable!(),
    }
}

fn show_choice(rt: &HostRuntime, insn: &Insn) -> Result<(), io::Error>
    requires { family insn.now ≡ F.Choices }
{
    match insn {
        Insn::SelectVal(source, label, choices) => println!(rt;
            "    SelectVal {source:?} {label:?} {:?}",
            choices.as_slice()
        ),
        Insn::SelectTupleArity(tuple, label, choices) => println!(rt;
            "    SelectTupleArity {tuple:?} {label:?} {:?}",
            choices.as_slice()
        ),
        Insn::Bif(bif, label, arguments, to) => println!(rt;
            "    Bif {bif:?} {label:?} {:?} {to:?}",
            arguments.as_slice()
        ),
        Insn::GcBif(bif, label, live, arguments, to) => println!(rt;
            "    GcBif {bif:?} {label:?} {live:?} {:?} {to:?}",
            arguments.as_slice()
        ),
        _ => unreachable!(),
    }
}

fn show_call(rt: &HostRuntime, insn: &Insn) -> Result<(), io::Error>
    requires { family insn.now ≡ F.Calls }
{
    match insn {
        Insn::Return => println!(rt; "    Return"),
        Insn::Call(arity, entry) => println!(rt; "    Call {arity:?} {entry:?}"),
        Insn::CallOnly(arity, entry) => println!(rt; "    CallOnly {arity:?} {entry:?}"),
        Insn::CallLast(arity, entry, slots) => println!(rt;
            "    CallLast {arity:?} {entry:?} {slots:?}"
        ),
        Insn::CallExt(arity, function) => println!(rt; "    CallExt {arity:?} {function:?}"),
        Insn::CallExtOnly(arity, function) => println!(rt;
            "    CallExtOnly {arity:?} {function:?}"
        ),
        Insn::CallExtLast(arity, function, slots) => println!(rt;
            "    CallExtLast {arity:?} {function:?} {slots:?}"
        ),
        Insn::CallFun(arity) => println!(rt; "    CallFun {arity:?}"),
        Insn::Apply(arity) => println!(rt; "    Apply {arity:?}"),
        Insn::ApplyLast(arity, slots) => println!(rt; "    ApplyLast {arity:?} {slots:?}"),
        Insn::Send => println!(rt; "    Send"),
        _ => unreachable!(),
    }
}

fn show_handler(rt: &HostRuntime, insn: &Insn) -> Result<(), io::Error>
    requires { family insn.now ≡ F.Handlers }
{
    match insn {
        Insn::BuildStacktrace => println!(rt; "    BuildStacktrace"),
        Insn::Raise(trace, reason) => println!(rt; "    Raise {trace:?} {reason:?}"),
        Insn::Badmatch(source) => println!(rt; "    Badmatch {source:?}"),
        Insn::CaseEnd(source) => println!(rt; "    CaseEnd {source:?}"),
        Insn::TryCaseEnd(source) => println!(rt; "    TryCaseEnd {source:?}"),
        Insn::IfEnd => println!(rt; "    IfEnd"),
        Insn::Try(slot, label) => println!(rt; "    Try {slot:?} {label:?}"),
        Insn::Catch(slot, label) => println!(rt; "    Catch {slot:?} {label:?}"),
        Insn::TryEnd(slot) => println!(rt; "    TryEnd {slot:?}"),
        Insn::TryCase(slot) => println!(rt; "    TryCase {slot:?}"),
        Insn::CatchEnd(slot) => println!(rt; "    CatchEnd {slot:?}"),
        _ => unreachable!(),
    }
}

fn show_receive(rt: &HostRuntime, insn: &Insn) -> Result<(), io::Error>
    requires { family insn.now ≡ F.Receives }
{
    match insn {
        Insn::LoopRec(label, to) => println!(rt; "    LoopRec {label:?} {to:?}"),
        Insn::RemoveMessage => println!(rt; "    RemoveMessage"),
        Insn::LoopRecEnd(label) => println!(rt; "    LoopRecEnd {label:?}"),
        Insn::Wait(label) => println!(rt; "    Wait {label:?}"),
        Insn::WaitTimeout(label, time) => println!(rt; "    WaitTimeout {label:?} {time:?}"),
        Insn::Timeout => println!(rt; "    Timeout"),
        Insn::RecvMarkerReserve(to) => println!(rt; "    RecvMarkerReserve {to:?}"),
        Insn::RecvMarkerBind(marker, reference) => println!(rt;
            "    RecvMarkerBind {marker:?} {reference:?}"
        ),
        Insn::RecvMarkerUse(reference) => println!(rt; "    RecvMarkerUse {reference:?}"),
        Insn::RecvMarkerClear(reference) => println!(rt; "    RecvMarkerClear {reference:?}"),
        _ => unreachable!(),
    }
}

fn show_context(rt: &HostRuntime, insn: &Insn) -> Result<(), io::Error>
    requires { family insn.now ≡ F.Contexts }
{
    match insn {
        Insn::BsStartMatch4(label, live, source, to) => println!(rt;
            "    BsStartMatch4 {label:?} {live:?} {source:?} {to:?}"
        ),
        Insn::BsTestTail2(label, context, left) => println!(rt;
            "    BsTestTail2 {label:?} {context:?} {left:?}"
        ),
        Insn::BsTestUnit(label, context, unit) => println!(rt;
            "    BsTestUnit {label:?} {context:?} {unit:?}"
        ),
        Insn::BsGetTail(context, to, live) => println!(rt;
            "    BsGetTail {context:?} {to:?} {live:?}"
        ),
        Insn::BsGetPosition(context, to, live) => println!(rt;
            "    BsGetPosition {context:?} {to:?} {live:?}"
        ),
        Insn::BsSetPosition(context, position) => println!(rt;
            "    BsSetPosition {context:?} {position:?}"
        ),
        _ => unreachable!(),
    }
}

fn show_segments(rt: &HostRuntime, insn: &Insn) -> Result<(), io::Error>
    requires { family insn.now ≡ F.Segments }
{
    match insn {
        Insn::BsGetInteger2(label, live, context, size, unit, flags, to) => println!(rt;
            "    BsGetInteger2 {label:?} {live:?} {context:?} {size:?} {unit:?} {flags:?} {to:?}"
        ),
        Insn::BsGetBinary2(label, live, context, size, unit, flags, to) => println!(rt;
            "    BsGetBinary2 {label:?} {live:?} {context:?} {size:?} {unit:?} {flags:?} {to:?}"
        ),
        Insn::BsSkipBits2(label, context, size, unit, flags) => println!(rt;
            "    BsSkipBits2 {label:?} {context:?} {size:?} {unit:?} {flags:?}"
        ),
        Insn::BsCreateBin(label, live, unit, to, segments) => println!(rt;
            "    BsCreateBin {label:?} {live:?} {unit:?} {to:?} {:?}",
            segments.as_slice()
        ),
        _ => unreachable!(),
    }
}
