// Operands of the other instructions: handlers, receives, and bit strings. An arm for the other families is never
// reached.
ghost use Rattle.std.specs.Prelude.{◌≡◌, [], ◌∷◌, map, false, IsTrue, OnOk};
ghost use Rattle.std.specs.List.{list_all};
ghost use Rattle.erl_term.specs.Term as T;
ghost use Rattle.erl_term.specs.Terms.{terms, list_of};
ghost use Rattle.term_text.specs.Printing.{Adds};
ghost use Rattle.term_text.specs.TermText.{row_on};
ghost use Rattle.beam_table.specs.Families.{family};
ghost use Rattle.beam_table.specs.InstructionText.{number_term, label_term, register_term};
ghost use Rattle.beam_table.specs.View.{reg_view};
ghost use Rattle.beam_table.specs.WellFormedModule.{sources_in};
ghost use Rattle.beam_table.specs.declared.family.Family.TheVariants as F;
ghost use Rattle.insn_text.specs.Literals.{sources_normal, single_normal};
ghost use Rattle.insn_text.specs.Rows.{single_term, tail_terms};

use crate::items::put_row;
use crate::row::Operand::{Bare, Listed, One};
use crate::row::{Items, Single};
use beam_table::{Insn, Reg};
use erl_base::{LabelId, NoMemory, Text};

pub(crate) fn put_handler(out: &mut Text, insn: &Insn) -> Result<(), NoMemory>
    requires family { family insn.now ≡ F.Handlers }
    requires normal { IsTrue (sources_normal (sources_in insn.now)) }
    ensures { OnOk result (Adds out.old out.new (row_on false (terms (tail_terms insn.now)))) }
{
    match insn {
        Insn::BuildStacktrace => put_row(out, &[]),
        Insn::Raise(trace, reason) => put_row(
            out,
            &[One(Single::Source(trace)), One(Single::Source(reason))],
        ),
        Insn::Badmatch(source) => put_row(out, &[One(Single::Source(source))]),
        Insn::CaseEnd(source) => put_row(out, &[One(Single::Source(source))]),
        Insn::TryCaseEnd(source) => put_row(out, &[One(Single::Source(source))]),
        Insn::IfEnd => put_row(out, &[]),
        Insn::Try(slot, label) => put_row(
            out,
            &[
                One(Single::Register(Reg::Y(*slot))),
                One(Single::Label(*label)),
            ],
        ),
        Insn::Catch(slot, label) => put_row(
            out,
            &[
                One(Single::Register(Reg::Y(*slot))),
                One(Single::Label(*label)),
            ],
        ),
        Insn::TryEnd(slot) => put_row(out, &[One(Single::Register(Reg::Y(*slot)))]),
        Insn::TryCase(slot) => put_row(out, &[One(Single::Register(Reg::Y(*slot)))]),
        Insn::CatchEnd(slot) => put_row(out, &[One(Single::Register(Reg::Y(*slot)))]),
        _ => unreachable!(),
    }
}

pub(crate) fn put_receive(out: &mut Text, insn: &Insn) -> Result<(), NoMemory>
    requires family { family insn.now ≡ F.Receives }
    requires normal { IsTrue (sources_normal (sources_in insn.now)) }
    ensures { OnOk result (Adds out.old out.new (row_on false (terms (tail_terms insn.now)))) }
{
    match insn {
        Insn::LoopRec(label, register) => put_row(
            out,
            &[
                One(Single::Label(*label)),
                One(Single::Register(Reg::X(*register))),
            ],
        ),
        Insn::RemoveMessage => put_row(out, &[]),
        Insn::LoopRecEnd(label) => put_row(out, &[One(Single::Label(*label))]),
        Insn::Wait(label) => put_row(out, &[One(Single::Label(*label))]),
        Insn::WaitTimeout(label, source) => put_row(
            out,
            &[One(Single::Label(*label)), One(Single::Source(source))],
        ),
        Insn::Timeout => put_row(out, &[]),
        Insn::RecvMarkerReserve(to) => put_row(out, &[One(Single::Register(*to))]),
        Insn::RecvMarkerBind(marker, reference) => put_row(
            out,
            &[
                One(Single::Register(*marker)),
                One(Single::Source(reference)),
            ],
        ),
        Insn::RecvMarkerUse(reference) => put_row(out, &[One(Single::Source(reference))]),
        Insn::RecvMarkerClear(reference) => put_row(out, &[One(Single::Source(reference))]),
        _ => unreachable!(),
    }
}

pub(crate) fn put_context(out: &mut Text, insn: &Insn) -> Result<(), NoMemory>
    requires family { family insn.now ≡ F.Contexts }
    requires normal { IsTrue (sources_normal (sources_in insn.now)) }
    ensures { OnOk result (Adds out.old out.new (row_on false (terms (tail_terms insn.now)))) }
{
    match insn {
        Insn::BsStartMatch4(label, live, source, to) => put_row(
            out,
            &[
                One(Single::LabelOrNoFail(*label)),
                One(Single::Number(*live)),
                One(Single::Source(source)),
                One(Single::Register(*to)),
            ],
        ),
        Insn::BsTestTail2(label, context, size) => put_row(
            out,
            &[
                One(Single::Label(*label)),
                Bare(Items::Singles(&[Single::Register(*context), Single::Number(*size)])),
            ],
        ),
        Insn::BsTestUnit(label, context, unit) => put_row(
            out,
            &[
                One(Single::Label(*label)),
                Bare(Items::Singles(&[Single::Register(*context), Single::Number(*unit)])),
            ],
        ),
        Insn::BsGetTail(context, to, live) => put_row(
            out,
            &[
                One(Single::Register(*context)),
                One(Single::Register(*to)),
                One(Single::Number(*live)),
            ],
        ),
        Insn::BsGetPosition(context, to, live) => put_row(
            out,
            &[
                One(Single::Register(*context)),
                One(Single::Register(*to)),
                One(Single::Number(*live)),
            ],
        ),
        Insn::BsSetPosition(context, position) => put_row(
            out,
            &[
                One(Single::Register(*context)),
                One(Single::Register(*position)),
            ],
        ),
        _ => unreachable!(),
    }
}

pub(crate) fn put_segments(out: &mut Text, insn: &Insn) -> Result<(), NoMemory>
    requires family { family insn.now ≡ F.Segments }
    requires normal { IsTrue (sources_normal (sources_in insn.now)) }
    ensures { OnOk result (Adds out.old out.new (row_on false (terms (tail_terms insn.now)))) }
{
    match insn {
        Insn::BsGetInteger2(label, live, context, size, unit, flags, to)
        | Insn::BsGetBinary2(label, live, context, size, unit, flags, to) => put_taken(
            out,
            *label,
            *live,
            &[
                Single::Register(*context),
                Single::Source(size),
                Single::Number(*unit),
                Single::FieldFlags(*flags),
            ],
            *to,
        ),
        Insn::BsSkipBits2(label, context, size, unit, flags) => put_row(
            out,
            &[
                One(Single::Label(*label)),
                Bare(Items::Singles(&[
                    Single::Register(*context),
                    Single::Source(size),
                    Single::Number(*unit),
                    Single::FieldFlags(*flags),
                ])),
            ],
        ),
        Insn::BsCreateBin(label, live, unit, to, segments) => put_row(
            out,
            &[
                One(Single::LabelOrZero(*label)),
                One(Single::Number(0)),
                One(Single::Number(*live)),
                One(Single::Number(*unit)),
                One(Single::Register(*to)),
                Listed(Items::Segments(segments)),
            ],
        ),
        _ => unreachable!(),
    }
}

// What is taken from a context, and where it is put.
fn put_taken(
    out: &mut Text,
    label: LabelId,
    live: u32,
    field: &[Single<'_>],
    to: Reg,
) -> Result<(), NoMemory>
    requires { IsTrue (list_all single_normal field.now) }
    ensures { OnOk result (Adds out.old out.new (row_on false (terms (label_term label.0 ∷ number_term live
        ∷ list_of (map single_term field.now) T.nil ∷ register_term (reg_view to) ∷ [])))) }
{
    put_row(
        out,
        &[
            One(Single::Label(label)),
            One(Single::Number(live)),
            Bare(Items::Singles(field)),
            One(Single::Register(to)),
        ],
    )
}
