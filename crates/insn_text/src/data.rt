// Operands of instructions of data: frames, building, and taking apart. An arm for the other families is never
// reached.
ghost use Rattle.std.specs.Prelude.{◌≡◌, false, IsTrue, OnOk};
ghost use Rattle.erl_term.specs.Terms.{terms};
ghost use Rattle.term_text.specs.Printing.{Adds};
ghost use Rattle.term_text.specs.TermText.{row_on};
ghost use Rattle.beam_table.specs.Families.{family};
ghost use Rattle.beam_table.specs.WellFormedModule.{sources_in};
ghost use Rattle.beam_table.specs.declared.family.Family.TheVariants as F;
ghost use Rattle.insn_text.specs.Literals.{sources_normal};
ghost use Rattle.insn_text.specs.Rows.{tail_terms};

use crate::items::put_row;
use crate::row::Operand::{Listed, One};
use crate::row::{Items, Single};
use beam_table::Insn;
use erl_base::{NoMemory, Text};

pub(crate) fn put_frames(out: &mut Text, insn: &Insn) -> Result<(), NoMemory>
    requires family { family insn.now ≡ F.Frames }
    requires normal { IsTrue (sources_normal (sources_in insn.now)) }
    ensures { OnOk result (Adds out.old out.new (row_on false (terms (tail_terms insn.now)))) }
{
    match insn {
        Insn::Label(label) => put_row(out, &[One(Single::Number(label.0))]),
        Insn::Move(source, to) => put_row(
            out,
            &[One(Single::Source(source)), One(Single::Register(*to))],
        ),
        Insn::Swap(left, right) => put_row(
            out,
            &[One(Single::Register(*left)), One(Single::Register(*right))],
        ),
        Insn::InitYregs(slots) => put_row(out, &[Listed(Items::Slots(slots))]),
        Insn::Allocate(slots, live) => put_row(
            out,
            &[One(Single::Number(*slots)), One(Single::Number(*live))],
        ),
        Insn::AllocateHeap(slots, words, live) => put_row(
            out,
            &[
                One(Single::Number(*slots)),
                One(Single::Number(*words)),
                One(Single::Number(*live)),
            ],
        ),
        Insn::Deallocate(slots) => put_row(out, &[One(Single::Number(*slots))]),
        Insn::Trim(gone, left) => put_row(
            out,
            &[One(Single::Number(*gone)), One(Single::Number(*left))],
        ),
        Insn::TestHeap(words, live) => put_row(
            out,
            &[One(Single::Number(*words)), One(Single::Number(*live))],
        ),
        _ => unreachable!(),
    }
}

pub(crate) fn put_building(out: &mut Text, insn: &Insn) -> Result<(), NoMemory>
    requires family { family insn.now ≡ F.Building }
    requires normal { IsTrue (sources_normal (sources_in insn.now)) }
    ensures { OnOk result (Adds out.old out.new (row_on false (terms (tail_terms insn.now)))) }
{
    match insn {
        Insn::PutList(head, tail, to) => put_row(
            out,
            &[
                One(Single::Source(head)),
                One(Single::Source(tail)),
                One(Single::Register(*to)),
            ],
        ),
        Insn::PutTuple2(to, items) => put_row(
            out,
            &[One(Single::Register(*to)), Listed(Items::Sources(items))],
        ),
        Insn::MakeFun3(entry, site, to, captures) => put_row(
            out,
            &[
                One(Single::Label(*entry)),
                One(Single::Number(site.0)),
                One(Single::Number(0)),
                One(Single::Register(*to)),
                Listed(Items::Sources(captures)),
            ],
        ),
        Insn::PutMapAssoc(map, to, live, pairs) => put_row(
            out,
            &[
                One(Single::LabelOrZero(None)),
                One(Single::Source(map)),
                One(Single::Register(*to)),
                One(Single::Number(*live)),
                Listed(Items::PutPairs(pairs)),
            ],
        ),
        Insn::PutMapExact(map, to, live, pairs) => put_row(
            out,
            &[
                One(Single::LabelOrZero(None)),
                One(Single::Source(map)),
                One(Single::Register(*to)),
                One(Single::Number(*live)),
                Listed(Items::PutPairs(pairs)),
            ],
        ),
        _ => unreachable!(),
    }
}

pub(crate) fn put_taking_apart(out: &mut Text, insn: &Insn) -> Result<(), NoMemory>
    requires family { family insn.now ≡ F.TakingApart }
    requires normal { IsTrue (sources_normal (sources_in insn.now)) }
    ensures { OnOk result (Adds out.old out.new (row_on false (terms (tail_terms insn.now)))) }
{
    match insn {
        Insn::GetList(list, head, tail) => put_row(
            out,
            &[
                One(Single::Source(list)),
                One(Single::Register(*head)),
                One(Single::Register(*tail)),
            ],
        ),
        Insn::GetHd(list, to) => put_row(
            out,
            &[One(Single::Source(list)), One(Single::Register(*to))],
        ),
        Insn::GetTl(list, to) => put_row(
            out,
            &[One(Single::Source(list)), One(Single::Register(*to))],
        ),
        Insn::GetTupleElement(tuple, index, to) => put_row(
            out,
            &[
                One(Single::Source(tuple)),
                One(Single::Number(*index)),
                One(Single::Register(*to)),
            ],
        ),
        Insn::GetMapElements(label, map, pairs) => put_row(
            out,
            &[
                One(Single::Label(*label)),
                One(Single::Source(map)),
                Listed(Items::GetPairs(pairs)),
            ],
        ),
        _ => unreachable!(),
    }
}
