// Operands of instructions of control: tests, choices, and calls. An arm for the other families is never
// reached.
ghost use Rattle.std.specs.Prelude.{◌≡◌, false, IsTrue, OnOk};
ghost use Rattle.erl_term.specs.Terms.{terms};
ghost use Rattle.term_text.specs.Printing.{Adds};
ghost use Rattle.term_text.specs.TermText.{row_on};
ghost use Rattle.beam_table.specs.Families.{family};
ghost use Rattle.beam_table.specs.WellFormedModule.{sources_in};
ghost use Rattle.beam_table.specs.declared.family.Family.TheVariants as F;
ghost use Rattle.insn_text.specs.Literals.{sources_normal};
ghost use Rattle.insn_text.specs.Rows.{tail_terms};

use crate::items::put_row;
use crate::row::Operand::{Bare, Listed, One};
use crate::row::{Items, Single};
use beam_table::Insn;
use erl_base::{NoMemory, Text};

pub(crate) fn put_test(out: &mut Text, insn: &Insn) -> Result<(), NoMemory>
    requires family { family insn.now ≡ F.Tests }
    requires normal { IsTrue (sources_normal (sources_in insn.now)) }
    ensures { OnOk result (Adds out.old out.new (row_on false (terms (tail_terms insn.now)))) }
{
    match insn {
        Insn::HasMapFields(label, map, keys) => put_row(
            out,
            &[
                One(Single::Label(*label)),
                One(Single::Source(map)),
                Listed(Items::Sources(keys)),
            ],
        ),
        Insn::Jump(label) => put_row(out, &[One(Single::Label(*label))]),
        Insn::Test(_, label, source) => put_row(
            out,
            &[
                One(Single::Label(*label)),
                Bare(Items::Singles(&[Single::Source(source)])),
            ],
        ),
        Insn::Compare(_, label, left, right) => put_row(
            out,
            &[
                One(Single::Label(*label)),
                Bare(Items::Singles(&[Single::Source(left), Single::Source(right)])),
            ],
        ),
        Insn::TestArity(label, tuple, size) => put_row(
            out,
            &[
                One(Single::Label(*label)),
                Bare(Items::Singles(&[Single::Source(tuple), Single::Number(*size)])),
            ],
        ),
        Insn::IsTaggedTuple(label, tuple, size, tag) => put_row(
            out,
            &[
                One(Single::Label(*label)),
                Bare(Items::Singles(&[
                    Single::Source(tuple),
                    Single::Number(*size),
                    Single::Atom(tag),
                ])),
            ],
        ),
        _ => unreachable!(),
    }
}

pub(crate) fn put_choice(out: &mut Text, insn: &Insn) -> Result<(), NoMemory>
    requires family { family insn.now ≡ F.Choices }
    requires normal { IsTrue (sources_normal (sources_in insn.now)) }
    ensures { OnOk result (Adds out.old out.new (row_on false (terms (tail_terms insn.now)))) }
{
    match insn {
        Insn::SelectVal(source, label, choices) => put_row(
            out,
            &[
                One(Single::Source(source)),
                One(Single::Label(*label)),
                Listed(Items::ValueChoices(choices)),
            ],
        ),
        Insn::SelectTupleArity(source, label, choices) => put_row(
            out,
            &[
                One(Single::Source(source)),
                One(Single::Label(*label)),
                Listed(Items::SizeChoices(choices)),
            ],
        ),
        Insn::Bif(function, label, arguments, to) => put_row(
            out,
            &[
                One(Single::Function(*function)),
                One(Single::LabelOrZero(*label)),
                Bare(Items::Sources(arguments)),
                One(Single::Register(*to)),
            ],
        ),
        Insn::GcBif(function, label, live, arguments, to) => put_row(
            out,
            &[
                One(Single::Function(*function)),
                One(Single::LabelOrZero(*label)),
                One(Single::Number(*live)),
                Bare(Items::Sources(arguments)),
                One(Single::Register(*to)),
            ],
        ),
        _ => unreachable!(),
    }
}

pub(crate) fn put_call(out: &mut Text, insn: &Insn) -> Result<(), NoMemory>
    requires family { family insn.now ≡ F.Calls }
    requires normal { IsTrue (sources_normal (sources_in insn.now)) }
    ensures { OnOk result (Adds out.old out.new (row_on false (terms (tail_terms insn.now)))) }
{
    match insn {
        Insn::Return => put_row(out, &[]),
        Insn::Call(arity, entry) => put_row(
            out,
            &[One(Single::Number(*arity)), One(Single::Label(*entry))],
        ),
        Insn::CallOnly(arity, entry) => put_row(
            out,
            &[One(Single::Number(*arity)), One(Single::Label(*entry))],
        ),
        Insn::CallLast(arity, entry, slots) => put_row(
            out,
            &[
                One(Single::Number(*arity)),
                One(Single::Label(*entry)),
                One(Single::Number(*slots)),
            ],
        ),
        Insn::CallExt(arity, function) => put_row(
            out,
            &[One(Single::Number(*arity)), One(Single::Extern(function))],
        ),
        Insn::CallExtOnly(arity, function) => put_row(
            out,
            &[One(Single::Number(*arity)), One(Single::Extern(function))],
        ),
        Insn::CallExtLast(arity, function, slots) => put_row(
            out,
            &[
                One(Single::Number(*arity)),
                One(Single::Extern(function)),
                One(Single::Number(*slots)),
            ],
        ),
        Insn::CallFun(arity) => put_row(out, &[One(Single::Number(*arity))]),
        Insn::Apply(arity) => put_row(out, &[One(Single::Number(*arity))]),
        Insn::ApplyLast(arity, slots) => put_row(
            out,
            &[One(Single::Number(*arity)), One(Single::Number(*slots))],
        ),
        Insn::Send => put_row(out, &[]),
        _ => unreachable!(),
    }
}
