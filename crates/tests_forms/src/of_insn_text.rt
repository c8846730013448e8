// Of insn_text: instructions have these texts, with the greatest of their numbers, as tests, and with names in quotes.
ghost use Rattle.std.specs.Prelude.{Contains};
ghost use Rattle.erl_term.specs.WellFormed.{IsWellFormed};
ghost use Rattle.erl_term.specs.declared.term.Term.{Term};
ghost use Rattle.beam_table.specs.WellFormedModule.{sources_in};
ghost use Rattle.beam_table.specs.declared.operand.Source.TheVariants.{Literal};

use asm_text::encoded;
use beam_table::{Extern, Insn, Reg, Source};
use erl_base::{Bytes, LabelId, List, Name, NoMemory};
use insn_text::put_insn;
use std::alloc::Global;
use std::test::Fail;

fn bytes_of(alloc: Global, insn: &Insn) -> Result<Bytes, NoMemory>
    requires { (t : Term) → Contains (sources_in insn.now) (Literal t) → IsWellFormed t }
{
    let mut out = List::new(alloc);
    put_insn(&mut out, insn)?;
    encoded(alloc, out.as_slice())
}

fn call(alloc: Global, function: Extern) -> Result<Bytes, NoMemory> {
    bytes_of(alloc, &Insn::CallExt(2, function))
}

fn quoted(alloc: Global) -> Result<Bytes, NoMemory> {
    let function = Extern {
        module: Name::from_text(alloc, "lists")?,
        name: Name::from_text(alloc, "Max of")?,
        arity: 2,
    };
    call(alloc, function)
}

#[test]
fn instructions_have_these_texts(rt: HostRuntime) -> Result<(), Fail> {
    let alloc = rt.alloc();
    let end = bytes_of(alloc, &Insn::Return)?;
    assert!(rt; end.as_slice() == "return".as_bytes());
    let label = bytes_of(alloc, &Insn::Label(LabelId(4294967295)))?;
    assert!(rt; label.as_slice() == "{label,4294967295}".as_bytes());
    let swap = bytes_of(alloc, &Insn::Swap(Reg::X(1022), Reg::Y(0)))?;
    assert!(rt; swap.as_slice() == "{swap,{x,1022},{y,0}}".as_bytes());
    let unit = bytes_of(alloc, &Insn::BsTestUnit(LabelId(3), Reg::X(10), 8))?;
    assert!(rt; unit.as_slice() == "{test,bs_test_unit,{f,3},[{x,10},8]}".as_bytes());
    let quoted = quoted(alloc)?;
    assert!(rt; quoted.as_slice() == "{call_ext,2,{extfunc,lists,'Max of',2}}".as_bytes());
    Ok(())
}

fn least(alloc: Global) -> Result<Bytes, NoMemory> {
    bytes_of(alloc, &Insn::Move(Source::Integer(i128::MIN), Reg::X(0)))
}

#[test]
fn the_least_integer_has_this_text(rt: HostRuntime) -> Result<(), Fail> {
    let bytes = least(rt.alloc())?;
    assert!(rt;
        bytes.as_slice()
            == "{move,{integer,-170141183460469231731687303715884105728},{x,0}}".as_bytes()
    );
    Ok(())
}
