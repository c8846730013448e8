// Of beam_table: modules are copied, with functions whose instructions hold each kind of parts.
use beam_table::{
    AsmFun, AsmFuns, AsmModule, Extern, Flags, GetPair, Insn, Insns, PutPair, Reg, Segment,
    SegmentKind, SizeChoice, Source, ValueChoice,
};
use erl_base::{Boxed, FunKey, LabelId, List, Name, NoMemory};
use erl_term::Term;
use std::alloc::Global;
use std::test::Fail;

fn call(alloc: Global) -> Result<Insn, NoMemory> {
    let function = Extern {
        module: Name::from_text(alloc, "lists")?,
        name: Name::from_text(alloc, "map")?,
        arity: 2,
    };
    Ok(Insn::CallExt(2, function))
}

fn put_map(alloc: Global) -> Result<Insn, NoMemory> {
    let mut pairs = List::new(alloc);
    pairs.push(PutPair {
        key: Source::Literal(Boxed::new(alloc, Term::Int(7))?),
        value: Source::Nil,
    })?;
    Ok(Insn::PutMapAssoc(Source::Nil, Reg::X(0), 1, pairs))
}

fn get_map(alloc: Global) -> Result<Insn, NoMemory> {
    let mut pairs = List::new(alloc);
    pairs.push(GetPair {
        key: Source::Nil,
        to: Reg::Y(3),
    })?;
    Ok(Insn::GetMapElements(LabelId(1), Source::Nil, pairs))
}

fn select_value(alloc: Global) -> Result<Insn, NoMemory> {
    let mut choices = List::new(alloc);
    choices.push(ValueChoice {
        value: Source::Nil,
        label: LabelId(9),
    })?;
    Ok(Insn::SelectVal(Source::Nil, LabelId(1), choices))
}

fn select_size(alloc: Global) -> Result<Insn, NoMemory> {
    let mut choices = List::new(alloc);
    choices.push(SizeChoice {
        size: 2,
        label: LabelId(6),
    })?;
    Ok(Insn::SelectTupleArity(Source::Nil, LabelId(1), choices))
}

fn put_tuple(alloc: Global) -> Result<Insn, NoMemory> {
    let mut items = List::new(alloc);
    items.push(Source::Integer(5))?;
    Ok(Insn::PutTuple2(Reg::X(2), items))
}

fn create_binary(alloc: Global) -> Result<Insn, NoMemory> {
    let mut segments = List::new(alloc);
    segments.push(Segment {
        kind: SegmentKind::Binary,
        number: 0,
        unit: 8,
        flags: Flags {
            signed: false,
            little: true,
        },
        value: Source::Reg(Reg::X(0)),
        size: Source::Integer(4),
    })?;
    Ok(Insn::BsCreateBin(None, 0, 8, Reg::X(1), segments))
}

fn code(alloc: Global) -> Result<Insns, NoMemory> {
    let mut code: Insns = List::new(alloc);
    code.push(call(alloc)?)?;
    code.push(put_map(alloc)?)?;
    code.push(get_map(alloc)?)?;
    code.push(select_value(alloc)?)?;
    code.push(select_size(alloc)?)?;
    code.push(put_tuple(alloc)?)?;
    code.push(create_binary(alloc)?)?;
    Ok(code)
}

fn functions(alloc: Global) -> Result<AsmFuns, NoMemory> {
    let name = Name::from_text(alloc, "f")?;
    let code = code(alloc)?;
    let mut funs = List::new(alloc);
    funs.push(AsmFun {
        key: FunKey { name, arity: 3 },
        info: LabelId(1),
        entry: LabelId(2),
        code,
    })?;
    Ok(funs)
}

fn module(alloc: Global) -> Result<AsmModule, NoMemory> {
    let name = Name::from_text(alloc, "m")?;
    Ok(AsmModule {
        name,
        exports: List::new(alloc),
        attributes: List::new(alloc),
        funs: functions(alloc)?,
    })
}

fn copied(alloc: Global) -> Result<AsmModule, NoMemory> {
    module(alloc)?.copy(alloc)
}

fn is_own(module: &AsmModule) -> bool {
    match module.funs.as_slice() {
        [fun] => module.name.as_str() == "m" && fun.entry == LabelId(2) && fun.code.len() == 7,
        _ => false,
    }
}

#[test]
fn modules_are_copied(rt: HostRuntime) -> Result<(), Fail> {
    let copy = copied(rt.alloc())?;
    assert!(rt; is_own(&copy));
    Ok(())
}
