// Of kernel_parts: steps, shapes and patterns are copied.
use erl_base::{Duplicate, List, NoMemory, VarId};
use erl_term::Term;
use kernel_parts::{BinStep, KKeyPat, KPair, KPart, KPat, KSimple, KValue, Shape};
use std::alloc::Global;
use std::test::Fail;

fn var(number: u32) -> KValue {
    KValue::Var(VarId(number))
}

fn pair_of(alloc: Global) -> Result<KSimple, NoMemory> {
    let mut pairs = List::new(alloc);
    pairs.push(KPair {
        key: var(1),
        value: KValue::Lit(Term::Int(5)),
        exact: true,
    })?;
    Ok(KSimple::MapPut(var(0), pairs))
}

#[test]
fn map_updates_are_copied(rt: HostRuntime) -> Result<(), Fail> {
    let copy = pair_of(rt.alloc())?.copy(rt.alloc())?;
    assert!(rt; is_exact_update(&copy));
    Ok(())
}

fn is_exact_update(step: &KSimple) -> bool {
    match step {
        KSimple::MapPut(KValue::Var(VarId(0)), pairs) => match pairs.as_slice() {
            [pair] => pair.exact && matches!(&pair.value, KValue::Lit(Term::Int(5))),
            _ => false,
        },
        _ => false,
    }
}

fn part() -> KPart {
    KPart {
        value: var(3),
        size: var(4),
        unit: 8,
        signed: false,
        little: true,
        whole: false,
        binary: true,
    }
}

#[test]
fn binary_parts_are_copied(rt: HostRuntime) -> Result<(), Fail> {
    let mut parts = List::new(rt.alloc());
    parts.push(part())?;
    let copy = KSimple::Bits(parts).copy(rt.alloc())?;
    assert!(rt; is_little_part(&copy));
    Ok(())
}

fn is_little_part(step: &KSimple) -> bool {
    match step {
        KSimple::Bits(parts) => match parts.as_slice() {
            [part] => part.unit == 8 && part.little && part.binary && !part.whole,
            _ => false,
        },
        _ => false,
    }
}

#[test]
fn each_kind_is_copied_alone(rt: HostRuntime) -> Result<(), Fail> {
    let alloc = rt.alloc();
    let step: KSimple = Duplicate::copy(&KSimple::Send(var(1), var(2)), alloc)?;
    assert!(rt; matches!(step, KSimple::Send(_, KValue::Var(VarId(2)))));
    let shape: Shape = Duplicate::copy(&Shape::MapHas(var(3)), alloc)?;
    assert!(rt; matches!(shape, Shape::MapHas(KValue::Var(VarId(3)))));
    let mark: BinStep = Duplicate::copy(&BinStep::Mark(VarId(4), VarId(5)), alloc)?;
    assert!(rt; matches!(mark, BinStep::Mark(VarId(4), VarId(5))));
    Ok(())
}

fn copied_key(alloc: Global) -> Result<KKeyPat, NoMemory> {
    let key = KKeyPat {
        key: var(1),
        pat: KPat::Any,
    };
    Duplicate::copy(&key, alloc)
}

#[test]
fn keys_are_copied_alone(rt: HostRuntime) -> Result<(), Fail> {
    let copy = copied_key(rt.alloc())?;
    assert!(rt; matches!(&copy.key, KValue::Var(VarId(1))));
    assert!(rt; matches!(&copy.pat, KPat::Any));
    Ok(())
}
