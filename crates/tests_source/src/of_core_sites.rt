// Of core_sites: a fun in a function captures its parameter, in the list and in the counts.
use core_form::build::{exprs, lists, nodes};
use core_form::{Binder, Binders, Defs, Module};
use core_sites::{capture_counts, sites};
use erl_base::{FunKey, List, Name, NoMemory, Place};
use std::alloc::Global;
use std::test::Fail;

const HERE: Place = Place { line: 1, column: 2 };

fn vars(alloc: Global) -> Result<Binders, NoMemory> {
    let mut vars = List::new(alloc);
    vars.push(Binder {
        name: Name::from_text(alloc, "X")?,
        place: HERE,
    })?;
    Ok(vars)
}

// A function of X whose body is a fun without parameters that gives X.
fn defs(alloc: Global) -> Result<Defs, NoMemory> {
    let key = FunKey {
        name: Name::from_text(alloc, "f")?,
        arity: 1,
    };
    let answer = exprs::var(alloc, HERE, Name::from_text(alloc, "X"));
    let inner = exprs::fun(alloc, HERE, Ok(List::new(alloc)), answer);
    let right = exprs::fun(alloc, HERE, vars(alloc), inner);
    lists::and_def(
        Ok(List::new(alloc)),
        nodes::def(alloc, Ok(key), HERE, right),
    )
}

fn module(alloc: Global) -> Result<Module, NoMemory> {
    Ok(Module {
        name: Name::from_text(alloc, "m")?,
        exports: List::new(alloc),
        attributes: List::new(alloc),
        defs: defs(alloc)?,
        floats: None,
        wide: None,
        long: None,
    })
}

fn listed(alloc: Global) -> Result<u64, NoMemory> {
    Ok(sites(alloc, &module(alloc)?)?.len() as u64)
}

fn counted(alloc: Global) -> Result<List<u64>, NoMemory> {
    capture_counts(alloc, &module(alloc)?)
}

#[test]
fn functions_are_listed_and_counted(rt: HostRuntime) -> Result<(), Fail> {
    assert_eq!(rt; listed(rt.alloc())?, 2);
    let counts = counted(rt.alloc())?;
    assert!(rt; counts.as_slice() == [0u64, 1].as_slice());
    Ok(())
}
