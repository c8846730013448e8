// Of core_form: sites and names are copied, and a module takes other definitions.
use core_form::build::{exprs, lists, nodes};
use core_form::{Binder, Binders, Defs, FunName, Module, Site};
use erl_base::{Duplicate, FunKey, List, Name, NoMemory, Place};
use std::alloc::Global;
use std::test::Fail;

const HERE: Place = Place { line: 1, column: 2 };

fn key(alloc: Global) -> Result<FunKey, NoMemory> {
    Ok(FunKey {
        name: Name::from_text(alloc, "f")?,
        arity: 1,
    })
}

fn vars(alloc: Global) -> Result<Binders, NoMemory> {
    let mut vars = List::new(alloc);
    vars.push(Binder {
        name: Name::from_text(alloc, "X")?,
        place: HERE,
    })?;
    Ok(vars)
}

#[test]
fn a_site_is_copied(rt: HostRuntime) -> Result<(), Fail> {
    let alloc = rt.alloc();
    let site = Site {
        place: HERE,
        key: Some(key(alloc)?),
        params: vars(alloc)?,
        captures: List::new(alloc),
    };
    let copy: Site = Duplicate::copy(&site, alloc)?;
    assert_eq!(rt; copy.params.len(), 1);
    assert!(rt; copy.captures.is_empty());
    Ok(())
}

#[test]
fn a_name_is_copied(rt: HostRuntime) -> Result<(), Fail> {
    let name = FunName {
        key: key(rt.alloc())?,
        place: HERE,
    };
    let copy: FunName = Duplicate::copy(&name, rt.alloc())?;
    assert_eq!(rt; copy.place, HERE);
    Ok(())
}

fn defs(alloc: Global) -> Result<Defs, NoMemory> {
    let answer = exprs::var(alloc, HERE, Name::from_text(alloc, "X"));
    let right = exprs::fun(alloc, HERE, vars(alloc), answer);
    lists::and_def(
        Ok(List::new(alloc)),
        nodes::def(alloc, key(alloc), HERE, right),
    )
}

#[test]
fn a_module_takes_other_definitions(rt: HostRuntime) -> Result<(), Fail> {
    let alloc = rt.alloc();
    let module = Module {
        name: Name::from_text(alloc, "m")?,
        exports: List::new(alloc),
        attributes: List::new(alloc),
        defs: List::new(alloc),
        floats: Some(HERE),
        wide: None,
        long: None,
    };
    let other = nodes::with_defs(alloc, &module, defs(alloc))?;
    assert_eq!(rt; other.defs.len(), 1);
    assert!(rt; other.name.as_str() == "m" && other.exports.is_empty());
    assert_eq!(rt; other.floats, Some(HERE));
    Ok(())
}
