// Of core_scope: the first fault of a module is told.
use core_form::build::{exprs, lists, nodes};
use core_form::{Binder, Binders, Defs, Module};
use core_scope::check_scope;
use erl_base::{Fault, FunKey, Kind, List, Name, NoMemory, Place, Refusal, ScopeFault};
use std::alloc::Global;
use std::test::Fail;

const HERE: Place = Place { line: 1, column: 2 };

const THERE: Place = Place { line: 3, column: 4 };

fn vars(alloc: Global) -> Result<Binders, NoMemory> {
    let mut vars = List::new(alloc);
    vars.push(Binder {
        name: Name::from_text(alloc, "X")?,
        place: HERE,
    })?;
    Ok(vars)
}

// A function of X that answers this variable.
fn defs(alloc: Global, answer: &str) -> Result<Defs, NoMemory> {
    let key = FunKey {
        name: Name::from_text(alloc, "f")?,
        arity: 1,
    };
    let answer = exprs::var(alloc, THERE, Name::from_text(alloc, answer));
    let right = exprs::fun(alloc, HERE, vars(alloc), answer);
    lists::and_def(
        Ok(List::new(alloc)),
        nodes::def(alloc, Ok(key), HERE, right),
    )
}

fn module(alloc: Global, answer: &str) -> Result<Module, NoMemory> {
    Ok(Module {
        name: Name::from_text(alloc, "m")?,
        exports: List::new(alloc),
        attributes: List::new(alloc),
        defs: defs(alloc, answer)?,
        floats: None,
        wide: None,
        long: None,
    })
}

#[test]
fn an_unbound_variable_is_told(rt: HostRuntime) -> Result<(), Fail> {
    let alloc = rt.alloc();
    let fault = Refusal {
        kind: Kind::Scope(ScopeFault::UnboundVariable),
        place: THERE,
    };
    assert_eq!(rt;
        check_scope(alloc, &module(alloc, "Y")?),
        Err(Fault::Refused(fault))
    );
    Ok(())
}
