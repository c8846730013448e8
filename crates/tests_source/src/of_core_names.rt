// Of core_names: inner names hide outer ones, and are left again.
use core_names::Names;
use erl_base::{FunKey, Name};
use std::test::Fail;

#[test]
fn an_inner_name_is_left_again(rt: HostRuntime) -> Result<(), Fail> {
    let alloc = rt.alloc();
    let name = Name::from_text(alloc, "X")?;
    let mut names = Names::new(alloc);
    names.bind(&name)?;
    names.bind(&name)?;
    assert_eq!(rt; names.binding(&name), Some(1));
    names.leave(1);
    assert_eq!(rt; names.binding(&name), Some(0));
    names.leave(0);
    assert_eq!(rt; names.binding(&name), None);
    Ok(())
}

#[test]
fn a_function_means_its_inner_site(rt: HostRuntime) -> Result<(), Fail> {
    let alloc = rt.alloc();
    let key = FunKey {
        name: Name::from_text(alloc, "f")?,
        arity: 1,
    };
    let mut names = Names::new(alloc);
    names.bind_function(&key, 3)?;
    names.bind_function(&key, 4)?;
    let found = names.function(&key);
    assert_eq!(rt; found.map(|known| known.site), Some(4));
    assert_eq!(rt; names.len(), 2);
    Ok(())
}
