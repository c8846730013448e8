// Of bif_table: listed functions are found by name and arity alone.
use bif_table::{Bif, is_guard, lookup};
use erl_base::{FunKey, Name, NoMemory};
use std::alloc::Global;
use std::test::Fail;

fn found(alloc: Global, text: &str, arity: u32) -> Result<Option<Bif>, NoMemory> {
    let name = Name::from_text(alloc, text)?;
    Ok(lookup(&FunKey { name, arity }))
}

#[test]
fn functions_are_found_by_name_and_arity(rt: HostRuntime) -> Result<(), Fail> {
    let alloc = rt.alloc();
    assert!(rt; found(alloc, "+", 2)? == Some(Bif::Add));
    assert!(rt; found(alloc, "+", 1)? == Some(Bif::Plus));
    assert!(rt; found(alloc, "+", 3)?.is_none());
    assert!(rt; found(alloc, "/", 2)?.is_none());
    assert!(rt; found(alloc, "is_record", 3)? == Some(Bif::IsRecord3));
    assert!(rt; found(alloc, "self", 0)? == Some(Bif::OwnPid));
    assert!(rt; found(alloc, "throw", 1)? == Some(Bif::Throw1));
    assert!(rt; is_guard(Bif::OwnPid) && !is_guard(Bif::Throw1));
    assert!(rt; Bif::IsRecord3.arity() == 3 && Bif::Length.is_collecting());
    Ok(())
}
