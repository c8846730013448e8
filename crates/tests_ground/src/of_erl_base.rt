// Of erl_base: lists, boxes, names and keys are made and copied, and names are in the order of their characters.
use erl_base::{Boxed, Duplicate, FunKey, List, Name, NoMemory, VarId, both, three};
use std::cmp::Ordering;
use std::test::Fail;

#[test]
fn values_are_made_and_copied(rt: HostRuntime) -> Result<(), Fail> {
    let alloc = rt.alloc();
    let mut numbers: List<u32> = List::new(alloc);
    numbers.push(7)?;
    numbers.push(8)?;
    assert_eq!(rt; numbers.pop(), Some(8));
    let copy: List<u32> = Duplicate::copy(&numbers, alloc)?;
    assert!(rt; copy.as_slice() == [7u32].as_slice());
    assert!(rt; !copy.is_empty());
    let boxed = Boxed::new(alloc, 9u32)?;
    let other: Boxed<u32> = Duplicate::copy(&boxed, alloc)?;
    assert_eq!(rt; *boxed.get(), 9);
    assert_eq!(rt; other.into_inner(), 9);
    Ok(())
}

#[test]
fn names_go_by_their_characters(rt: HostRuntime) -> Result<(), Fail> {
    let alloc = rt.alloc();
    let key = FunKey {
        name: Name::from_text(alloc, "é")?,
        arity: 2,
    };
    let copy = key.copy(alloc)?;
    assert!(rt; copy.is(&key));
    assert!(rt; copy.name.as_str() == "é");
    // The first is one character, but two bytes.
    let longer = Name::from_text(alloc, "zz")?;
    assert_eq!(rt; longer.compare(&key.name), Ordering::Less);
    assert_eq!(rt; key.name.compare(&copy.name), Ordering::Equal);
    assert!(rt; !longer.is(&key.name));
    Ok(())
}

#[test]
fn every_kind_of_value_is_copied(rt: HostRuntime) -> Result<(), Fail> {
    let alloc = rt.alloc();
    assert_eq!(rt; Duplicate::copy(&7u8, alloc)?, 7);
    assert_eq!(rt; Duplicate::copy(&'é', alloc)?, 'é');
    assert_eq!(rt; Duplicate::copy(&VarId(5), alloc)?, VarId(5));
    let name = Name::from_text(alloc, "f")?;
    let key = FunKey { name, arity: 3 };
    let name: Name = Duplicate::copy(&key.name, alloc)?;
    let copy: FunKey = Duplicate::copy(&key, alloc)?;
    assert!(rt; name.is(&key.name));
    assert!(rt; copy.is(&key));
    Ok(())
}

#[test]
fn a_whole_has_all_its_parts(rt: HostRuntime) -> Result<(), Fail> {
    let (first, second) = both(Ok(1u32), Ok('é'))?;
    assert_eq!(rt; first, 1);
    assert_eq!(rt; second, 'é');
    let (first, second, third) = three(Ok(1u32), Ok('é'), Ok(3u8))?;
    assert_eq!(rt; first, 1);
    assert_eq!(rt; second, 'é');
    assert_eq!(rt; third, 3);
    let missing: Result<u8, NoMemory> = Err(NoMemory);
    assert!(rt; both(Ok(1u32), missing).is_err());
    Ok(())
}
