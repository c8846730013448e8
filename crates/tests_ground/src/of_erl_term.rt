// Of erl_term: attributes, bits and pairs are copied.
ghost use Rattle.std.specs.Prelude.{IfOk};
ghost use Rattle.erl_term.specs.WellFormed.{IsFull, IsNormal};

use erl_base::{Boxed, Duplicate, List, Name, NoMemory};
use erl_term::{Attribute, Bits, Class, Pair, Term};
use std::alloc::Global;
use std::test::Fail;

fn listing(alloc: Global) -> Result<Term, NoMemory>
    ensures { IfOk result (λ term. IsNormal term) }
{
    let mut items = List::new(alloc);
    items.push(Term::Int(1))?;
    items.push(Term::Int(-2))?;
    Ok(Term::List(items, Boxed::new(alloc, Term::Pid(0))?))
}

#[tactic(auto, unfolding(erl_term::specs::WellFormed::bits_fit, erl_term::specs::BitString::byte_bits))]
fn three_bits(alloc: Global) -> Result<Bits, NoMemory>
    ensures { IfOk result (λ bits. IsFull bits) }
{
    let mut bytes = List::new(alloc);
    bytes.push(0xA0)?;
    Ok(Bits { length: 3, bytes })
}

fn mapping(alloc: Global) -> Result<Term, NoMemory>
    ensures { IfOk result (λ term. IsNormal term) }
{
    let mut pairs = List::new(alloc);
    let key = listing(alloc)?;
    pairs.push(Pair {
        key,
        value: Term::Bits(three_bits(alloc)?),
    })?;
    Ok(Term::Map(pairs))
}

fn attribute(alloc: Global) -> Result<Attribute, NoMemory> {
    let key = Name::from_text(alloc, "vsn")?;
    Ok(Attribute {
        key,
        value: mapping(alloc)?,
    })
}

#[test]
fn attributes_are_copied(rt: HostRuntime) -> Result<(), Fail> {
    let alloc = rt.alloc();
    let copy: Attribute = Duplicate::copy(&attribute(alloc)?, alloc)?;
    assert!(rt; copy.key.as_str() == "vsn");
    Ok(())
}

#[test]
fn classes_and_bits_are_copied(rt: HostRuntime) -> Result<(), Fail> {
    let alloc = rt.alloc();
    assert_eq!(rt; Duplicate::copy(&Class::Exit, alloc)?, Class::Exit);
    let bits: Bits = Duplicate::copy(&three_bits(alloc)?, alloc)?;
    assert_eq!(rt; bits.length, 3);
    Ok(())
}

#[test]
fn pairs_are_copied(rt: HostRuntime) -> Result<(), Fail> {
    let mut pairs = List::new(rt.alloc());
    pairs.push(Pair {
        key: Term::Int(1),
        value: Term::Port(2),
    })?;
    let copy: List<Pair> = Duplicate::copy(&pairs, rt.alloc())?;
    assert!(rt; copy.len() == 1 && matches!(&copy.as_slice()[0].value, Term::Port(2)));
    Ok(())
}
