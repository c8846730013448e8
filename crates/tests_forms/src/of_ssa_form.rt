// Of ssa_form: blocks get their numbers, sets are read in their order, and what a block holds is copied.
ghost use Rattle.std.specs.Prelude.{Contains, IfOk};
ghost use Rattle.ssa_form.specs.SetOrder.{IsWhole, nodes_of};

use bif_table::Bif;
use erl_base::{BlockId, Duplicate, FunKey, List, Name, NoMemory, NodeId, SiteId, VarId};
use erl_term::Term;
use ssa_form::{Arg, Args, Body, Check, Edges, Field, Fields, Last, Op, Phi, Set, SwitchChoices};
use std::alloc::Global;
use std::test::Fail;

fn set(alloc: Global, dst: u32, op: Op, var: u32) -> Result<Set, NoMemory> {
    let mut args: Args = Args::new(alloc);
    args.push(Arg::Var(VarId(var)))?;
    Ok(Set {
        dst: Some(VarId(dst)),
        op,
        args,
    })
}

fn two_sets(alloc: Global) -> Result<List<Set>, NoMemory> {
    let mut sets: List<Set> = List::new(alloc);
    sets.push(set(alloc, 1, Op::Bif(Bif::Hd), 0)?)?;
    sets.push(set(alloc, 2, Op::Copy, 1)?)?;
    Ok(sets)
}

fn empty_body(alloc: Global) -> Result<Body, NoMemory>
    ensures { IfOk result (λ body. IsWhole body) }
{
    let name = Name::from_text(alloc, "first")?;
    let key = FunKey { name, arity: 1 };
    Ok(Body::new(alloc, key, SiteId(0), List::new(alloc)))
}

fn destination(body: &Body, block: BlockId, node: NodeId) -> Option<VarId>
    requires whole { IsWhole body.now }
    requires there { Contains (nodes_of body.now block.0) node }
{
    body.set(node).dst
}

#[test]
fn sets_are_read_in_their_order(rt: HostRuntime) -> Result<(), Fail> {
    let alloc = rt.alloc();
    let mut body = empty_body(alloc)?;
    let sets = two_sets(alloc)?;
    let block = body.add_block(alloc, List::new(alloc), sets, Last::Ret(Arg::Var(VarId(2))))?;
    assert_eq!(rt; block, BlockId(0));
    let first = body.first_set(block);
    assert_eq!(rt; first, Some(NodeId(0)));
    if let Some(node) = first {
        assert_eq!(rt; destination(&body, block, node), Some(VarId(1)));
        let second = body.next_set(block, node);
        assert_eq!(rt; second, Some(NodeId(1)));
        if let Some(node) = second {
            assert_eq!(rt; destination(&body, block, node), Some(VarId(2)));
            assert_eq!(rt; body.next_set(block, node), None);
        }
    }
    Ok(())
}

#[test]
fn a_block_after_another(rt: HostRuntime) -> Result<(), Fail> {
    let alloc = rt.alloc();
    let mut body = empty_body(alloc)?;
    let sets = two_sets(alloc)?;
    body.add_block(alloc, List::new(alloc), sets, Last::Ret(Arg::Var(VarId(2))))?;
    let sets = two_sets(alloc)?;
    let block = body.add_block(alloc, List::new(alloc), sets, Last::Ret(Arg::Var(VarId(2))))?;
    assert_eq!(rt; block, BlockId(1));
    assert_eq!(rt; body.first_set(block), Some(NodeId(2)));
    Ok(())
}

#[test]
fn copies_of_operands(rt: HostRuntime) -> Result<(), Fail> {
    let alloc = rt.alloc();
    let var = Arg::Var(VarId(7)).copy(alloc)?;
    assert!(rt; matches!(var, Arg::Var(VarId(7))));
    let literal: Arg = Duplicate::copy(&Arg::Lit(Term::Nil), alloc)?;
    assert!(rt; matches!(&literal, Arg::Lit(Term::Nil)));
    Ok(())
}

fn are_five(args: &[Arg]) -> bool {
    match args {
        [Arg::Var(VarId(0)), _, _, _, Arg::Var(VarId(4))] => true,
        _ => false,
    }
}

// The fifth operand no longer stands in the list itself.
#[test]
fn copies_of_five_operands(rt: HostRuntime) -> Result<(), Fail> {
    let alloc = rt.alloc();
    let mut args: Args = Args::new(alloc);
    for var in 0..5u32 {
        args.push(Arg::Var(VarId(var)))?;
    }
    let copy: Args = Duplicate::copy(&args, alloc)?;
    assert!(rt; are_five(copy.as_slice()));
    Ok(())
}

fn is_checking(set: &Set) -> bool {
    set.dst == Some(VarId(1))
        && matches!(&set.op, Op::Check(Check::IsTaggedTuple(5, _)))
        && matches!(set.args.as_slice().first(), Some(Arg::Var(VarId(0))))
}

#[test]
fn copies_of_sets(rt: HostRuntime) -> Result<(), Fail> {
    let alloc = rt.alloc();
    let name = Name::from_text(alloc, "DOWN")?;
    let checking = set(alloc, 1, Op::Check(Check::IsTaggedTuple(5, name)), 0)?;
    let copy: Set = Duplicate::copy(&checking, alloc)?;
    assert!(rt; is_checking(&copy));
    Ok(())
}

#[test]
fn copies_of_checks(rt: HostRuntime) -> Result<(), Fail> {
    let alloc = rt.alloc();
    let copy = Check::TestArity(3).copy(alloc)?;
    assert!(rt; matches!(copy, Check::TestArity(3)));
    Ok(())
}

fn builds(op: &Op, field: Field) -> bool {
    match op {
        Op::BsCreate(fields) => fields.as_slice().first().copied() == Some(field),
        _ => false,
    }
}

#[test]
fn copies_of_fields(rt: HostRuntime) -> Result<(), Fail> {
    let alloc = rt.alloc();
    let field = Field {
        unit: 8,
        signed: false,
        little: false,
        whole: false,
        binary: true,
    };
    let same: Field = Duplicate::copy(&field, alloc)?;
    assert_eq!(rt; same, field);
    let mut fields: Fields = List::new(alloc);
    fields.push(field)?;
    let made = Op::BsCreate(fields).copy(alloc)?;
    assert!(rt; builds(&made, field));
    Ok(())
}

fn is_phi(phi: &Phi) -> bool {
    phi.dst == VarId(4)
        && matches!(
            phi.from.as_slice().first(),
            Some((BlockId(3), Arg::Lit(Term::Nil)))
        )
}

#[test]
fn copies_of_phis(rt: HostRuntime) -> Result<(), Fail> {
    let alloc = rt.alloc();
    let mut from: Edges = List::new(alloc);
    from.push((BlockId(3), Arg::Lit(Term::Nil)))?;
    let phi = Phi {
        dst: VarId(4),
        from,
    };
    let copy: Phi = Duplicate::copy(&phi, alloc)?;
    assert!(rt; is_phi(&copy));
    Ok(())
}

fn is_switch(last: &Last) -> bool {
    match last {
        Last::Switch(Arg::Var(VarId(5)), BlockId(1), choices) => {
            matches!(choices.as_slice().first(), Some((Term::Nil, BlockId(2))))
        }
        _ => false,
    }
}

#[test]
fn copies_of_lasts(rt: HostRuntime) -> Result<(), Fail> {
    let alloc = rt.alloc();
    let mut choices: SwitchChoices = List::new(alloc);
    choices.push((Term::Nil, BlockId(2)))?;
    let last = Last::Switch(Arg::Var(VarId(5)), BlockId(1), choices);
    let copy: Last = Duplicate::copy(&last, alloc)?;
    assert!(rt; is_switch(&copy));
    Ok(())
}
