// Of kernel_copy: all forms, made by the builders of kernel_form, are copied; long chains need no stack.
use erl_base::{FunKey, List, Name, NoMemory, SiteId, VarId};
use kernel_copy::KernelCopy;
use kernel_form::build::{
    body, boxed, boxed_tree, catch_of, either, fall, give, guarded, let_in, match_in, one_var,
    receive, segments, simple, step, switch, try_of, two_values, var,
};
use kernel_form::{Case, KExpr, KFun, Kernel, Row, SegRow, Tree, TreeParts};
use kernel_parts::{BinStep, KKeyPat, KPat, KPats, KSeg, KSegs, KSimple, Shape};
use std::alloc::Global;
use std::test::Fail;

/// How long a chain is that no stack holds if each part has a frame.
const LONG: u32 = 100000;

fn lets(alloc: Global, count: u32) -> Result<KExpr, NoMemory> {
    let mut expr = give(alloc, var(VarId(0)))?;
    for number in 0..count {
        let vars = one_var(alloc, VarId(number))?;
        let value = boxed(alloc, simple(KSimple::Trace))?;
        expr = let_in(vars, value, boxed(alloc, expr)?);
    }
    Ok(expr)
}

/// Three kinds of nodes in turn, one in the other.
fn nodes(alloc: Global, count: u32) -> Result<Tree, NoMemory> {
    let mut tree = fall(1);
    for number in 0..count {
        tree = around(alloc, number, tree)?;
    }
    Ok(tree)
}

fn around(alloc: Global, number: u32, tree: Tree) -> Result<Tree, NoMemory> {
    match number % 3 {
        0 => second_of(alloc, number, tree),
        1 => first_of(alloc, tree),
        _ => one_case(alloc, tree),
    }
}

fn second_of(alloc: Global, number: u32, tree: Tree) -> Result<Tree, NoMemory> {
    let second = boxed_tree(alloc, tree)?;
    Ok(either(number, boxed_tree(alloc, fall(0))?, second))
}

fn first_of(alloc: Global, tree: Tree) -> Result<Tree, NoMemory> {
    let then = boxed_tree(alloc, tree)?;
    let last = boxed_tree(alloc, fall(0))?;
    Ok(step(BinStep::Done(VarId(0)), then, last))
}

fn one_case(alloc: Global, then: Tree) -> Result<Tree, NoMemory> {
    let mut cases = List::new(alloc);
    let parts = one_var(alloc, VarId(7))?;
    cases.push(Case {
        shape: Shape::Tuple(1),
        parts,
        then,
    })?;
    Ok(switch(VarId(0), cases, boxed_tree(alloc, fall(0))?))
}

fn let_count(expr: &KExpr) -> u32 {
    let mut count = 0u32;
    let mut rest = expr;
    while let KExpr::Let(_, _, body) = rest {
        count = count.saturating_add(1);
        rest = body.get();
    }
    count
}

#[test]
fn long_lets_need_no_stack(rt: HostRuntime) -> Result<(), Fail> {
    let expr = lets(rt.alloc(), LONG)?;
    let copy = expr.copy(rt.alloc())?;
    drop(expr);
    assert_eq!(rt; let_count(&copy), LONG);
    Ok(())
}

#[test]
fn long_trees_need_no_stack(rt: HostRuntime) -> Result<(), Fail> {
    let tree = nodes(rt.alloc(), LONG)?;
    let copy = tree.copy(rt.alloc())?;
    drop(tree);
    assert!(rt; matches!(copy.into_parts(), TreeParts::Either(99999, _, _)));
    Ok(())
}

fn module_of(alloc: Global, expr: KExpr) -> Result<Kernel, NoMemory> {
    let name = Name::from_text(alloc, "f")?;
    let key = FunKey { name, arity: 1 };
    let mut exports = List::new(alloc);
    exports.push(key.copy(alloc)?)?;
    let params = one_var(alloc, VarId(0))?;
    let mut funs = List::new(alloc);
    funs.push(KFun {
        key,
        site: SiteId(0),
        params,
        next: 9,
        body: expr,
    })?;
    Ok(Kernel {
        name: Name::from_text(alloc, "m")?,
        exports,
        attributes: List::new(alloc),
        funs,
    })
}

fn copied_module(alloc: Global) -> Result<Kernel, NoMemory> {
    let tree = nodes(alloc, 4)?;
    module_of(alloc, match_in(tree))?.copy(alloc)
}

fn is_module(copy: &Kernel) -> bool {
    match copy.funs.as_slice() {
        [fun] => {
            matches!(&fun.body, KExpr::Match(Tree::Either(3, _, _)))
                && copy.name.as_str() == "m"
                && copy.exports.len() == 1
        }
        _ => false,
    }
}

#[test]
fn modules_are_copied(rt: HostRuntime) -> Result<(), Fail> {
    let copy = copied_module(rt.alloc())?;
    assert!(rt; is_module(&copy));
    Ok(())
}

fn segs(alloc: Global) -> Result<KSegs, NoMemory> {
    let mut segs = List::new(alloc);
    segs.push(KSeg {
        value: KPat::Var(VarId(5)),
        size: var(VarId(6)),
        unit: 1,
        signed: true,
        little: false,
        whole: true,
        binary: false,
    })?;
    Ok(segs)
}

fn keyed(alloc: Global) -> Result<KPats, NoMemory> {
    let mut keys = List::new(alloc);
    let pat = KPat::Bits(segs(alloc)?);
    keys.push(KKeyPat {
        key: var(VarId(1)),
        pat,
    })?;
    let mut pats = List::new(alloc);
    pats.push(KPat::Map(keys))?;
    Ok(pats)
}

fn row_of(alloc: Global) -> Result<Row, NoMemory> {
    let pats = keyed(alloc)?;
    let guard = give(alloc, var(VarId(1)))?;
    let body = KExpr::Values(two_values(alloc, var(VarId(1)), var(VarId(2)))?);
    Ok(Row { pats, guard, body })
}

fn are_segs(segs: &KSegs) -> bool {
    match segs.as_slice() {
        [seg] => seg.signed && seg.whole && matches!(&seg.value, KPat::Var(VarId(5))),
        _ => false,
    }
}

fn is_keyed(pat: &KPat) -> bool {
    match pat {
        KPat::Map(keys) => match keys.as_slice() {
            [key] => matches!(&key.pat, KPat::Bits(segs) if are_segs(segs)),
            _ => false,
        },
        _ => false,
    }
}

fn is_row(row: &Row) -> bool {
    match row.pats.as_slice() {
        [pat] => is_keyed(pat) && matches!(&row.body, KExpr::Values(values) if values.len() == 2),
        _ => false,
    }
}

#[test]
fn clauses_are_copied(rt: HostRuntime) -> Result<(), Fail> {
    let copy = row_of(rt.alloc())?.copy(rt.alloc())?;
    assert!(rt; is_row(&copy));
    Ok(())
}

#[test]
fn cases_are_copied(rt: HostRuntime) -> Result<(), Fail> {
    let alloc = rt.alloc();
    let parts = one_var(alloc, VarId(7))?;
    let case = Case {
        shape: Shape::Tuple(1),
        parts,
        then: fall(3),
    };
    let copy = case.copy(alloc)?;
    assert!(rt; matches!(&copy.then, Tree::Fall(3)));
    Ok(())
}

#[test]
fn rows_are_copied(rt: HostRuntime) -> Result<(), Fail> {
    let segs = segs(rt.alloc())?;
    let row = SegRow {
        segs,
        then: fall(4),
    };
    let copy = row.copy(rt.alloc())?;
    assert!(rt; are_segs(&copy.segs));
    Ok(())
}

// One expression of each form but lets and matches, one in the other.
fn tried(alloc: Global) -> Result<KExpr, NoMemory> {
    let tried = boxed(alloc, catch_of(boxed(alloc, simple(KSimple::Trace))?))?;
    let body = boxed(alloc, give(alloc, var(VarId(1)))?)?;
    let handler = boxed(alloc, waiting(alloc)?)?;
    Ok(try_of(
        tried,
        one_var(alloc, VarId(1))?,
        body,
        one_var(alloc, VarId(2))?,
        handler,
    ))
}

fn waiting(alloc: Global) -> Result<KExpr, NoMemory> {
    let after = boxed(alloc, give(alloc, var(VarId(3)))?)?;
    Ok(receive(6, VarId(3), guarding(alloc)?, var(VarId(4)), after))
}

// A tree of each form that the chains above lack.
fn guarding(alloc: Global) -> Result<Tree, NoMemory> {
    let guard = boxed(alloc, give(alloc, var(VarId(3)))?)?;
    let then = boxed_tree(alloc, body(boxed(alloc, give(alloc, var(VarId(5)))?)?))?;
    Ok(guarded(guard, then, boxed_tree(alloc, one_row(alloc)?)?))
}

fn one_row(alloc: Global) -> Result<Tree, NoMemory> {
    let mut rows = List::new(alloc);
    let segs = segs(alloc)?;
    rows.push(SegRow {
        segs,
        then: fall(4),
    })?;
    Ok(segments(VarId(3), rows, boxed_tree(alloc, fall(0))?))
}

fn is_tried(expr: &KExpr) -> bool {
    match expr {
        KExpr::Try(tried, _, _, caught, handler) => {
            matches!(tried.get(), KExpr::Catch(_)) && caught.len() == 1 && is_waiting(handler.get())
        }
        _ => false,
    }
}

#[test]
fn all_forms_are_copied(rt: HostRuntime) -> Result<(), Fail> {
    let copy = tried(rt.alloc())?.copy(rt.alloc())?;
    assert!(rt; is_tried(&copy));
    Ok(())
}

fn is_waiting(expr: &KExpr) -> bool {
    match expr {
        KExpr::Receive(6, VarId(3), Tree::Guarded(_, then, last), _, _) => {
            matches!(then.get(), Tree::Body(_)) && matches!(last.get(), Tree::Segments(_, _, _))
        }
        _ => false,
    }
}
