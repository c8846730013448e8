//! The builder of kernel form, for passes and tests: expressions and trees from their parts, and chains of them.
ghost use Rattle.std.specs.Prelude.{◌≡◌, [], ◌∷◌, IfOk, map};
ghost use Rattle.kernel_form.specs.Kernel as Plain;
ghost use Rattle.kernel_form.specs.View.{numbers, value_view, simple_view, step_view, case_view, seg_row_view, cases, rows, view, tree_view};

use crate::tree::{Cases, KExpr, SegRows, Tree};
use erl_base::{Boxed, List, NoMemory, VarId};
use kernel_parts::{BinStep, KSimple, KValue, KValues, Vars};
use std::alloc::Global;

pub mod chains;

pub fn var(var: VarId) -> KValue
    ensures { value_view result ≡ Plain.var var.0 }
{
    KValue::Var(var)
}

pub fn one_value(alloc: Global, value: KValue) -> Result<KValues, NoMemory>
    ensures { IfOk result (λ values. map value_view values ≡ value_view value ∷ []) }
{
    let mut values = List::new(alloc);
    values.push(value)?;
    Ok(values)
}

pub fn two_values(alloc: Global, first: KValue, second: KValue) -> Result<KValues, NoMemory>
    ensures { IfOk result (λ values. map value_view values ≡ value_view first ∷ value_view second ∷ []) }
{
    let mut values = List::new(alloc);
    values.push(first)?;
    values.push(second)?;
    Ok(values)
}

pub fn one_var(alloc: Global, var: VarId) -> Result<Vars, NoMemory>
    ensures { IfOk result (λ vars. numbers vars ≡ var.0 ∷ []) }
{
    let mut vars = List::new(alloc);
    vars.push(var)?;
    Ok(vars)
}

/// An expression that gives one value.
pub fn give(alloc: Global, value: KValue) -> Result<KExpr, NoMemory>
    ensures { IfOk result (λ expr. view expr ≡ Plain.values (value_view value ∷ [])) }
{
    Ok(KExpr::Values(one_value(alloc, value)?))
}

pub fn simple(step: KSimple) -> KExpr
    ensures { view result ≡ Plain.simple (simple_view step) }
{
    KExpr::Simple(step)
}

/// The calls below take their parts in boxes, so that they take no memory themselves.
pub fn boxed(alloc: Global, expr: KExpr) -> Result<Boxed<KExpr>, NoMemory>
    ensures { IfOk result (λ kept. kept ≡ expr) }
{
    Boxed::new(alloc, expr)
}

pub fn boxed_tree(alloc: Global, tree: Tree) -> Result<Boxed<Tree>, NoMemory>
    ensures { IfOk result (λ kept. kept ≡ tree) }
{
    Boxed::new(alloc, tree)
}

pub fn let_in(vars: Vars, value: Boxed<KExpr>, body: Boxed<KExpr>) -> KExpr
    ensures { view result ≡ Plain.let_in (numbers vars) (view value) (view body) }
{
    KExpr::Let(vars, value, body)
}

pub fn match_in(tree: Tree) -> KExpr
    ensures { view result ≡ Plain.match_in (tree_view tree) }
{
    KExpr::Match(tree)
}

pub fn try_of(
    tried: Boxed<KExpr>,
    vars: Vars,
    body: Boxed<KExpr>,
    caught: Vars,
    handler: Boxed<KExpr>,
) -> KExpr
    ensures { view result ≡ Plain.try (view tried) (numbers vars) (view body) (numbers caught) (view handler) }
{
    KExpr::Try(tried, vars, body, caught, handler)
}

pub fn catch_of(tried: Boxed<KExpr>) -> KExpr
    ensures { view result ≡ Plain.catch (view tried) }
{
    KExpr::Catch(tried)
}

pub fn receive(
    number: u32,
    message: VarId,
    clauses: Tree,
    timeout: KValue,
    after: Boxed<KExpr>,
) -> KExpr
    ensures { view result ≡ Plain.receive number message.0 (tree_view clauses) (value_view timeout) (view after) }
{
    KExpr::Receive(number, message, clauses, timeout, after)
}

pub fn body(expr: Boxed<KExpr>) -> Tree
    ensures { tree_view result ≡ Plain.body (view expr) }
{
    Tree::Body(expr)
}

pub fn fall(number: u32) -> Tree
    ensures { tree_view result ≡ Plain.fall number }
{
    Tree::Fall(number)
}

pub fn either(number: u32, first: Boxed<Tree>, second: Boxed<Tree>) -> Tree
    ensures { tree_view result ≡ Plain.either_in number (tree_view first) (tree_view second) }
{
    Tree::Either(number, first, second)
}

pub fn switch(var: VarId, list: Cases, last: Boxed<Tree>) -> Tree
    ensures { tree_view result ≡ Plain.switch var.0 (cases (map case_view list)) (tree_view last) }
{
    Tree::Switch(var, list, last)
}

pub fn segments(var: VarId, list: SegRows, last: Boxed<Tree>) -> Tree
    ensures { tree_view result ≡ Plain.segments var.0 (rows (map seg_row_view list)) (tree_view last) }
{
    Tree::Segments(var, list, last)
}

pub fn step(step: BinStep, then: Boxed<Tree>, last: Boxed<Tree>) -> Tree
    ensures { tree_view result ≡ Plain.step (step_view step) (tree_view then) (tree_view last) }
{
    Tree::Step(step, then, last)
}

pub fn guarded(guard: Boxed<KExpr>, then: Boxed<Tree>, last: Boxed<Tree>) -> Tree
    ensures { tree_view result ≡ Plain.guarded (view guard) (tree_view then) (tree_view last) }
{
    Tree::Guarded(guard, then, last)
}
