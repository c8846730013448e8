// Copies of expressions and trees. Each goes along its chain in a loop and keeps what it passes in a list, so that it
// needs stack only for what is nested in the text. The functions that call each other put nothing together and let
// nothing go.
ghost use Rattle.std.specs.Prelude.{◌≡◌, IfOk};

use crate::{chains, nodes};
use erl_base::{Boxed, Duplicate, List, NoMemory};
use kernel_form::{Case, Cases, KExpr, SegRow, SegRows, Tree};
use std::alloc::Global;

#[cycle(copy)]
pub fn copy_expr(expr: &KExpr, alloc: Global) -> Result<Boxed<KExpr>, NoMemory>
    ensures { IfOk result (λ copy. copy ≡ expr.now) }
{
    let mut lets = Ok(List::new(alloc));
    let mut rest = expr;
    while let KExpr::Let(vars, value, body) = rest {
        let value = copy_boxed(value, alloc);
        lets = chains::and_let(lets, vars.copy(alloc), value);
        rest = body.get();
    }
    chains::put_in_lets(alloc, lets, copy_form(rest, alloc))
}

// By the form alone, also where a let goes on with one.
#[cycle(copy)]
fn copy_form(expr: &KExpr, alloc: Global) -> Result<Boxed<KExpr>, NoMemory>
    ensures { IfOk result (λ copy. copy ≡ expr.now) }
{
    match expr {
        KExpr::Values(values) => nodes::values(alloc, values.copy(alloc)),
        KExpr::Simple(simple) => nodes::simple(alloc, simple.copy(alloc)),
        KExpr::Let(vars, value, body) => {
            let value = copy_boxed(value, alloc);
            nodes::let_in(alloc, vars.copy(alloc), value, copy_boxed(body, alloc))
        }
        KExpr::Match(tree) => nodes::match_in(alloc, copy_tree(tree, alloc)),
        KExpr::Try(tried, vars, body, caught, handler) => {
            let tried = copy_boxed(tried, alloc);
            let body = copy_boxed(body, alloc);
            let handler = copy_boxed(handler, alloc);
            nodes::try_of(
                alloc,
                tried,
                vars.copy(alloc),
                body,
                caught.copy(alloc),
                handler,
            )
        }
        KExpr::Catch(body) => nodes::catch_of(alloc, copy_boxed(body, alloc)),
        KExpr::Receive(number, message, clauses, timeout, after) => {
            let clauses = copy_tree(clauses, alloc);
            let after = copy_boxed(after, alloc);
            nodes::receive(
                alloc,
                *number,
                *message,
                clauses,
                timeout.copy(alloc),
                after,
            )
        }
    }
}

#[cycle(copy)]
pub fn copy_tree(tree: &Tree, alloc: Global) -> Result<Boxed<Tree>, NoMemory>
    ensures { IfOk result (λ copy. copy ≡ tree.now) }
{
    let mut passed = Ok(List::new(alloc));
    let mut rest = tree;
    loop {
        match rest {
            Tree::Either(number, first, second) => {
                passed = chains::and_either(passed, *number, copy_boxed_tree(first, alloc));
                rest = second.get();
            }
            Tree::Step(step, then, last) => {
                let last = copy_boxed_tree(last, alloc);
                passed = chains::and_step(passed, step.copy(alloc), last);
                rest = then.get();
            }
            Tree::Switch(var, cases, last) => match cases.as_slice().split_last() {
                None => return chains::put_in_nodes(alloc, passed, copy_node(rest, alloc)),
                Some((case, before)) => {
                    let before = copy_cases(before, alloc);
                    let last = copy_boxed_tree(last, alloc);
                    let parts = case.parts.copy(alloc);
                    let shape = case.shape.copy(alloc);
                    passed = chains::and_switch(passed, *var, before, shape, parts, last);
                    rest = &case.then;
                }
            },
            Tree::Segments(var, rows, last) => match rows.as_slice().split_last() {
                None => return chains::put_in_nodes(alloc, passed, copy_node(rest, alloc)),
                Some((row, before)) => {
                    let before = copy_rows(before, alloc);
                    let last = copy_boxed_tree(last, alloc);
                    passed = chains::and_segments(passed, *var, before, row.segs.copy(alloc), last);
                    rest = &row.then;
                }
            },
            _ => return chains::put_in_nodes(alloc, passed, copy_node(rest, alloc)),
        }
    }
}

// By the form alone, also where the chain goes on.
#[cycle(copy)]
fn copy_node(tree: &Tree, alloc: Global) -> Result<Boxed<Tree>, NoMemory>
    ensures { IfOk result (λ copy. copy ≡ tree.now) }
{
    match tree {
        Tree::Body(body) => nodes::body(alloc, copy_boxed(body, alloc)),
        Tree::Fall(number) => nodes::fall(alloc, *number),
        Tree::Either(number, first, second) => {
            let first = copy_boxed_tree(first, alloc);
            nodes::either(alloc, *number, first, copy_boxed_tree(second, alloc))
        }
        Tree::Switch(var, cases, last) => {
            let cases = copy_cases(cases.as_slice(), alloc);
            nodes::switch(alloc, *var, cases, copy_boxed_tree(last, alloc))
        }
        Tree::Segments(var, rows, last) => {
            let rows = copy_rows(rows.as_slice(), alloc);
            nodes::segments(alloc, *var, rows, copy_boxed_tree(last, alloc))
        }
        Tree::Step(step, then, last) => {
            let then = copy_boxed_tree(then, alloc);
            nodes::step(alloc, step.copy(alloc), then, copy_boxed_tree(last, alloc))
        }
        Tree::Guarded(guard, then, last) => {
            let guard = copy_boxed(guard, alloc);
            let then = copy_boxed_tree(then, alloc);
            nodes::guarded(alloc, guard, then, copy_boxed_tree(last, alloc))
        }
    }
}

/// A box is passed on as it is: the proof of a call grows with what it is passed.
#[cycle(copy)]
fn copy_boxed(expr: &Boxed<KExpr>, alloc: Global) -> Result<Boxed<KExpr>, NoMemory>
    ensures { IfOk result (λ copy. copy ≡ expr.now) }
{
    copy_expr(expr.get(), alloc)
}

#[cycle(copy)]
fn copy_boxed_tree(tree: &Boxed<Tree>, alloc: Global) -> Result<Boxed<Tree>, NoMemory>
    ensures { IfOk result (λ copy. copy ≡ tree.now) }
{
    copy_tree(tree.get(), alloc)
}

#[cycle(copy)]
fn copy_cases(cases: &[Case], alloc: Global) -> Result<Cases, NoMemory>
    ensures { IfOk result (λ copy. copy ≡ cases.now) }
{
    let mut copy = Ok(List::new(alloc));
    for case in cases {
        let then = copy_tree(&case.then, alloc);
        copy = nodes::and_case(copy, case.shape.copy(alloc), case.parts.copy(alloc), then);
    }
    copy
}

#[cycle(copy)]
fn copy_rows(rows: &[SegRow], alloc: Global) -> Result<SegRows, NoMemory>
    ensures { IfOk result (λ copy. copy ≡ rows.now) }
{
    let mut copy = Ok(List::new(alloc));
    for row in rows {
        let then = copy_tree(&row.then, alloc);
        copy = nodes::and_row(copy, row.segs.copy(alloc), then);
    }
    copy
}
