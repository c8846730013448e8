// Expressions and decision trees. Let chains, the second trees of `Either`, the first ones of `Step` and the trees of
// last cases and rows are as long as a body, so what walks them goes along in a loop.
ghost use Rattle.std.specs.Prelude.{◌≡◌};
ghost use Rattle.kernel_form.specs.Apart.{expr_of, tree_of};
ghost use Rattle.kernel_form.specs.declared.tree.Case.{out-Case};
ghost use Rattle.kernel_form.specs.declared.tree.SegRow.{out-SegRow};

use crate::apart::{ExprParts, TreeParts};
use erl_base::{Boxed, List, VarId, let_go};
use kernel_parts::{BinStep, KPats, KSegs, KSimple, KValue, KValues, Shape, Vars};

/// `Let` has the variables, what gives their values, and the body. `Try` has the tried part, the variables and body for
/// its values, and the variables and body for what it raises. `Receive` has its number, the variable of the message,
/// its clauses, the timeout and the body after it.
#[cycle(tree)]
pub enum KExpr {
    Values(KValues),
    Simple(KSimple),
    Let(Vars, Boxed<KExpr>, Boxed<KExpr>),
    Match(Tree),
    Try(Boxed<KExpr>, Vars, Boxed<KExpr>, Vars, Boxed<KExpr>),
    Catch(Boxed<KExpr>),
    Receive(u32, VarId, Tree, KValue, Boxed<KExpr>),
}

/// A `Fall` goes to the second tree of the nearest `Either` with its number that holds it in the first one. `Switch`,
/// `Segments`, `Step` and `Guarded` have the tree to go on with where they fail as their last part.
#[cycle(tree)]
pub enum Tree {
    Body(Boxed<KExpr>),
    Fall(u32),
    Either(u32, Boxed<Tree>, Boxed<Tree>),
    Switch(VarId, Cases, Boxed<Tree>),
    Segments(VarId, SegRows, Boxed<Tree>),
    Step(BinStep, Boxed<Tree>, Boxed<Tree>),
    Guarded(Boxed<KExpr>, Boxed<Tree>, Boxed<Tree>),
}

/// What a term may have the shape of, and the variables of its parts.
#[cycle(tree)]
#[derive(Drop)]
pub struct Case {
    pub shape: Shape,
    pub parts: Vars,
    pub then: Tree,
}

#[cycle(tree)]
#[derive(Drop)]
pub struct SegRow {
    pub segs: KSegs,
    pub then: Tree,
}

/// A clause before it becomes a part of a tree.
#[derive(Drop)]
pub struct Row {
    pub pats: KPats,
    pub guard: KExpr,
    pub body: KExpr,
}

pub type Cases = List<Case>;

pub type SegRows = List<SegRow>;

pub type Rows = List<Row>;

impl KExpr {
    pub fn into_parts(self) -> ExprParts
        ensures { expr_of result ≡ self }
    {
        match self {
            KExpr::Values(values) => ExprParts::Values(values),
            KExpr::Simple(simple) => ExprParts::Simple(simple),
            KExpr::Let(vars, value, body) => ExprParts::Let(vars, value, body),
            KExpr::Match(tree) => ExprParts::Match(tree),
            KExpr::Try(tried, vars, body, caught, handler) => {
                ExprParts::Try(tried, vars, body, caught, handler)
            }
            KExpr::Catch(body) => ExprParts::Catch(body),
            KExpr::Receive(number, message, clauses, timeout, after) => {
                ExprParts::Receive(number, message, clauses, timeout, after)
            }
        }
    }
}

impl Tree {
    pub fn into_parts(self) -> TreeParts
        ensures { tree_of result ≡ self }
    {
        match self {
            Tree::Body(body) => TreeParts::Body(body),
            Tree::Fall(number) => TreeParts::Fall(number),
            Tree::Either(number, first, second) => TreeParts::Either(number, first, second),
            Tree::Switch(var, cases, last) => TreeParts::Switch(var, cases, last),
            Tree::Segments(var, rows, last) => TreeParts::Segments(var, rows, last),
            Tree::Step(step, then, last) => TreeParts::Step(step, then, last),
            Tree::Guarded(guard, then, last) => TreeParts::Guarded(guard, then, last),
        }
    }
}

impl Case {
    fn into_then(self) -> Tree
        ensures { result ≡ (out-Case self).then }
    {
        let Case { shape, parts, then } = self;
        let_go(shape);
        let_go(parts);
        then
    }
}

impl SegRow {
    fn into_then(self) -> Tree
        ensures { result ≡ (out-SegRow self).then }
    {
        let SegRow { segs, then } = self;
        let_go(segs);
        then
    }
}

impl Drop for KExpr {
    #[cycle(drop)]
    fn drop(mut self) {
        loop {
            match self {
                KExpr::Values(values) => {
                    let_go(values);
                    return;
                }
                KExpr::Simple(simple) => {
                    let_go(simple);
                    return;
                }
                KExpr::Let(vars, value, body) => {
                    let_go(vars);
                    let_go(value);
                    self = body.into_inner();
                }
                KExpr::Match(tree) => {
                    let_go(tree);
                    return;
                }
                KExpr::Try(tried, vars, body, caught, handler) => {
                    let_go(tried);
                    let_go(vars);
                    let_go(body);
                    let_go(caught);
                    let_go(handler);
                    return;
                }
                KExpr::Catch(body) => {
                    let_go(body);
                    return;
                }
                KExpr::Receive(_, _, clauses, timeout, after) => {
                    let_go(clauses);
                    let_go(timeout);
                    let_go(after);
                    return;
                }
            }
        }
    }
}

impl Drop for Tree {
    #[cycle(drop)]
    fn drop(mut self) {
        loop {
            match self {
                Tree::Body(body) => {
                    let_go(body);
                    return;
                }
                Tree::Fall(_) => return,
                Tree::Either(_, first, second) => {
                    let_go(first);
                    self = second.into_inner();
                }
                Tree::Switch(_, mut cases, last) => match cases.pop() {
                    None => {
                        let_go(cases);
                        self = last.into_inner();
                    }
                    Some(case) => {
                        let_go(cases);
                        let_go(last);
                        self = case.into_then();
                    }
                },
                Tree::Segments(_, mut rows, last) => match rows.pop() {
                    None => {
                        let_go(rows);
                        self = last.into_inner();
                    }
                    Some(row) => {
                        let_go(rows);
                        let_go(last);
                        self = row.into_then();
                    }
                },
                Tree::Step(step, then, last) => {
                    let_go(step);
                    let_go(last);
                    self = then.into_inner();
                }
                Tree::Guarded(guard, then, last) => {
                    let_go(guard);
                    let_go(then);
                    let_go(last);
                    return;
                }
            }
        }
    }
}
