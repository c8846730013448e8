// Expressions and trees, one function for each form, and their lists with one more item.
ghost use Rattle.std.specs.Prelude.{◌≡◌, ◌++◌, [], ◌∷◌, IfOk, IsOkAnd};
ghost use Rattle.kernel_form.specs.declared.tree.KExpr.TheVariants as E;
ghost use Rattle.kernel_form.specs.declared.tree.Tree.TheVariants as T;
ghost use Rattle.kernel_form.specs.declared.tree.Case.{roll-Case};
ghost use Rattle.kernel_form.specs.declared.tree.SegRow.{roll-SegRow};

use erl_base::{Boxed, NoMemory, VarId, both, three};
use kernel_form::{Case, Cases, KExpr, SegRow, SegRows, Tree};
use kernel_parts::{BinStep, KSegs, KSimple, KValue, KValues, Shape, Vars};
use std::alloc::Global;

pub fn values(alloc: Global, values: Result<KValues, NoMemory>) -> Result<Boxed<KExpr>, NoMemory>
    ensures { IfOk result (λ made. IsOkAnd values (λ vs. made ≡ E.Values vs)) }
{
    Boxed::new(alloc, KExpr::Values(values?))
}

pub fn simple(alloc: Global, simple: Result<KSimple, NoMemory>) -> Result<Boxed<KExpr>, NoMemory>
    ensures { IfOk result (λ made. IsOkAnd simple (λ s. made ≡ E.Simple s)) }
{
    Boxed::new(alloc, KExpr::Simple(simple?))
}

pub fn let_in(
    alloc: Global,
    vars: Result<Vars, NoMemory>,
    value: Result<Boxed<KExpr>, NoMemory>,
    body: Result<Boxed<KExpr>, NoMemory>,
) -> Result<Boxed<KExpr>, NoMemory>
    ensures { IfOk result (λ made. IsOkAnd vars (λ xs. IsOkAnd value (λ v. IsOkAnd body (λ b. made ≡ E.Let xs v b)))) }
{
    let (vars, value, body) = three(vars, value, body)?;
    Boxed::new(alloc, KExpr::Let(vars, value, body))
}

pub fn match_in(
    alloc: Global,
    tree: Result<Boxed<Tree>, NoMemory>,
) -> Result<Boxed<KExpr>, NoMemory>
    ensures { IfOk result (λ made. IsOkAnd tree (λ t. made ≡ E.Match t)) }
{
    Boxed::new(alloc, KExpr::Match(tree?.into_inner()))
}

pub fn try_of(
    alloc: Global,
    tried: Result<Boxed<KExpr>, NoMemory>,
    vars: Result<Vars, NoMemory>,
    body: Result<Boxed<KExpr>, NoMemory>,
    caught: Result<Vars, NoMemory>,
    handler: Result<Boxed<KExpr>, NoMemory>,
) -> Result<Boxed<KExpr>, NoMemory>
    ensures { IfOk result (λ made. IsOkAnd tried (λ t. IsOkAnd vars (λ xs. IsOkAnd body (λ b. IsOkAnd caught (λ ys.
        IsOkAnd handler (λ h. made ≡ E.Try t xs b ys h)))))) }
{
    let (vars, caught) = both(vars, caught)?;
    let (tried, body, handler) = three(tried, body, handler)?;
    Boxed::new(alloc, KExpr::Try(tried, vars, body, caught, handler))
}

pub fn catch_of(
    alloc: Global,
    body: Result<Boxed<KExpr>, NoMemory>,
) -> Result<Boxed<KExpr>, NoMemory>
    ensures { IfOk result (λ made. IsOkAnd body (λ b. made ≡ E.Catch b)) }
{
    Boxed::new(alloc, KExpr::Catch(body?))
}

pub fn receive(
    alloc: Global,
    number: u32,
    message: VarId,
    clauses: Result<Boxed<Tree>, NoMemory>,
    timeout: Result<KValue, NoMemory>,
    after: Result<Boxed<KExpr>, NoMemory>,
) -> Result<Boxed<KExpr>, NoMemory>
    ensures { IfOk result (λ made. IsOkAnd clauses (λ t. IsOkAnd timeout (λ v. IsOkAnd after (λ b.
        made ≡ E.Receive number message t v b)))) }
{
    let (clauses, timeout, after) = three(clauses, timeout, after)?;
    let clauses = clauses.into_inner();
    Boxed::new(
        alloc,
        KExpr::Receive(number, message, clauses, timeout, after),
    )
}

pub fn body(alloc: Global, body: Result<Boxed<KExpr>, NoMemory>) -> Result<Boxed<Tree>, NoMemory>
    ensures { IfOk result (λ made. IsOkAnd body (λ b. made ≡ T.Body b)) }
{
    Boxed::new(alloc, Tree::Body(body?))
}

pub fn fall(alloc: Global, number: u32) -> Result<Boxed<Tree>, NoMemory>
    ensures { IfOk result (λ made. made ≡ T.Fall number) }
{
    Boxed::new(alloc, Tree::Fall(number))
}

pub fn either(
    alloc: Global,
    number: u32,
    first: Result<Boxed<Tree>, NoMemory>,
    second: Result<Boxed<Tree>, NoMemory>,
) -> Result<Boxed<Tree>, NoMemory>
    ensures { IfOk result (λ made. IsOkAnd first (λ f. IsOkAnd second (λ s. made ≡ T.Either number f s))) }
{
    let (first, second) = both(first, second)?;
    Boxed::new(alloc, Tree::Either(number, first, second))
}

pub fn switch(
    alloc: Global,
    var: VarId,
    cases: Result<Cases, NoMemory>,
    last: Result<Boxed<Tree>, NoMemory>,
) -> Result<Boxed<Tree>, NoMemory>
    ensures { IfOk result (λ made. IsOkAnd cases (λ cs. IsOkAnd last (λ l. made ≡ T.Switch var cs l))) }
{
    let (cases, last) = both(cases, last)?;
    Boxed::new(alloc, Tree::Switch(var, cases, last))
}

pub fn segments(
    alloc: Global,
    var: VarId,
    rows: Result<SegRows, NoMemory>,
    last: Result<Boxed<Tree>, NoMemory>,
) -> Result<Boxed<Tree>, NoMemory>
    ensures { IfOk result (λ made. IsOkAnd rows (λ rs. IsOkAnd last (λ l. made ≡ T.Segments var rs l))) }
{
    let (rows, last) = both(rows, last)?;
    Boxed::new(alloc, Tree::Segments(var, rows, last))
}

pub fn step(
    alloc: Global,
    step: Result<BinStep, NoMemory>,
    then: Result<Boxed<Tree>, NoMemory>,
    last: Result<Boxed<Tree>, NoMemory>,
) -> Result<Boxed<Tree>, NoMemory>
    ensures { IfOk result (λ made. IsOkAnd step (λ z. IsOkAnd then (λ t. IsOkAnd last (λ l. made ≡ T.Step z t l)))) }
{
    let (step, then, last) = three(step, then, last)?;
    Boxed::new(alloc, Tree::Step(step, then, last))
}

pub fn guarded(
    alloc: Global,
    guard: Result<Boxed<KExpr>, NoMemory>,
    then: Result<Boxed<Tree>, NoMemory>,
    last: Result<Boxed<Tree>, NoMemory>,
) -> Result<Boxed<Tree>, NoMemory>
    ensures { IfOk result (λ made. IsOkAnd guard (λ g. IsOkAnd then (λ t. IsOkAnd last (λ l.
        made ≡ T.Guarded g t l)))) }
{
    let (guard, then, last) = three(guard, then, last)?;
    Boxed::new(alloc, Tree::Guarded(guard, then, last))
}

pub fn and_case(
    cases: Result<Cases, NoMemory>,
    shape: Result<Shape, NoMemory>,
    parts: Result<Vars, NoMemory>,
    then: Result<Boxed<Tree>, NoMemory>,
) -> Result<Cases, NoMemory>
    ensures { IfOk result (λ more. IsOkAnd cases (λ cs. IsOkAnd shape (λ h. IsOkAnd parts (λ xs. IsOkAnd then (λ t.
        more ≡ cs ++ roll-Case (record { shape = h; parts = xs; then = t }) ∷ []))))) }
{
    let (shape, parts, then) = three(shape, parts, then)?;
    let mut cases = cases?;
    let then = then.into_inner();
    cases.push(Case { shape, parts, then })?;
    Ok(cases)
}

pub fn and_row(
    rows: Result<SegRows, NoMemory>,
    segs: Result<KSegs, NoMemory>,
    then: Result<Boxed<Tree>, NoMemory>,
) -> Result<SegRows, NoMemory>
    ensures { IfOk result (λ more. IsOkAnd rows (λ rs. IsOkAnd segs (λ ss. IsOkAnd then (λ t.
        more ≡ rs ++ roll-SegRow (record { segs = ss; then = t }) ∷ [])))) }
{
    let (mut rows, segs, then) = three(rows, segs, then)?;
    let then = then.into_inner();
    rows.push(SegRow { segs, then })?;
    Ok(rows)
}
