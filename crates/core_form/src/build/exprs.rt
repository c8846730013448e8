// Expressions, one function for each form.
ghost use Rattle.std.specs.Prelude.{◌≡◌, IfOk, IsOkAnd, None, Some};
ghost use Rattle.core_form.specs.declared.tree.ExprForm.TheVariants as form;

use crate::{Binders, Clauses, Defs, Expr, ExprForm, Exprs, MapParts, Segments};
use erl_base::{Boxed, FunKey, Name, NoMemory, Place, both, three};
use erl_term::Term;
use std::alloc::Global;

pub fn values(
    alloc: Global,
    place: Place,
    items: Result<Exprs, NoMemory>,
) -> Result<Boxed<Expr>, NoMemory>
    ensures { IfOk result (λ made. IsOkAnd items (λ xs. made ≡ record { place = place; form = form.Values xs })) }
{
    boxed(alloc, place, ExprForm::Values(items?))
}

pub fn var(
    alloc: Global,
    place: Place,
    name: Result<Name, NoMemory>,
) -> Result<Boxed<Expr>, NoMemory>
    ensures { IfOk result (λ made. IsOkAnd name (λ n. made ≡ record { place = place; form = form.Var n })) }
{
    boxed(alloc, place, ExprForm::Var(name?))
}

pub fn fun_name(
    alloc: Global,
    place: Place,
    key: Result<FunKey, NoMemory>,
) -> Result<Boxed<Expr>, NoMemory>
    ensures { IfOk result (λ made. IsOkAnd key (λ k. made ≡ record { place = place; form = form.FunName k })) }
{
    boxed(alloc, place, ExprForm::FunName(key?))
}

pub fn literal(
    alloc: Global,
    place: Place,
    term: Result<Term, NoMemory>,
) -> Result<Boxed<Expr>, NoMemory>
    ensures { IfOk result (λ made. IsOkAnd term (λ t. made ≡ record { place = place; form = form.Literal t })) }
{
    boxed(alloc, place, ExprForm::Literal(term?))
}

pub fn list(
    alloc: Global,
    place: Place,
    items: Result<Exprs, NoMemory>,
    tail: Result<Boxed<Expr>, NoMemory>,
) -> Result<Boxed<Expr>, NoMemory>
    ensures { IfOk result (λ made. IsOkAnd items (λ xs. IsOkAnd tail (λ t.
        made ≡ record { place = place; form = form.List xs t }))) }
{
    let (items, tail) = both(items, tail)?;
    boxed(alloc, place, ExprForm::List(items, tail))
}

pub fn tuple(
    alloc: Global,
    place: Place,
    items: Result<Exprs, NoMemory>,
) -> Result<Boxed<Expr>, NoMemory>
    ensures { IfOk result (λ made. IsOkAnd items (λ xs. made ≡ record { place = place; form = form.Tuple xs })) }
{
    boxed(alloc, place, ExprForm::Tuple(items?))
}

pub fn map(
    alloc: Global,
    place: Place,
    pairs: Result<MapParts, NoMemory>,
) -> Result<Boxed<Expr>, NoMemory>
    ensures { IfOk result (λ made. IsOkAnd pairs (λ ps. made ≡ record { place = place; form = form.Map ps None })) }
{
    boxed(alloc, place, ExprForm::Map(pairs?, None))
}

pub fn updated_map(
    alloc: Global,
    place: Place,
    pairs: Result<MapParts, NoMemory>,
    base: Result<Boxed<Expr>, NoMemory>,
) -> Result<Boxed<Expr>, NoMemory>
    ensures { IfOk result (λ made. IsOkAnd pairs (λ ps. IsOkAnd base (λ b.
        made ≡ record { place = place; form = form.Map ps (Some b) }))) }
{
    let (pairs, base) = both(pairs, base)?;
    boxed(alloc, place, ExprForm::Map(pairs, Some(base)))
}

pub fn binary(
    alloc: Global,
    place: Place,
    segments: Result<Segments, NoMemory>,
) -> Result<Boxed<Expr>, NoMemory>
    ensures { IfOk result (λ made. IsOkAnd segments (λ ss. made ≡ record { place = place; form = form.Binary ss })) }
{
    boxed(alloc, place, ExprForm::Binary(segments?))
}

pub fn fun(
    alloc: Global,
    place: Place,
    params: Result<Binders, NoMemory>,
    body: Result<Boxed<Expr>, NoMemory>,
) -> Result<Boxed<Expr>, NoMemory>
    ensures { IfOk result (λ made. IsOkAnd params (λ ps. IsOkAnd body (λ b.
        made ≡ record { place = place; form = form.Fun ps b }))) }
{
    let (params, body) = both(params, body)?;
    boxed(alloc, place, ExprForm::Fun(params, body))
}

pub fn let_in(
    alloc: Global,
    place: Place,
    vars: Result<Binders, NoMemory>,
    value: Result<Boxed<Expr>, NoMemory>,
    body: Result<Boxed<Expr>, NoMemory>,
) -> Result<Boxed<Expr>, NoMemory>
    ensures { IfOk result (λ made. IsOkAnd vars (λ vs. IsOkAnd value (λ v. IsOkAnd body (λ b.
        made ≡ record { place = place; form = form.Let vs v b })))) }
{
    let (vars, value, body) = three(vars, value, body)?;
    boxed(alloc, place, ExprForm::Let(vars, value, body))
}

pub fn letrec(
    alloc: Global,
    place: Place,
    defs: Result<Defs, NoMemory>,
    body: Result<Boxed<Expr>, NoMemory>,
) -> Result<Boxed<Expr>, NoMemory>
    ensures { IfOk result (λ made. IsOkAnd defs (λ ds. IsOkAnd body (λ b.
        made ≡ record { place = place; form = form.Letrec ds b }))) }
{
    let (defs, body) = both(defs, body)?;
    boxed(alloc, place, ExprForm::Letrec(defs, body))
}

pub fn case(
    alloc: Global,
    place: Place,
    subject: Result<Boxed<Expr>, NoMemory>,
    clauses: Result<Clauses, NoMemory>,
) -> Result<Boxed<Expr>, NoMemory>
    ensures { IfOk result (λ made. IsOkAnd subject (λ s. IsOkAnd clauses (λ cs.
        made ≡ record { place = place; form = form.Case s cs }))) }
{
    let (subject, clauses) = both(subject, clauses)?;
    boxed(alloc, place, ExprForm::Case(subject, clauses))
}

pub fn apply(
    alloc: Global,
    place: Place,
    function: Result<Boxed<Expr>, NoMemory>,
    arguments: Result<Exprs, NoMemory>,
) -> Result<Boxed<Expr>, NoMemory>
    ensures { IfOk result (λ made. IsOkAnd function (λ f. IsOkAnd arguments (λ xs.
        made ≡ record { place = place; form = form.Apply f xs }))) }
{
    let (function, arguments) = both(function, arguments)?;
    boxed(alloc, place, ExprForm::Apply(function, arguments))
}

pub fn call(
    alloc: Global,
    place: Place,
    remote: Result<Boxed<Expr>, NoMemory>,
    function: Result<Boxed<Expr>, NoMemory>,
    arguments: Result<Exprs, NoMemory>,
) -> Result<Boxed<Expr>, NoMemory>
    ensures { IfOk result (λ made. IsOkAnd remote (λ r. IsOkAnd function (λ f. IsOkAnd arguments (λ xs.
        made ≡ record { place = place; form = form.Call r f xs })))) }
{
    let (remote, function, arguments) = three(remote, function, arguments)?;
    boxed(alloc, place, ExprForm::Call(remote, function, arguments))
}

pub fn primop(
    alloc: Global,
    place: Place,
    name: Result<Name, NoMemory>,
    arguments: Result<Exprs, NoMemory>,
) -> Result<Boxed<Expr>, NoMemory>
    ensures { IfOk result (λ made. IsOkAnd name (λ n. IsOkAnd arguments (λ xs.
        made ≡ record { place = place; form = form.Primop n xs }))) }
{
    let (name, arguments) = both(name, arguments)?;
    boxed(alloc, place, ExprForm::Primop(name, arguments))
}

pub fn do_then(
    alloc: Global,
    place: Place,
    first: Result<Boxed<Expr>, NoMemory>,
    second: Result<Boxed<Expr>, NoMemory>,
) -> Result<Boxed<Expr>, NoMemory>
    ensures { IfOk result (λ made. IsOkAnd first (λ f. IsOkAnd second (λ s.
        made ≡ record { place = place; form = form.Do f s }))) }
{
    let (first, second) = both(first, second)?;
    boxed(alloc, place, ExprForm::Do(first, second))
}

pub fn catch(
    alloc: Global,
    place: Place,
    body: Result<Boxed<Expr>, NoMemory>,
) -> Result<Boxed<Expr>, NoMemory>
    ensures { IfOk result (λ made. IsOkAnd body (λ b. made ≡ record { place = place; form = form.Catch b })) }
{
    boxed(alloc, place, ExprForm::Catch(body?))
}

pub fn try_in(
    alloc: Global,
    place: Place,
    tried: Result<Boxed<Expr>, NoMemory>,
    vars: Result<Binders, NoMemory>,
    body: Result<Boxed<Expr>, NoMemory>,
    caught: Result<Binders, NoMemory>,
    handler: Result<Boxed<Expr>, NoMemory>,
) -> Result<Boxed<Expr>, NoMemory>
    ensures { IfOk result (λ made. IsOkAnd tried (λ t. IsOkAnd vars (λ vs. IsOkAnd body (λ b. IsOkAnd caught (λ cs.
        IsOkAnd handler (λ h. made ≡ record { place = place; form = form.Try t vs b cs h })))))) }
{
    let (vars, caught) = both(vars, caught)?;
    let (tried, body, handler) = three(tried, body, handler)?;
    boxed(
        alloc,
        place,
        ExprForm::Try(tried, vars, body, caught, handler),
    )
}

pub fn receive(
    alloc: Global,
    place: Place,
    clauses: Result<Clauses, NoMemory>,
    timeout: Result<Boxed<Expr>, NoMemory>,
    after: Result<Boxed<Expr>, NoMemory>,
) -> Result<Boxed<Expr>, NoMemory>
    ensures { IfOk result (λ made. IsOkAnd clauses (λ cs. IsOkAnd timeout (λ t. IsOkAnd after (λ a.
        made ≡ record { place = place; form = form.Receive cs t a })))) }
{
    let (clauses, timeout, after) = three(clauses, timeout, after)?;
    boxed(alloc, place, ExprForm::Receive(clauses, timeout, after))
}

fn boxed(alloc: Global, place: Place, form: ExprForm) -> Result<Boxed<Expr>, NoMemory>
    ensures { IfOk result (λ made. made ≡ record { place = place; form = form }) }
{
    Boxed::new(alloc, Expr { place, form })
}
