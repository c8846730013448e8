// The way through the expressions of a module.
ghost use Rattle.std.specs.Prelude.{◌≡◌, ◌≤◌, ◌-◌, ◌∷◌, [], length, drop, map, Some, IfOk, OnOk};
ghost use Rattle.core_form.specs.View.{view, part_view, segment_view, def_view, clause_view, pattern_view, exprs, parts, segments, defs, clauses, patterns};
ghost use Rattle.core_form.specs.Walks.{expr_count};
ghost use Rattle.core_scope.specs.ScopeFaults.{pattern_count};
ghost use Rattle.core_scope.specs.ScopeWalk.{judge, judge_elements, judge_parts, judge_segments, judge_defs, judge_clauses, judge_part, judge_element, judge_scope, as_element, clause_head, clause_scope};

use crate::bindings::{bind_defs, bind_variables, keep_function, keep_variable};
use crate::judged::{Judged, Wanted, agrees, keep_unguarded};
use crate::patterns::{bind_patterns, look_in_patterns};
use crate::words::{callee, is_raising_primop, one_unless};
use core_form::{Binder, Clause, Clauses, Def, Expr, ExprForm, Exprs, MapPart, Patterns, Segment};
use core_names::Names;
use erl_base::{Boxed, Kind, NoMemory, Refusal, ScopeFault};
use first_fault::keep_if;
use std::alloc::Global;

#[cycle(walk)]
fn in_expr(
    expr: &Expr,
    alloc: Global,
    names: &mut Names,
    guard: bool,
    judged: Judged,
) -> Result<Judged, NoMemory>
    ensures judged { IfOk result (λ after. after ≡ judge (view expr.now) names.old guard judged) }
    ensures names { OnOk result (names.new ≡ names.old) }
{
    let place = expr.place;
    let one = Some(1);
    match &expr.form {
        ExprForm::Values(items) => {
            let count = expr_count(items);
            let first = in_elements(items.as_slice(), alloc, names, guard, judged.first)?;
            Ok(judged.with_first(first).leaf(place, Some(count)))
        }
        ExprForm::Var(name) => {
            let first = keep_variable(names, place, name, judged.first);
            Ok(judged.with_first(first).leaf(place, one))
        }
        ExprForm::FunName(key) => {
            let first = keep_unguarded(judged.first, guard, place);
            let first = keep_function(names, place, key, first);
            Ok(judged.with_first(first).leaf(place, one))
        }
        ExprForm::Literal(_) => Ok(judged.leaf(place, one)),
        ExprForm::List(items, tail) => {
            let first = in_elements(items.as_slice(), alloc, names, guard, judged.first)?;
            let first = in_element(tail.get(), alloc, names, guard, first)?;
            Ok(judged.with_first(first).leaf(place, one))
        }
        ExprForm::Tuple(items) => {
            let first = in_elements(items.as_slice(), alloc, names, guard, judged.first)?;
            Ok(judged.with_first(first).leaf(place, one))
        }
        ExprForm::Map(parts, None) => {
            let first = in_parts(parts.as_slice(), alloc, names, guard, judged.first)?;
            Ok(judged.with_first(first).leaf(place, one))
        }
        ExprForm::Map(parts, Some(base)) => {
            let first = in_parts(parts.as_slice(), alloc, names, guard, judged.first)?;
            let first = in_element(base.get(), alloc, names, guard, first)?;
            Ok(judged.with_first(first).leaf(place, one))
        }
        ExprForm::Binary(segments) => {
            let first = in_segments(segments.as_slice(), alloc, names, guard, judged.first)?;
            Ok(judged.with_first(first).leaf(place, one))
        }
        ExprForm::Fun(params, body) => {
            let first = keep_unguarded(judged.first, guard, place);
            let inner = Judged {
                first,
                wanted: Wanted::Exactly(1),
            };
            let inner = in_scope(params.as_slice(), body, alloc, names, guard, inner)?;
            Ok(judged.with_first(inner.first).leaf(place, one))
        }
        ExprForm::Let(vars, value, body) => {
            let wanted = Wanted::Exactly(vars.len() as u64);
            let first = in_part(value, wanted, alloc, names, guard, judged.first)?;
            in_scope(
                vars.as_slice(),
                body,
                alloc,
                names,
                guard,
                judged.with_first(first),
            )
        }
        ExprForm::Letrec(defs, body) => {
            let base = names.len();
            let first = keep_unguarded(judged.first, guard, place);
            let first = bind_defs(names, defs.as_slice(), first)?;
            let first = in_defs(defs.as_slice(), alloc, names, guard, first)?;
            in_left(body, base, alloc, names, guard, judged.with_first(first))
        }
        ExprForm::Case(subject, clauses) => {
            let inner = Judged {
                first: judged.first,
                wanted: Wanted::Alike,
            };
            let inner = in_boxed(subject, alloc, names, guard, inner)?;
            let judged = judged.with_first(inner.first);
            in_clause_list(clauses, inner.wanted.fixed(), alloc, names, guard, judged)
        }
        ExprForm::Apply(function, arguments) => {
            let first = keep_unguarded(judged.first, guard, place);
            let first = in_part(function, Wanted::Exactly(1), alloc, names, guard, first)?;
            let first = in_element_list(arguments, alloc, names, guard, first)?;
            Ok(judged.with_first(first).leaf(place, one))
        }
        ExprForm::Call(home, function, arguments) => {
            let called = callee(alloc, home, function, arguments)?;
            let first = keep_unguarded(judged.first, guard & !called.in_guards, place);
            let first = in_part(home, Wanted::Exactly(1), alloc, names, guard, first)?;
            let first = in_part(function, Wanted::Exactly(1), alloc, names, guard, first)?;
            let first = in_element_list(arguments, alloc, names, guard, first)?;
            Ok(
                judged
                    .with_first(first)
                    .leaf(place, one_unless(called.never_returns)),
            )
        }
        ExprForm::Primop(name, arguments) => {
            let first = keep_unguarded(judged.first, guard, place);
            let first = in_elements(arguments.as_slice(), alloc, names, guard, first)?;
            Ok(
                judged
                    .with_first(first)
                    .leaf(place, one_unless(is_raising_primop(name))),
            )
        }
        ExprForm::Do(before, after) => {
            let first = keep_unguarded(judged.first, guard, place);
            let first = in_part(before, Wanted::Alike, alloc, names, guard, first)?;
            in_boxed(after, alloc, names, guard, judged.with_first(first))
        }
        ExprForm::Catch(body) => {
            let first = keep_unguarded(judged.first, guard, place);
            let first = in_part(body, Wanted::Exactly(1), alloc, names, guard, first)?;
            Ok(judged.with_first(first).leaf(place, one))
        }
        ExprForm::Try(tried, vars, body, caught, handler) => {
            let wanted = Wanted::Exactly(vars.len() as u64);
            let first = in_part(tried, wanted, alloc, names, guard, judged.first)?;
            let judged = judged.with_first(first);
            let judged = in_scope(vars.as_slice(), body, alloc, names, guard, judged)?;
            in_scope(caught.as_slice(), handler, alloc, names, guard, judged)
        }
        ExprForm::Receive(clauses, timeout, after) => {
            let judged = judged.with_first(keep_unguarded(judged.first, guard, place));
            let judged = in_clauses(clauses.as_slice(), one, alloc, names, guard, judged)?;
            let first = in_part(
                timeout,
                Wanted::Exactly(1),
                alloc,
                names,
                guard,
                judged.first,
            )?;
            in_boxed(after, alloc, names, guard, judged.with_first(first))
        }
    }
}

#[cycle(walk)]
fn in_boxed(
    expr: &Boxed<Expr>,
    alloc: Global,
    names: &mut Names,
    guard: bool,
    judged: Judged,
) -> Result<Judged, NoMemory>
    ensures judged { IfOk result (λ after. after ≡ judge (view expr.now) names.old guard judged) }
    ensures names { OnOk result (names.new ≡ names.old) }
{
    in_expr(expr.get(), alloc, names, guard, judged)
}

// An expression that has to have a number of values of its own.
#[cycle(walk)]
fn in_part(
    expr: &Boxed<Expr>,
    wanted: Wanted,
    alloc: Global,
    names: &mut Names,
    guard: bool,
    first: Option<Refusal>,
) -> Result<Option<Refusal>, NoMemory>
    ensures first { IfOk result (λ found. found ≡ judge_part wanted (view expr.now) names.old guard first) }
    ensures names { OnOk result (names.new ≡ names.old) }
{
    let inner = Judged { first, wanted };
    let inner = in_expr(expr.get(), alloc, names, guard, inner)?;
    Ok(inner.first)
}

// What is wanted of an element, with its fault where it is a value list.
fn as_element(expr: &Expr, first: Option<Refusal>) -> Judged
    ensures { result ≡ as_element (view expr.now) first }
{
    if let ExprForm::Values(_) = &expr.form {
        let fault = Kind::Scope(ScopeFault::WrongDegree);
        return Judged {
            first: keep_if(first, true, expr.place, fault),
            wanted: Wanted::Nothing,
        };
    }
    Judged {
        first,
        wanted: Wanted::Exactly(1),
    }
}

#[cycle(walk)]
fn in_element(
    expr: &Expr,
    alloc: Global,
    names: &mut Names,
    guard: bool,
    first: Option<Refusal>,
) -> Result<Option<Refusal>, NoMemory>
    ensures first { IfOk result (λ found. found ≡ judge_element (view expr.now) names.old guard first) }
    ensures names { OnOk result (names.new ≡ names.old) }
{
    let inner = as_element(expr, first);
    let inner = in_expr(expr, alloc, names, guard, inner)?;
    Ok(inner.first)
}

#[cycle(walk)]
fn in_elements(
    items: &[Expr],
    alloc: Global,
    names: &mut Names,
    guard: bool,
    first: Option<Refusal>,
) -> Result<Option<Refusal>, NoMemory>
    ensures first { IfOk result (λ found. found ≡ judge_elements (exprs (map view items.now)) names.old guard first) }
    ensures names { OnOk result (names.new ≡ names.old) }
{
    let mut first = first;
    for item in items {
        first = in_element(item, alloc, names, guard, first)?;
    }
    Ok(first)
}

#[cycle(walk)]
fn in_element_list(
    items: &Exprs,
    alloc: Global,
    names: &mut Names,
    guard: bool,
    first: Option<Refusal>,
) -> Result<Option<Refusal>, NoMemory>
    ensures first { IfOk result (λ found. found ≡ judge_elements (exprs (map view items.now)) names.old guard first) }
    ensures names { OnOk result (names.new ≡ names.old) }
{
    in_elements(items.as_slice(), alloc, names, guard, first)
}

#[cycle(walk)]
fn in_map_part(
    part: &MapPart,
    alloc: Global,
    names: &mut Names,
    guard: bool,
    first: Option<Refusal>,
) -> Result<Option<Refusal>, NoMemory>
    ensures first { IfOk result (λ found. found ≡ judge_parts (parts (part_view part.now ∷ [])) names.old guard first) }
    ensures names { OnOk result (names.new ≡ names.old) }
{
    let first = in_element(&part.key, alloc, names, guard, first)?;
    in_element(&part.value, alloc, names, guard, first)
}

#[cycle(walk)]
fn in_parts(
    items: &[MapPart],
    alloc: Global,
    names: &mut Names,
    guard: bool,
    first: Option<Refusal>,
) -> Result<Option<Refusal>, NoMemory>
    ensures first { IfOk result (λ found. found ≡ judge_parts (parts (map part_view items.now)) names.old guard first) }
    ensures names { OnOk result (names.new ≡ names.old) }
{
    let mut first = first;
    for item in items {
        first = in_map_part(item, alloc, names, guard, first)?;
    }
    Ok(first)
}

#[cycle(walk)]
fn in_segment(
    segment: &Segment,
    alloc: Global,
    names: &mut Names,
    guard: bool,
    first: Option<Refusal>,
) -> Result<Option<Refusal>, NoMemory>
    ensures first { IfOk result (λ found. found
        ≡ judge_segments (segments (segment_view segment.now ∷ [])) names.old guard first) }
    ensures names { OnOk result (names.new ≡ names.old) }
{
    let first = in_element(&segment.value, alloc, names, guard, first)?;
    in_element(&segment.size, alloc, names, guard, first)
}

#[cycle(walk)]
fn in_segments(
    items: &[Segment],
    alloc: Global,
    names: &mut Names,
    guard: bool,
    first: Option<Refusal>,
) -> Result<Option<Refusal>, NoMemory>
    ensures first { IfOk result (λ found. found
        ≡ judge_segments (segments (map segment_view items.now)) names.old guard first) }
    ensures names { OnOk result (names.new ≡ names.old) }
{
    let mut first = first;
    for item in items {
        first = in_segment(item, alloc, names, guard, first)?;
    }
    Ok(first)
}

// An expression, behind which the innermost bindings are left, so that this many stay.
#[cycle(walk)]
fn in_left(
    expr: &Boxed<Expr>,
    base: u64,
    alloc: Global,
    names: &mut Names,
    guard: bool,
    judged: Judged,
) -> Result<Judged, NoMemory>
    requires { base ≤ length names.old }
    ensures judged { IfOk result (λ after. after ≡ judge (view expr.now) names.old guard judged) }
    ensures names { OnOk result (names.new ≡ drop (length names.old - base) names.old) }
{
    let after = in_boxed(expr, alloc, names, guard, judged)?;
    names.leave(base);
    Ok(after)
}

// An expression inside variables.
#[cycle(walk)]
fn in_scope(
    vars: &[Binder],
    body: &Boxed<Expr>,
    alloc: Global,
    names: &mut Names,
    guard: bool,
    judged: Judged,
) -> Result<Judged, NoMemory>
    ensures judged { IfOk result (λ after. after ≡ judge_scope vars.now (view body.now) names.old guard judged) }
    ensures names { OnOk result (names.new ≡ names.old) }
{
    let base = names.len();
    let first = bind_variables(names, vars, judged.first)?;
    let after = in_boxed(body, alloc, names, guard, judged.with_first(first))?;
    names.leave(base);
    Ok(after)
}

#[cycle(walk)]
fn in_def(
    def: &Def,
    alloc: Global,
    names: &mut Names,
    guard: bool,
    first: Option<Refusal>,
) -> Result<Option<Refusal>, NoMemory>
    ensures first { IfOk result (λ found. found ≡ judge_defs (defs (def_view def.now ∷ [])) names.old guard first) }
    ensures names { OnOk result (names.new ≡ names.old) }
{
    let inner = Judged {
        first,
        wanted: Wanted::Nothing,
    };
    let inner = in_expr(&def.fun, alloc, names, guard, inner)?;
    Ok(inner.first)
}

#[cycle(walk)]
pub fn in_defs(
    items: &[Def],
    alloc: Global,
    names: &mut Names,
    guard: bool,
    first: Option<Refusal>,
) -> Result<Option<Refusal>, NoMemory>
    ensures first { IfOk result (λ found. found ≡ judge_defs (defs (map def_view items.now)) names.old guard first) }
    ensures names { OnOk result (names.new ≡ names.old) }
{
    let mut first = first;
    for item in items {
        first = in_def(item, alloc, names, guard, first)?;
    }
    Ok(first)
}

fn expr_count(items: &Exprs) -> u64
    ensures { result ≡ expr_count (exprs (map view items.now)) }
{
    items.len() as u64
}

fn pattern_count(items: &Patterns) -> u64
    ensures { result ≡ pattern_count (patterns (map pattern_view items.now)) }
{
    items.len() as u64
}

// The head of a clause up to its guard: the width of its patterns, what they look up, and what they bind.
fn bind_head(
    clause: &Clause,
    degree: Option<u64>,
    names: &mut Names,
    first: Option<Refusal>,
) -> Result<Option<Refusal>, NoMemory>
    ensures first { IfOk result (λ found. found ≡ clause_head (clause_view clause.now) degree names.old first) }
    ensures names { OnOk result (names.new ≡ clause_scope (clause_view clause.now) names.old) }
{
    let patterns = clause.patterns.as_slice();
    let wrong = !agrees(Some(pattern_count(&clause.patterns)), degree);
    let fault = Kind::Scope(ScopeFault::ClauseWidth);
    let first = keep_if(first, wrong, clause.place, fault);
    let first = look_in_patterns(patterns, names, first)?;
    let base = names.len();
    bind_patterns(patterns, names, base, first)
}

#[cycle(walk)]
fn in_clause(
    clause: &Clause,
    degree: Option<u64>,
    alloc: Global,
    names: &mut Names,
    guard: bool,
    judged: Judged,
) -> Result<Judged, NoMemory>
    ensures judged { IfOk result (λ after. after
        ≡ judge_clauses (clauses (clause_view clause.now ∷ [])) degree names.old guard judged) }
    ensures names { OnOk result (names.new ≡ names.old) }
{
    let base = names.len();
    let first = bind_head(clause, degree, names, judged.first)?;
    let inner = Judged {
        first,
        wanted: Wanted::Exactly(1),
    };
    let inner = in_expr(&clause.guard, alloc, names, true, inner)?;
    let judged = judged.with_first(inner.first);
    let after = in_expr(&clause.body, alloc, names, guard, judged)?;
    names.leave(base);
    Ok(after)
}

#[cycle(walk)]
fn in_clauses(
    items: &[Clause],
    degree: Option<u64>,
    alloc: Global,
    names: &mut Names,
    guard: bool,
    judged: Judged,
) -> Result<Judged, NoMemory>
    ensures judged { IfOk result (λ after. after
        ≡ judge_clauses (clauses (map clause_view items.now)) degree names.old guard judged) }
    ensures names { OnOk result (names.new ≡ names.old) }
{
    let mut judged = judged;
    for item in items {
        judged = in_clause(item, degree, alloc, names, guard, judged)?;
    }
    Ok(judged)
}

#[cycle(walk)]
fn in_clause_list(
    items: &Clauses,
    degree: Option<u64>,
    alloc: Global,
    names: &mut Names,
    guard: bool,
    judged: Judged,
) -> Result<Judged, NoMemory>
    ensures judged { IfOk result (λ after. after
        ≡ judge_clauses (clauses (map clause_view items.now)) degree names.old guard judged) }
    ensures names { OnOk result (names.new ≡ names.old) }
{
    in_clauses(items.as_slice(), degree, alloc, names, guard, judged)
}
