// Copies of the tree. The functions that call each other put nothing together and let nothing go: each hands on what
// the calls below it answered, and what puts the parts together stands in a crate below.
ghost use Rattle.std.specs.Prelude.{◌≡◌, IfOk};

use core_form::build::{exprs, lists, nodes, patterns};
use core_form::{
    Clause, Clauses, Def, Defs, Expr, ExprForm, Exprs, KeyPattern, KeyPatterns, MapPart, MapParts,
    Pattern, PatternForm, Patterns, SegPattern, SegPatterns, Segment, Segments,
};
use erl_base::{Boxed, Duplicate, List, NoMemory};
use std::alloc::Global;

#[cycle(copy)]
pub(crate) fn copy_expr(expr: &Expr, alloc: Global) -> Result<Boxed<Expr>, NoMemory>
    ensures { IfOk result (λ copy. copy ≡ expr.now) }
{
    let place = expr.place;
    match &expr.form {
        ExprForm::Values(items) => exprs::values(alloc, place, copy_exprs(items, alloc)),
        ExprForm::Var(name) => exprs::var(alloc, place, name.copy(alloc)),
        ExprForm::FunName(key) => exprs::fun_name(alloc, place, key.copy(alloc)),
        ExprForm::Literal(term) => exprs::literal(alloc, place, term.copy(alloc)),
        ExprForm::List(items, tail) => {
            let items = copy_exprs(items, alloc);
            exprs::list(alloc, place, items, copy_boxed(tail, alloc))
        }
        ExprForm::Tuple(items) => exprs::tuple(alloc, place, copy_exprs(items, alloc)),
        ExprForm::Map(parts, None) => exprs::map(alloc, place, copy_parts(parts, alloc)),
        ExprForm::Map(parts, Some(base)) => {
            let parts = copy_parts(parts, alloc);
            exprs::updated_map(alloc, place, parts, copy_boxed(base, alloc))
        }
        ExprForm::Binary(segments) => exprs::binary(alloc, place, copy_segments(segments, alloc)),
        ExprForm::Fun(params, body) => {
            let body = copy_boxed(body, alloc);
            exprs::fun(alloc, place, params.copy(alloc), body)
        }
        ExprForm::Let(vars, value, body) => {
            let value = copy_boxed(value, alloc);
            let body = copy_boxed(body, alloc);
            exprs::let_in(alloc, place, vars.copy(alloc), value, body)
        }
        ExprForm::Letrec(defs, body) => {
            let defs = copy_defs(defs, alloc);
            exprs::letrec(alloc, place, defs, copy_boxed(body, alloc))
        }
        ExprForm::Case(subject, clauses) => {
            let subject = copy_boxed(subject, alloc);
            exprs::case(alloc, place, subject, copy_clauses(clauses, alloc))
        }
        ExprForm::Apply(function, arguments) => {
            let function = copy_boxed(function, alloc);
            exprs::apply(alloc, place, function, copy_exprs(arguments, alloc))
        }
        ExprForm::Call(module, function, arguments) => {
            let module = copy_boxed(module, alloc);
            let function = copy_boxed(function, alloc);
            exprs::call(alloc, place, module, function, copy_exprs(arguments, alloc))
        }
        ExprForm::Primop(name, arguments) => {
            let arguments = copy_exprs(arguments, alloc);
            exprs::primop(alloc, place, name.copy(alloc), arguments)
        }
        ExprForm::Do(first, second) => {
            let first = copy_boxed(first, alloc);
            exprs::do_then(alloc, place, first, copy_boxed(second, alloc))
        }
        ExprForm::Catch(body) => exprs::catch(alloc, place, copy_boxed(body, alloc)),
        ExprForm::Try(tried, vars, body, caught, handler) => {
            let tried = copy_boxed(tried, alloc);
            let body = copy_boxed(body, alloc);
            let handler = copy_boxed(handler, alloc);
            let vars = vars.copy(alloc);
            exprs::try_in(alloc, place, tried, vars, body, caught.copy(alloc), handler)
        }
        ExprForm::Receive(clauses, timeout, after) => {
            let clauses = copy_clauses(clauses, alloc);
            let timeout = copy_boxed(timeout, alloc);
            exprs::receive(alloc, place, clauses, timeout, copy_boxed(after, alloc))
        }
    }
}

/// A box is passed on as it is: the proof of a function grows with what stands behind its references.
#[cycle(copy)]
fn copy_boxed(expr: &Boxed<Expr>, alloc: Global) -> Result<Boxed<Expr>, NoMemory>
    ensures { IfOk result (λ copy. copy ≡ expr.now) }
{
    copy_expr(expr.get(), alloc)
}

#[cycle(copy)]
fn copy_boxed_pattern(pattern: &Boxed<Pattern>, alloc: Global) -> Result<Boxed<Pattern>, NoMemory>
    ensures { IfOk result (λ copy. copy ≡ pattern.now) }
{
    copy_pattern(pattern.get(), alloc)
}

#[cycle(copy)]
pub(crate) fn copy_part(part: &MapPart, alloc: Global) -> Result<Boxed<MapPart>, NoMemory>
    ensures { IfOk result (λ copy. copy ≡ part.now) }
{
    let key = copy_expr(&part.key, alloc);
    nodes::map_part(alloc, key, copy_expr(&part.value, alloc), part.exact)
}

#[cycle(copy)]
pub(crate) fn copy_segment(segment: &Segment, alloc: Global) -> Result<Boxed<Segment>, NoMemory>
    ensures { IfOk result (λ copy. copy ≡ segment.now) }
{
    let value = copy_expr(&segment.value, alloc);
    let size = copy_expr(&segment.size, alloc);
    let unit = segment.unit.copy(alloc);
    let kind = segment.kind.copy(alloc);
    let flags = segment.flags.copy(alloc);
    nodes::segment(alloc, segment.place, value, size, unit, kind, flags)
}

#[cycle(copy)]
pub(crate) fn copy_def(def: &Def, alloc: Global) -> Result<Boxed<Def>, NoMemory>
    ensures { IfOk result (λ copy. copy ≡ def.now) }
{
    let key = def.key.copy(alloc);
    nodes::def(alloc, key, def.place, copy_expr(&def.fun, alloc))
}

#[cycle(copy)]
pub(crate) fn copy_clause(clause: &Clause, alloc: Global) -> Result<Boxed<Clause>, NoMemory>
    ensures { IfOk result (λ copy. copy ≡ clause.now) }
{
    let patterns = copy_patterns(&clause.patterns, alloc);
    let guard = copy_expr(&clause.guard, alloc);
    let body = copy_expr(&clause.body, alloc);
    nodes::clause(alloc, clause.place, patterns, guard, body)
}

#[cycle(copy)]
pub(crate) fn copy_pattern(pattern: &Pattern, alloc: Global) -> Result<Boxed<Pattern>, NoMemory>
    ensures { IfOk result (λ copy. copy ≡ pattern.now) }
{
    let place = pattern.place;
    match &pattern.form {
        PatternForm::Var(name) => patterns::var(alloc, place, name.copy(alloc)),
        PatternForm::Alias(name, inner) => {
            let inner = copy_boxed_pattern(inner, alloc);
            patterns::alias(alloc, place, name.copy(alloc), inner)
        }
        PatternForm::Literal(term) => patterns::literal(alloc, place, term.copy(alloc)),
        PatternForm::List(items, tail) => {
            let items = copy_patterns(items, alloc);
            patterns::list(alloc, place, items, copy_boxed_pattern(tail, alloc))
        }
        PatternForm::Tuple(items) => patterns::tuple(alloc, place, copy_patterns(items, alloc)),
        PatternForm::Map(keys) => patterns::map(alloc, place, copy_keys(keys, alloc)),
        PatternForm::Binary(segments) => {
            patterns::binary(alloc, place, copy_seg_patterns(segments, alloc))
        }
    }
}

#[cycle(copy)]
pub(crate) fn copy_key(key: &KeyPattern, alloc: Global) -> Result<Boxed<KeyPattern>, NoMemory>
    ensures { IfOk result (λ copy. copy ≡ key.now) }
{
    let expr = copy_expr(&key.key, alloc);
    nodes::key_pattern(alloc, expr, copy_pattern(&key.pattern, alloc))
}

#[cycle(copy)]
pub(crate) fn copy_seg_pattern(
    segment: &SegPattern,
    alloc: Global,
) -> Result<Boxed<SegPattern>, NoMemory>
    ensures { IfOk result (λ copy. copy ≡ segment.now) }
{
    let value = copy_pattern(&segment.value, alloc);
    let size = copy_expr(&segment.size, alloc);
    let unit = segment.unit.copy(alloc);
    let kind = segment.kind.copy(alloc);
    let flags = segment.flags.copy(alloc);
    nodes::seg_pattern(alloc, segment.place, value, size, unit, kind, flags)
}

#[cycle(copy)]
pub(crate) fn copy_exprs(items: &Exprs, alloc: Global) -> Result<Exprs, NoMemory>
    ensures { IfOk result (λ copy. copy ≡ items.now) }
{
    let mut copy = Ok(List::new(alloc));
    for item in items.as_slice() {
        copy = lists::and_expr(copy, copy_expr(item, alloc));
    }
    copy
}

#[cycle(copy)]
pub(crate) fn copy_parts(items: &MapParts, alloc: Global) -> Result<MapParts, NoMemory>
    ensures { IfOk result (λ copy. copy ≡ items.now) }
{
    let mut copy = Ok(List::new(alloc));
    for item in items.as_slice() {
        copy = lists::and_part(copy, copy_part(item, alloc));
    }
    copy
}

#[cycle(copy)]
pub(crate) fn copy_segments(items: &Segments, alloc: Global) -> Result<Segments, NoMemory>
    ensures { IfOk result (λ copy. copy ≡ items.now) }
{
    let mut copy = Ok(List::new(alloc));
    for item in items.as_slice() {
        copy = lists::and_segment(copy, copy_segment(item, alloc));
    }
    copy
}

#[cycle(copy)]
pub(crate) fn copy_defs(items: &Defs, alloc: Global) -> Result<Defs, NoMemory>
    ensures { IfOk result (λ copy. copy ≡ items.now) }
{
    let mut copy = Ok(List::new(alloc));
    for item in items.as_slice() {
        copy = lists::and_def(copy, copy_def(item, alloc));
    }
    copy
}

#[cycle(copy)]
pub(crate) fn copy_clauses(items: &Clauses, alloc: Global) -> Result<Clauses, NoMemory>
    ensures { IfOk result (λ copy. copy ≡ items.now) }
{
    let mut copy = Ok(List::new(alloc));
    for item in items.as_slice() {
        copy = lists::and_clause(copy, copy_clause(item, alloc));
    }
    copy
}

#[cycle(copy)]
pub(crate) fn copy_patterns(items: &Patterns, alloc: Global) -> Result<Patterns, NoMemory>
    ensures { IfOk result (λ copy. copy ≡ items.now) }
{
    let mut copy = Ok(List::new(alloc));
    for item in items.as_slice() {
        copy = lists::and_pattern(copy, copy_pattern(item, alloc));
    }
    copy
}

#[cycle(copy)]
pub(crate) fn copy_keys(items: &KeyPatterns, alloc: Global) -> Result<KeyPatterns, NoMemory>
    ensures { IfOk result (λ copy. copy ≡ items.now) }
{
    let mut copy = Ok(List::new(alloc));
    for item in items.as_slice() {
        copy = lists::and_key(copy, copy_key(item, alloc));
    }
    copy
}

#[cycle(copy)]
pub(crate) fn copy_seg_patterns(items: &SegPatterns, alloc: Global) -> Result<SegPatterns, NoMemory>
    ensures { IfOk result (λ copy. copy ≡ items.now) }
{
    let mut copy = Ok(List::new(alloc));
    for item in items.as_slice() {
        copy = lists::and_seg_pattern(copy, copy_seg_pattern(item, alloc));
    }
    copy
}
