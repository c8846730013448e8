// The walk through expressions that meets their limits.
ghost use Rattle.std.specs.Prelude.{◌≡◌, ◌≤◌, ◌+◌, ◌∷◌, [], map};
ghost use Rattle.core_form.specs.View.{view, part_view, segment_view, def_view, clause_view, pattern_view, exprs, parts, segments, defs, clauses, patterns, keys, segs};
ghost use Rattle.core_form.specs.Walks.{expr_count};
ghost use Rattle.core_names.specs.Readings.{key_view, seg_view};
ghost use Rattle.core_profile.specs.Counted.{counted};
ghost use Rattle.core_profile.specs.LimitFaults.{over_arity};
ghost use Rattle.core_profile.specs.LimitWalk.{walk, walk_exprs, walk_parts, walk_segments, walk_def, walk_defs, walk_clauses, walk_pattern, walk_patterns, walk_keys, walk_segs, function_if, function_unless, with_nodes, meeting};

use crate::counts::Counts;
use crate::progress::{InReceive, Progress, plus};
use core_form::{
    Clause, Def, Expr, ExprForm, KeyPattern, MapPart, Pattern, PatternForm, SegPattern, Segment,
};
use erl_base::{Boxed, Place};

#[cycle(walk)]
pub fn walk_expr(expr: &Expr, counts: Counts, told: bool, progress: Progress) -> Progress
    ensures { result ≡ walk (counted counts.entry) told (view expr.now) progress }
{
    let place = expr.place;
    match &expr.form {
        ExprForm::Values(items) => {
            walk_exprs(items.as_slice(), counts, told, progress.with_nodes(1))
        }
        ExprForm::Var(_) => progress.with_nodes(1),
        ExprForm::FunName(key) => progress.with_nodes(1).with_arity(place, key.arity as usize),
        ExprForm::Literal(_) => progress.with_nodes(1),
        ExprForm::List(items, tail) => {
            let progress = walk_exprs(items.as_slice(), counts, told, progress.with_nodes(1));
            walk_boxed(tail, counts, told, progress)
        }
        ExprForm::Tuple(items) => {
            walk_exprs(items.as_slice(), counts, told, progress.with_nodes(1))
        }
        ExprForm::Map(parts, None) => {
            walk_parts(parts.as_slice(), counts, told, progress.with_nodes(1))
        }
        ExprForm::Map(parts, Some(base)) => {
            let progress = walk_parts(parts.as_slice(), counts, told, progress.with_nodes(1));
            walk_boxed(base, counts, told, progress)
        }
        ExprForm::Binary(segments) => {
            walk_segments(segments.as_slice(), counts, told, progress.with_nodes(1))
        }
        ExprForm::Fun(params, body) => {
            let progress = walk_fun(place, params.len(), counts, told, progress);
            walk_boxed(body, counts, told, progress)
        }
        ExprForm::Let(vars, value, body) => {
            let progress = progress.with_nodes(1 + vars.len() as u64);
            let progress = walk_boxed(value, counts, told, progress);
            walk_boxed(body, counts, told, progress)
        }
        ExprForm::Letrec(defs, body) => {
            let progress = walk_defs(defs.as_slice(), counts, told, progress.with_nodes(1));
            walk_boxed(body, counts, told, progress)
        }
        ExprForm::Case(subject, clauses) => {
            let progress = walk_boxed(subject, counts, told, progress.with_nodes(1));
            let inside = InReceive { progress, heads: 0 };
            walk_clauses(clauses.as_slice(), counts, told, inside).progress
        }
        ExprForm::Apply(function, arguments) => {
            let progress = with_arguments(place, arguments.as_slice(), progress);
            let progress = walk_boxed(function, counts, told, progress);
            walk_exprs(arguments.as_slice(), counts, told, progress)
        }
        ExprForm::Call(home, function, arguments) => {
            let progress = with_arguments(place, arguments.as_slice(), progress);
            let progress = walk_boxed(home, counts, told, progress);
            let progress = walk_boxed(function, counts, told, progress);
            walk_exprs(arguments.as_slice(), counts, told, progress)
        }
        ExprForm::Primop(_, arguments) => {
            let progress = with_arguments(place, arguments.as_slice(), progress);
            walk_exprs(arguments.as_slice(), counts, told, progress)
        }
        ExprForm::Do(before, after) => {
            let progress = walk_boxed(before, counts, told, progress.with_nodes(1));
            walk_boxed(after, counts, told, progress)
        }
        ExprForm::Catch(body) => walk_boxed(body, counts, told, progress.with_nodes(1)),
        ExprForm::Try(tried, vars, body, caught, handler) => {
            let bound = vars.len() as u64 + caught.len() as u64;
            let progress = walk_boxed(tried, counts, told, progress.with_nodes(1 + bound));
            let progress = walk_boxed(body, counts, told, progress);
            walk_boxed(handler, counts, told, progress)
        }
        ExprForm::Receive(clauses, timeout, after) => {
            let inside = InReceive {
                progress: progress.with_nodes(1),
                heads: 0,
            };
            let inside = walk_clauses(clauses.as_slice(), counts, told, inside);
            let progress = walk_boxed(timeout, counts, told, inside.end(place));
            walk_boxed(after, counts, told, progress)
        }
    }
}

fn walk_fun(place: Place, params: usize, counts: Counts, told: bool, progress: Progress) -> Progress
    requires { params ≤ 4294967295 }
    ensures { result ≡ function_if (counted counts.entry) told place params (with_nodes (1 + params) progress) }
{
    progress
        .with_nodes(1 + params as u64)
        .function_if(told, place, params, counts)
}

/// A right side that is no fun is a function all the same.
fn function_unless(
    right: &Expr,
    place: Place,
    counts: Counts,
    told: bool,
    progress: Progress,
) -> Progress
    ensures { result ≡ function_unless (counted counts.entry) told place (view right.now) progress }
{
    if let ExprForm::Fun(_, _) = &right.form {
        return progress;
    }
    progress.function_if(told, place, 0, counts)
}

fn with_arguments(place: Place, arguments: &[Expr], progress: Progress) -> Progress
    ensures { result
        ≡ meeting (over_arity place (expr_count (exprs (map view arguments.now)))) (with_nodes 1 progress) }
{
    progress.with_nodes(1).with_arity(place, arguments.len())
}

#[cycle(walk)]
fn walk_boxed(expr: &Boxed<Expr>, counts: Counts, told: bool, progress: Progress) -> Progress
    ensures { result ≡ walk (counted counts.entry) told (view expr.now) progress }
{
    walk_expr(expr.get(), counts, told, progress)
}

#[cycle(walk)]
fn walk_exprs(items: &[Expr], counts: Counts, told: bool, progress: Progress) -> Progress
    ensures { result ≡ walk_exprs (counted counts.entry) told (exprs (map view items.now)) progress }
{
    let mut progress = progress;
    for item in items {
        progress = walk_expr(item, counts, told, progress);
    }
    progress
}

#[cycle(walk)]
fn walk_part(part: &MapPart, counts: Counts, told: bool, progress: Progress) -> Progress
    ensures { result ≡ walk_parts (counted counts.entry) told (parts (part_view part.now ∷ [])) progress }
{
    let progress = walk_expr(&part.key, counts, told, progress);
    walk_expr(&part.value, counts, told, progress)
}

#[cycle(walk)]
fn walk_parts(items: &[MapPart], counts: Counts, told: bool, progress: Progress) -> Progress
    ensures { result ≡ walk_parts (counted counts.entry) told (parts (map part_view items.now)) progress }
{
    let mut progress = progress;
    for item in items {
        progress = walk_part(item, counts, told, progress);
    }
    progress
}

#[cycle(walk)]
fn walk_segment(segment: &Segment, counts: Counts, told: bool, progress: Progress) -> Progress
    ensures { result ≡ walk_segments (counted counts.entry) told (segments (segment_view segment.now ∷ [])) progress }
{
    let progress = walk_expr(&segment.value, counts, told, progress.with_nodes(1));
    walk_expr(&segment.size, counts, told, progress)
}

#[cycle(walk)]
fn walk_segments(items: &[Segment], counts: Counts, told: bool, progress: Progress) -> Progress
    ensures { result ≡ walk_segments (counted counts.entry) told (segments (map segment_view items.now)) progress }
{
    let mut progress = progress;
    for item in items {
        progress = walk_segment(item, counts, told, progress);
    }
    progress
}

#[cycle(walk)]
fn walk_def(def: &Def, counts: Counts, told: bool, progress: Progress) -> Progress
    ensures { result ≡ walk_def (counted counts.entry) told (def_view def.now) progress }
{
    let progress = progress.with_arity(def.place, def.key.arity as usize);
    let progress = function_unless(&def.fun, def.place, counts, told, progress);
    walk_expr(&def.fun, counts, told, progress)
}

#[cycle(walk)]
fn walk_defs(items: &[Def], counts: Counts, told: bool, progress: Progress) -> Progress
    ensures { result ≡ walk_defs (counted counts.entry) told (defs (map def_view items.now)) progress }
{
    let mut progress = progress;
    for item in items {
        progress = walk_def(item, counts, told, progress);
    }
    progress
}

#[cycle(walk)]
fn walk_clause(clause: &Clause, counts: Counts, told: bool, inside: InReceive) -> InReceive
    ensures { result ≡ walk_clauses (counted counts.entry) told (clauses (clause_view clause.now ∷ [])) inside }
{
    let before = inside.progress.nodes;
    let head = walk_patterns(
        clause.patterns.as_slice(),
        counts,
        inside.progress.nodes_from(0),
    );
    let head = walk_expr(&clause.guard, counts, told, head);
    let nodes = plus(before, plus(1, head.nodes));
    let progress = walk_expr(&clause.body, counts, told, head.nodes_from(nodes));
    InReceive {
        progress,
        heads: plus(inside.heads, head.nodes),
    }
}

#[cycle(walk)]
fn walk_clauses(items: &[Clause], counts: Counts, told: bool, inside: InReceive) -> InReceive
    ensures { result ≡ walk_clauses (counted counts.entry) told (clauses (map clause_view items.now)) inside }
{
    let mut inside = inside;
    for item in items {
        inside = walk_clause(item, counts, told, inside);
    }
    inside
}

#[cycle(walk)]
fn walk_pattern(pattern: &Pattern, counts: Counts, progress: Progress) -> Progress
    ensures { result ≡ walk_pattern (counted counts.entry) (pattern_view pattern.now) progress }
{
    let progress = progress.with_nodes(1);
    match &pattern.form {
        PatternForm::Var(_) => progress,
        PatternForm::Alias(_, inner) => walk_boxed_pattern(inner, counts, progress),
        PatternForm::Literal(_) => progress,
        PatternForm::List(items, tail) => {
            let progress = walk_patterns(items.as_slice(), counts, progress);
            walk_boxed_pattern(tail, counts, progress)
        }
        PatternForm::Tuple(items) => walk_patterns(items.as_slice(), counts, progress),
        PatternForm::Map(keys) => walk_keys(keys.as_slice(), counts, progress),
        PatternForm::Binary(segments) => walk_segs(segments.as_slice(), counts, progress),
    }
}

#[cycle(walk)]
fn walk_boxed_pattern(pattern: &Boxed<Pattern>, counts: Counts, progress: Progress) -> Progress
    ensures { result ≡ walk_pattern (counted counts.entry) (pattern_view pattern.now) progress }
{
    walk_pattern(pattern.get(), counts, progress)
}

#[cycle(walk)]
fn walk_patterns(items: &[Pattern], counts: Counts, progress: Progress) -> Progress
    ensures { result ≡ walk_patterns (counted counts.entry) (patterns (map pattern_view items.now)) progress }
{
    let mut progress = progress;
    for item in items {
        progress = walk_pattern(item, counts, progress);
    }
    progress
}

#[cycle(walk)]
fn walk_key(key: &KeyPattern, counts: Counts, progress: Progress) -> Progress
    ensures { result ≡ walk_keys (counted counts.entry) (keys (key_view key.now ∷ [])) progress }
{
    let progress = walk_expr(&key.key, counts, false, progress);
    walk_pattern(&key.pattern, counts, progress)
}

#[cycle(walk)]
fn walk_keys(items: &[KeyPattern], counts: Counts, progress: Progress) -> Progress
    ensures { result ≡ walk_keys (counted counts.entry) (keys (map key_view items.now)) progress }
{
    let mut progress = progress;
    for item in items {
        progress = walk_key(item, counts, progress);
    }
    progress
}

#[cycle(walk)]
fn walk_seg(segment: &SegPattern, counts: Counts, progress: Progress) -> Progress
    ensures { result ≡ walk_segs (counted counts.entry) (segs (seg_view segment.now ∷ [])) progress }
{
    let progress = walk_pattern(&segment.value, counts, progress.with_nodes(1));
    walk_expr(&segment.size, counts, false, progress)
}

#[cycle(walk)]
fn walk_segs(items: &[SegPattern], counts: Counts, progress: Progress) -> Progress
    ensures { result ≡ walk_segs (counted counts.entry) (segs (map seg_view items.now)) progress }
{
    let mut progress = progress;
    for item in items {
        progress = walk_seg(item, counts, progress);
    }
    progress
}
