// The first form that is not compiled.
ghost use Rattle.std.specs.Prelude.{◌≡◌, ◌∷◌, [], ◌&&◌, map, chars, None, IfOk, IfErr, codes};
ghost use Rattle.core_form.specs.Core.{primop, call};
ghost use Rattle.core_form.specs.View.{view, part_view, segment_view, def_view, clause_view, pattern_view, module_view, exprs, parts, segments, defs, clauses, patterns, keys, segs};
ghost use Rattle.core_profile.specs.ProfileWalk.{met_in, met_in_exprs, met_in_parts, met_in_segments, met_in_defs, met_in_clauses, met_in_pattern, met_in_patterns, met_in_keys, met_in_segs};
ghost use Rattle.core_scope.specs.ScopeFaults.{is_float_function};
ghost use Rattle.core_names.specs.Readings.{key_view, seg_view};
ghost use Rattle.core_profile.specs.ProfileFaults.{is_primop, expr_outside, float_fault, profile_faults, IsFirstProfileFault};
ghost use Rattle.first_fault.specs.FirstFault.{first_with};

use crate::segments::keep_segment;
use core_form::{
    Clause, Def, Expr, ExprForm, KeyPattern, MapPart, Module, Pattern, PatternForm, SegPattern,
    Segment,
};
use core_names::{is_word, literal_name};
use core_scope::gives_float;
use erl_base::{Boxed, Kind, Name, Outside, Place, Refusal};
use first_fault::{answer, keep_if};

fn is_primop(name: &Name, count: usize) -> bool
    ensures { result ≡ is_primop name.now count }
{
    let name = name.as_str();
    let fails = is_word(name, "match_fail");
    let raises = is_word(name, "raise");
    let builds = is_word(name, "build_stacktrace");
    fails & (count == 1) | raises & (count == 2) | builds & (count == 1)
}

fn keep_primop(
    first: Option<Refusal>,
    place: Place,
    name: &Name,
    arguments: &[Expr],
) -> Option<Refusal>
    ensures { result ≡ first_with first (expr_outside (primop place name.now (exprs (map view arguments.now)))) }
{
    let holds = !is_primop(name, arguments.len());
    keep_if(first, holds, place, Kind::Profile(Outside::Primop))
}

fn keep_call(
    first: Option<Refusal>,
    place: Place,
    home: &Boxed<Expr>,
    function: &Boxed<Expr>,
    arguments: &[Expr],
) -> Option<Refusal>
    ensures { result ≡ first_with first
        (expr_outside (call place (view home.now) (view function.now) (exprs (map view arguments.now)))) }
{
    let erlang = is_word(literal_name(home.get()), "erlang");
    let float = gives_float(literal_name(function.get()), arguments.len());
    keep_if(
        first,
        erlang & float,
        place,
        Kind::Profile(Outside::FloatFunction),
    )
}

#[cycle(walk)]
fn in_expr(expr: &Expr, first: Option<Refusal>) -> Option<Refusal>
    ensures { result ≡ met_in (view expr.now) first }
{
    match &expr.form {
        ExprForm::Values(items) => in_exprs(items.as_slice(), first),
        ExprForm::Var(_) => first,
        ExprForm::FunName(_) => first,
        ExprForm::Literal(_) => first,
        ExprForm::List(items, tail) => {
            let first = in_exprs(items.as_slice(), first);
            in_boxed(tail, first)
        }
        ExprForm::Tuple(items) => in_exprs(items.as_slice(), first),
        ExprForm::Map(parts, None) => in_parts(parts.as_slice(), first),
        ExprForm::Map(parts, Some(base)) => {
            let first = in_parts(parts.as_slice(), first);
            in_boxed(base, first)
        }
        ExprForm::Binary(segments) => in_segments(segments.as_slice(), first),
        ExprForm::Fun(_, body) => in_boxed(body, first),
        ExprForm::Let(_, value, body) => {
            let first = in_boxed(value, first);
            in_boxed(body, first)
        }
        ExprForm::Letrec(defs, body) => {
            let first = in_defs(defs.as_slice(), first);
            in_boxed(body, first)
        }
        ExprForm::Case(subject, clauses) => {
            let first = in_boxed(subject, first);
            in_clauses(clauses.as_slice(), first)
        }
        ExprForm::Apply(function, arguments) => {
            let first = in_boxed(function, first);
            in_exprs(arguments.as_slice(), first)
        }
        ExprForm::Call(home, function, arguments) => {
            let first = keep_call(first, expr.place, home, function, arguments.as_slice());
            let first = in_boxed(home, first);
            let first = in_boxed(function, first);
            in_exprs(arguments.as_slice(), first)
        }
        ExprForm::Primop(name, arguments) => {
            let first = keep_primop(first, expr.place, name, arguments.as_slice());
            in_exprs(arguments.as_slice(), first)
        }
        ExprForm::Do(before, after) => {
            let first = in_boxed(before, first);
            in_boxed(after, first)
        }
        ExprForm::Catch(body) => in_boxed(body, first),
        ExprForm::Try(tried, _, body, _, handler) => {
            let first = in_boxed(tried, first);
            let first = in_boxed(body, first);
            in_boxed(handler, first)
        }
        ExprForm::Receive(clauses, timeout, after) => {
            let first = in_clauses(clauses.as_slice(), first);
            let first = in_boxed(timeout, first);
            in_boxed(after, first)
        }
    }
}

#[cycle(walk)]
fn in_boxed(expr: &Boxed<Expr>, first: Option<Refusal>) -> Option<Refusal>
    ensures { result ≡ met_in (view expr.now) first }
{
    in_expr(expr.get(), first)
}

#[cycle(walk)]
fn in_exprs(items: &[Expr], first: Option<Refusal>) -> Option<Refusal>
    ensures { result ≡ met_in_exprs (exprs (map view items.now)) first }
{
    let mut first = first;
    for item in items {
        first = in_expr(item, first);
    }
    first
}

#[cycle(walk)]
fn in_part(part: &MapPart, first: Option<Refusal>) -> Option<Refusal>
    ensures { result ≡ met_in_parts (parts (part_view part.now ∷ [])) first }
{
    let first = in_expr(&part.key, first);
    in_expr(&part.value, first)
}

#[cycle(walk)]
fn in_parts(items: &[MapPart], first: Option<Refusal>) -> Option<Refusal>
    ensures { result ≡ met_in_parts (parts (map part_view items.now)) first }
{
    let mut first = first;
    for item in items {
        first = in_part(item, first);
    }
    first
}

#[cycle(walk)]
fn in_segment(segment: &Segment, first: Option<Refusal>) -> Option<Refusal>
    ensures { result ≡ met_in_segments (segments (segment_view segment.now ∷ [])) first }
{
    let first = keep_segment(
        first,
        segment.place,
        &segment.size,
        &segment.unit,
        &segment.kind,
        &segment.flags,
    );
    let first = in_expr(&segment.value, first);
    in_expr(&segment.size, first)
}

#[cycle(walk)]
fn in_segments(items: &[Segment], first: Option<Refusal>) -> Option<Refusal>
    ensures { result ≡ met_in_segments (segments (map segment_view items.now)) first }
{
    let mut first = first;
    for item in items {
        first = in_segment(item, first);
    }
    first
}

#[cycle(walk)]
fn in_defs(items: &[Def], first: Option<Refusal>) -> Option<Refusal>
    ensures { result ≡ met_in_defs (defs (map def_view items.now)) first }
{
    let mut first = first;
    for item in items {
        first = in_expr(&item.fun, first);
    }
    first
}

#[cycle(walk)]
fn in_clause(clause: &Clause, first: Option<Refusal>) -> Option<Refusal>
    ensures { result ≡ met_in_clauses (clauses (clause_view clause.now ∷ [])) first }
{
    let first = in_patterns(clause.patterns.as_slice(), first);
    let first = in_expr(&clause.guard, first);
    in_expr(&clause.body, first)
}

#[cycle(walk)]
fn in_clauses(items: &[Clause], first: Option<Refusal>) -> Option<Refusal>
    ensures { result ≡ met_in_clauses (clauses (map clause_view items.now)) first }
{
    let mut first = first;
    for item in items {
        first = in_clause(item, first);
    }
    first
}

#[cycle(walk)]
fn in_pattern(pattern: &Pattern, first: Option<Refusal>) -> Option<Refusal>
    ensures { result ≡ met_in_pattern (pattern_view pattern.now) first }
{
    match &pattern.form {
        PatternForm::Var(_) => first,
        PatternForm::Alias(_, inner) => in_boxed_pattern(inner, first),
        PatternForm::Literal(_) => first,
        PatternForm::List(items, tail) => {
            let first = in_patterns(items.as_slice(), first);
            in_boxed_pattern(tail, first)
        }
        PatternForm::Tuple(items) => in_patterns(items.as_slice(), first),
        PatternForm::Map(keys) => in_keys(keys.as_slice(), first),
        PatternForm::Binary(segments) => in_segs(segments.as_slice(), first),
    }
}

#[cycle(walk)]
fn in_boxed_pattern(pattern: &Boxed<Pattern>, first: Option<Refusal>) -> Option<Refusal>
    ensures { result ≡ met_in_pattern (pattern_view pattern.now) first }
{
    in_pattern(pattern.get(), first)
}

#[cycle(walk)]
fn in_patterns(items: &[Pattern], first: Option<Refusal>) -> Option<Refusal>
    ensures { result ≡ met_in_patterns (patterns (map pattern_view items.now)) first }
{
    let mut first = first;
    for item in items {
        first = in_pattern(item, first);
    }
    first
}

#[cycle(walk)]
fn in_key(key: &KeyPattern, first: Option<Refusal>) -> Option<Refusal>
    ensures { result ≡ met_in_keys (keys (key_view key.now ∷ [])) first }
{
    let first = in_expr(&key.key, first);
    in_pattern(&key.pattern, first)
}

#[cycle(walk)]
fn in_keys(items: &[KeyPattern], first: Option<Refusal>) -> Option<Refusal>
    ensures { result ≡ met_in_keys (keys (map key_view items.now)) first }
{
    let mut first = first;
    for item in items {
        first = in_key(item, first);
    }
    first
}

#[cycle(walk)]
fn in_seg(segment: &SegPattern, first: Option<Refusal>) -> Option<Refusal>
    ensures { result ≡ met_in_segs (segs (seg_view segment.now ∷ [])) first }
{
    let first = keep_segment(
        first,
        segment.place,
        &segment.size,
        &segment.unit,
        &segment.kind,
        &segment.flags,
    );
    let first = in_pattern(&segment.value, first);
    in_expr(&segment.size, first)
}

#[cycle(walk)]
fn in_segs(items: &[SegPattern], first: Option<Refusal>) -> Option<Refusal>
    ensures { result ≡ met_in_segs (segs (map seg_view items.now)) first }
{
    let mut first = first;
    for item in items {
        first = in_seg(item, first);
    }
    first
}

fn keep_float(floats: Option<Place>) -> Option<Refusal>
    ensures { result ≡ first_with None (float_fault floats) }
{
    match floats {
        None => None,
        Some(place) => keep_if(None, true, place, Kind::Profile(Outside::Float)),
    }
}

/// Refuses what the compiler leaves out: the first of it.
pub fn check_profile(tree: &Module) -> Result<(), Refusal>
    ensures ok { IfOk result (λ _. profile_faults (module_view tree.now) ≡ []) }
    ensures refused { IfErr result (IsFirstProfileFault (module_view tree.now)) }
{
    answer(in_defs(tree.defs.as_slice(), keep_float(tree.floats)))
}
