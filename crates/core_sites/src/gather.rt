// The walk through a text that gathers what it uses of the scope around it, and what each function in it uses.
ghost use Rattle.std.specs.Prelude.{◌≡◌, ◌-◌, ◌∷◌, [], map, length, drop, OnOk, IfOk};
ghost use Rattle.core_form.specs.Scope.{with_names, names_of, bound, bound_segs};
ghost use Rattle.core_form.specs.View.{view, part_view, segment_view, def_view, clause_view, pattern_view, exprs, parts, segments, defs, clauses, patterns, keys, segs};
ghost use Rattle.core_names.specs.Readings.{key_view, seg_view};
ghost use Rattle.core_sites.specs.Gathering.{put_all, named, IsInside, back_in, fun_walked, group_walked, rest_walked, row_walked, right_walked, walked, walked_all, walked_parts, walked_segments, walked_def, walked_defs, walked_clauses, walked_pattern, walked_patterns, walked_keys, walked_segs, module_texts};

use crate::bind::{bind_defs, bind_pattern, bind_patterns, bind_vars, leave_to};
use crate::putting::{copy_uses, put_expanded, use_function, use_variable, uses_below};
use crate::texts::{Gathered, Texts};
use crate::used::Uses;
use core_form::{
    Binder, Clause, Def, Expr, ExprForm, KeyPattern, MapPart, Pattern, PatternForm, SegPattern,
    Segment,
};
use core_names::Names;
use erl_base::{Boxed, NoMemory};
use std::alloc::Global;
use std::mem::replace;

/// What the texts of a module's functions use, where its definitions are bound.
pub(crate) fn module_texts(
    alloc: Global,
    items: &[Def],
    names: &mut Names,
) -> Result<Texts, NoMemory>
    ensures names { OnOk result (names.new ≡ names.old) }
    ensures texts { IfOk result (λ texts. texts ≡ module_texts (defs (map def_view items.now)) names.old) }
{
    let mut state = Gathered {
        uses: Uses::new(alloc),
        texts: Texts::new(alloc),
    };
    gather_defs(items, names, 0, &mut state, alloc)?;
    let Gathered { texts, .. } = state;
    Ok(texts)
}

/// What a text uses is put behind what was used before; the limit is how many bindings stand outside of the whole.
#[cycle(gather)]
fn gather_expr(
    expr: &Expr,
    names: &mut Names,
    limit: u64,
    state: &mut Gathered,
    alloc: Global,
) -> Result<(), NoMemory>
    ensures names { OnOk result (names.new ≡ names.old) }
    ensures state { OnOk result (state.new ≡ walked (view expr.now) names.old limit state.old) }
{
    let place = expr.place;
    match &expr.form {
        ExprForm::Values(items) => gather_exprs(items.as_slice(), names, limit, state, alloc),
        ExprForm::Var(name) => use_variable(alloc, name, place, names, limit, &mut state.uses),
        ExprForm::FunName(key) => use_function(alloc, key, place, names, limit, &mut state.uses),
        ExprForm::Literal(_) => Ok(()),
        ExprForm::List(items, tail) => {
            gather_exprs(items.as_slice(), names, limit, state, alloc)?;
            gather_boxed(tail, names, limit, state, alloc)
        }
        ExprForm::Tuple(items) => gather_exprs(items.as_slice(), names, limit, state, alloc),
        ExprForm::Map(parts, None) => gather_parts(parts.as_slice(), names, limit, state, alloc),
        ExprForm::Map(parts, Some(base)) => {
            gather_parts(parts.as_slice(), names, limit, state, alloc)?;
            gather_boxed(base, names, limit, state, alloc)
        }
        ExprForm::Binary(segments) => {
            gather_segments(segments.as_slice(), names, limit, state, alloc)
        }
        ExprForm::Fun(params, body) => {
            gather_fun(params.as_slice(), body, names, limit, state, alloc)
        }
        ExprForm::Let(vars, value, body) => {
            gather_boxed(value, names, limit, state, alloc)?;
            gather_under(vars.as_slice(), body, names, limit, state, alloc)
        }
        ExprForm::Letrec(defs, body) => {
            let outside = names.len();
            let slot = state.texts.len();
            let around = state.open(alloc)?;
            gather_group(defs.as_slice(), names, state, alloc)?;
            gather_rest(body, around, slot, outside, names, limit, state, alloc)
        }
        ExprForm::Case(subject, clauses) => {
            gather_boxed(subject, names, limit, state, alloc)?;
            gather_clauses(clauses.as_slice(), names, limit, state, alloc)
        }
        ExprForm::Apply(function, arguments) => {
            gather_boxed(function, names, limit, state, alloc)?;
            gather_exprs(arguments.as_slice(), names, limit, state, alloc)
        }
        ExprForm::Call(home, function, arguments) => {
            gather_boxed(home, names, limit, state, alloc)?;
            gather_boxed(function, names, limit, state, alloc)?;
            gather_exprs(arguments.as_slice(), names, limit, state, alloc)
        }
        ExprForm::Primop(_, arguments) => {
            gather_exprs(arguments.as_slice(), names, limit, state, alloc)
        }
        ExprForm::Do(before, after) => {
            gather_boxed(before, names, limit, state, alloc)?;
            gather_boxed(after, names, limit, state, alloc)
        }
        ExprForm::Catch(body) => gather_boxed(body, names, limit, state, alloc),
        ExprForm::Try(tried, vars, body, caught, handler) => {
            gather_boxed(tried, names, limit, state, alloc)?;
            gather_under(vars.as_slice(), body, names, limit, state, alloc)?;
            gather_under(caught.as_slice(), handler, names, limit, state, alloc)
        }
        ExprForm::Receive(clauses, timeout, after) => {
            gather_clauses(clauses.as_slice(), names, limit, state, alloc)?;
            gather_boxed(timeout, names, limit, state, alloc)?;
            gather_boxed(after, names, limit, state, alloc)
        }
    }
}

/// A body under the variables that it sees.
#[cycle(gather)]
fn gather_under(
    vars: &[Binder],
    body: &Boxed<Expr>,
    names: &mut Names,
    limit: u64,
    state: &mut Gathered,
    alloc: Global,
) -> Result<(), NoMemory>
    ensures names { OnOk result (names.new ≡ names.old) }
    ensures state { OnOk result (state.new
        ≡ walked (view body.now) (with_names names.old (names_of vars.now)) limit state.old) }
{
    let outside = names.len();
    bind_vars(vars, names)?;
    gather_boxed(body, names, limit, state, alloc)?;
    names.leave(outside);
    Ok(())
}

/// A fun, whose body is a text of its own: what it uses is used here too.
#[cycle(gather)]
fn gather_fun(
    params: &[Binder],
    body: &Boxed<Expr>,
    names: &mut Names,
    limit: u64,
    state: &mut Gathered,
    alloc: Global,
) -> Result<(), NoMemory>
    ensures names { OnOk result (names.new ≡ names.old) }
    ensures state { OnOk result (state.new ≡ back_in limit state.old.uses
        (fun_walked (view body.now) (with_names names.old (names_of params.now)) (length names.old) state.old)) }
{
    let outside = names.len();
    let slot = state.texts.len();
    let around = state.open(alloc)?;
    gather_under(params, body, names, outside, state, alloc)?;
    state.close(alloc, limit, slot, around)
}

/// What the functions of a group use, whose names are bound then.
#[cycle(gather)]
fn gather_group(
    items: &[Def],
    names: &mut Names,
    state: &mut Gathered,
    alloc: Global,
) -> Result<(), NoMemory>
    ensures names { OnOk result (names.new ≡ named (defs (map def_view items.now)) names.old) }
    ensures inside { OnOk result (IsInside names.old names.new) }
    ensures state { OnOk result (state.new ≡ group_walked (defs (map def_view items.now)) names.old state.old) }
{
    bind_defs(items, names)?;
    let within = names.len();
    gather_defs(items, names, within, state, alloc)?;
    Ok(())
}

/// The body of a group, whose definitions' uses are gathered. What they use of the outside is the group's text, and
/// stands for each of its functions once the group's own scope has ended. The group is left.
#[cycle(gather)]
fn gather_rest(
    body: &Boxed<Expr>,
    around: Uses,
    slot: usize,
    outside: u64,
    names: &mut Names,
    limit: u64,
    state: &mut Gathered,
    alloc: Global,
) -> Result<(), NoMemory>
    ensures names { OnOk result (names.new ≡ drop (length names.old - outside) names.old) }
    ensures state { OnOk result (state.new
        ≡ back_in limit around (rest_walked (view body.now) names.old outside slot state.old)) }
{
    let within = names.len();
    let captured = uses_below(alloc, outside, state.uses.as_slice())?;
    let text = copy_uses(alloc, captured.as_slice())?;
    state.texts.write(slot, text);
    gather_boxed(body, names, within, state, alloc)?;
    leave_to(outside, names);
    let inner = replace(&mut state.uses, around);
    put_expanded(
        alloc,
        inner.as_slice(),
        outside,
        captured.as_slice(),
        limit,
        &mut state.uses,
    )
}

#[cycle(gather)]
fn gather_boxed(
    expr: &Boxed<Expr>,
    names: &mut Names,
    limit: u64,
    state: &mut Gathered,
    alloc: Global,
) -> Result<(), NoMemory>
    ensures names { OnOk result (names.new ≡ names.old) }
    ensures state { OnOk result (state.new ≡ walked (view expr.now) names.old limit state.old) }
{
    gather_expr(expr.get(), names, limit, state, alloc)
}

#[cycle(gather)]
fn gather_exprs(
    items: &[Expr],
    names: &mut Names,
    limit: u64,
    state: &mut Gathered,
    alloc: Global,
) -> Result<(), NoMemory>
    ensures names { OnOk result (names.new ≡ names.old) }
    ensures state { OnOk result (state.new ≡ walked_all (exprs (map view items.now)) names.old limit state.old) }
{
    for item in items {
        gather_expr(item, names, limit, state, alloc)?;
    }
    Ok(())
}

#[cycle(gather)]
fn gather_part(
    part: &MapPart,
    names: &mut Names,
    limit: u64,
    state: &mut Gathered,
    alloc: Global,
) -> Result<(), NoMemory>
    ensures names { OnOk result (names.new ≡ names.old) }
    ensures state { OnOk result (state.new ≡ walked_parts (parts (part_view part.now ∷ [])) names.old limit state.old) }
{
    gather_expr(&part.key, names, limit, state, alloc)?;
    gather_expr(&part.value, names, limit, state, alloc)
}

#[cycle(gather)]
fn gather_parts(
    items: &[MapPart],
    names: &mut Names,
    limit: u64,
    state: &mut Gathered,
    alloc: Global,
) -> Result<(), NoMemory>
    ensures names { OnOk result (names.new ≡ names.old) }
    ensures state { OnOk result (state.new ≡ walked_parts (parts (map part_view items.now)) names.old limit state.old) }
{
    for item in items {
        gather_part(item, names, limit, state, alloc)?;
    }
    Ok(())
}

#[cycle(gather)]
fn gather_segment(
    segment: &Segment,
    names: &mut Names,
    limit: u64,
    state: &mut Gathered,
    alloc: Global,
) -> Result<(), NoMemory>
    ensures names { OnOk result (names.new ≡ names.old) }
    ensures state { OnOk result (state.new
        ≡ walked_segments (segments (segment_view segment.now ∷ [])) names.old limit state.old) }
{
    gather_expr(&segment.value, names, limit, state, alloc)?;
    gather_expr(&segment.size, names, limit, state, alloc)
}

#[cycle(gather)]
fn gather_segments(
    items: &[Segment],
    names: &mut Names,
    limit: u64,
    state: &mut Gathered,
    alloc: Global,
) -> Result<(), NoMemory>
    ensures names { OnOk result (names.new ≡ names.old) }
    ensures state { OnOk result (state.new
        ≡ walked_segments (segments (map segment_view items.now)) names.old limit state.old) }
{
    for item in items {
        gather_segment(item, names, limit, state, alloc)?;
    }
    Ok(())
}

/// The text of a function of a group, or of a module.
#[cycle(gather)]
fn gather_def(
    def: &Def,
    names: &mut Names,
    limit: u64,
    state: &mut Gathered,
    alloc: Global,
) -> Result<(), NoMemory>
    ensures names { OnOk result (names.new ≡ names.old) }
    ensures state { OnOk result (state.new ≡ walked_def (def_view def.now) names.old limit state.old) }
{
    gather_right(&def.fun, names, limit, state, alloc)
}

/// A right side, which belongs to its group's text; one that is no fun is the body of a function.
#[cycle(gather)]
fn gather_right(
    right: &Expr,
    names: &mut Names,
    limit: u64,
    state: &mut Gathered,
    alloc: Global,
) -> Result<(), NoMemory>
    ensures names { OnOk result (names.new ≡ names.old) }
    ensures state { OnOk result (state.new ≡ right_walked (view right.now) names.old limit state.old) }
{
    if let ExprForm::Fun(params, body) = &right.form {
        return gather_under(params.as_slice(), body, names, limit, state, alloc);
    }
    gather_expr(right, names, limit, state, alloc)
}

#[cycle(gather)]
fn gather_defs(
    items: &[Def],
    names: &mut Names,
    limit: u64,
    state: &mut Gathered,
    alloc: Global,
) -> Result<(), NoMemory>
    ensures names { OnOk result (names.new ≡ names.old) }
    ensures state { OnOk result (state.new ≡ walked_defs (defs (map def_view items.now)) names.old limit state.old) }
{
    for item in items {
        gather_def(item, names, limit, state, alloc)?;
    }
    Ok(())
}

#[cycle(gather)]
fn gather_clause(
    clause: &Clause,
    names: &mut Names,
    limit: u64,
    state: &mut Gathered,
    alloc: Global,
) -> Result<(), NoMemory>
    ensures names { OnOk result (names.new ≡ names.old) }
    ensures state { OnOk result (state.new
        ≡ walked_clauses (clauses (clause_view clause.now ∷ [])) names.old limit state.old) }
{
    let patterns = clause.patterns.as_slice();
    gather_row(patterns, names, limit, state, alloc)?;
    let outside = names.len();
    bind_patterns(patterns, names)?;
    gather_expr(&clause.guard, names, limit, state, alloc)?;
    gather_expr(&clause.body, names, limit, state, alloc)?;
    names.leave(outside);
    Ok(())
}

#[cycle(gather)]
fn gather_clauses(
    items: &[Clause],
    names: &mut Names,
    limit: u64,
    state: &mut Gathered,
    alloc: Global,
) -> Result<(), NoMemory>
    ensures names { OnOk result (names.new ≡ names.old) }
    ensures state { OnOk result (state.new
        ≡ walked_clauses (clauses (map clause_view items.now)) names.old limit state.old) }
{
    for item in items {
        gather_clause(item, names, limit, state, alloc)?;
    }
    Ok(())
}

/// The keys and sizes in the patterns of a clause. No function of the module stands in them.
#[cycle(gather)]
fn gather_row(
    items: &[Pattern],
    names: &mut Names,
    limit: u64,
    state: &mut Gathered,
    alloc: Global,
) -> Result<(), NoMemory>
    ensures names { OnOk result (names.new ≡ names.old) }
    ensures state { OnOk result (state.new
        ≡ row_walked (patterns (map pattern_view items.now)) names.old limit state.old) }
{
    let texts = replace(&mut state.texts, Texts::new(alloc));
    gather_patterns(items, names, limit, state, alloc)?;
    state.texts = texts;
    Ok(())
}

/// The keys and sizes in a pattern.
#[cycle(gather)]
fn gather_pattern(
    pattern: &Pattern,
    names: &mut Names,
    limit: u64,
    state: &mut Gathered,
    alloc: Global,
) -> Result<(), NoMemory>
    ensures names { OnOk result (names.new ≡ names.old) }
    ensures state { OnOk result (state.new ≡ walked_pattern (pattern_view pattern.now) names.old limit state.old) }
{
    match &pattern.form {
        PatternForm::Var(_) => Ok(()),
        PatternForm::Alias(_, inner) => gather_boxed_pattern(inner, names, limit, state, alloc),
        PatternForm::Literal(_) => Ok(()),
        PatternForm::List(items, tail) => {
            gather_patterns(items.as_slice(), names, limit, state, alloc)?;
            gather_boxed_pattern(tail, names, limit, state, alloc)
        }
        PatternForm::Tuple(items) => gather_patterns(items.as_slice(), names, limit, state, alloc),
        PatternForm::Map(keys) => gather_keys(keys.as_slice(), names, limit, state, alloc),
        PatternForm::Binary(segments) => {
            gather_binary(segments.as_slice(), names, limit, state, alloc)
        }
    }
}

#[cycle(gather)]
fn gather_boxed_pattern(
    pattern: &Boxed<Pattern>,
    names: &mut Names,
    limit: u64,
    state: &mut Gathered,
    alloc: Global,
) -> Result<(), NoMemory>
    ensures names { OnOk result (names.new ≡ names.old) }
    ensures state { OnOk result (state.new ≡ walked_pattern (pattern_view pattern.now) names.old limit state.old) }
{
    gather_pattern(pattern.get(), names, limit, state, alloc)
}

#[cycle(gather)]
fn gather_patterns(
    items: &[Pattern],
    names: &mut Names,
    limit: u64,
    state: &mut Gathered,
    alloc: Global,
) -> Result<(), NoMemory>
    ensures names { OnOk result (names.new ≡ names.old) }
    ensures state { OnOk result (state.new
        ≡ walked_patterns (patterns (map pattern_view items.now)) names.old limit state.old) }
{
    for item in items {
        gather_pattern(item, names, limit, state, alloc)?;
    }
    Ok(())
}

#[cycle(gather)]
fn gather_key(
    key: &KeyPattern,
    names: &mut Names,
    limit: u64,
    state: &mut Gathered,
    alloc: Global,
) -> Result<(), NoMemory>
    ensures names { OnOk result (names.new ≡ names.old) }
    ensures state { OnOk result (state.new ≡ walked_keys (keys (key_view key.now ∷ [])) names.old limit state.old) }
{
    gather_expr(&key.key, names, limit, state, alloc)?;
    gather_pattern(&key.pattern, names, limit, state, alloc)
}

#[cycle(gather)]
fn gather_keys(
    items: &[KeyPattern],
    names: &mut Names,
    limit: u64,
    state: &mut Gathered,
    alloc: Global,
) -> Result<(), NoMemory>
    ensures names { OnOk result (names.new ≡ names.old) }
    ensures state { OnOk result (state.new ≡ walked_keys (keys (map key_view items.now)) names.old limit state.old) }
{
    for item in items {
        gather_key(item, names, limit, state, alloc)?;
    }
    Ok(())
}

/// A size sees the variables of the segments before it.
#[cycle(gather)]
fn gather_binary(
    items: &[SegPattern],
    names: &mut Names,
    limit: u64,
    state: &mut Gathered,
    alloc: Global,
) -> Result<(), NoMemory>
    ensures names { OnOk result (names.new ≡ names.old) }
    ensures state { OnOk result (state.new ≡ walked_segs (segs (map seg_view items.now)) names.old limit state.old) }
{
    let outside = names.len();
    gather_segs(items, names, limit, state, alloc)?;
    names.leave(outside);
    Ok(())
}

#[cycle(gather)]
fn gather_seg(
    segment: &SegPattern,
    names: &mut Names,
    limit: u64,
    state: &mut Gathered,
    alloc: Global,
) -> Result<(), NoMemory>
    ensures names { OnOk result (names.new ≡ with_names names.old (bound (pattern_view segment.now.value))) }
    ensures state { OnOk result (state.new ≡ walked_segs (segs (seg_view segment.now ∷ [])) names.old limit state.old) }
{
    gather_expr(&segment.size, names, limit, state, alloc)?;
    bind_pattern(&segment.value, names)
}

#[cycle(gather)]
fn gather_segs(
    items: &[SegPattern],
    names: &mut Names,
    limit: u64,
    state: &mut Gathered,
    alloc: Global,
) -> Result<(), NoMemory>
    ensures names { OnOk result (names.new ≡ with_names names.old (bound_segs (segs (map seg_view items.now)))) }
    ensures state { OnOk result (state.new ≡ walked_segs (segs (map seg_view items.now)) names.old limit state.old) }
{
    for item in items {
        gather_seg(item, names, limit, state, alloc)?;
    }
    Ok(())
}
