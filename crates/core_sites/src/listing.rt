// The walk through a module that lists its functions, outer ones before those inside.
ghost use Rattle.std.specs.Prelude.{◌≡◌, ◌-◌, ◌∷◌, [], map, length, take, drop, OnOk, IfOk};
ghost use Rattle.core_form.specs.Core.{fun};
ghost use Rattle.core_form.specs.Scope.{with_names, names_of};
ghost use Rattle.core_form.specs.Sites.{module_sites};
ghost use Rattle.core_form.specs.View.{view, part_view, segment_view, def_view, clause_view, module_view, exprs, parts, segments, defs, clauses};
ghost use Rattle.core_sites.specs.Gathering.{named, IsInside};
ghost use Rattle.core_sites.specs.Listing.{shown, next_captures, group_held, group_listed, def_told, listed, listed_all, listed_parts, listed_segments, listed_inside, right_listed, listed_defs, listed_clauses, all_inside, listed_module};

use crate::bind::{bind_defs, bind_patterns, bind_vars, leave_to};
use crate::gather::module_texts;
use crate::held::{Held, hold, next_captures, pad, shorten};
use crate::told::{Telling, Told, list_own, put_own, put_site};
use crate::used::Used;
use core_form::{Binder, Binders, Clause, Def, Expr, ExprForm, MapPart, Module, Segment, SiteList};
use core_names::Names;
use erl_base::{Boxed, List, NoMemory, Place};
use std::alloc::Global;

/// All functions of a module: its definitions, which capture nothing, and then the others in the order of the text.
/// It takes the time of the text and of the captures, and holds what each function uses until that is listed.
pub fn sites(alloc: Global, m: &Module) -> Result<SiteList, NoMemory>
    ensures { IfOk result (λ sites. sites ≡ map shown (module_sites (module_view m.now))) }
{
    let told = Told::Sites(List::new(alloc));
    match tell_module(alloc, m.defs.as_slice(), told)? {
        Told::Sites(sites) => Ok(sites),
        Told::Counts(_) => unreachable!(),
    }
}

/// How many variables each function captures, in the order of `sites`, in the time of that call. What each function
/// uses is held until it is counted, and beside that the captures of the groups around one place.
pub fn capture_counts(alloc: Global, m: &Module) -> Result<List<u64>, NoMemory>
    ensures { IfOk result (λ counts. counts ≡ map (λ x. length x.captures) (module_sites (module_view m.now))) }
{
    let told = Told::Counts(List::new(alloc));
    match tell_module(alloc, m.defs.as_slice(), told)? {
        Told::Counts(counts) => Ok(counts),
        Told::Sites(_) => unreachable!(),
    }
}

fn tell_module(alloc: Global, items: &[Def], told: Told) -> Result<Told, NoMemory>
    ensures { IfOk result (λ all. all ≡ listed_module (defs (map def_view items.now)) told) }
{
    let mut names = Names::new(alloc);
    bind_defs(items, &mut names)?;
    let texts = module_texts(alloc, items, &mut names)?;
    let mut held = List::new(alloc);
    hold(alloc, items, &[], &mut held)?;
    let mut state = Telling { told, texts };
    list_own(alloc, items, &mut state.told)?;
    list_all_inside(alloc, items, &mut names, &mut held, &mut state)?;
    let Telling { told, .. } = state;
    Ok(told)
}

fn list_all_inside(
    alloc: Global,
    items: &[Def],
    names: &mut Names,
    held: &mut Held,
    state: &mut Telling,
) -> Result<(), NoMemory>
    ensures { OnOk result (state.new
        ≡ all_inside (defs (map def_view items.now)) names.old held.old state.old) }
{
    for item in items {
        list_inside(item, names, held, state, alloc)?;
    }
    Ok(())
}

#[cycle(list)]
fn list_expr(
    expr: &Expr,
    names: &mut Names,
    held: &mut Held,
    state: &mut Telling,
    alloc: Global,
) -> Result<(), NoMemory>
    ensures names { OnOk result (names.new ≡ names.old) }
    ensures held { OnOk result (held.new ≡ held.old) }
    ensures state { OnOk result (state.new ≡ listed (view expr.now) names.old held.old state.old) }
{
    let place = expr.place;
    match &expr.form {
        ExprForm::Values(items) => list_exprs(items.as_slice(), names, held, state, alloc),
        ExprForm::Var(_) => Ok(()),
        ExprForm::FunName(_) => Ok(()),
        ExprForm::Literal(_) => Ok(()),
        ExprForm::List(items, tail) => {
            list_exprs(items.as_slice(), names, held, state, alloc)?;
            list_boxed(tail, names, held, state, alloc)
        }
        ExprForm::Tuple(items) => list_exprs(items.as_slice(), names, held, state, alloc),
        ExprForm::Map(parts, None) => list_parts(parts.as_slice(), names, held, state, alloc),
        ExprForm::Map(parts, Some(base)) => {
            list_parts(parts.as_slice(), names, held, state, alloc)?;
            list_boxed(base, names, held, state, alloc)
        }
        ExprForm::Binary(segments) => {
            list_segments(segments.as_slice(), names, held, state, alloc)
        }
        ExprForm::Fun(params, body) => list_fun(place, params, body, names, held, state, alloc),
        ExprForm::Let(vars, value, body) => {
            list_boxed(value, names, held, state, alloc)?;
            list_under(vars.as_slice(), body, names, held, state, alloc)
        }
        ExprForm::Letrec(defs, body) => {
            let outside = names.len();
            let held_outside = held.len();
            list_group(defs.as_slice(), names, held, state, alloc)?;
            list_rest(body, outside, held_outside, names, held, state, alloc)
        }
        ExprForm::Case(subject, clauses) => {
            list_boxed(subject, names, held, state, alloc)?;
            list_clauses(clauses.as_slice(), names, held, state, alloc)
        }
        ExprForm::Apply(function, arguments) => {
            list_boxed(function, names, held, state, alloc)?;
            list_exprs(arguments.as_slice(), names, held, state, alloc)
        }
        ExprForm::Call(home, function, arguments) => {
            list_boxed(home, names, held, state, alloc)?;
            list_boxed(function, names, held, state, alloc)?;
            list_exprs(arguments.as_slice(), names, held, state, alloc)
        }
        ExprForm::Primop(_, arguments) => {
            list_exprs(arguments.as_slice(), names, held, state, alloc)
        }
        ExprForm::Do(before, after) => {
            list_boxed(before, names, held, state, alloc)?;
            list_boxed(after, names, held, state, alloc)
        }
        ExprForm::Catch(body) => list_boxed(body, names, held, state, alloc),
        ExprForm::Try(tried, vars, body, caught, handler) => {
            list_boxed(tried, names, held, state, alloc)?;
            list_under(vars.as_slice(), body, names, held, state, alloc)?;
            list_under(caught.as_slice(), handler, names, held, state, alloc)
        }
        ExprForm::Receive(clauses, timeout, after) => {
            list_clauses(clauses.as_slice(), names, held, state, alloc)?;
            list_boxed(timeout, names, held, state, alloc)?;
            list_boxed(after, names, held, state, alloc)
        }
    }
}

/// A fun, and then the functions in it.
#[cycle(list)]
fn list_fun(
    place: Place,
    params: &Binders,
    body: &Boxed<Expr>,
    names: &mut Names,
    held: &mut Held,
    state: &mut Telling,
    alloc: Global,
) -> Result<(), NoMemory>
    ensures names { OnOk result (names.new ≡ names.old) }
    ensures held { OnOk result (held.new ≡ held.old) }
    ensures state { OnOk result (state.new
        ≡ listed (fun place params.now (view body.now)) names.old held.old state.old) }
{
    let outside = names.len();
    bind_vars(params.as_slice(), names)?;
    let captures = next_captures(alloc, outside, held.as_slice(), &mut state.texts)?;
    put_site(
        alloc,
        place,
        None,
        params.as_slice(),
        captures.as_slice(),
        &mut state.told,
    )?;
    list_boxed(body, names, held, state, alloc)?;
    names.leave(outside);
    Ok(())
}

/// A body under the variables that it sees.
#[cycle(list)]
fn list_under(
    vars: &[Binder],
    body: &Boxed<Expr>,
    names: &mut Names,
    held: &mut Held,
    state: &mut Telling,
    alloc: Global,
) -> Result<(), NoMemory>
    ensures names { OnOk result (names.new ≡ names.old) }
    ensures held { OnOk result (held.new ≡ held.old) }
    ensures state { OnOk result (state.new
        ≡ listed (view body.now) (with_names names.old (names_of vars.now)) held.old state.old) }
{
    let outside = names.len();
    bind_vars(vars, names)?;
    list_boxed(body, names, held, state, alloc)?;
    names.leave(outside);
    Ok(())
}

/// The functions of a group, with those in them; its names are bound then, and its captures held.
#[cycle(list)]
fn list_group(
    items: &[Def],
    names: &mut Names,
    held: &mut Held,
    state: &mut Telling,
    alloc: Global,
) -> Result<(), NoMemory>
    ensures names { OnOk result (names.new ≡ named (defs (map def_view items.now)) names.old) }
    ensures inside { OnOk result (IsInside names.old names.new) }
    ensures behind { OnOk result (take (length held.old) held.new ≡ held.old) }
    ensures held { OnOk result (held.new ≡ group_held (defs (map def_view items.now)) (length names.old)
        (next_captures held.old (length names.old) state.old.texts) held.old) }
    ensures state { OnOk result (state.new ≡ group_listed (defs (map def_view items.now)) names.old
        (next_captures held.old (length names.old) state.old.texts) held.old state.old) }
{
    let outside = names.len();
    bind_defs(items, names)?;
    let captures = next_captures(alloc, outside, held.as_slice(), &mut state.texts)?;
    pad(outside, held)?;
    hold(alloc, items, captures.as_slice(), held)?;
    list_defs(items, captures.as_slice(), names, held, state, alloc)?;
    Ok(())
}

/// The functions in the body of a group, which is left.
#[cycle(list)]
fn list_rest(
    body: &Boxed<Expr>,
    outside: u64,
    held_outside: usize,
    names: &mut Names,
    held: &mut Held,
    state: &mut Telling,
    alloc: Global,
) -> Result<(), NoMemory>
    ensures names { OnOk result (names.new ≡ drop (length names.old - outside) names.old) }
    ensures held { OnOk result (held.new ≡ take held_outside held.old) }
    ensures state { OnOk result (state.new ≡ listed (view body.now) names.old held.old state.old) }
{
    list_boxed(body, names, held, state, alloc)?;
    shorten(held_outside, held);
    leave_to(outside, names);
    Ok(())
}

#[cycle(list)]
fn list_boxed(
    expr: &Boxed<Expr>,
    names: &mut Names,
    held: &mut Held,
    state: &mut Telling,
    alloc: Global,
) -> Result<(), NoMemory>
    ensures names { OnOk result (names.new ≡ names.old) }
    ensures held { OnOk result (held.new ≡ held.old) }
    ensures state { OnOk result (state.new ≡ listed (view expr.now) names.old held.old state.old) }
{
    list_expr(expr.get(), names, held, state, alloc)
}

#[cycle(list)]
fn list_exprs(
    items: &[Expr],
    names: &mut Names,
    held: &mut Held,
    state: &mut Telling,
    alloc: Global,
) -> Result<(), NoMemory>
    ensures names { OnOk result (names.new ≡ names.old) }
    ensures held { OnOk result (held.new ≡ held.old) }
    ensures state { OnOk result (state.new ≡ listed_all (exprs (map view items.now)) names.old held.old state.old) }
{
    for item in items {
        list_expr(item, names, held, state, alloc)?;
    }
    Ok(())
}

#[cycle(list)]
fn list_part(
    part: &MapPart,
    names: &mut Names,
    held: &mut Held,
    state: &mut Telling,
    alloc: Global,
) -> Result<(), NoMemory>
    ensures names { OnOk result (names.new ≡ names.old) }
    ensures held { OnOk result (held.new ≡ held.old) }
    ensures state { OnOk result (state.new
        ≡ listed_parts (parts (part_view part.now ∷ [])) names.old held.old state.old) }
{
    list_expr(&part.key, names, held, state, alloc)?;
    list_expr(&part.value, names, held, state, alloc)
}

#[cycle(list)]
fn list_parts(
    items: &[MapPart],
    names: &mut Names,
    held: &mut Held,
    state: &mut Telling,
    alloc: Global,
) -> Result<(), NoMemory>
    ensures names { OnOk result (names.new ≡ names.old) }
    ensures held { OnOk result (held.new ≡ held.old) }
    ensures state { OnOk result (state.new
        ≡ listed_parts (parts (map part_view items.now)) names.old held.old state.old) }
{
    for item in items {
        list_part(item, names, held, state, alloc)?;
    }
    Ok(())
}

#[cycle(list)]
fn list_segment(
    segment: &Segment,
    names: &mut Names,
    held: &mut Held,
    state: &mut Telling,
    alloc: Global,
) -> Result<(), NoMemory>
    ensures names { OnOk result (names.new ≡ names.old) }
    ensures held { OnOk result (held.new ≡ held.old) }
    ensures state { OnOk result (state.new
        ≡ listed_segments (segments (segment_view segment.now ∷ [])) names.old held.old state.old) }
{
    list_expr(&segment.value, names, held, state, alloc)?;
    list_expr(&segment.size, names, held, state, alloc)
}

#[cycle(list)]
fn list_segments(
    items: &[Segment],
    names: &mut Names,
    held: &mut Held,
    state: &mut Telling,
    alloc: Global,
) -> Result<(), NoMemory>
    ensures names { OnOk result (names.new ≡ names.old) }
    ensures held { OnOk result (held.new ≡ held.old) }
    ensures state { OnOk result (state.new
        ≡ listed_segments (segments (map segment_view items.now)) names.old held.old state.old) }
{
    for item in items {
        list_segment(item, names, held, state, alloc)?;
    }
    Ok(())
}

/// The functions inside of one that is defined.
#[cycle(list)]
fn list_inside(
    def: &Def,
    names: &mut Names,
    held: &mut Held,
    state: &mut Telling,
    alloc: Global,
) -> Result<(), NoMemory>
    ensures names { OnOk result (names.new ≡ names.old) }
    ensures held { OnOk result (held.new ≡ held.old) }
    ensures state { OnOk result (state.new ≡ listed_inside (def_view def.now) names.old held.old state.old) }
{
    list_right(&def.fun, names, held, state, alloc)
}

/// The functions inside of a right side; one that is no fun is the body of a function.
#[cycle(list)]
fn list_right(
    right: &Expr,
    names: &mut Names,
    held: &mut Held,
    state: &mut Telling,
    alloc: Global,
) -> Result<(), NoMemory>
    ensures names { OnOk result (names.new ≡ names.old) }
    ensures held { OnOk result (held.new ≡ held.old) }
    ensures state { OnOk result (state.new ≡ right_listed (view right.now) names.old held.old state.old) }
{
    if let ExprForm::Fun(params, body) = &right.form {
        return list_under(params.as_slice(), body, names, held, state, alloc);
    }
    list_expr(right, names, held, state, alloc)
}

#[cycle(list)]
fn list_def(
    def: &Def,
    captures: &[Used],
    names: &mut Names,
    held: &mut Held,
    state: &mut Telling,
    alloc: Global,
) -> Result<(), NoMemory>
    ensures names { OnOk result (names.new ≡ names.old) }
    ensures held { OnOk result (held.new ≡ held.old) }
    ensures state { OnOk result (state.new
        ≡ listed_inside (def_view def.now) names.old held.old (def_told (def_view def.now) captures.now state.old)) }
{
    put_own(alloc, def, captures, &mut state.told)?;
    list_inside(def, names, held, state, alloc)
}

#[cycle(list)]
fn list_defs(
    items: &[Def],
    captures: &[Used],
    names: &mut Names,
    held: &mut Held,
    state: &mut Telling,
    alloc: Global,
) -> Result<(), NoMemory>
    ensures names { OnOk result (names.new ≡ names.old) }
    ensures held { OnOk result (held.new ≡ held.old) }
    ensures state { OnOk result (state.new
        ≡ listed_defs (defs (map def_view items.now)) names.old held.old captures.now state.old) }
{
    for item in items {
        list_def(item, captures, names, held, state, alloc)?;
    }
    Ok(())
}

#[cycle(list)]
fn list_clause(
    clause: &Clause,
    names: &mut Names,
    held: &mut Held,
    state: &mut Telling,
    alloc: Global,
) -> Result<(), NoMemory>
    ensures names { OnOk result (names.new ≡ names.old) }
    ensures held { OnOk result (held.new ≡ held.old) }
    ensures state { OnOk result (state.new
        ≡ listed_clauses (clauses (clause_view clause.now ∷ [])) names.old held.old state.old) }
{
    let outside = names.len();
    bind_patterns(clause.patterns.as_slice(), names)?;
    list_expr(&clause.guard, names, held, state, alloc)?;
    list_expr(&clause.body, names, held, state, alloc)?;
    names.leave(outside);
    Ok(())
}

#[cycle(list)]
fn list_clauses(
    items: &[Clause],
    names: &mut Names,
    held: &mut Held,
    state: &mut Telling,
    alloc: Global,
) -> Result<(), NoMemory>
    ensures names { OnOk result (names.new ≡ names.old) }
    ensures held { OnOk result (held.new ≡ held.old) }
    ensures state { OnOk result (state.new
        ≡ listed_clauses (clauses (map clause_view items.now)) names.old held.old state.old) }
{
    for item in items {
        list_clause(item, names, held, state, alloc)?;
    }
    Ok(())
}
