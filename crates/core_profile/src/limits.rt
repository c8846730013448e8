// The first limit that a module passes.
ghost use Rattle.std.specs.Prelude.{◌≡◌, ◌≤◌, [], map, length, None, IfOk, IfErr};
ghost use Rattle.core_form.specs.Scope.{params_of, body_of};
ghost use Rattle.core_form.specs.Sites.{module_sites, place_of};
ghost use Rattle.core_form.specs.View.{view, def_view, module_view, defs};
ghost use Rattle.core_profile.specs.Counted.{counted};
ghost use Rattle.core_profile.specs.LimitFaults.{limit_faults, IsFirstLimitFault, capture_counts, counted_in_text, export_limits};
ghost use Rattle.core_profile.specs.LimitWalk.{walk_module, walk_definition, definition_end, head_count};
ghost use Rattle.core_sites.specs.Listing.{shown};
ghost use Rattle.first_fault.specs.FirstFault.{first_with};

use crate::counts::Counts;
use crate::limit_walk::walk_expr;
use crate::progress::{Progress, keep_arity, keep_over};
use core_form::{Def, Expr, ExprForm, FunName, Module, SiteList};
use erl_base::{Kind, LimitName, Place, Refusal};
use first_fault::{answer, keep_if};

/// Nodes of a definition.
const MOST_NODES: u64 = 40000;

/// Definitions of a module.
const MOST_DEFINITIONS: usize = 20000;

/// A definition of so many in all, which stands in this place of them.
#[derive(Clone, Copy)]
struct Standing {
    all: usize,
    index: usize,
}

fn definition_end(standing: Standing, place: Place, progress: Progress) -> Progress
    requires { standing.all ≤ 4294967295 }
    ensures { result ≡ definition_end standing.all standing.index place progress }
{
    let first = keep_over(
        progress.first,
        LimitName::Nodes,
        MOST_NODES,
        place,
        progress.nodes,
    );
    let kind = Kind::Limit(LimitName::Definitions, standing.all as u64);
    Progress {
        first: keep_if(first, standing.index == MOST_DEFINITIONS, place, kind),
        ..progress
    }
}

fn body_of(right: &Expr) -> &Expr
    ensures { view result.now ≡ body_of (view right.now) }
{
    if let ExprForm::Fun(_, body) = &right.form {
        return body.get();
    }
    right
}

fn param_count(right: &Expr) -> usize
    ensures value { result ≡ length (params_of (view right.now)) }
    ensures bound { result ≤ 4294967295 }
{
    if let ExprForm::Fun(params, _) = &right.form {
        return params.len();
    }
    0
}

/// The nodes of a right side before its body.
fn head_count(right: &Expr) -> u64
    ensures { result ≡ head_count (view right.now) }
{
    if let ExprForm::Fun(params, _) = &right.form {
        return 1 + params.len() as u64;
    }
    0
}

fn fun_place(place: Place, right: &Expr) -> Place
    ensures { result ≡ place_of place (view right.now) }
{
    if let ExprForm::Fun(_, _) = &right.form {
        return right.place;
    }
    place
}

fn definition(def: &Def, counts: Counts, standing: Standing, progress: Progress) -> Progress
    requires { standing.all ≤ 4294967295 }
    ensures { result ≡ walk_definition (counted counts.entry) standing.all standing.index (def_view def.now) progress }
{
    let place = def.place;
    let right = &def.fun;
    let progress = progress.with_arity(place, def.key.arity as usize);
    let progress = progress.with_arity(fun_place(place, right), param_count(right));
    let progress = progress.nodes_from(head_count(right));
    let progress = walk_expr(body_of(right), counts, true, progress);
    definition_end(standing, place, progress)
}

fn definitions(items: &[Def], counts: Counts, progress: Progress) -> Progress
    requires { length items.now ≤ 4294967295 }
    ensures { result
        ≡ walk_module (counted counts.entry) (length items.now) 0 (defs (map def_view items.now)) progress }
{
    let all = items.len();
    let mut progress = progress;
    for (index, item) in items.iter().enumerate() {
        progress = definition(item, counts, Standing { all, index }, progress);
    }
    progress
}

fn keep_counted(
    first: Option<Refusal>,
    name: LimitName,
    found: Option<(Place, u64)>,
) -> Option<Refusal>
    ensures { result ≡ first_with first (counted_in_text name found) }
{
    match found {
        None => first,
        Some((place, count)) => keep_if(first, true, place, Kind::Limit(name, count)),
    }
}

fn keep_exports(first: Option<Refusal>, names: &[FunName]) -> Option<Refusal>
    ensures { result ≡ first_with first (export_limits names.now) }
{
    let mut first = first;
    for name in names {
        first = keep_arity(first, name.place, name.key.arity as u64);
    }
    first
}

/// Refuses what there is no room for: the first limit that is passed. The sites are the module's own.
pub fn check_limits(tree: &Module, sites: &SiteList) -> Result<(), Refusal>
    requires own { sites.now ≡ map shown (module_sites (module_view tree.now)) }
    ensures ok { IfOk result (λ _. limit_faults (module_view tree.now) ≡ []) }
    ensures refused { IfErr result (IsFirstLimitFault (module_view tree.now)) }
{
    limits_by(tree, Counts::Sites(sites.as_slice()))
}

/// The same, told how many variables each function captures, in the order of sites.
pub fn check_limits_by(tree: &Module, counts: &[u64]) -> Result<(), Refusal>
    requires own { counts.now ≡ capture_counts (module_sites (module_view tree.now)) }
    ensures ok { IfOk result (λ _. limit_faults (module_view tree.now) ≡ []) }
    ensures refused { IfErr result (IsFirstLimitFault (module_view tree.now)) }
{
    limits_by(tree, Counts::Numbers(counts))
}

fn limits_by(tree: &Module, counts: Counts) -> Result<(), Refusal>
    requires own { counted counts ≡ capture_counts (module_sites (module_view tree.now)) }
    ensures ok { IfOk result (λ _. limit_faults (module_view tree.now) ≡ []) }
    ensures refused { IfErr result (IsFirstLimitFault (module_view tree.now)) }
{
    let first = keep_counted(None, LimitName::Integer, tree.wide);
    let first = keep_counted(first, LimitName::Atom, tree.long);
    let first = keep_exports(first, tree.exports.as_slice());
    let progress = Progress {
        first,
        nodes: 0,
        site: tree.defs.len(),
    };
    answer(definitions(tree.defs.as_slice(), counts, progress).first)
}
