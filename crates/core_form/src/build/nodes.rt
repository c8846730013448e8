// What stands in the lists of the tree, and a whole module.
ghost use Rattle.std.specs.Prelude.{◌≡◌, IfOk, IsOkAnd};
ghost use Rattle.core_form.specs.declared.tree.Clause.{roll-Clause};

use crate::{
    Clause, Def, Defs, Expr, KeyPattern, MapPart, Module, Pattern, Patterns, SegPattern, Segment,
};
use erl_base::{Boxed, Duplicate, FunKey, Name, NoMemory, Place, both, three};
use erl_term::Term;
use std::alloc::Global;

pub fn map_part(
    alloc: Global,
    key: Result<Boxed<Expr>, NoMemory>,
    value: Result<Boxed<Expr>, NoMemory>,
    exact: bool,
) -> Result<Boxed<MapPart>, NoMemory>
    ensures { IfOk result (λ made. IsOkAnd key (λ k. IsOkAnd value (λ v.
        made ≡ record { key = k; value = v; exact = exact }))) }
{
    let (key, value) = both(key, value)?;
    let key = key.into_inner();
    let value = value.into_inner();
    Boxed::new(alloc, MapPart { key, value, exact })
}

pub fn segment(
    alloc: Global,
    place: Place,
    value: Result<Boxed<Expr>, NoMemory>,
    size: Result<Boxed<Expr>, NoMemory>,
    unit: Result<Term, NoMemory>,
    kind: Result<Name, NoMemory>,
    flags: Result<Term, NoMemory>,
) -> Result<Boxed<Segment>, NoMemory>
    ensures { IfOk result (λ made. IsOkAnd value (λ v. IsOkAnd size (λ s. IsOkAnd unit (λ u. IsOkAnd kind (λ k.
        IsOkAnd flags (λ f. made ≡ record { place = place; value = v; size = s; unit = u; kind = k; flags = f })))))) }
{
    let (value, size) = both(value, size)?;
    let (unit, kind, flags) = three(unit, kind, flags)?;
    let value = value.into_inner();
    let size = size.into_inner();
    Boxed::new(
        alloc,
        Segment {
            place,
            value,
            size,
            unit,
            kind,
            flags,
        },
    )
}

pub fn def(
    alloc: Global,
    key: Result<FunKey, NoMemory>,
    place: Place,
    fun: Result<Boxed<Expr>, NoMemory>,
) -> Result<Boxed<Def>, NoMemory>
    ensures { IfOk result (λ made. IsOkAnd key (λ k. IsOkAnd fun (λ f.
        made ≡ record { key = k; place = place; fun = f }))) }
{
    let (key, fun) = both(key, fun)?;
    let fun = fun.into_inner();
    Boxed::new(alloc, Def { key, place, fun })
}

pub fn clause(
    alloc: Global,
    place: Place,
    patterns: Result<Patterns, NoMemory>,
    guard: Result<Boxed<Expr>, NoMemory>,
    body: Result<Boxed<Expr>, NoMemory>,
) -> Result<Boxed<Clause>, NoMemory>
    ensures { IfOk result (λ made. IsOkAnd patterns (λ ps. IsOkAnd guard (λ g. IsOkAnd body (λ b.
        made ≡ roll-Clause (record { place = place; patterns = ps; guard = g; body = b }))))) }
{
    let (patterns, guard, body) = three(patterns, guard, body)?;
    let guard = guard.into_inner();
    let body = body.into_inner();
    Boxed::new(
        alloc,
        Clause {
            place,
            patterns,
            guard,
            body,
        },
    )
}

pub fn key_pattern(
    alloc: Global,
    key: Result<Boxed<Expr>, NoMemory>,
    pattern: Result<Boxed<Pattern>, NoMemory>,
) -> Result<Boxed<KeyPattern>, NoMemory>
    ensures { IfOk result (λ made. IsOkAnd key (λ k. IsOkAnd pattern (λ p. made ≡ record { key = k; pattern = p }))) }
{
    let (key, pattern) = both(key, pattern)?;
    let key = key.into_inner();
    let pattern = pattern.into_inner();
    Boxed::new(alloc, KeyPattern { key, pattern })
}

pub fn seg_pattern(
    alloc: Global,
    place: Place,
    value: Result<Boxed<Pattern>, NoMemory>,
    size: Result<Boxed<Expr>, NoMemory>,
    unit: Result<Term, NoMemory>,
    kind: Result<Name, NoMemory>,
    flags: Result<Term, NoMemory>,
) -> Result<Boxed<SegPattern>, NoMemory>
    ensures { IfOk result (λ made. IsOkAnd value (λ v. IsOkAnd size (λ s. IsOkAnd unit (λ u. IsOkAnd kind (λ k.
        IsOkAnd flags (λ f. made ≡ record { place = place; value = v; size = s; unit = u; kind = k; flags = f })))))) }
{
    let (value, size) = both(value, size)?;
    let (unit, kind, flags) = three(unit, kind, flags)?;
    let value = value.into_inner();
    let size = size.into_inner();
    Boxed::new(
        alloc,
        SegPattern {
            place,
            value,
            size,
            unit,
            kind,
            flags,
        },
    )
}

/// The module with these definitions in place of its own.
pub fn with_defs(
    alloc: Global,
    tree: &Module,
    defs: Result<Defs, NoMemory>,
) -> Result<Module, NoMemory>
    ensures { IfOk result (λ made. IsOkAnd defs (λ ds.
        made ≡ record tree.now { defs = ds })) }
{
    let defs = defs?;
    let name = tree.name.copy(alloc)?;
    let exports = tree.exports.copy(alloc)?;
    let attributes = tree.attributes.copy(alloc)?;
    Ok(Module {
        name,
        exports,
        attributes,
        defs,
        floats: tree.floats,
        wide: tree.wide,
        long: tree.long,
    })
}
