// Variables and functions where they are bound, and names where they are used.
ghost use Rattle.std.specs.Prelude.{◌≡◌, ◌∷◌, [], length, map, not, Some, IfOk, OnOk};
ghost use Rattle.std.specs.Option.{is_some};
ghost use Rattle.core_form.specs.Scope.{variable, function, binding, function_of, with_names, names_of, params_of};
ghost use Rattle.core_form.specs.View.{view, def_view, defs};
ghost use Rattle.core_names.specs.declared.table.Known.{Known};
ghost use Rattle.core_scope.specs.ScopeFaults.{variable_use, function_use};
ghost use Rattle.core_scope.specs.ScopeWalk.{is_since, is_known_since, variable_met, variables_met, defs_scope, defs_met, exports_met};
ghost use Rattle.first_fault.specs.FirstFault.{first_with};

use core_form::{Binder, Def, Expr, ExprForm, FunName};
use core_names::{Known, Names};
use erl_base::{FunKey, Kind, Name, NoMemory, Place, Refusal, ScopeFault};
use first_fault::keep_if;

fn is_since(base: u64, number: Option<u64>) -> bool
    ensures { result ≡ is_since base number }
{
    match number {
        None => false,
        Some(number) => base <= number,
    }
}

fn is_known_since(base: u64, known: Option<Known>) -> bool
    ensures { result ≡ is_known_since base known }
{
    match known {
        None => false,
        Some(known) => base <= known.position,
    }
}

/// Binds a variable of a form that began where `base` bindings stood.
pub fn bind_variable(
    names: &mut Names,
    base: u64,
    name: &Name,
    place: Place,
    first: Option<Refusal>,
) -> Result<Option<Refusal>, NoMemory>
    ensures first { IfOk result (λ found. found ≡ variable_met base names.old name.now place first) }
    ensures names { OnOk result (names.new ≡ variable name.now (length names.old) ∷ names.old) }
{
    let doubled = is_since(base, names.binding(name));
    names.bind(name)?;
    Ok(keep_if(
        first,
        doubled,
        place,
        Kind::Scope(ScopeFault::DoubledVariable),
    ))
}

/// Binds the variables of a form that begins here.
pub fn bind_variables(
    names: &mut Names,
    vars: &[Binder],
    first: Option<Refusal>,
) -> Result<Option<Refusal>, NoMemory>
    ensures first { IfOk result (λ found. found ≡ variables_met vars.now (length names.old) names.old first) }
    ensures names { OnOk result (names.new ≡ with_names names.old (names_of vars.now)) }
{
    let base = names.len();
    let mut first = first;
    for var in vars {
        first = bind_variable(names, base, &var.name, var.place, first)?;
    }
    Ok(first)
}

/// How many parameters a right side has.
fn param_count(right: &Expr) -> usize
    ensures { result ≡ length (params_of (view right.now)) }
{
    if let ExprForm::Fun(params, _) = &right.form {
        return params.len();
    }
    0
}

/// Binds a function of a form that began where `base` bindings stood. Its site is not asked for.
fn bind_def(
    names: &mut Names,
    base: u64,
    def: &Def,
    first: Option<Refusal>,
) -> Result<Option<Refusal>, NoMemory>
    ensures first { IfOk result (λ found. found ≡ defs_met (defs (def_view def.now ∷ [])) base names.old first) }
    ensures names { OnOk result (names.new ≡ function def.now.key 0 [] ∷ names.old) }
{
    let doubled = is_known_since(base, names.function(&def.key));
    names.bind_function(&def.key, 0)?;
    let first = keep_if(
        first,
        doubled,
        def.place,
        Kind::Scope(ScopeFault::DoubledFunction),
    );
    let differs = def.key.arity as usize != param_count(&def.fun);
    Ok(keep_if(
        first,
        differs,
        def.place,
        Kind::Scope(ScopeFault::WrongArity),
    ))
}

/// Binds the functions of a form that begins here.
pub fn bind_defs(
    names: &mut Names,
    items: &[Def],
    first: Option<Refusal>,
) -> Result<Option<Refusal>, NoMemory>
    ensures first { IfOk result (λ found. found
        ≡ defs_met (defs (map def_view items.now)) (length names.old) names.old first) }
    ensures names { OnOk result (names.new ≡ defs_scope (defs (map def_view items.now)) names.old) }
{
    let base = names.len();
    let mut first = first;
    for item in items {
        first = bind_def(names, base, item, first)?;
    }
    Ok(first)
}

/// A use of a variable.
pub fn keep_variable(
    names: &Names,
    place: Place,
    name: &Name,
    first: Option<Refusal>,
) -> Option<Refusal>
    ensures { result ≡ first_with first (variable_use names.now place name.now) }
{
    let unbound = names.binding(name).is_none();
    keep_if(
        first,
        unbound,
        place,
        Kind::Scope(ScopeFault::UnboundVariable),
    )
}

fn is_defined(names: &Names, key: &FunKey) -> bool
    ensures { result ≡ is_some (function_of names.now key.now) }
{
    names.function(key).is_some()
}

/// A use of a function.
pub fn keep_function(
    names: &Names,
    place: Place,
    key: &FunKey,
    first: Option<Refusal>,
) -> Option<Refusal>
    ensures { result ≡ first_with first (function_use names.now place key.now) }
{
    let defined = is_defined(names, key);
    keep_if(
        first,
        !defined,
        place,
        Kind::Scope(ScopeFault::UnboundFunction),
    )
}

/// Exports that nothing defines.
pub fn keep_exports(names: &Names, exports: &[FunName], first: Option<Refusal>) -> Option<Refusal>
    ensures { result ≡ exports_met exports.now names.now first }
{
    let mut first = first;
    for export in exports {
        let defined = is_defined(names, &export.key);
        first = keep_if(
            first,
            !defined,
            export.place,
            Kind::Scope(ScopeFault::MissingExport),
        );
    }
    first
}
