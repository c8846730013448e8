// Names that have a meaning of their own, and what a call says by its literals.
ghost use Rattle.std.specs.Prelude.{◌≡◌, ◌≤◌, ◌&&◌, map, chars, codes, IfOk};
ghost use Rattle.std.specs.Option.{option_map};
ghost use Rattle.erl_base.specs.Names.{same_name};
ghost use Rattle.bif_table.specs.Builtins.{lookup, never_returns};
ghost use Rattle.bif_table.specs.View.{bif_view};
ghost use Rattle.core_form.specs.Walks.{literal_name, expr_count};
ghost use Rattle.core_form.specs.View.{view, exprs};
ghost use Rattle.core_scope.specs.Degrees.{one_unless, is_raising_primop};
ghost use Rattle.core_scope.specs.ScopeFaults.{is_float_function, is_guard_function};

use bif_table::{Bif, is_guard, lookup};
use core_form::{Expr, Exprs};
use core_names::{is_word, literal_name};
use erl_base::{Boxed, FunKey, Name, NoMemory};
use std::alloc::Global;

/// What a call says by its literals: whether it never returns, and whether a guard may have it.
#[derive(Clone, Copy)]
pub struct Called {
    pub never_returns: bool,
    pub in_guards: bool,
}

/// Whether a function of the module erlang gives a float.
pub fn gives_float(name: &str, count: usize) -> bool
    ensures { result ≡ is_float_function (chars name.now) count }
{
    let divides = is_word(name, "/");
    let makes = is_word(name, "float");
    divides & (count == 2) | makes & (count == 1)
}

/// The listed function of this name with so many arguments.
fn listed(alloc: Global, name: &str, count: usize) -> Result<Option<Bif>, NoMemory>
    requires { count ≤ 4294967295 }
    ensures { IfOk result (λ found. option_map bif_view found ≡ lookup (chars name.now) count) }
{
    let key = FunKey {
        name: Name::from_text(alloc, name)?,
        arity: count as u32,
    };
    Ok(lookup(&key))
}

/// A call of a function of the module erlang.
fn erlang_callee(alloc: Global, name: &str, count: usize) -> Result<Called, NoMemory>
    requires { count ≤ 4294967295 }
    ensures returns { IfOk result (λ called. called.never_returns
        ≡ never_returns (codes "erlang") (chars name.now) count) }
    ensures guards { IfOk result (λ called. called.in_guards ≡ is_guard_function (chars name.now) count) }
{
    match listed(alloc, name, count)? {
        Some(bif) => {
            let in_guards = is_guard(bif);
            Ok(Called {
                never_returns: !in_guards,
                in_guards,
            })
        }
        None => Ok(Called {
            never_returns: false,
            in_guards: gives_float(name, count),
        }),
    }
}

/// A call with so many arguments.
fn callee_of(alloc: Global, home: &Expr, function: &Expr, count: usize) -> Result<Called, NoMemory>
    requires { count ≤ 4294967295 }
    ensures returns { IfOk result (λ called. called.never_returns
        ≡ never_returns (literal_name (view home.now)) (literal_name (view function.now)) count) }
    ensures guards { IfOk result (λ called. called.in_guards
        ≡ (same_name (literal_name (view home.now)) (codes "erlang")
        && is_guard_function (literal_name (view function.now)) count)) }
{
    if !is_word(literal_name(home), "erlang") {
        return Ok(Called {
            never_returns: false,
            in_guards: false,
        });
    }
    erlang_callee(alloc, literal_name(function), count)
}

/// A call of this function of this module, with these arguments.
pub fn callee(
    alloc: Global,
    home: &Boxed<Expr>,
    function: &Boxed<Expr>,
    arguments: &Exprs,
) -> Result<Called, NoMemory>
    ensures returns { IfOk result (λ called. called.never_returns
        ≡ never_returns (literal_name (view home.now)) (literal_name (view function.now))
        (expr_count (exprs (map view arguments.now)))) }
    ensures guards { IfOk result (λ called. called.in_guards
        ≡ (same_name (literal_name (view home.now)) (codes "erlang")
        && is_guard_function (literal_name (view function.now)) (expr_count (exprs (map view arguments.now))))) }
{
    callee_of(alloc, home.get(), function.get(), arguments.len())
}

/// The degree of what has one value, if it returns.
pub fn one_unless(never_returns: bool) -> Option<u64>
    ensures { result ≡ one_unless never_returns }
{
    if never_returns { None } else { Some(1) }
}

/// The primops that never return.
pub fn is_raising_primop(name: &Name) -> bool
    ensures { result ≡ is_raising_primop name.now }
{
    let name = name.as_str();
    let fails = is_word(name, "match_fail");
    let raises = is_word(name, "raise");
    fails | raises
}
