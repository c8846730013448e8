// Binding what a form binds, and leaving it.
ghost use Rattle.std.specs.Prelude.{◌≡◌, ◌-◌, map, length, drop, OnOk};
ghost use Rattle.core_form.specs.Scope.{with_names, names_of, bound, bound_all, bound_keys, bound_segs};
ghost use Rattle.core_form.specs.View.{def_view, pattern_view, defs, patterns, keys, segs};
ghost use Rattle.core_names.specs.Readings.{key_view, seg_view};
ghost use Rattle.core_sites.specs.Gathering.{named};

use core_form::{Binder, Def, KeyPattern, Pattern, PatternForm, SegPattern};
use core_names::Names;
use erl_base::{Boxed, NoMemory};

/// Binds variables in their order.
pub(crate) fn bind_vars(vars: &[Binder], names: &mut Names) -> Result<(), NoMemory>
    ensures ok { OnOk result (names.new ≡ with_names names.old (names_of vars.now)) }
{
    for var in vars {
        names.bind(&var.name)?;
    }
    Ok(())
}

/// Binds the functions of a group.
pub(crate) fn bind_defs(items: &[Def], names: &mut Names) -> Result<(), NoMemory>
    ensures ok { OnOk result (names.new ≡ named (defs (map def_view items.now)) names.old) }
{
    for item in items {
        names.bind_function(&item.key, 0)?;
    }
    Ok(())
}

/// Leaves the innermost bindings where there are more than so many.
pub(crate) fn leave_to(outside: u64, names: &mut Names)
    ensures { names.new ≡ drop (length names.old - outside) names.old }
{
    if outside <= names.len() {
        names.leave(outside);
    }
}

/// Binds the variables of a pattern.
#[cycle(bind)]
pub(crate) fn bind_pattern(pattern: &Pattern, names: &mut Names) -> Result<(), NoMemory>
    ensures ok { OnOk result (names.new ≡ with_names names.old (bound (pattern_view pattern.now))) }
{
    match &pattern.form {
        PatternForm::Var(name) => names.bind(name),
        PatternForm::Alias(name, inner) => {
            names.bind(name)?;
            bind_boxed(inner, names)
        }
        PatternForm::Literal(_) => Ok(()),
        PatternForm::List(items, tail) => {
            bind_patterns(items.as_slice(), names)?;
            bind_boxed(tail, names)
        }
        PatternForm::Tuple(items) => bind_patterns(items.as_slice(), names),
        PatternForm::Map(keys) => bind_keys(keys.as_slice(), names),
        PatternForm::Binary(segments) => bind_segs(segments.as_slice(), names),
    }
}

#[cycle(bind)]
fn bind_boxed(pattern: &Boxed<Pattern>, names: &mut Names) -> Result<(), NoMemory>
    ensures ok { OnOk result (names.new ≡ with_names names.old (bound (pattern_view pattern.now))) }
{
    bind_pattern(pattern.get(), names)
}

#[cycle(bind)]
pub(crate) fn bind_patterns(items: &[Pattern], names: &mut Names) -> Result<(), NoMemory>
    ensures ok { OnOk result (names.new ≡ with_names names.old (bound_all (patterns (map pattern_view items.now)))) }
{
    for item in items {
        bind_pattern(item, names)?;
    }
    Ok(())
}

#[cycle(bind)]
fn bind_key(key: &KeyPattern, names: &mut Names) -> Result<(), NoMemory>
    ensures ok { OnOk result (names.new ≡ with_names names.old (bound (pattern_view key.now.pattern))) }
{
    bind_pattern(&key.pattern, names)
}

#[cycle(bind)]
fn bind_keys(items: &[KeyPattern], names: &mut Names) -> Result<(), NoMemory>
    ensures ok { OnOk result (names.new ≡ with_names names.old (bound_keys (keys (map key_view items.now)))) }
{
    for item in items {
        bind_key(item, names)?;
    }
    Ok(())
}

#[cycle(bind)]
fn bind_seg(segment: &SegPattern, names: &mut Names) -> Result<(), NoMemory>
    ensures ok { OnOk result (names.new ≡ with_names names.old (bound (pattern_view segment.now.value))) }
{
    bind_pattern(&segment.value, names)
}

#[cycle(bind)]
fn bind_segs(items: &[SegPattern], names: &mut Names) -> Result<(), NoMemory>
    ensures ok { OnOk result (names.new ≡ with_names names.old (bound_segs (segs (map seg_view items.now)))) }
{
    for item in items {
        bind_seg(item, names)?;
    }
    Ok(())
}
