// The patterns of a clause: what they look up, and what they bind.
ghost use Rattle.std.specs.Prelude.{◌≡◌, ◌∷◌, [], length, map, Some, IfOk, OnOk};
ghost use Rattle.core_form.specs.View.{view, pattern_view, patterns, keys, segs};
ghost use Rattle.core_names.specs.Readings.{key_view, seg_view};
ghost use Rattle.core_scope.specs.ScopeFaults.{simple_use};
ghost use Rattle.core_scope.specs.ScopeWalk.{pattern_scope, patterns_scope, keys_scope, segs_scope, pattern_met, patterns_met, keys_met, segs_met, pattern_uses_met, patterns_uses_met, keys_uses_met, segs_uses_met};
ghost use Rattle.first_fault.specs.FirstFault.{first_with};

use crate::bindings::{bind_variable, keep_variable};
use core_form::{Expr, ExprForm, KeyPattern, Pattern, PatternForm, SegPattern};
use core_names::Names;
use erl_base::{Boxed, NoMemory, Refusal};

// Binds the variables of a pattern, in a clause that began where `base` bindings stood.
#[cycle(bind)]
pub fn bind_pattern(
    pattern: &Pattern,
    names: &mut Names,
    base: u64,
    first: Option<Refusal>,
) -> Result<Option<Refusal>, NoMemory>
    ensures first { IfOk result (λ found. found ≡ pattern_met (pattern_view pattern.now) base names.old first) }
    ensures names { OnOk result (names.new ≡ pattern_scope (pattern_view pattern.now) names.old) }
{
    match &pattern.form {
        PatternForm::Var(name) => bind_variable(names, base, name, pattern.place, first),
        PatternForm::Alias(name, inner) => {
            let first = bind_variable(names, base, name, pattern.place, first)?;
            bind_boxed(inner, names, base, first)
        }
        PatternForm::Literal(_) => Ok(first),
        PatternForm::List(items, tail) => {
            let first = bind_patterns(items.as_slice(), names, base, first)?;
            bind_boxed(tail, names, base, first)
        }
        PatternForm::Tuple(items) => bind_patterns(items.as_slice(), names, base, first),
        PatternForm::Map(items) => bind_keys(items.as_slice(), names, base, first),
        PatternForm::Binary(items) => bind_segs(items.as_slice(), names, base, first),
    }
}

#[cycle(bind)]
fn bind_boxed(
    pattern: &Boxed<Pattern>,
    names: &mut Names,
    base: u64,
    first: Option<Refusal>,
) -> Result<Option<Refusal>, NoMemory>
    ensures first { IfOk result (λ found. found ≡ pattern_met (pattern_view pattern.now) base names.old first) }
    ensures names { OnOk result (names.new ≡ pattern_scope (pattern_view pattern.now) names.old) }
{
    bind_pattern(pattern.get(), names, base, first)
}

#[cycle(bind)]
pub fn bind_patterns(
    items: &[Pattern],
    names: &mut Names,
    base: u64,
    first: Option<Refusal>,
) -> Result<Option<Refusal>, NoMemory>
    ensures first { IfOk result (λ found. found
        ≡ patterns_met (patterns (map pattern_view items.now)) base names.old first) }
    ensures names { OnOk result (names.new ≡ patterns_scope (patterns (map pattern_view items.now)) names.old) }
{
    let mut first = first;
    for item in items {
        first = bind_pattern(item, names, base, first)?;
    }
    Ok(first)
}

#[cycle(bind)]
fn bind_key(
    key: &KeyPattern,
    names: &mut Names,
    base: u64,
    first: Option<Refusal>,
) -> Result<Option<Refusal>, NoMemory>
    ensures first { IfOk result (λ found. found ≡ keys_met (keys (key_view key.now ∷ [])) base names.old first) }
    ensures names { OnOk result (names.new ≡ keys_scope (keys (key_view key.now ∷ [])) names.old) }
{
    bind_pattern(&key.pattern, names, base, first)
}

#[cycle(bind)]
fn bind_keys(
    items: &[KeyPattern],
    names: &mut Names,
    base: u64,
    first: Option<Refusal>,
) -> Result<Option<Refusal>, NoMemory>
    ensures first { IfOk result (λ found. found ≡ keys_met (keys (map key_view items.now)) base names.old first) }
    ensures names { OnOk result (names.new ≡ keys_scope (keys (map key_view items.now)) names.old) }
{
    let mut first = first;
    for item in items {
        first = bind_key(item, names, base, first)?;
    }
    Ok(first)
}

#[cycle(bind)]
fn bind_seg(
    segment: &SegPattern,
    names: &mut Names,
    base: u64,
    first: Option<Refusal>,
) -> Result<Option<Refusal>, NoMemory>
    ensures first { IfOk result (λ found. found ≡ segs_met (segs (seg_view segment.now ∷ [])) base names.old first) }
    ensures names { OnOk result (names.new ≡ segs_scope (segs (seg_view segment.now ∷ [])) names.old) }
{
    bind_pattern(&segment.value, names, base, first)
}

#[cycle(bind)]
fn bind_segs(
    items: &[SegPattern],
    names: &mut Names,
    base: u64,
    first: Option<Refusal>,
) -> Result<Option<Refusal>, NoMemory>
    ensures first { IfOk result (λ found. found ≡ segs_met (segs (map seg_view items.now)) base names.old first) }
    ensures names { OnOk result (names.new ≡ segs_scope (segs (map seg_view items.now)) names.old) }
{
    let mut first = first;
    for item in items {
        first = bind_seg(item, names, base, first)?;
    }
    Ok(first)
}

// A key or a size, which is a use where it is a variable.
fn keep_simple(names: &Names, expr: &Expr, first: Option<Refusal>) -> Option<Refusal>
    ensures { result ≡ first_with first (simple_use names.now (view expr.now)) }
{
    if let ExprForm::Var(name) = &expr.form {
        return keep_variable(names, expr.place, name, first);
    }
    first
}

// What the keys and sizes of a pattern look up.
#[cycle(look)]
fn look_in_pattern(
    pattern: &Pattern,
    names: &mut Names,
    first: Option<Refusal>,
) -> Result<Option<Refusal>, NoMemory>
    ensures first { IfOk result (λ found. found ≡ pattern_uses_met (pattern_view pattern.now) names.old first) }
    ensures names { OnOk result (names.new ≡ names.old) }
{
    match &pattern.form {
        PatternForm::Var(_) => Ok(first),
        PatternForm::Alias(_, inner) => look_in_boxed(inner, names, first),
        PatternForm::Literal(_) => Ok(first),
        PatternForm::List(items, tail) => {
            let first = look_in_patterns(items.as_slice(), names, first)?;
            look_in_boxed(tail, names, first)
        }
        PatternForm::Tuple(items) => look_in_patterns(items.as_slice(), names, first),
        PatternForm::Map(items) => look_in_keys(items.as_slice(), names, first),
        PatternForm::Binary(items) => look_in_binary(items.as_slice(), names, first),
    }
}

#[cycle(look)]
fn look_in_boxed(
    pattern: &Boxed<Pattern>,
    names: &mut Names,
    first: Option<Refusal>,
) -> Result<Option<Refusal>, NoMemory>
    ensures first { IfOk result (λ found. found ≡ pattern_uses_met (pattern_view pattern.now) names.old first) }
    ensures names { OnOk result (names.new ≡ names.old) }
{
    look_in_pattern(pattern.get(), names, first)
}

#[cycle(look)]
pub fn look_in_patterns(
    items: &[Pattern],
    names: &mut Names,
    first: Option<Refusal>,
) -> Result<Option<Refusal>, NoMemory>
    ensures first { IfOk result (λ found. found
        ≡ patterns_uses_met (patterns (map pattern_view items.now)) names.old first) }
    ensures names { OnOk result (names.new ≡ names.old) }
{
    let mut first = first;
    for item in items {
        first = look_in_pattern(item, names, first)?;
    }
    Ok(first)
}

#[cycle(look)]
fn look_in_key(
    key: &KeyPattern,
    names: &mut Names,
    first: Option<Refusal>,
) -> Result<Option<Refusal>, NoMemory>
    ensures first { IfOk result (λ found. found ≡ keys_uses_met (keys (key_view key.now ∷ [])) names.old first) }
    ensures names { OnOk result (names.new ≡ names.old) }
{
    let first = keep_simple(names, &key.key, first);
    look_in_pattern(&key.pattern, names, first)
}

#[cycle(look)]
fn look_in_keys(
    items: &[KeyPattern],
    names: &mut Names,
    first: Option<Refusal>,
) -> Result<Option<Refusal>, NoMemory>
    ensures first { IfOk result (λ found. found ≡ keys_uses_met (keys (map key_view items.now)) names.old first) }
    ensures names { OnOk result (names.new ≡ names.old) }
{
    let mut first = first;
    for item in items {
        first = look_in_key(item, names, first)?;
    }
    Ok(first)
}

// A segment, whose variables the sizes behind it may be.
fn look_in_seg(
    segment: &SegPattern,
    names: &mut Names,
    first: Option<Refusal>,
) -> Result<Option<Refusal>, NoMemory>
    ensures first { IfOk result (λ found. found ≡ segs_uses_met (segs (seg_view segment.now ∷ [])) names.old first) }
    ensures names { OnOk result (names.new ≡ segs_scope (segs (seg_view segment.now ∷ [])) names.old) }
{
    let first = keep_simple(names, &segment.size, first);
    let base = names.len();
    bind_pattern(&segment.value, names, base, None)?;
    Ok(first)
}

fn look_in_segs(
    items: &[SegPattern],
    names: &mut Names,
    first: Option<Refusal>,
) -> Result<Option<Refusal>, NoMemory>
    ensures first { IfOk result (λ found. found ≡ segs_uses_met (segs (map seg_view items.now)) names.old first) }
    ensures names { OnOk result (names.new ≡ segs_scope (segs (map seg_view items.now)) names.old) }
{
    let mut first = first;
    for item in items {
        first = look_in_seg(item, names, first)?;
    }
    Ok(first)
}

// A binary, whose own variables end with it.
fn look_in_binary(
    items: &[SegPattern],
    names: &mut Names,
    first: Option<Refusal>,
) -> Result<Option<Refusal>, NoMemory>
    ensures first { IfOk result (λ found. found ≡ segs_uses_met (segs (map seg_view items.now)) names.old first) }
    ensures names { OnOk result (names.new ≡ names.old) }
{
    let base = names.len();
    let first = look_in_segs(items, names, first)?;
    names.leave(base);
    Ok(first)
}
