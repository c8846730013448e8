// Patterns, one function for each form.
ghost use Rattle.std.specs.Prelude.{◌≡◌, IfOk, IsOkAnd};
ghost use Rattle.core_form.specs.declared.tree.PatternForm.TheVariants as form;

use crate::{KeyPatterns, Pattern, PatternForm, Patterns, SegPatterns};
use erl_base::{Boxed, Name, NoMemory, Place, both};
use erl_term::Term;
use std::alloc::Global;

pub fn var(
    alloc: Global,
    place: Place,
    name: Result<Name, NoMemory>,
) -> Result<Boxed<Pattern>, NoMemory>
    ensures { IfOk result (λ made. IsOkAnd name (λ n. made ≡ record { place = place; form = form.Var n })) }
{
    boxed(alloc, place, PatternForm::Var(name?))
}

pub fn alias(
    alloc: Global,
    place: Place,
    name: Result<Name, NoMemory>,
    inner: Result<Boxed<Pattern>, NoMemory>,
) -> Result<Boxed<Pattern>, NoMemory>
    ensures { IfOk result (λ made. IsOkAnd name (λ n. IsOkAnd inner (λ i.
        made ≡ record { place = place; form = form.Alias n i }))) }
{
    let (name, inner) = both(name, inner)?;
    boxed(alloc, place, PatternForm::Alias(name, inner))
}

pub fn literal(
    alloc: Global,
    place: Place,
    term: Result<Term, NoMemory>,
) -> Result<Boxed<Pattern>, NoMemory>
    ensures { IfOk result (λ made. IsOkAnd term (λ t. made ≡ record { place = place; form = form.Literal t })) }
{
    boxed(alloc, place, PatternForm::Literal(term?))
}

pub fn list(
    alloc: Global,
    place: Place,
    items: Result<Patterns, NoMemory>,
    tail: Result<Boxed<Pattern>, NoMemory>,
) -> Result<Boxed<Pattern>, NoMemory>
    ensures { IfOk result (λ made. IsOkAnd items (λ xs. IsOkAnd tail (λ t.
        made ≡ record { place = place; form = form.List xs t }))) }
{
    let (items, tail) = both(items, tail)?;
    boxed(alloc, place, PatternForm::List(items, tail))
}

pub fn tuple(
    alloc: Global,
    place: Place,
    items: Result<Patterns, NoMemory>,
) -> Result<Boxed<Pattern>, NoMemory>
    ensures { IfOk result (λ made. IsOkAnd items (λ xs. made ≡ record { place = place; form = form.Tuple xs })) }
{
    boxed(alloc, place, PatternForm::Tuple(items?))
}

pub fn map(
    alloc: Global,
    place: Place,
    keys: Result<KeyPatterns, NoMemory>,
) -> Result<Boxed<Pattern>, NoMemory>
    ensures { IfOk result (λ made. IsOkAnd keys (λ ks. made ≡ record { place = place; form = form.Map ks })) }
{
    boxed(alloc, place, PatternForm::Map(keys?))
}

pub fn binary(
    alloc: Global,
    place: Place,
    segments: Result<SegPatterns, NoMemory>,
) -> Result<Boxed<Pattern>, NoMemory>
    ensures { IfOk result (λ made. IsOkAnd segments (λ ss. made ≡ record { place = place; form = form.Binary ss })) }
{
    boxed(alloc, place, PatternForm::Binary(segments?))
}

fn boxed(alloc: Global, place: Place, form: PatternForm) -> Result<Boxed<Pattern>, NoMemory>
    ensures { IfOk result (λ made. made ≡ record { place = place; form = form }) }
{
    Boxed::new(alloc, Pattern { place, form })
}
