// Lists with one more item.
ghost use Rattle.std.specs.Prelude.{◌≡◌, ◌++◌, [], ◌∷◌, IfOk, IsOkAnd};

use crate::{
    Clause, Clauses, Def, Defs, Expr, Exprs, KeyPattern, KeyPatterns, MapPart, MapParts, Pattern,
    Patterns, SegPattern, SegPatterns, Segment, Segments,
};
use erl_base::{Boxed, List, NoMemory};

fn with<T: Drop>(
    list: Result<List<T>, NoMemory>,
    item: Result<Boxed<T>, NoMemory>,
) -> Result<List<T>, NoMemory>
    ensures { IfOk result (λ more. IsOkAnd list (λ xs. IsOkAnd item (λ x. more ≡ xs ++ x ∷ []))) }
{
    let mut list = list?;
    list.push(item?.into_inner())?;
    Ok(list)
}

pub fn and_expr(
    list: Result<Exprs, NoMemory>,
    item: Result<Boxed<Expr>, NoMemory>,
) -> Result<Exprs, NoMemory>
    ensures { IfOk result (λ more. IsOkAnd list (λ xs. IsOkAnd item (λ x. more ≡ xs ++ x ∷ []))) }
{
    with(list, item)
}

pub fn and_part(
    list: Result<MapParts, NoMemory>,
    item: Result<Boxed<MapPart>, NoMemory>,
) -> Result<MapParts, NoMemory>
    ensures { IfOk result (λ more. IsOkAnd list (λ xs. IsOkAnd item (λ x. more ≡ xs ++ x ∷ []))) }
{
    with(list, item)
}

pub fn and_segment(
    list: Result<Segments, NoMemory>,
    item: Result<Boxed<Segment>, NoMemory>,
) -> Result<Segments, NoMemory>
    ensures { IfOk result (λ more. IsOkAnd list (λ xs. IsOkAnd item (λ x. more ≡ xs ++ x ∷ []))) }
{
    with(list, item)
}

pub fn and_def(
    list: Result<Defs, NoMemory>,
    item: Result<Boxed<Def>, NoMemory>,
) -> Result<Defs, NoMemory>
    ensures { IfOk result (λ more. IsOkAnd list (λ xs. IsOkAnd item (λ x. more ≡ xs ++ x ∷ []))) }
{
    with(list, item)
}

pub fn and_clause(
    list: Result<Clauses, NoMemory>,
    item: Result<Boxed<Clause>, NoMemory>,
) -> Result<Clauses, NoMemory>
    ensures { IfOk result (λ more. IsOkAnd list (λ xs. IsOkAnd item (λ x. more ≡ xs ++ x ∷ []))) }
{
    with(list, item)
}

pub fn and_pattern(
    list: Result<Patterns, NoMemory>,
    item: Result<Boxed<Pattern>, NoMemory>,
) -> Result<Patterns, NoMemory>
    ensures { IfOk result (λ more. IsOkAnd list (λ xs. IsOkAnd item (λ x. more ≡ xs ++ x ∷ []))) }
{
    with(list, item)
}

pub fn and_key(
    list: Result<KeyPatterns, NoMemory>,
    item: Result<Boxed<KeyPattern>, NoMemory>,
) -> Result<KeyPatterns, NoMemory>
    ensures { IfOk result (λ more. IsOkAnd list (λ xs. IsOkAnd item (λ x. more ≡ xs ++ x ∷ []))) }
{
    with(list, item)
}

pub fn and_seg_pattern(
    list: Result<SegPatterns, NoMemory>,
    item: Result<Boxed<SegPattern>, NoMemory>,
) -> Result<SegPatterns, NoMemory>
    ensures { IfOk result (λ more. IsOkAnd list (λ xs. IsOkAnd item (λ x. more ≡ xs ++ x ∷ []))) }
{
    with(list, item)
}
