ghost use Rattle.std.specs.Prelude.{◌≡◌, IfOk, Ok};

use crate::memory::NoMemory;

/// Two parts of a whole, where both are there.
pub fn both<A: Drop, B: Drop>(
    first: Result<A, NoMemory>,
    second: Result<B, NoMemory>,
) -> Result<(A, B), NoMemory>
    ensures { IfOk result (λ pair. (first ≡ Ok pair.0) × (second ≡ Ok pair.1)) }
{
    match (first, second) {
        (Ok(first), Ok(second)) => Ok((first, second)),
        _ => Err(NoMemory),
    }
}

/// Three parts of a whole, where all are there.
pub fn three<A: Drop, B: Drop, C: Drop>(
    first: Result<A, NoMemory>,
    second: Result<B, NoMemory>,
    third: Result<C, NoMemory>,
) -> Result<(A, B, C), NoMemory>
    ensures { IfOk result (λ all. (first ≡ Ok all.0) × (second ≡ Ok all.1) × (third ≡ Ok all.2)) }
{
    let ((first, second), third) = both(both(first, second), third)?;
    Ok((first, second, third))
}

/// Lets a value go. A type that holds itself drops its parts through this call, so that their drops are no part of its
/// own.
pub fn let_go<T: Drop>(_value: T) {}
