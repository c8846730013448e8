// The characters of names.
ghost use Rattle.std.specs.Prelude.{◌≡◌, chars, IfOk};

use erl_base::Name;
use std::alloc::{AllocError, Global};

fn characters(alloc: Global, text: &str) -> Result<Vec<char>, AllocError>
    ensures { IfOk result (λ found. found.items ≡ chars text.now) }
{
    text.chars().collect(alloc)
}

/// The characters of a name.
pub fn characters_of(alloc: Global, name: &Name) -> Result<Vec<char>, AllocError>
    ensures { IfOk result (λ found. found.items ≡ name.now) }
{
    characters(alloc, name.as_str())
}
