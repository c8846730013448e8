// What a token does.
ghost use Rattle.std.specs.Prelude.{◌≡◌, ◌≤◌, suc, IfOk};
ghost use Rattle.core_syntax.specs.Beginnings.{on_test, stacked, taken};
ghost use Rattle.core_syntax.specs.Reactions.{Tells};

use crate::item::{Item, Shape};
use crate::stack::Stack;
use erl_base::NoMemory;

/// How deep a text may nest.
pub const MOST_DEPTH: u32 = 2000;

/// No text goes on with the token, the token is too deep, or it is taken; then what was read last counts as this.
#[derive(Clone, Copy, Debug)]
pub enum Outcome {
    Refused,
    TooDeep,
    Taken(Shape),
}

/// Takes a token where a test holds, and then these items are to be read.
pub fn take(
    stack: &mut Stack,
    holds: bool,
    depth: u32,
    items: &[Item],
    shape: Shape,
) -> Result<Outcome, NoMemory>
    ensures { IfOk result (λ told.
        Tells (on_test holds depth (stacked depth items.now stack.old) shape) told stack.new) }
{
    if !holds {
        return Ok(Outcome::Refused);
    }
    if depth > MOST_DEPTH {
        return Ok(Outcome::TooDeep);
    }
    stack.put(depth, items)?;
    Ok(Outcome::Taken(shape))
}

/// One deeper.
pub fn deeper(depth: u32) -> u32
    requires { depth ≤ 4000 }
    ensures { result ≡ suc depth }
{
    1 + depth
}
