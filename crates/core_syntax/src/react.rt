// What a token does to all that is to be read.
ghost use Rattle.std.specs.Prelude.{IfOk};
ghost use Rattle.core_syntax.specs.Reactions.{react, Tells};

use crate::item::Shape;
use crate::outcome::Outcome;
use crate::rests::{at_item, passed};
use crate::stack::Stack;
use core_lex::Token;
use erl_base::NoMemory;

/// Passes what need not stand there, and then takes the token or refuses it.
pub fn react(stack: &mut Stack, token: &Token, shape: Shape) -> Result<Outcome, NoMemory>
    ensures { IfOk result (λ told. Tells (react token.now stack.old shape) told stack.new) }
{
    let mut last = shape;
    while let Some(entry) = stack.pop() {
        match passed(&token.kind, entry.item, last) {
            Some(now) => last = now,
            None => return at_item(stack, token, entry, last),
        }
    }
    Ok(Outcome::Refused)
}
