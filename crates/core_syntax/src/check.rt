// The loop over tokens.
ghost use Rattle.std.specs.Prelude.{◌≡◌, IfOk, IfErr};
ghost use Rattle.erl_base.specs.declared.refusal.Fault.TheVariants.{Refused};
ghost use Rattle.core_lex.specs.Tokens.{IsClosed};
ghost use Rattle.core_grammar.specs.Texts.{IsParseFault};
ghost use Rattle.core_syntax.specs.Judged.{IsText};

use crate::item::{Item, Part, Shape};
use crate::outcome::Outcome;
use crate::react::react;
use crate::stack::Stack;
use core_lex::Tokens;
use erl_base::{Fault, Kind, LimitName, Place, Refusal};
use std::alloc::Global;

/// The depth of the first token that is too deep.
const FIRST_TOO_DEEP: u64 = 2001;

/// Whether the tokens are the text of a module that nests no deeper than it may, or else their first fault.
pub fn check_syntax(alloc: Global, tokens: &Tokens) -> Result<(), Fault>
    requires closed { IsClosed tokens.now }
    ensures ok { IfOk result (λ done. IsText tokens.now) }
    ensures refused { IfErr result (λ fault. IsParseFault tokens.now fault) }
{
    let mut stack = Stack::new(alloc);
    stack.push(0, Item::End)?;
    stack.push(0, Item::Part(Part::Module))?;
    let mut shape = Shape::Other;
    for token in tokens.as_slice() {
        match react(&mut stack, token, shape)? {
            Outcome::Taken(now) => shape = now,
            Outcome::Refused => return Err(fault(Kind::Syntax, token.place)),
            Outcome::TooDeep => {
                return Err(fault(Kind::Limit(LimitName::Nesting, FIRST_TOO_DEEP), token.place));
            }
        }
    }
    Ok(())
}

fn fault(kind: Kind, place: Place) -> Fault
    ensures { result ≡ Refused (record { kind = kind; place = place }) }
{
    Fault::Refused(Refusal { kind, place })
}
