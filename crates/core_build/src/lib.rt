//! What is built of the tokens of a text, token by token: the module that the text stands for. It has definitions
//! and their law, and no parser; a parser's types for what is still to be read are here.
//!
//! There are two stacks, of items that are still to be read and of values that were read. A token first passes items
//! that need not stand at it, and then the item on top takes it, in whose place others are put (specs/Steps.antt).
//! Behind `fun (X) ->` the stacks have, the top first,
//!
//! ```text
//! items    an expression, put together the fun at its place, ..
//! values   variables X, ..
//! ```
//!
//! and behind `fun (X) -> X`, where the fun is put together, the value is `fun [X] (var X)` (specs/Making.antt).
//! Annotations are dropped before (specs/Building.antt), so that `( X -| [1] )` is read as `( X )`.
//!
//! Sound, since of each text just the module is built that the grammar has for it: one induction over what is
//! written, a form by what is known of its parts. The catch: no token tells whether a bracket before a clause is the
//! clause's own or its first pattern's. So a clause is read in it, and both ways to go on behind it are left as items
//! that may be passed.
//!
//! Of tokens that are no text it says something or nothing: that they have a fault, and where, says the grammar.
//!
//! The public functions have no code: the contract of each is a law.
#![tactic(auto)]

mod item;

ghost use Rattle.std.specs.Prelude.{◌≡◌, List, Some};
ghost use Rattle.core_lex.specs.declared.token.Token.{Token};
ghost use Rattle.core_form.specs.Core.{Module};
ghost use Rattle.core_grammar.specs.Texts.{ModuleText};
ghost use Rattle.core_build.specs.Building.{built};
ghost use Rattle.core_build.specs.SmallTexts.{SmallTexts};

use core_actions::{binaries_are_read, expressions_are_read, patterns_are_read};
pub use item::{Item, Make, Row};

/// The module of a text is what is built of its tokens.
pub fn texts_are_built()
    ensures { (ts : List Token) (m : Module) → ModuleText ts m → built ts ≡ Some m }
{
    expressions_are_read();
    patterns_are_read();
    binaries_are_read();
}

/// Of small texts their modules are built, places included.
#[tactic(auto, using(crate::proofs::SmallTexts::small_texts))]
pub fn small_texts_are_built()
    ensures { SmallTexts }
{}
