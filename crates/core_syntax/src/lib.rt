//! Whether tokens are the text of a module, and where they have their first fault if they are none. It makes no tree.
//!
//! `module 'm' [] attributes [] end` is a text. Without its first `[` the fault is the `]`; a token deeper than 2,000
//! is refused for its depth.
//!
//! A stack has what is still to be read, the next item on top: a symbol, a word, a part of the text, or what goes on
//! behind one. A token that a part may begin with is taken, and what follows it in the part is put on the stack; what
//! need not stand there is passed. So a text is gone through once, by one loop, and no call goes into itself.
//!
//! Why it is exact: what is on the stack is what the plan of the grammar reads next (core_texts), part by part, and
//! each of the two takes a token exactly where the other does, at one depth. So the answer is that of the plan, which
//! core_texts proves to be the only one.
//!
//! The catch: a bracket before a clause may be its own or its first pattern's. Which one it was is known at the inner
//! `-|` or `when`, and so what was read last is told to what goes on behind it, as a `Shape`.
#![tactic(auto)]

mod check;
mod constants;
mod item;
mod kinds;
mod outcome;
mod parts;
mod react;
mod rests;
mod sort;
mod stack;
mod trees;

pub use check::check_syntax;
