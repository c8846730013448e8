//! Laws of the texts of Core Erlang: what their tokens are, and that every list of tokens has its one answer.
//!
//! `module 'm' [] attributes [] end` is a text, and of one tree alone. Without its first `[` the fault is the `]`:
//! `module 'm'` begins texts and `module 'm' ]` begins none. Where braces stand in braces, and so on, the fault is the
//! first token deeper than 2,000. No tokens are two of these at once, and closed ones, which end with the end of the
//! text or with a bad token, are one of them.
//!
//! Why: the grammar is a stack of plans (proofs/Plans.antt, proofs/Stacks.antt). A plan is what is still to come of a
//! part of a text, and takes one token a step, without looking further ahead. Three facts hold of every step: what was
//! read begins a text, since each plan can be ended; a token that a text goes on with is taken; and the depth that the
//! step tells is the least that the token has in such texts.
//!
//! The public functions have no code: the contract of each is a law. No reader of tokens is here.
#![tactic(auto)]

ghost use Rattle.std.specs.Prelude.{List};
ghost use Rattle.core_lex.specs.declared.token.Token.{Token};
ghost use Rattle.core_lex.specs.Tokens.{IsClosed};
ghost use Rattle.core_texts.specs.Answers.{OneTree, OnePlace, OneAnswer, TextAnswer};
ghost use Rattle.core_texts.specs.Examples.{FaultExamples, DepthExamples};

/// A text has one tree, places included.
pub fn a_text_has_one_tree()
    ensures { OneTree }
{}

/// Each fault of tokens has one place.
#[tactic(auto, using(crate::proofs::Faults::one_place))]
pub fn a_fault_has_one_place()
    ensures { (ts : List Token) → OnePlace ts }
{}

/// Tokens have at most one answer.
#[tactic(auto, using(crate::proofs::Faults::one_answer))]
pub fn tokens_have_one_answer()
    ensures { (ts : List Token) → OneAnswer ts }
{}

/// Closed tokens have an answer: they are a text within the depth, or have a first fault.
pub fn closed_tokens_have_an_answer()
    ensures { (ts : List Token) → IsClosed ts → TextAnswer ts }
{}

/// Texts are refused at the token that no text goes on with.
#[tactic(auto, using(crate::proofs::Computed::fault_examples))]
pub fn faults_stand_where_they_may()
    ensures { FaultExamples }
{}

/// Where a text breaks off its last token is as deep as it is at least.
#[tactic(auto, using(crate::proofs::Depths::depth_examples))]
pub fn texts_that_break_off_are_as_deep_as_they_must()
    ensures { DepthExamples }
{}
