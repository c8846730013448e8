//! The grammar of Core Erlang over tokens, both ways: which tokens are the text of a module, of which one, and where
//! tokens that are none have their first fault. It has definitions and their laws, and no parser.
//!
//! A written module is a plain tree with all that its text has (specs/WrittenTree.antt). Where a form may stand say the
//! tables of specs/Standing.antt, and its tokens, with their depths, specs/Signs.antt. `fun (X) -> X` at 1:42 is
//!
//! ```text
//! fun 1:42 (more (variable 1:47 X) none) (variable 1:53 X)
//! fun at 1:42   (   X at 1:47   )   ->   X at 1:53        each 1 deep, the last one 2
//! ```
//!
//! and stands for the expression `fun 1:42 [X at 1:47] (var 1:53 X)` (specs/ModuleOf.antt): annotations are dropped,
//! what is one constant is one literal, and a list in the tail of a list is the same list.
//!
//! A place of a fault is defined by beginnings of texts alone (specs/Texts.antt): no reader's state is in it. So the
//! same tokens may begin several trees; a bracket before a clause is its own or its first pattern's until `when` or
//! `-|` tells, and its depth counts as the less of the two.
//!
//! The public functions have no code: the contract of each is a law, or names examples that tell the grammar from a
//! wrong one.
#![tactic(auto)]

ghost use Rattle.std.specs.Prelude.{List};
ghost use Rattle.core_lex.specs.declared.token.Token.{Token};
ghost use Rattle.core_form.specs.Core.{Module};
ghost use Rattle.core_form.specs.SourceTree.{IsSourceTree};
ghost use Rattle.core_grammar.specs.Texts.{ModuleText};
ghost use Rattle.core_grammar.specs.Examples.{WrittenAsRead, StandsWhere, DeepAs, ReadsAs, TextExamples};

/// What a text gives has the shape that sources have: what could be one constant is one, a list goes on in no list, and
/// names, arities and numbers are such as can be written.
pub fn texts_give_source_trees()
    ensures { (ts : List Token) (m : Module) → ModuleText ts m → IsSourceTree m }
{}

/// Each form stands where the grammar has it, and nowhere else.
#[tactic(auto, using(crate::proofs::Computed::stands_where))]
pub fn forms_stand_where_they_may()
    ensures { StandsWhere }
{}

/// Tokens are as deep as what holds them.
#[tactic(auto, using(crate::proofs::Computed::deep_as))]
pub fn tokens_are_as_deep_as_what_holds_them()
    ensures { DeepAs }
{}

/// Constants are one literal, lists go on in their tails, and annotations are dropped.
#[tactic(auto, using(crate::proofs::Computed::reads_as))]
pub fn trees_read_as_modules()
    ensures { ReadsAs }
{}

/// Each form is written with its words and symbols in their order.
#[tactic(auto, using(crate::proofs::Computed::written_as_read))]
pub fn forms_are_written_as_they_are_read()
    ensures { WrittenAsRead }
{}

/// A text stands for its module, places included.
#[tactic(auto, using(crate::proofs::Computed::text_examples))]
pub fn a_text_stands_for_its_module()
    ensures { TextExamples }
{}
