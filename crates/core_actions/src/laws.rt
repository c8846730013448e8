ghost use Rattle.core_actions.specs.ReadLaws.{ReadsExpressions, ReadsPatterns, ReadsBinaries};

/// What is kept of an expression gives the expression that the grammar reads, the constant that it is, and its numbers;
/// lists, tuples and maps are put together of what is kept of their parts.
#[tactic(auto, using(crate::proofs::Constants::reads_expressions))]
pub fn expressions_are_read()
    ensures { ReadsExpressions }
{}

/// The same of patterns.
#[tactic(auto, using(crate::proofs::Constants::reads_patterns))]
pub fn patterns_are_read()
    ensures { ReadsPatterns }
{}

/// The same of segments and binaries.
#[tactic(auto, using(crate::proofs::BinaryRows::reads_binaries))]
pub fn binaries_are_read()
    ensures { ReadsBinaries }
{}
