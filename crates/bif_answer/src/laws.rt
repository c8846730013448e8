ghost use Rattle.std.specs.Prelude.{List, All, IsTrue};
ghost use Rattle.erl_term.specs.Term as P;
ghost use Rattle.erl_term.specs.Ranges.{is_narrow};
ghost use Rattle.bif_table.specs.BuiltinAnswer as B;
ghost use Rattle.bif_table.specs.Builtins.{Bif};
ghost use Rattle.bif_answer.specs.Answers.{IsNarrowOrInteger};

/// Only an integer that is the answer itself can leave 128 signed bits, where the arguments do not.
#[tactic(auto, using(crate::proofs::Narrow::narrow))]
pub fn only_integers_leave_the_range()
    ensures { (bif : Bif) (own : P.Term) (args : List P.Term) → IsTrue (is_narrow own)
        → All (λ arg. IsTrue (is_narrow arg)) args → IsNarrowOrInteger (B.answer bif own args) }
{}
