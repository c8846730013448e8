ghost use Rattle.std.specs.Prelude.{◌≡◌, ◌≤◌, ◌↔◌, List, ℕ, Some, IsTrue, IsUtf8, chars};
ghost use Rattle.erl_term.specs.Term as Plain;
ghost use Rattle.erl_term.specs.Depth.{depth};
ghost use Rattle.erl_term.specs.WellFormed.{maps_rise};
ghost use Rattle.term_text.specs.TermText.{term_on, printed};
ghost use Rattle.term_read.specs.TermGrammar.{ReadsTerm, IsTermText, most_nesting};
ghost use Rattle.term_read.specs.Reading.{read_by};
ghost use Rattle.term_read.specs.Printed.{Ends};
ghost use Rattle.erl_term.specs.Ranges.{fits};

/// A text has at most one term.
pub fn text_has_one_term()
    ensures { (bytes : List ℕ) (t u : Plain.Term) → IsTermText bytes t → IsTermText bytes u → t ≡ u }
{}

/// The printed text of a term is read again, whatever follows it that goes on neither a word nor a number: for terms
/// with the program's numbers, nested at most 2,100 deep, whose maps have rising keys. So its bytes are a text of the
/// term.
pub fn printed_terms_are_read()
    ensures characters { (t : Plain.Term) (r : List ℕ) → depth t ≤ most_nesting → IsTrue (fits t) → IsTrue (maps_rise t)
        → Ends r → ReadsTerm most_nesting (term_on t r) t r }
    ensures bytes { (bytes : List ℕ) (t : Plain.Term) → IsUtf8 bytes → chars bytes ≡ printed t
        → depth t ≤ most_nesting → IsTrue (fits t) → IsTrue (maps_rise t) → IsTermText bytes t }
{}

/// The functions that the reader's calls equal read the texts of terms, and nothing else.
pub fn reading_decides_the_grammar()
    ensures { (d : ℕ) (cs ds : List ℕ) (t : Plain.Term) → (read_by d cs ≡ Some (t, ds)) ↔ ReadsTerm d cs t ds }
{}
