ghost use Rattle.std.specs.Prelude.{◌≡◌, ◌≤◌, ◌↔◌, List, [], ◌++◌, ℕ, Some, None, IsTrue, codes};
ghost use Rattle.std.specs.List.{list_all};
ghost use Rattle.erl_term.specs.Term as Plain;
ghost use Rattle.erl_term.specs.Depth.{depth};
ghost use Rattle.erl_term.specs.Ranges.{fits};
ghost use Rattle.erl_term.specs.WellFormed.{maps_rise};
ghost use Rattle.term_text.specs.TermText.{term_on};
ghost use Rattle.term_read.specs.Lexemes.{is_space, behind_blanks};
ghost use Rattle.term_read.specs.TermGrammar.{most_nesting};
ghost use Rattle.form_read.specs.Forms.{is_apart, IsForm, TextForm, AreForms, next_form};

/// The function that `next_form` equals gives the end exactly where nothing but blanks and comments is left, and else
/// exactly the form that stands there.
pub fn next_form_decides()
    ensures end { (cs : List ℕ) → (next_form cs ≡ Some None) ↔ (behind_blanks cs ≡ []) }
    ensures form { (cs ds : List ℕ) (t : Plain.Term) → (next_form cs ≡ Some (Some (t, ds))) ↔ IsForm cs t ds }
{}

/// Characters are the text of at most one row of forms.
pub fn text_has_one_row_of_forms()
    ensures { (total : ℕ) (cs : List ℕ) (fs gs : List TextForm) → AreForms total cs fs → AreForms total cs gs
        → fs ≡ gs }
{}

/// A term as it is printed, with blanks before it and a full stop behind it, is a form: for terms with the program's
/// numbers, nested at most 2,100 deep, whose maps have rising keys.
pub fn printed_forms_are_read()
    ensures { (indent : List ℕ) (t : Plain.Term) (r : List ℕ) → IsTrue (list_all is_space indent)
        → depth t ≤ most_nesting → IsTrue (fits t) → IsTrue (maps_rise t) → IsTrue (is_apart r)
        → IsForm (indent ++ term_on t (codes "." ++ r)) t r }
{}
