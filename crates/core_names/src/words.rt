// Names that have a meaning of their own, and the atoms that terms and literals are.
ghost use Rattle.std.specs.Prelude.{◌≡◌, chars, IsTrue, nat_lt};
ghost use Rattle.std.specs.List.{list_all};
ghost use Rattle.erl_base.specs.Names.{same_name};
ghost use Rattle.erl_term.specs.View as Terms;
ghost use Rattle.core_form.specs.SourceTree.{is_flag};
ghost use Rattle.core_form.specs.Walks.{literal_name};
ghost use Rattle.core_form.specs.View.{view};
ghost use Rattle.core_names.specs.Readings.{atom_in};

use core_form::{Expr, ExprForm};
use erl_term::Term;

/// Whether a name is a word of ASCII.
pub fn is_word(name: &str, word: &str) -> bool
    requires ascii { IsTrue (list_all (λ c. nat_lt c 128) word.now) }
    ensures { result ≡ same_name (chars name.now) word.now }
{
    name == word
}

/// The atom that a literal is, and the empty name where it is none.
#[tactic(auto, using(crate::proofs::Spelling::nothing_spelled, crate::proofs::Spelling::literal_spelled))]
pub fn literal_name(expr: &Expr) -> &str
    ensures { chars result.now ≡ literal_name (view expr.now) }
{
    if let ExprForm::Literal(term) = &expr.form {
        return atom_of(term);
    }
    ""
}

/// The atom that a term is. A list without items is its tail.
pub fn atom_of(term: &Term) -> &str
    ensures { chars result.now ≡ atom_in (Terms.view term.now) }
{
    match term {
        Term::Atom(name) => name.as_str(),
        Term::List(items, tail) => {
            if items.is_empty() {
                atom_of(tail.get())
            } else {
                ""
            }
        }
        Term::Int(_)
        | Term::Nil
        | Term::Tuple(_)
        | Term::Map(_)
        | Term::Bits(_)
        | Term::Fun(..)
        | Term::Extern(..)
        | Term::Pid(_)
        | Term::Reference(_)
        | Term::Port(_)
        | Term::RawTrace(_) => "",
    }
}

/// Whether a term is a flag of a segment: its sign, or its order of bytes.
pub fn is_flag(term: &Term) -> bool
    ensures { result ≡ is_flag (Terms.view term.now) }
{
    let name = atom_of(term);
    let signed = is_word(name, "signed");
    let unsigned = is_word(name, "unsigned");
    let big = is_word(name, "big");
    let little = is_word(name, "little");
    signed | unsigned | big | little
}
