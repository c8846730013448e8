// Terms taken apart.
ghost use Rattle.std.specs.Prelude.{◌≡◌, map, IfErr, IfOk, IsTrue, nat_lt};
ghost use Rattle.std.specs.List.{list_all};
ghost use Rattle.erl_base.specs.Names.{same_name};
ghost use Rattle.erl_term.specs.Comparing.{AllNormal};
ghost use Rattle.erl_term.specs.View.{view};
ghost use Rattle.erl_term.specs.WellFormed.{IsNormal};
ghost use Rattle.term_read.specs.Reading.{Gives};
ghost use Rattle.term_read.specs.declared.unread.Unread.TheVariants.{Syntax};
ghost use Rattle.insn_terms.specs.Reading as Plain;

use erl_base::Name;
use erl_term::Term;
use term_read::Unread;

/// The number that a term is.
pub fn number_of(term: &Term) -> Result<u128, Unread>
    requires { IsNormal term.now }
    ensures { Gives (λ n. n) result (Plain.number_of (view term.now)) }
{
    let number = integer_of(term)?;
    if number < 0 {
        return Err(Unread::Syntax);
    }
    Ok(number.unsigned_abs())
}

/// The integer that a term is.
pub fn integer_of(term: &Term) -> Result<i128, Unread>
    requires { IsNormal term.now }
    ensures { Gives (λ z. z) result (Plain.integer_of (view term.now)) }
{
    let Term::Int(number) = term else {
        return Err(Unread::Syntax);
    };
    Ok(*number)
}

/// The atom that a term is.
pub fn atom_of(term: &Term) -> Result<&Name, Unread>
    requires { IsNormal term.now }
    ensures value { Gives (λ a. a.now) result (Plain.atom_of (view term.now)) }
    ensures syntax { IfErr result (λ unread. unread ≡ Syntax) }
{
    let Term::Atom(name) = term else {
        return Err(Unread::Syntax);
    };
    Ok(name)
}

/// The elements of a tuple.
pub fn elements_of(term: &Term) -> Result<&[Term], Unread>
    requires { IsNormal term.now }
    ensures value { Gives (λ ts. map view ts.now) result (Plain.elements_of (view term.now)) }
    ensures syntax { IfErr result (λ unread. unread ≡ Syntax) }
    ensures normal { IfOk result (λ ts. AllNormal ts.now) }
{
    let Term::Tuple(items) = term else {
        return Err(Unread::Syntax);
    };
    Ok(items.as_slice())
}

/// The items of a proper list.
pub fn items_of(term: &Term) -> Result<&[Term], Unread>
    requires { IsNormal term.now }
    ensures value { Gives (λ ts. map view ts.now) result (Plain.items_of (view term.now)) }
    ensures normal { IfOk result (λ ts. AllNormal ts.now) }
{
    if let Term::Nil = term {
        return Ok(&[]);
    }
    let Term::List(items, tail) = term else {
        return Err(Unread::Syntax);
    };
    let Term::Nil = tail.get() else {
        return Err(Unread::Syntax);
    };
    Ok(items.as_slice())
}

/// A pair whose first element is an atom.
pub fn pair_of(term: &Term) -> Result<(&Name, &Term), Unread>
    requires { IsNormal term.now }
    ensures value { Gives (λ p. (p.0.now, view p.1.now)) result (Plain.pair_of (view term.now)) }
    ensures syntax { IfErr result (λ unread. unread ≡ Syntax) }
    ensures normal { IfOk result (λ p. IsNormal p.1.now) }
{
    let [tag, part] = elements_of(term)? else {
        return Err(Unread::Syntax);
    };
    Ok((atom_of(tag)?, part))
}

/// What stands behind this atom in a pair.
pub fn behind<'a>(tag: &str, term: &'a Term) -> Result<&'a Term, Unread>
    requires ascii { IsTrue (list_all (λ c. nat_lt c 128) tag.now) }
    requires normal { IsNormal term.now }
    ensures value { Gives (λ u. view u.now) result (Plain.behind tag.now (view term.now)) }
    ensures normal { IfOk result (λ u. IsNormal u.now) }
{
    let (found, part) = pair_of(term)?;
    if !is_word(found, tag) {
        return Err(Unread::Syntax);
    }
    Ok(part)
}

/// Whether a name is a word of ASCII.
pub fn is_word(name: &Name, word: &str) -> bool
    requires ascii { IsTrue (list_all (λ c. nat_lt c 128) word.now) }
    ensures { result ≡ same_name word.now name.now }
{
    name.as_str() == word
}
