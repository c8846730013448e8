// The flags of a constant segment.
ghost use Rattle.std.specs.Prelude.{◌≡◌, map, codes, IsTrue};
ghost use Rattle.std.specs.List.{list_all, list_any};
ghost use Rattle.erl_term.specs.Segments.{has_flag};
ghost use Rattle.erl_term.specs.View as Terms;
ghost use Rattle.core_form.specs.SourceTree.{is_flag, are_flags};
ghost use Rattle.core_actions.specs.SegmentBits.{is_little};

use core_names::{atom_of, is_flag, is_word};
use erl_term::Term;

/// A proper list of flags. What stands behind the items may be a list again.
pub(crate) fn are_flags(term: &Term) -> bool
    ensures { result ≡ are_flags (Terms.view term.now) }
{
    match term {
        Term::Nil => true,
        Term::List(items, tail) => all_flags(items.as_slice()) & are_flags(tail.get()),
        Term::Int(_)
        | Term::Atom(_)
        | Term::Tuple(_)
        | Term::Map(_)
        | Term::Bits(_)
        | Term::Fun(..)
        | Term::Extern(..)
        | Term::Pid(_)
        | Term::Reference(_)
        | Term::Port(_)
        | Term::RawTrace(_) => false,
    }
}

fn all_flags(items: &[Term]) -> bool
    ensures { result ≡ list_all is_flag (map Terms.view items.now) }
{
    for item in items {
        if !is_flag(item) {
            return false;
        }
    }
    true
}

/// Whether `little` is among the flags.
pub(crate) fn has_little(term: &Term) -> bool
    requires { IsTrue (are_flags (Terms.view term.now)) }
    ensures { result ≡ has_flag (codes "little") (Terms.view term.now) }
{
    match term {
        Term::List(items, tail) => any_little(items.as_slice()) | has_little(tail.get()),
        Term::Int(_)
        | Term::Atom(_)
        | Term::Nil
        | Term::Tuple(_)
        | Term::Map(_)
        | Term::Bits(_)
        | Term::Fun(..)
        | Term::Extern(..)
        | Term::Pid(_)
        | Term::Reference(_)
        | Term::Port(_)
        | Term::RawTrace(_) => false,
    }
}

fn any_little(items: &[Term]) -> bool
    ensures { result ≡ list_any is_little (map Terms.view items.now) }
{
    for item in items {
        if is_little(item) {
            return true;
        }
    }
    false
}

fn is_little(item: &Term) -> bool
    ensures { result ≡ is_little (Terms.view item.now) }
{
    is_word(atom_of(item), "little")
}
