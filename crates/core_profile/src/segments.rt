// What segments of bit strings say beside their value.
ghost use Rattle.std.specs.Prelude.{◌≡◌, map};
ghost use Rattle.std.specs.List.{list_all, list_any};
ghost use Rattle.erl_term.specs.Term as T;
ghost use Rattle.erl_term.specs.View as Terms;
ghost use Rattle.core_form.specs.View.{view};
ghost use Rattle.core_profile.specs.ProfileFaults.{is_native, is_segment_flag, is_flag_list, is_proper_list, has_native, is_unit, is_segment_form, type_outside, native_outside, segment_outside};
ghost use Rattle.first_fault.specs.FirstFault.{first_with};

use core_form::Expr;
use core_names::{atom_of, is_flag, is_word, literal_name};
use erl_base::{Kind, Name, Outside, Place, Refusal};
use erl_term::Term;
use first_fault::keep_if;

fn is_native(term: &Term) -> bool
    ensures { result ≡ is_native (Terms.view term.now) }
{
    is_word(atom_of(term), "native")
}

fn is_segment_flag(term: &Term) -> bool
    ensures { result ≡ is_segment_flag (Terms.view term.now) }
{
    is_flag(term) | is_native(term)
}

fn are_flags(items: &[Term]) -> bool
    ensures { result ≡ list_all is_segment_flag (map Terms.view items.now) }
{
    for item in items {
        if !is_segment_flag(item) {
            return false;
        }
    }
    true
}

fn holds_native(items: &[Term]) -> bool
    ensures { result ≡ list_any is_native (map Terms.view items.now) }
{
    for item in items {
        if is_native(item) {
            return true;
        }
    }
    false
}

/// A proper list of flags. What stands behind the items may be a list again.
fn is_flag_list(term: &Term) -> bool
    ensures { result ≡ is_flag_list (Terms.view term.now) }
{
    match term {
        Term::Nil => true,
        Term::List(items, tail) => are_flags(items.as_slice()) & is_flag_list(tail.get()),
        Term::Int(_)
        | Term::Atom(_)
        | Term::Tuple(_)
        | Term::Map(_)
        | Term::Bits(_)
        | Term::Fun(..)
        | Term::Extern(..)
        | Term::Pid(_)
        | Term::Reference(_)
        | Term::Port(_)
        | Term::RawTrace(_) => false,
    }
}

fn is_proper_list(term: &Term) -> bool
    ensures { result ≡ is_proper_list (Terms.view term.now) }
{
    match term {
        Term::Nil => true,
        Term::List(_, tail) => is_proper_list(tail.get()),
        Term::Int(_)
        | Term::Atom(_)
        | Term::Tuple(_)
        | Term::Map(_)
        | Term::Bits(_)
        | Term::Fun(..)
        | Term::Extern(..)
        | Term::Pid(_)
        | Term::Reference(_)
        | Term::Port(_)
        | Term::RawTrace(_) => false,
    }
}

fn has_native(term: &Term) -> bool
    ensures { result ≡ has_native (Terms.view term.now) }
{
    match term {
        Term::List(items, tail) => holds_native(items.as_slice()) | has_native(tail.get()),
        Term::Int(_)
        | Term::Atom(_)
        | Term::Nil
        | Term::Tuple(_)
        | Term::Map(_)
        | Term::Bits(_)
        | Term::Fun(..)
        | Term::Extern(..)
        | Term::Pid(_)
        | Term::Reference(_)
        | Term::Port(_)
        | Term::RawTrace(_) => false,
    }
}

/// Whether a unit is from 1 to 256 bits. A list without items is its tail.
fn is_unit(term: &Term) -> bool
    ensures { result ≡ is_unit (Terms.view term.now) }
{
    match term {
        Term::Int(number) => is_unit_size(*number),
        Term::List(items, tail) => {
            if items.is_empty() {
                is_unit(tail.get())
            } else {
                false
            }
        }
        Term::Atom(_)
        | Term::Nil
        | Term::Tuple(_)
        | Term::Map(_)
        | Term::Bits(_)
        | Term::Fun(..)
        | Term::Extern(..)
        | Term::Pid(_)
        | Term::Reference(_)
        | Term::Port(_)
        | Term::RawTrace(_) => false,
    }
}

fn is_unit_size(number: i128) -> bool
    ensures { result ≡ is_unit (T.int number) }
{
    number >= 1 && number <= 256
}

fn is_segment_form(size: &Expr, unit: &Term, kind: &Name, flags: &Term) -> bool
    ensures { result ≡ is_segment_form (view size.now) (Terms.view unit.now) kind.now (Terms.view flags.now) }
{
    let integer = is_word(kind.as_str(), "integer");
    let all = is_word(literal_name(size), "all");
    is_unit(unit) & is_flag_list(flags) & !(integer & all)
}

fn keep_type(first: Option<Refusal>, place: Place, kind: &Name) -> Option<Refusal>
    ensures { result ≡ first_with first (type_outside place kind.now) }
{
    let name = kind.as_str();
    let integer = is_word(name, "integer");
    let binary = is_word(name, "binary");
    keep_if(
        first,
        !(integer | binary),
        place,
        Kind::Profile(Outside::SegmentType),
    )
}

fn keep_native(first: Option<Refusal>, place: Place, flags: &Term) -> Option<Refusal>
    ensures { result ≡ first_with first (native_outside place (Terms.view flags.now)) }
{
    let native = is_proper_list(flags) & has_native(flags);
    keep_if(first, native, place, Kind::Profile(Outside::Native))
}

/// The first fault so far and in a segment of this size, unit, type and flags.
#[tactic(auto, using(first_fault::proofs::First::first_with_both))]
pub fn keep_segment(
    first: Option<Refusal>,
    place: Place,
    size: &Expr,
    unit: &Term,
    kind: &Name,
    flags: &Term,
) -> Option<Refusal>
    ensures { result ≡ first_with first
        (segment_outside place (view size.now) (Terms.view unit.now) kind.now (Terms.view flags.now)) }
{
    let first = keep_type(first, place, kind);
    let first = keep_native(first, place, flags);
    let lawful = is_segment_form(size, unit, kind, flags);
    keep_if(first, !lawful, place, Kind::Profile(Outside::SegmentForm))
}
