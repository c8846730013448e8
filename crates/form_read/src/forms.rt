// The next form of a text, and where it begins.
ghost use Rattle.std.specs.Prelude.{◌≡◌, ◌+◌, ◌^◌, ◌<◌, ◌≤◌, length, option_map, take, IfOk, IfSome};
ghost use Rattle.erl_term.specs.View.{view};
ghost use Rattle.erl_term.specs.WellFormed.{IsWellFormed};
ghost use Rattle.utf8_text.specs.Places.{start, place_after};
ghost use Rattle.term_read.specs.Reading.{Gives};
ghost use Rattle.form_read.specs.Forms.{is_apart, full_stop, form_front, next_form, form_start};

use erl_base::{Place, front};
use erl_term::Term;
use std::alloc::Global;
use term_read::{MOST_NESTING, Unread, behind_blanks, expect, is_space, read_at};
use utf8_text::place_after;

/// The next form: its term, and the characters behind its full stop. None where only blanks and comments are left.
#[tactic(auto, unfolding(crate::specs::Forms::next_form))]
pub fn next_form(cs: &[char], alloc: Global) -> Result<Option<(Term, &[char])>, Unread>
    ensures value { Gives (option_map (λ found. (view found.0, found.1.now))) result (next_form cs.now) }
    ensures well_formed { IfOk result (λ next. IfSome next (λ found. IsWellFormed found.0)) }
    ensures fits { IfOk result (λ next. IfSome next (λ found. length found.1.now < length cs.now)) }
{
    match behind_blanks(cs) {
        [] => Ok(None),
        [_, ..] => Ok(Some(form_front(cs, alloc)?)),
    }
}

// A term and its full stop.
#[tactic(auto, unfolding(crate::specs::Forms::form_front))]
fn form_front(cs: &[char], alloc: Global) -> Result<(Term, &[char]), Unread>
    ensures value { Gives (λ found. (view found.0, found.1.now)) result (form_front cs.now) }
    ensures well_formed { IfOk result (λ found. IsWellFormed found.0) }
    ensures fits { IfOk result (λ found. length found.1.now < length cs.now) }
{
    let (term, rest) = read_at(cs, alloc, MOST_NESTING)?;
    let rest = full_stop(rest)?;
    Ok((term, rest))
}

#[tactic(auto, unfolding(crate::specs::Forms::full_stop))]
fn full_stop(cs: &[char]) -> Result<&[char], Unread>
    ensures value { Gives (λ rest. rest.now) result (full_stop cs.now) }
    ensures fits { IfOk result (λ rest. length rest.now ≤ length cs.now) }
{
    let rest = expect(cs, b".")?;
    if is_apart(rest) {
        Ok(rest)
    } else {
        Err(Unread::Syntax)
    }
}

fn is_apart(cs: &[char]) -> bool
    ensures { result ≡ is_apart cs.now }
{
    match cs {
        [] => true,
        [c, ..] => is_space(*c) || *c == '%',
    }
}

/// How many of the text's characters stand before the next form of what is left of it.
pub fn form_start(total: usize, rest: &[char]) -> usize
    requires { length rest.now ≤ total }
    ensures value { result ≡ form_start total rest.now }
    ensures fits { result ≤ total }
{
    total - behind_blanks(rest).len()
}

/// Where in the text the character stands that has so many before it.
pub fn place_at(text: &[char], before: usize) -> Place
    ensures { result ≡ place_after (take before text.now) start }
{
    place_after(front(text, before), Place { line: 1, column: 1 })
}
