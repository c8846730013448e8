// Known patterns, and the terms that they are.
ghost use Rattle.std.specs.Prelude.{◌≡◌, Some, map, IfOk, IsTrue};
ghost use Rattle.erl_term.specs.View as Terms;
ghost use Rattle.erl_term.specs.WellFormed.{IsWellFormed};
ghost use Rattle.erl_term.specs.WellRows.{AreWellFormed};
ghost use Rattle.core_form.specs.SourceTree.{is_known, are_known};
ghost use Rattle.core_form.specs.View.{pattern_view, patterns};
ghost use Rattle.core_actions.specs.Joining.{known_term, known_terms};
ghost use Rattle.core_actions.specs.SoundTerms.{all_sound, pattern_sound};

use core_form::{Pattern, PatternForm, Patterns};
use erl_base::{List, NoMemory};
use erl_term::{Term, Terms};
use std::alloc::Global;
use std::collections::VecDeque;

pub(crate) fn is_known(pattern: &Pattern) -> bool
    ensures { result ≡ is_known (pattern_view pattern.now) }
{
    matches!(pattern.form, PatternForm::Literal(_))
}

pub(crate) fn are_known(items: &[Pattern]) -> bool
    ensures { result ≡ are_known (patterns (map pattern_view items.now)) }
{
    for item in items {
        if !is_known(item) {
            return false;
        }
    }
    true
}

/// The term of a known pattern.
pub(crate) fn term_of_known(pattern: Pattern) -> Term
    requires known { IsTrue (is_known (pattern_view pattern)) }
    requires sound { IsTrue (pattern_sound pattern) }
    ensures value { known_term (pattern_view pattern) ≡ Some (Terms.view result) }
    ensures well_formed { IsWellFormed result }
{
    match pattern.form {
        PatternForm::Literal(term) => term,
        _ => unreachable!(),
    }
}

/// The terms of known patterns.
pub(crate) fn terms_of_known(alloc: Global, items: Patterns) -> Result<Terms, NoMemory>
    requires known { IsTrue (are_known (patterns (map pattern_view items))) }
    requires sound { IsTrue (all_sound (map pattern_sound items)) }
    ensures value { IfOk result (λ terms. known_terms (patterns (map pattern_view items))
        ≡ Some (map Terms.view terms)) }
    ensures well_formed { IfOk result (λ terms. AreWellFormed terms) }
{
    let mut terms = List::new(alloc);
    let mut left = VecDeque::from_vec(items.into_vec());
    while let Some(item) = left.pop_front() {
        terms.push(term_of_known(item))?;
    }
    Ok(terms)
}
