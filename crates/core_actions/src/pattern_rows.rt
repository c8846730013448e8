// Rows of patterns, the last row first.
ghost use Rattle.std.specs.Prelude.{◌≡◌, ◌++◌, map, IfOk, IsTrue};
ghost use Rattle.core_form.specs.View.{pattern_view, patterns};
ghost use Rattle.core_actions.specs.Joining.{patterns_before};
ghost use Rattle.core_actions.specs.SoundTerms.{all_sound, pattern_sound};
ghost use Rattle.core_actions.specs.View.{all_items};

use core_form::Patterns;
use erl_base::{List, NoMemory};
use std::alloc::Global;
use std::collections::VecDeque;

/// The items of all rows. Those of the first row stay where they are.
#[tactic(auto, using(crate::proofs::Appending::last_row))]
pub(crate) fn gathered(alloc: Global, rows: List<Patterns>) -> Result<Patterns, NoMemory>
    ensures { IfOk result (λ all. all ≡ all_items rows) }
{
    let mut rows = rows;
    let mut all = match rows.pop() {
        Some(first) => first,
        None => return Ok(List::new(alloc)),
    };
    while let Some(row) = rows.pop() {
        all = appended(all, row)?;
    }
    Ok(all)
}

fn appended(items: Patterns, more: Patterns) -> Result<Patterns, NoMemory>
    ensures { IfOk result (λ all. all ≡ items ++ more) }
{
    let mut all = items;
    let mut left = VecDeque::from_vec(more.into_vec());
    while let Some(item) = left.pop_front() {
        all.push(item)?;
    }
    Ok(all)
}

/// A row before the others.
pub(crate) fn with_row(rows: List<Patterns>, items: Patterns) -> Result<List<Patterns>, NoMemory>
    requires items { IsTrue (all_sound (map pattern_sound items)) }
    requires rows { IsTrue (all_sound (map pattern_sound (all_items rows))) }
    ensures value { IfOk result (λ all. patterns (map pattern_view (all_items all))
        ≡ patterns_before (patterns (map pattern_view items)) (patterns (map pattern_view (all_items rows)))) }
    ensures sound { IfOk result (λ all. IsTrue (all_sound (map pattern_sound (all_items all)))) }
{
    let mut rows = rows;
    rows.push(items)?;
    Ok(rows)
}
