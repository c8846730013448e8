// Rows of expressions, the last row first.
ghost use Rattle.std.specs.Prelude.{◌≡◌, ◌++◌, map, IfOk, IsTrue};
ghost use Rattle.core_form.specs.View.{view, exprs};
ghost use Rattle.core_actions.specs.Joining.{before};
ghost use Rattle.core_actions.specs.SoundTerms.{all_sound, expr_sound};
ghost use Rattle.core_actions.specs.View.{all_items};

use core_form::Exprs;
use erl_base::{List, NoMemory};
use std::alloc::Global;
use std::collections::VecDeque;

/// The items of all rows. Those of the first row stay where they are.
#[tactic(auto, using(crate::proofs::Appending::last_row))]
pub(crate) fn gathered(alloc: Global, rows: List<Exprs>) -> Result<Exprs, NoMemory>
    ensures { IfOk result (λ all. all ≡ all_items rows) }
{
    let mut rows = rows;
    let mut all = match rows.pop() {
        Some(first) => first,
        None => return Ok(List::new(alloc)),
    };
    while let Some(row) = rows.pop() {
        all = appended(all, row)?;
    }
    Ok(all)
}

fn appended(items: Exprs, more: Exprs) -> Result<Exprs, NoMemory>
    ensures { IfOk result (λ all. all ≡ items ++ more) }
{
    let mut all = items;
    let mut left = VecDeque::from_vec(more.into_vec());
    while let Some(item) = left.pop_front() {
        all.push(item)?;
    }
    Ok(all)
}

/// A row before the others.
pub(crate) fn with_row(rows: List<Exprs>, items: Exprs) -> Result<List<Exprs>, NoMemory>
    requires items { IsTrue (all_sound (map expr_sound items)) }
    requires rows { IsTrue (all_sound (map expr_sound (all_items rows))) }
    ensures value { IfOk result (λ all. exprs (map view (all_items all))
        ≡ before (exprs (map view items)) (exprs (map view (all_items rows)))) }
    ensures sound { IfOk result (λ all. IsTrue (all_sound (map expr_sound (all_items all)))) }
{
    let mut rows = rows;
    rows.push(items)?;
    Ok(rows)
}
