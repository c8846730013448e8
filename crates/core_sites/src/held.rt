// What the functions around a place capture, and what stands for uses of them.
ghost use Rattle.std.specs.Prelude.{◌≡◌, ◌-◌, ◌∷◌, [], map, length, take, Some, None, OnOk, IfOk};
ghost use Rattle.core_form.specs.View.{def_view, defs};
ghost use Rattle.core_sites.specs.Things.{instead};
ghost use Rattle.core_sites.specs.Gathering.{put_all, later_texts};
ghost use Rattle.core_sites.specs.Listing.{held_at, padded, with_group, resolved, next_captures};

use crate::putting::{copy_uses, put_moved};
use crate::texts::Texts;
use crate::used::{Used, Uses};
use core_form::Def;
use erl_base::{List, NoMemory};
use std::alloc::Global;

/// What functions capture, by how many bindings stand behind each; nothing for variables.
pub(crate) type Held = List<Option<List<Used>>>;

/// What the next text captures; so many bindings stand outside of it.
pub(crate) fn next_captures(
    alloc: Global,
    outside: u64,
    held: &[Option<List<Used>>],
    texts: &mut Texts,
) -> Result<List<Used>, NoMemory>
    ensures captures { IfOk result (λ uses. uses ≡ next_captures held.now outside texts.old) }
    ensures texts { OnOk result (texts.new ≡ later_texts texts.old) }
{
    let text = texts.next(alloc);
    resolve(alloc, held, outside, text.as_slice())
}

/// Puts what each function captures in its stead.
fn resolve(
    alloc: Global,
    held: &[Option<List<Used>>],
    limit: u64,
    items: &[Used],
) -> Result<List<Used>, NoMemory>
    ensures { IfOk result (λ uses. uses ≡ resolved held.now limit items.now) }
{
    let mut uses = Uses::new(alloc);
    for item in items {
        put_held(alloc, held, item, limit, &mut uses)?;
    }
    Ok(uses.into_list())
}

fn put_held(
    alloc: Global,
    held: &[Option<List<Used>>],
    item: &Used,
    limit: u64,
    uses: &mut Uses,
) -> Result<(), NoMemory>
    ensures { OnOk result (uses.new
        ≡ put_all limit uses.old (instead (held_at held.now item.now.number) item.now)) }
{
    match held.get(item.number() as usize) {
        None => uses.put(limit, item.copy(alloc)?),
        Some(None) => uses.put(limit, item.copy(alloc)?),
        Some(Some(captures)) => { put_moved(alloc, captures.as_slice(), item.place(), limit, uses) }
    }
}

pub(crate) fn pad(length: u64, held: &mut Held) -> Result<(), NoMemory>
    ensures { OnOk result (held.new ≡ padded length held.old) }
{
    let missing = length.saturating_sub(held.len() as u64);
    for i in 0..missing {
        held.push(None)?;
    }
    Ok(())
}

/// Holds the captures for each function of a group.
pub(crate) fn hold(
    alloc: Global,
    items: &[Def],
    captures: &[Used],
    held: &mut Held,
) -> Result<(), NoMemory>
    ensures { OnOk result (held.new ≡ with_group (defs (map def_view items.now)) captures.now held.old) }
{
    for _item in items {
        let copy = copy_uses(alloc, captures)?;
        held.push(Some(copy))?;
    }
    Ok(())
}

pub(crate) fn shorten(length: usize, held: &mut Held)
    ensures { held.new ≡ take length held.old }
{
    let more = held.len().saturating_sub(length);
    for i in 0..more {
        held.pop();
    }
}
