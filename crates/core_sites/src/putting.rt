// Uses put behind others, below a bound.
ghost use Rattle.std.specs.Prelude.{◌≡◌, [], OnOk, IfOk};
ghost use Rattle.core_form.specs.Scope.{binding};
ghost use Rattle.core_form.specs.Captures.{found, placed};
ghost use Rattle.core_names.specs.Table.{function_known};
ghost use Rattle.core_sites.specs.Things.{instead, expanded};
ghost use Rattle.core_sites.specs.Gathering.{put_all, thing, group_at};

use crate::used::{Used, Uses};
use core_names::Names;
use erl_base::{FunKey, List, Name, NoMemory, Place};
use std::alloc::Global;

pub(crate) fn use_variable(
    alloc: Global,
    name: &Name,
    place: Place,
    names: &Names,
    limit: u64,
    uses: &mut Uses,
) -> Result<(), NoMemory>
    ensures { OnOk result (uses.new ≡ put_all limit uses.old (found name.now place (binding names.now name.now))) }
{
    match names.binding(name) {
        None => Ok(()),
        Some(number) => {
            let copy = name.copy(alloc)?;
            uses.put(limit, Used::new(copy, number, place))
        }
    }
}

pub(crate) fn use_function(
    alloc: Global,
    key: &FunKey,
    place: Place,
    names: &Names,
    limit: u64,
    uses: &mut Uses,
) -> Result<(), NoMemory>
    ensures { OnOk result (uses.new ≡ put_all limit uses.old (thing place (function_known names.now key.now))) }
{
    match names.function(key) {
        None => Ok(()),
        Some(known) => {
            let nameless = Name::from_text(alloc, "")?;
            uses.put(limit, Used::new(nameless, known.position, place))
        }
    }
}

/// Those of the uses that are below the limit.
pub(crate) fn uses_below(alloc: Global, limit: u64, items: &[Used]) -> Result<Uses, NoMemory>
    ensures { IfOk result (λ uses. uses ≡ put_all limit [] items.now) }
{
    let mut uses = Uses::new(alloc);
    put_copies(alloc, items, limit, &mut uses)?;
    Ok(uses)
}

pub(crate) fn put_copies(
    alloc: Global,
    items: &[Used],
    limit: u64,
    uses: &mut Uses,
) -> Result<(), NoMemory>
    ensures { OnOk result (uses.new ≡ put_all limit uses.old items.now) }
{
    for item in items {
        uses.put(limit, item.copy(alloc)?)?;
    }
    Ok(())
}

pub(crate) fn copy_uses(alloc: Global, items: &[Used]) -> Result<List<Used>, NoMemory>
    ensures { IfOk result (λ copy. copy ≡ items.now) }
{
    let mut copy = List::new(alloc);
    for item in items {
        copy.push(item.copy(alloc)?)?;
    }
    Ok(copy)
}

/// Puts the uses, and what the group captures in its functions' stead.
pub(crate) fn put_expanded(
    alloc: Global,
    items: &[Used],
    outside: u64,
    captured: &[Used],
    limit: u64,
    uses: &mut Uses,
) -> Result<(), NoMemory>
    ensures { OnOk result (uses.new ≡ put_all limit uses.old (expanded (group_at outside captured.now) items.now)) }
{
    for item in items {
        put_outside(alloc, item, outside, captured, limit, uses)?;
    }
    Ok(())
}

fn put_outside(
    alloc: Global,
    item: &Used,
    outside: u64,
    captured: &[Used],
    limit: u64,
    uses: &mut Uses,
) -> Result<(), NoMemory>
    ensures { OnOk result (uses.new
        ≡ put_all limit uses.old (instead (group_at outside captured.now item.now.number) item.now)) }
{
    if item.number() < outside {
        return uses.put(limit, item.copy(alloc)?);
    }
    put_moved(alloc, captured, item.place(), limit, uses)
}

/// Puts the uses as if they stood at the place.
pub(crate) fn put_moved(
    alloc: Global,
    items: &[Used],
    place: Place,
    limit: u64,
    uses: &mut Uses,
) -> Result<(), NoMemory>
    ensures { OnOk result (uses.new ≡ put_all limit uses.old (placed place items.now)) }
{
    for item in items {
        uses.put(limit, item.moved(alloc, place)?)?;
    }
    Ok(())
}
