// What is told of a module's functions.
ghost use Rattle.std.specs.Prelude.{◌≡◌, ◌∷◌, [], map, OnOk, IfOk, option_copied};
ghost use Rattle.core_form.specs.View.{def_view, defs};
ghost use Rattle.core_sites.specs.Listing.{binders_of, told_site, listing, own_listing, own_listings};

use crate::texts::Texts;
use crate::used::Used;
use core_form::{Binder, Binders, Def, ExprForm, Site, SiteList};
use erl_base::{FunKey, List, NoMemory, Place};
use std::alloc::Global;

/// What is told of the functions so far: all of it, or how much each captures.
#[derive(Drop)]
pub(crate) enum Told {
    Sites(SiteList),
    Counts(List<u64>),
}

/// What is told, and what the texts of the functions use that are still to come.
#[derive(Drop)]
pub(crate) struct Telling {
    pub(crate) told: Told,
    pub(crate) texts: Texts,
}

pub(crate) fn list_own(alloc: Global, items: &[Def], out: &mut Told) -> Result<(), NoMemory>
    ensures { OnOk result (out.new ≡ own_listings (defs (map def_view items.now)) out.old) }
{
    for item in items {
        put_own(alloc, item, &[], out)?;
    }
    Ok(())
}

/// The function of a definition.
pub(crate) fn put_own(
    alloc: Global,
    def: &Def,
    captures: &[Used],
    out: &mut Told,
) -> Result<(), NoMemory>
    ensures { OnOk result (out.new ≡ own_listing (def_view def.now) captures.now out.old) }
{
    let key = Some(&def.key);
    if let ExprForm::Fun(params, _) = &def.fun.form {
        return put_site(alloc, def.place, key, params.as_slice(), captures, out);
    }
    put_site(alloc, def.place, key, &[], captures, out)
}

pub(crate) fn put_site(
    alloc: Global,
    place: Place,
    key: Option<&FunKey>,
    params: &[Binder],
    captures: &[Used],
    out: &mut Told,
) -> Result<(), NoMemory>
    ensures { OnOk result (out.new ≡ listing place (option_copied key.entry) params.now captures.now out.old) }
{
    match out {
        Told::Sites(sites) => {
            let site = site(alloc, place, key, params, captures)?;
            sites.push(site)
        }
        Told::Counts(counts) => counts.push(captures.len() as u64),
    }
}

fn site(
    alloc: Global,
    place: Place,
    key: Option<&FunKey>,
    params: &[Binder],
    captures: &[Used],
) -> Result<Site, NoMemory>
    ensures { IfOk result (λ site. site ≡ told_site place (option_copied key.entry) params.now captures.now) }
{
    let key = match key {
        None => None,
        Some(key) => Some(key.copy(alloc)?),
    };
    let params = copy_params(alloc, params)?;
    let captures = binders_of(alloc, captures)?;
    Ok(Site {
        place,
        key,
        params,
        captures,
    })
}

fn copy_params(alloc: Global, items: &[Binder]) -> Result<Binders, NoMemory>
    ensures { IfOk result (λ copy. copy ≡ items.now) }
{
    let mut copy = List::new(alloc);
    for item in items {
        copy.push(item.copy(alloc)?)?;
    }
    Ok(copy)
}

fn binders_of(alloc: Global, items: &[Used]) -> Result<Binders, NoMemory>
    ensures { IfOk result (λ binders. binders ≡ binders_of items.now) }
{
    let mut binders = List::new(alloc);
    for item in items {
        let name = item.name().copy(alloc)?;
        binders.push(Binder {
            name,
            place: item.place(),
        })?;
    }
    Ok(binders)
}
