// A module, and the functions that stand in it.
ghost use Rattle.std.specs.Prelude.{◌≡◌, IfOk};

use crate::tree::{Binders, Defs};
use erl_base::{Duplicate, FunKey, List, Name, NoMemory, Place};
use erl_term::Attributes;
use std::alloc::Global;

/// A function's name where it is written.
#[derive(Debug, Drop)]
pub struct FunName {
    pub key: FunKey,
    pub place: Place,
}

/// A float literal is read as 0, and `floats` is the place of the first one. An integer literal past 128 signed bits is
/// read as 0, and `wide` has the first one's place and the number of its digits. `long` has the place and the number of
/// characters of the first atom outside annotations that has more than 255.
#[derive(Drop)]
pub struct Module {
    pub name: Name,
    pub exports: FunNames,
    pub attributes: Attributes,
    pub defs: Defs,
    pub floats: Option<Place>,
    pub wide: Option<(Place, u64)>,
    pub long: Option<(Place, u64)>,
}

/// A function of a module: a definition, or a `fun` that stands in one and has no key.
#[derive(Drop)]
pub struct Site {
    pub place: Place,
    pub key: Option<FunKey>,
    pub params: Binders,
    pub captures: Binders,
}

pub type FunNames = List<FunName>;

pub type SiteList = List<Site>;

impl FunName {
    pub fn copy(&self, alloc: Global) -> Result<FunName, NoMemory>
        ensures { IfOk result (λ copy. copy ≡ self.now) }
    {
        Ok(FunName {
            key: self.key.copy(alloc)?,
            place: self.place,
        })
    }
}

impl Duplicate for FunName {
    fn copy(&self, alloc: Global) -> Result<FunName, NoMemory> {
        FunName::copy(self, alloc)
    }
}

impl Site {
    pub fn copy(&self, alloc: Global) -> Result<Site, NoMemory>
        ensures { IfOk result (λ copy. copy ≡ self.now) }
    {
        let key = copy_key(&self.key, alloc)?;
        let params = self.params.copy(alloc)?;
        let captures = self.captures.copy(alloc)?;
        Ok(Site {
            place: self.place,
            key,
            params,
            captures,
        })
    }
}

fn copy_key(key: &Option<FunKey>, alloc: Global) -> Result<Option<FunKey>, NoMemory>
    ensures { IfOk result (λ copy. copy ≡ key.now) }
{
    match key {
        None => Ok(None),
        Some(key) => Ok(Some(key.copy(alloc)?)),
    }
}

impl Duplicate for Site {
    fn copy(&self, alloc: Global) -> Result<Site, NoMemory> {
        Site::copy(self, alloc)
    }
}
