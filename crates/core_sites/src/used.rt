// Uses of variables and functions, each number once.
ghost use Rattle.std.specs.Prelude.{◌≡◌, [], IfOk, OnOk};
ghost use Rattle.core_sites.specs.Things.{use_at};
ghost use Rattle.core_sites.specs.Gathering.{put, moved};

use erl_base::{Duplicate, List, Name, NoMemory, Place};
use indexmap::IndexSet;
use std::alloc::Global;
use std::marker::Model;

/// A use of a variable, or of a function, which has no name here: how many bindings stand behind its binding, and the
/// place of the use.
#[derive(Drop)]
pub(crate) struct Used {
    name: Name,
    number: u64,
    place: Place,
}

impl Model for Used {
    ghost use Rattle.core_form.specs.Scope.{Use};
    ghost use Rattle.core_sites.specs.Things.{use_at};

    ghost Value = { Use };

    ghost view = { λ u. use_at u.name u.number u.place };
}

impl Used {
    pub(crate) fn new(name: Name, number: u64, place: Place) -> Used
        ensures { result ≡ use_at name number place }
    {
        Used {
            name,
            number,
            place,
        }
    }

    pub(crate) fn name(&self) -> &Name
        ensures { result.now ≡ self.now.name }
    {
        &self.name
    }

    pub(crate) fn number(&self) -> u64
        ensures { result ≡ self.now.number }
    {
        self.number
    }

    pub(crate) fn place(&self) -> Place
        ensures { result ≡ self.now.place }
    {
        self.place
    }

    /// The same use at another place.
    pub(crate) fn moved(&self, alloc: Global, place: Place) -> Result<Used, NoMemory>
        ensures { IfOk result (λ used. used ≡ moved place self.now) }
    {
        let name = self.name.copy(alloc)?;
        Ok(Used::new(name, self.number, place))
    }

    pub(crate) fn copy(&self, alloc: Global) -> Result<Used, NoMemory>
        ensures { IfOk result (λ copy. copy ≡ self.now) }
    {
        let name = self.name.copy(alloc)?;
        Ok(Used::new(name, self.number, self.place))
    }
}

impl Duplicate for Used {
    fn copy(&self, alloc: Global) -> Result<Used, NoMemory> {
        Used::copy(self, alloc)
    }
}

/// Uses in the order in which they came, no number twice.
#[derive(Drop)]
pub(crate) struct Uses {
    numbers: IndexSet<u64>,
    items: List<Used>,
    alloc: Global,
}

impl Model for Uses {
    ghost use Rattle.std.specs.Prelude.{◌≡◌, List};
    ghost use Rattle.core_form.specs.Scope.{Use, numbers_of};

    ghost Value = { List Use };

    ghost view = { λ s. s.items };

    ghost invariant = { λ s. s.numbers.keys ≡ numbers_of s.items };
}

impl Uses {
    pub(crate) fn new(alloc: Global) -> Uses
        ensures { result ≡ [] }
    {
        Uses {
            numbers: IndexSet::new(alloc),
            items: List::new(alloc),
            alloc,
        }
    }

    pub(crate) fn as_slice(&self) -> &[Used]
        ensures { result.now ≡ self.now }
    {
        self.items.as_slice()
    }

    pub(crate) fn into_list(self) -> List<Used>
        ensures { result ≡ self }
    {
        let Uses { items, .. } = self;
        items
    }

    /// Adds a use whose number is below the limit, if none has it yet.
    pub(crate) fn put(&mut self, limit: u64, used: Used) -> Result<(), NoMemory>
        ensures ok { OnOk result (self.new ≡ put limit self.old used) }
    {
        let number = used.number();
        if number >= limit || self.numbers.contains(&number) {
            return Ok(());
        }
        self.items.push(used)?;
        match self.numbers.insert(number) {
            Ok(_) => Ok(()),
            Err(_) => {
                self.items.pop();
                Err(NoMemory)
            }
        }
    }
}
