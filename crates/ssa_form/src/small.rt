// Short lists: up to four items stand in the value itself.
ghost use Rattle.std.specs.Prelude.{◌≡◌, [], ◌∷◌, ◌++◌, OnOk, OnErr, IfOk, length};

use erl_base::{Duplicate, NoMemory};
use smallvec::SmallVec;
use std::alloc::Global;
use std::marker::Model;

/// A list that needs no memory of its own for up to four items.
#[derive(Drop)]
pub struct SmallList<T: Drop> {
    items: SmallVec<T, 4>,
}

impl<T: Drop> Model for SmallList<T> {
    ghost use Rattle.std.specs.Prelude.{List};
    ghost use Rattle.std.specs.Coded.{coded_list};

    ghost Value = { List T };

    ghost coded = { coded_list T.code };

    ghost view = { λ a. a.items.items };
}

impl<T: Default + Drop> SmallList<T> {
    /// An empty list. It takes no memory.
    pub fn new(alloc: Global) -> SmallList<T>
        ensures { result ≡ [] }
    {
        SmallList {
            items: SmallVec::new(alloc),
        }
    }

    pub fn as_slice(&self) -> &[T]
        ensures { result.now ≡ self.now }
    {
        self.items.as_slice()
    }

    pub fn len(&self) -> usize
        ensures { result ≡ length self.now }
    {
        self.items.len()
    }
}

impl<T: Default + Drop> SmallList<T> {
    /// Adds an item at the end. On refusal the list is as before, and the item is dropped.
    pub fn push(&mut self, item: T) -> Result<(), NoMemory>
        ensures ok { OnOk result (self.new ≡ self.old ++ item ∷ []) }
        ensures err { OnErr result (self.new ≡ self.old) }
    {
        self.items.push(item)?;
        Ok(())
    }
}

impl<T: Duplicate + Default + Drop> Duplicate for SmallList<T> {
    fn copy(&self, alloc: Global) -> Result<SmallList<T>, NoMemory> {
        let mut copy = SmallList::new(alloc);
        for item in self.as_slice() {
            copy.push(item.copy(alloc)?)?;
        }
        Ok(copy)
    }
}
