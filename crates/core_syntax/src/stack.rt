// What is still to be read.
ghost use Rattle.std.specs.Prelude.{◌≡◌, ◌≤◌, [], ◌∷◌, MatchOption, IfSome, OnOk};
ghost use Rattle.core_syntax.specs.Beginnings.{at, stacked};

use crate::item::{Entry, Item};
use erl_base::{List, NoMemory};
use std::alloc::Global;
use std::marker::Model;

/// Contracts see the items with the next one first. None is more than one deeper than a text may nest.
#[derive(Debug, Drop)]
pub struct Stack {
    entries: List<Entry>,
}

impl Model for Stack {
    ghost use Rattle.std.specs.Prelude.{List, reverse};
    ghost use Rattle.core_syntax.specs.declared.item.Entry.{Entry as Item};

    ghost Value = { List Item };

    ghost view = { λ s. reverse s.entries };

    ghost use Rattle.core_syntax.specs.Shallow.{AreShallow};

    ghost invariant = { λ s. AreShallow s.entries };
}

impl Stack {
    pub fn new(alloc: Global) -> Stack
        ensures { result ≡ [] }
    {
        Stack {
            entries: List::new(alloc),
        }
    }

    /// The next item.
    pub fn pop(&mut self) -> Option<Entry>
        ensures is { MatchOption result ((self.old ≡ []) × (self.new ≡ [])) (λ top. self.old ≡ top ∷ self.new) }
        ensures shallow { IfSome result (λ top. top.depth ≤ 2001) }
    {
        self.entries.pop()
    }

    pub fn push(&mut self, depth: u32, item: Item) -> Result<(), NoMemory>
        requires { depth ≤ 2001 }
        ensures { OnOk result (self.new ≡ at depth item ∷ self.old) }
    {
        self.entries.push(Entry { item, depth })
    }

    /// Items before the others, the first of them next.
    pub fn put(&mut self, depth: u32, items: &[Item]) -> Result<(), NoMemory>
        requires { depth ≤ 2001 }
        ensures { OnOk result (self.new ≡ stacked depth items.now self.old) }
    {
        for i in 0..items.len() {
            self.push(depth, items[items.len() - 1 - i])?;
        }
        Ok(())
    }
}
