// What the texts of a module's functions use, each in its turn.
ghost use Rattle.std.specs.Prelude.{◌≡◌, ◌∷◌, [], ◌++◌, length, slice_set, OnOk, IfOk};
ghost use Rattle.core_sites.specs.Gathering.{first_text, later_texts, opened, with_text, back_in};

use crate::putting::put_copies;
use crate::used::{Used, Uses};
use erl_base::{List, NoMemory};
use std::alloc::Global;
use std::collections::VecDeque;
use std::marker::Model;
use std::mem::replace;

/// What the texts of functions use, outer texts before those inside: they come in at the end and leave at the front.
#[derive(Drop)]
pub(crate) struct Texts {
    items: VecDeque<List<Used>>,
}

impl Model for Texts {
    ghost use Rattle.std.specs.Prelude.{List};
    ghost use Rattle.core_form.specs.Scope.{Use};

    ghost Value = { List (List Use) };

    ghost view = { λ t. t.items.items };
}

impl Texts {
    pub(crate) fn new(alloc: Global) -> Texts
        ensures { result ≡ [] }
    {
        Texts {
            items: VecDeque::new(alloc),
        }
    }

    pub(crate) fn len(&self) -> usize
        ensures { result ≡ length self.now }
    {
        self.items.len()
    }

    pub(crate) fn push(&mut self, text: List<Used>) -> Result<(), NoMemory>
        ensures { OnOk result (self.new ≡ self.old ++ text ∷ []) }
    {
        self.items.push_back(text)?;
        Ok(())
    }

    /// Changes a text where it stands, if there is one.
    pub(crate) fn write(&mut self, index: usize, text: List<Used>)
        ensures { self.new ≡ slice_set self.old index text }
    {
        if index < self.items.len() {
            self.items[index] = text;
        }
    }

    /// Takes the next text off; without one, nothing is used.
    pub(crate) fn next(&mut self, alloc: Global) -> List<Used>
        ensures text { result ≡ first_text self.old }
        ensures later { self.new ≡ later_texts self.old }
    {
        match self.items.pop_front() {
            None => List::new(alloc),
            Some(text) => text,
        }
    }
}

/// What was gathered of a text, and of the functions' texts that were met on the way.
#[derive(Drop)]
pub(crate) struct Gathered {
    pub(crate) uses: Uses,
    pub(crate) texts: Texts,
}

impl Gathered {
    /// Begins a function's text; the uses around it are given back.
    pub(crate) fn open(&mut self, alloc: Global) -> Result<Uses, NoMemory>
        ensures around { IfOk result (λ uses. uses ≡ self.old.uses) }
        ensures state { OnOk result (self.new ≡ opened self.old) }
    {
        self.texts.push(List::new(alloc))?;
        Ok(replace(&mut self.uses, Uses::new(alloc)))
    }

    /// Ends a function's text, which is used below the limit by the text around it, too.
    pub(crate) fn close(
        &mut self,
        alloc: Global,
        limit: u64,
        slot: usize,
        around: Uses,
    ) -> Result<(), NoMemory>
        ensures { OnOk result (self.new ≡ back_in limit around (with_text slot self.old.uses self.old)) }
    {
        let inner = replace(&mut self.uses, around).into_list();
        put_copies(alloc, inner.as_slice(), limit, &mut self.uses)?;
        self.texts.write(slot, inner);
        Ok(())
    }
}
