//! Sets of functions' names and arities, in the order of their first use, each once.
//!
//! Of `f/1`, `g/0` and `f/1` the set is the list of `f/1` and `g/0`; the third is told to be no new one. A key is
//! looked up by its hash, without memory.
//!
//! Contracts see the set as the list of its keys, by `is_key`; nothing is taken out.
#![tactic(auto)]

ghost use Rattle.std.specs.Prelude.{◌≡◌, [], ◌∷◌, ◌++◌, IfOk, OnOk, not, if◌then◌else◌};
ghost use Rattle.erl_base.specs.Names.{is_key};

use erl_base::{FunKey, NoMemory};
use indexmap::IndexSet;
use std::alloc::Global;
use std::marker::Model;

/// A set of keys that keeps their order. Contracts see it as their list.
#[derive(Drop)]
pub struct KeySet {
    set: IndexSet<FunKey>,
}

impl Model for KeySet {
    ghost use Rattle.std.specs.Prelude.{List};
    ghost use Rattle.erl_base.specs.declared.ids.FunKey.{FunKey};

    ghost Value = { List FunKey };

    ghost view = { λ s. s.set.keys };
}

impl KeySet {
    /// An empty set. It takes no memory.
    pub fn new(alloc: Global) -> KeySet
        ensures { result ≡ [] }
    {
        KeySet {
            set: IndexSet::new(alloc),
        }
    }

    /// Adds a key, and tells whether it is a new one.
    pub fn insert(&mut self, alloc: Global, key: &FunKey) -> Result<bool, NoMemory>
        ensures added { IfOk result (λ added. added ≡ not (is_key key.now self.old)) }
        ensures keys { OnOk result (self.new
            ≡ (if is_key key.now self.old then self.old else self.old ++ key.now ∷ [])) }
    {
        let key = key.copy(alloc)?;
        Ok(self.set.insert(key)?)
    }

    /// Whether a key is in the set.
    pub fn contains(&self, key: &FunKey) -> bool
        ensures { result ≡ is_key key.now self.now }
    {
        self.set.contains(key)
    }
}
