// Building bodies: a block is added with all its sets, and the blocks that are there stay as they are.
ghost use Rattle.std.specs.Prelude.{◌≡◌, ◌≢◌, ℕ, [], ◌∷◌, ◌++◌, length, take, IfOk, OnErr, Some, None};
ghost use Rattle.slab.specs.Slab.{get, Updates};
ghost use Rattle.ssa_form.specs.SetOrder.{IsWhole, chain_of, nodes_from, block_of};

use crate::block::{Block, Last, Phis};
use crate::body::{Body, NodeIds, SetLists};
use crate::op::Set;
use erl_base::{BlockId, ChainId, FunKey, List, NoMemory, NodeId, SiteId, VarId};
use slab::Slab;
use std::alloc::Global;

/// The most sets, chains and blocks that have numbers.
const MOST: usize = 4294967295;

impl SetLists {
    fn new(alloc: Global) -> SetLists
        ensures sets { result.sets ≡ [] }
        ensures chains { result.chains ≡ [] }
    {
        SetLists {
            sets: List::new(alloc),
            chains: List::new(alloc),
        }
    }

    /// Adds a chain of these sets. After a refusal the chains and the sets in them are as before.
    fn add(&mut self, alloc: Global, sets: List<Set>) -> Result<ChainId, NoMemory>
        ensures ok_id { IfOk result (λ id. id.0 ≡ length self.old.chains) }
        ensures ok_sets { IfOk result (λ id. self.new.sets ≡ self.old.sets ++ sets) }
        ensures ok_chains { IfOk result
            (λ id. self.new.chains ≡ self.old.chains ++ nodes_from (length self.old.sets) sets ∷ []) }
        ensures err_chains { OnErr result (self.new.chains ≡ self.old.chains) }
        ensures err_sets { OnErr result (take (length self.old.sets) self.new.sets ≡ self.old.sets) }
    {
        let id = self.chains.len();
        let mut nodes: NodeIds = List::new(alloc);
        for set in sets.into_vec() {
            let node = self.sets.len();
            if node >= MOST {
                return Err(NoMemory);
            }
            nodes.push(NodeId(node as u32))?;
            self.sets.push(set)?;
        }
        if id >= MOST {
            return Err(NoMemory);
        }
        self.chains.push(nodes)?;
        Ok(ChainId(id as u32))
    }
}

impl Body {
    /// A body without blocks.
    pub fn new(alloc: Global, key: FunKey, site: SiteId, params: List<VarId>) -> Body
        ensures key { result.key ≡ key }
        ensures site { result.site ≡ site }
        ensures params { result.params ≡ params }
        ensures facts { result.facts ≡ [] }
        ensures contexts { result.contexts ≡ [] }
        ensures marks { result.marks ≡ [] }
        ensures regions { result.regions ≡ [] }
        ensures numbers { result.numbers ≡ [] }
        ensures blocks { (n : ℕ) → get result.blocks n ≡ None }
        ensures whole { IsWhole result }
    {
        Body {
            key,
            site,
            params,
            blocks: Slab::new(alloc),
            chains: SetLists::new(alloc),
            facts: List::new(alloc),
            contexts: List::new(alloc),
            marks: List::new(alloc),
            regions: List::new(alloc),
            numbers: List::new(alloc),
        }
    }

    /// Adds a block at the next number; in a body from which no block was removed, the numbers count from 0.
    pub fn add_block(
        &mut self,
        alloc: Global,
        phis: Phis,
        sets: List<Set>,
        last: Last,
    ) -> Result<BlockId, NoMemory>
        ensures block { IfOk result
            (λ id. Updates self.old.blocks self.new.blocks id.0
            (Some (block_of phis (length self.old.chains.chains) last))) }
        ensures nodes { IfOk result
            (λ id. chain_of self.new id.0 ≡ Some (nodes_from (length self.old.chains.sets) sets)) }
        ensures sets { IfOk result (λ id. self.new.chains.sets ≡ self.old.chains.sets ++ sets) }
        ensures key { self.new.key ≡ self.old.key }
        ensures site { self.new.site ≡ self.old.site }
        ensures params { self.new.params ≡ self.old.params }
        ensures facts { self.new.facts ≡ self.old.facts }
        ensures contexts { self.new.contexts ≡ self.old.contexts }
        ensures marks { self.new.marks ≡ self.old.marks }
        ensures regions { self.new.regions ≡ self.old.regions }
        ensures numbers { self.new.numbers ≡ self.old.numbers }
        ensures whole { IfOk result (λ id. IsWhole self.old → IsWhole self.new) }
    {
        let chain = self.chains.add(alloc, sets)?;
        let id = self.blocks.insert(Block { phis, chain, last })?;
        if id >= MOST {
            return Err(NoMemory);
        }
        Ok(BlockId(id as u32))
    }
}
