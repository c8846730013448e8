// The body of one function, and how its sets are read.
ghost use Rattle.std.specs.Prelude.{◌≡◌, ◌≢◌, ◌<◌, [], ◌∷◌, ◌++◌, length, OnOk, OnErr, IfOk, IfSome, Some, None, Contains, slice_get};
ghost use Rattle.std.specs.Option.{option_map};
ghost use Rattle.ssa_form.specs.SetOrder.{nodes_of, set_of_node, first_of, next_after, chain_of};

use crate::block::Block;
use crate::op::Set;
use erl_base::{BlockId, ChainId, FunKey, List, NoMemory, NodeId, SiteId, VarId};
use erl_term::Term;
use slab::Slab;
use std::alloc::Global;

/// What is known of a variable's value: its kinds as a set of bits, in the order of terms; bounds of an integer; the
/// size of a tuple; the value itself.
#[derive(Debug, Drop)]
pub struct Fact {
    pub kinds: u16,
    pub low: Option<i128>,
    pub high: Option<i128>,
    pub size: Option<u32>,
    pub known: Option<Term>,
}

pub type VarFacts = List<(VarId, Fact)>;

/// The numbers of places over which a variable's value is needed, and whether it is needed after an operation that
/// unsets the X registers.
#[derive(Clone, Copy, Debug, PartialEq, Eq)]
pub struct Interval {
    pub var: VarId,
    pub from: u32,
    pub to: u32,
    pub across: bool,
}

pub type Intervals = List<Interval>;

/// A receive, and the variable whose reference its messages must hold.
#[derive(Clone, Copy, Debug, PartialEq, Eq)]
pub struct Mark {
    pub receive: u32,
    pub reference: VarId,
}

pub type Marks = List<Mark>;

/// A parameter at which a function may get a match context.
#[derive(Clone, Copy, Debug, PartialEq, Eq)]
pub struct ReusedParam {
    pub site: SiteId,
    pub param: u32,
}

pub type Reuse = List<ReusedParam>;

pub type NodeIds = List<NodeId>;

/// For a block, the landing blocks of its handlers from the inside out.
pub type Regions = List<(BlockId, List<BlockId>)>;

/// Chains of sets. A node is a set's place among all sets, and keeps it.
#[derive(Drop)]
pub struct SetLists {
    pub(crate) sets: List<Set>,
    pub(crate) chains: List<NodeIds>,
}

/// The body of a function. `facts`, `contexts`, `marks`, `regions` and `numbers` are filled by the stages; `contexts`
/// holds the numbers, from 0, of the parameters at which a match context may come.
#[derive(Drop)]
pub struct Body {
    pub key: FunKey,
    pub site: SiteId,
    pub params: List<VarId>,
    pub blocks: Slab<Block>,
    pub chains: SetLists,
    pub facts: VarFacts,
    pub contexts: List<u32>,
    pub marks: Marks,
    pub regions: Regions,
    pub numbers: Intervals,
}

impl Body {
    /// The first set of a block.
    #[tactic(auto, using(crate::proofs::WholeBodies::first_there))]
    pub fn first_set(&self, b: BlockId) -> Option<NodeId>
        requires { chain_of self.now b.0 ≢ None }
        ensures first { result ≡ first_of (nodes_of self.now b.0) }
        ensures there { IfSome result (λ n. Contains (nodes_of self.now b.0) n) }
    {
        self.nodes(b).first().copied()
    }

    /// The set after one of a block's.
    #[tactic(auto, using(crate::proofs::WholeBodies::next_there))]
    pub fn next_set(&self, b: BlockId, n: NodeId) -> Option<NodeId>
        requires block { chain_of self.now b.0 ≢ None }
        requires node { Contains (nodes_of self.now b.0) n }
        ensures next { result ≡ next_after n.0 (nodes_of self.now b.0) }
        ensures there { IfSome result (λ m. Contains (nodes_of self.now b.0) m) }
    {
        let mut found = false;
        for node in self.nodes(b) {
            if found {
                return Some(*node);
            }
            if *node == n {
                found = true;
            }
        }
        None
    }

    /// A set.
    pub fn set(&self, n: NodeId) -> &Set
        requires { set_of_node self.now n.0 ≢ None }
        ensures { Some result.now ≡ set_of_node self.now n.0 }
    {
        &self.chains.sets.as_slice()[n.0 as usize]
    }

    /// The nodes of a block, in order.
    fn nodes(&self, b: BlockId) -> &[NodeId]
        requires { chain_of self.now b.0 ≢ None }
        ensures { result.now ≡ nodes_of self.now b.0 }
    {
        match self.blocks.get(b.0 as usize) {
            Some(block) => self.chains.chains.as_slice()[block.chain.0 as usize].as_slice(),
            None => &[],
        }
    }
}
