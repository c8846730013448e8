// Bodies with a spot for each variable, with stack frames, and what the steps after them hand on.
use crate::body::Body;
use erl_base::{BlockId, List, NodeId, VarId};

/// A register or a slot of the stack frame.
#[derive(Clone, Copy, Debug, PartialEq, Eq)]
pub enum Spot {
    X(u32),
    Y(u32),
}

pub type VarSpots = List<(VarId, Spot)>;

/// A body with a spot for each variable, which it keeps for life.
#[derive(Drop)]
pub struct Placed {
    pub body: Body,
    pub spots: VarSpots,
}

/// What happens to the stack frame. `Kill` names a slot, the others a number of slots; `Trim` drops the lowest.
#[derive(Clone, Copy, Debug, PartialEq, Eq)]
pub enum FrameAction {
    Allocate(u32),
    Deallocate(u32),
    Kill(u32),
    Trim(u32),
}

pub type FrameActions = List<FrameAction>;

/// The actions that are done before a node's operation.
pub type NodeActions = List<(NodeId, FrameActions)>;

/// The frame of one block: its size where the block begins, if there is one, and the actions before its nodes and its
/// last.
#[derive(Drop)]
pub struct BlockFrame {
    pub block: BlockId,
    pub size: Option<u32>,
    pub nodes: NodeActions,
    pub last: FrameActions,
}

pub type BlockFrames = List<BlockFrame>;

/// A body with spots and with stack frames.
#[derive(Drop)]
pub struct Framed {
    pub body: Body,
    pub spots: VarSpots,
    pub frames: BlockFrames,
}

/// For a node that builds or collects: the words of heap room to be made before it, and how many X registers are live.
pub type Needs = List<(NodeId, u32, u32)>;

/// One of several moves that are meant at once.
#[derive(Clone, Copy, Debug, PartialEq, Eq)]
pub struct Move {
    pub from: Spot,
    pub to: Spot,
}

pub type Moves = List<Move>;

/// One of the moves and swaps that are done in order.
#[derive(Clone, Copy, Debug, PartialEq, Eq)]
pub enum MoveStep {
    Move(Spot, Spot),
    Swap(Spot, Spot),
}

pub type MoveSteps = List<MoveStep>;
