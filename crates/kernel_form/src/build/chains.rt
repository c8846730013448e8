// What stands before the end of a chain of lets or of tree nodes, and the whole that it makes with its end: whoever
// goes along a chain in a loop keeps what it passed in such a list.
ghost use Rattle.std.specs.Prelude.{◌≡◌, IfOk};
ghost use Rattle.kernel_form.specs.Chains.{in_lets, in_node, in_nodes};

use crate::tree::{Case, Cases, KExpr, SegRow, SegRows, Tree};
use erl_base::{Boxed, List, NoMemory, VarId};
use kernel_parts::{BinStep, KSegs, Shape, Vars};
use std::alloc::Global;

/// A let without its body.
#[derive(Drop)]
pub struct LetHead {
    pub vars: Vars,
    pub value: Boxed<KExpr>,
}

/// A tree without the one with which its chain goes on: the second of `Either`, the first of `Step`, and that of the
/// last case or row, whose other parts stand behind the cases or rows before it.
#[derive(Drop)]
pub enum Node {
    Either(u32, Boxed<Tree>),
    Switch(VarId, Cases, Shape, Vars, Boxed<Tree>),
    Segments(VarId, SegRows, KSegs, Boxed<Tree>),
    Step(BinStep, Boxed<Tree>),
}

pub type LetHeads = List<LetHead>;

pub type Nodes = List<Node>;

/// The lets around the expression, the last one innermost.
#[tactic(auto, using(crate::proofs::ChainLaws::in_lets_append))]
pub fn in_lets(
    alloc: Global,
    mut lets: LetHeads,
    mut expr: Boxed<KExpr>,
) -> Result<Boxed<KExpr>, NoMemory>
    ensures { IfOk result (λ whole. whole ≡ in_lets lets expr) }
{
    while let Some(head) = lets.pop() {
        let LetHead { vars, value } = head;
        expr = Boxed::new(alloc, KExpr::Let(vars, value, expr))?;
    }
    Ok(expr)
}

/// The nodes around the tree, the last one innermost.
#[tactic(auto, using(crate::proofs::ChainLaws::in_nodes_append))]
pub fn in_nodes(
    alloc: Global,
    mut nodes: Nodes,
    mut tree: Boxed<Tree>,
) -> Result<Boxed<Tree>, NoMemory>
    ensures { IfOk result (λ whole. whole ≡ in_nodes nodes tree) }
{
    while let Some(node) = nodes.pop() {
        tree = in_node(alloc, node, tree)?;
    }
    Ok(tree)
}

fn in_node(alloc: Global, node: Node, tree: Boxed<Tree>) -> Result<Boxed<Tree>, NoMemory>
    ensures { IfOk result (λ whole. whole ≡ in_node node tree) }
{
    match node {
        Node::Either(number, first) => Boxed::new(alloc, Tree::Either(number, first, tree)),
        Node::Switch(var, mut cases, shape, parts, last) => {
            let then = tree.into_inner();
            cases.push(Case { shape, parts, then })?;
            Boxed::new(alloc, Tree::Switch(var, cases, last))
        }
        Node::Segments(var, mut rows, segs, last) => {
            let then = tree.into_inner();
            rows.push(SegRow { segs, then })?;
            Boxed::new(alloc, Tree::Segments(var, rows, last))
        }
        Node::Step(bits, last) => Boxed::new(alloc, Tree::Step(bits, tree, last)),
    }
}
