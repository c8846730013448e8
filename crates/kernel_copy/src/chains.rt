// Chains that are copied as a loop goes along them. A part comes as the call that made it answered; where one part is
// not there, nor is the whole.
ghost use Rattle.std.specs.Prelude.{◌≡◌, ◌++◌, [], ◌∷◌, IfOk, IsOkAnd};
ghost use Rattle.kernel_form.specs.declared.tree.KExpr.{KExpr};
ghost use Rattle.kernel_form.specs.declared.tree.KExpr.TheVariants as E;
ghost use Rattle.kernel_form.specs.declared.tree.Tree.{Tree};
ghost use Rattle.kernel_form.specs.declared.tree.Tree.TheVariants as T;
ghost use Rattle.kernel_form.specs.declared.tree.Case.{roll-Case};
ghost use Rattle.kernel_form.specs.declared.tree.SegRow.{roll-SegRow};
ghost use Rattle.kernel_form.specs.Chains.{in_lets, in_node, in_nodes};

use erl_base::{Boxed, NoMemory, VarId, both, three};
use kernel_form::build::chains::{LetHead, LetHeads, Node, Nodes, in_lets, in_nodes};
use kernel_form::{Cases, KExpr, SegRows, Tree};
use kernel_parts::{BinStep, KSegs, Shape, Vars};
use std::alloc::Global;

/// The lets around the expression, the last one innermost.
pub fn put_in_lets(
    alloc: Global,
    lets: Result<LetHeads, NoMemory>,
    end: Result<Boxed<KExpr>, NoMemory>,
) -> Result<Boxed<KExpr>, NoMemory>
    ensures { IfOk result (λ whole. IsOkAnd lets (λ xs. IsOkAnd end (λ e. whole ≡ in_lets xs e))) }
{
    let (lets, end) = both(lets, end)?;
    in_lets(alloc, lets, end)
}

/// The nodes around the tree, the last one innermost.
pub fn put_in_nodes(
    alloc: Global,
    nodes: Result<Nodes, NoMemory>,
    end: Result<Boxed<Tree>, NoMemory>,
) -> Result<Boxed<Tree>, NoMemory>
    ensures { IfOk result (λ whole. IsOkAnd nodes (λ xs. IsOkAnd end (λ t. whole ≡ in_nodes xs t))) }
{
    let (nodes, end) = both(nodes, end)?;
    in_nodes(alloc, nodes, end)
}

/// The lets with one more, the innermost.
#[tactic(auto, using(kernel_form::proofs::ChainLaws::in_lets_append))]
pub fn and_let(
    lets: Result<LetHeads, NoMemory>,
    vars: Result<Vars, NoMemory>,
    value: Result<Boxed<KExpr>, NoMemory>,
) -> Result<LetHeads, NoMemory>
    ensures { IfOk result (λ more. IsOkAnd lets (λ ls. IsOkAnd vars (λ xs. IsOkAnd value (λ v.
        (e : KExpr) → in_lets more e ≡ in_lets ls (E.Let xs v e))))) }
{
    let (mut lets, vars, value) = three(lets, vars, value)?;
    lets.push(LetHead { vars, value })?;
    Ok(lets)
}

#[tactic(auto, using(kernel_form::proofs::ChainLaws::in_nodes_append))]
fn and_node(nodes: Result<Nodes, NoMemory>, node: Node) -> Result<Nodes, NoMemory>
    ensures { IfOk result (λ more. IsOkAnd nodes (λ ns. (t : Tree) → in_nodes more t ≡ in_nodes ns (in_node node t))) }
{
    let mut nodes = nodes?;
    nodes.push(node)?;
    Ok(nodes)
}

/// The nodes with one more, the innermost; so are the three that follow.
pub fn and_either(
    nodes: Result<Nodes, NoMemory>,
    number: u32,
    first: Result<Boxed<Tree>, NoMemory>,
) -> Result<Nodes, NoMemory>
    ensures { IfOk result (λ more. IsOkAnd nodes (λ ns. IsOkAnd first (λ f.
        (t : Tree) → in_nodes more t ≡ in_nodes ns (T.Either number f t)))) }
{
    and_node(nodes, Node::Either(number, first?))
}

pub fn and_step(
    nodes: Result<Nodes, NoMemory>,
    step: Result<BinStep, NoMemory>,
    last: Result<Boxed<Tree>, NoMemory>,
) -> Result<Nodes, NoMemory>
    ensures { IfOk result (λ more. IsOkAnd nodes (λ ns. IsOkAnd step (λ z. IsOkAnd last (λ l.
        (t : Tree) → in_nodes more t ≡ in_nodes ns (T.Step z t l))))) }
{
    let (step, last) = both(step, last)?;
    and_node(nodes, Node::Step(step, last))
}

pub fn and_switch(
    nodes: Result<Nodes, NoMemory>,
    var: VarId,
    before: Result<Cases, NoMemory>,
    shape: Result<Shape, NoMemory>,
    parts: Result<Vars, NoMemory>,
    last: Result<Boxed<Tree>, NoMemory>,
) -> Result<Nodes, NoMemory>
    ensures { IfOk result (λ more. IsOkAnd nodes (λ ns. IsOkAnd before (λ cs. IsOkAnd shape (λ h. IsOkAnd parts (λ xs.
        IsOkAnd last (λ l. (t : Tree) →
        in_nodes more t ≡ in_nodes ns
        (T.Switch var (cs ++ roll-Case (record { shape = h; parts = xs; then = t }) ∷ []) l))))))) }
{
    let (before, last) = both(before, last)?;
    let (shape, parts) = both(shape, parts)?;
    and_node(nodes, Node::Switch(var, before, shape, parts, last))
}

pub fn and_segments(
    nodes: Result<Nodes, NoMemory>,
    var: VarId,
    before: Result<SegRows, NoMemory>,
    segs: Result<KSegs, NoMemory>,
    last: Result<Boxed<Tree>, NoMemory>,
) -> Result<Nodes, NoMemory>
    ensures { IfOk result (λ more. IsOkAnd nodes (λ ns. IsOkAnd before (λ rs. IsOkAnd segs (λ ss. IsOkAnd last (λ l.
        (t : Tree) → in_nodes more t ≡ in_nodes ns
        (T.Segments var (rs ++ roll-SegRow (record { segs = ss; then = t }) ∷ []) l)))))) }
{
    let (before, segs, last) = three(before, segs, last)?;
    and_node(nodes, Node::Segments(var, before, segs, last))
}
