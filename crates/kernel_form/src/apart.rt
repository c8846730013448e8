// Expressions and trees taken apart by one level, for passes that build on with the parts: a pattern cannot move the
// parts out of a value that has a drop of its own, but where its type is declared.
use crate::tree::{Cases, KExpr, SegRows, Tree};
use erl_base::{Boxed, VarId};
use kernel_parts::{BinStep, KSimple, KValue, KValues, Vars};

/// The parts of an expression, in the order of its own variants.
#[derive(Drop)]
pub enum ExprParts {
    Values(KValues),
    Simple(KSimple),
    Let(Vars, Boxed<KExpr>, Boxed<KExpr>),
    Match(Tree),
    Try(Boxed<KExpr>, Vars, Boxed<KExpr>, Vars, Boxed<KExpr>),
    Catch(Boxed<KExpr>),
    Receive(u32, VarId, Tree, KValue, Boxed<KExpr>),
}

/// The parts of a tree, in the order of its own variants.
#[derive(Drop)]
pub enum TreeParts {
    Body(Boxed<KExpr>),
    Fall(u32),
    Either(u32, Boxed<Tree>, Boxed<Tree>),
    Switch(VarId, Cases, Boxed<Tree>),
    Segments(VarId, SegRows, Boxed<Tree>),
    Step(BinStep, Boxed<Tree>, Boxed<Tree>),
    Guarded(Boxed<KExpr>, Boxed<Tree>, Boxed<Tree>),
}
