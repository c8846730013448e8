//! The builder of the tree, for whoever reads, copies or renames one. A part comes as the call that made it answered,
//! so that who makes a tree has no branch for want of memory: where one part is not there, nor is the node.

pub mod exprs;
pub mod lists;
pub mod nodes;
pub mod patterns;
