//! The syntax tree of a Core Erlang module and its reading as a plain tree; names, degrees and limits are judged
//! elsewhere.
//!
//! `let <X> = 'a' in X` at 1:1 is an `Expr` with its place and the form `Let`; its reading, which every contract and
//! meaning speaks of, is `let_in` with the place, the binder, the literal and the variable.
//!
//! Sound, since the reading is one fold, so each value stands for one tree. Functions are known by their sites:
//! `sites_are_counted` says that the definitions come first, and that as many stand in an expression as are counted.
//!
//! Whether a name means something is not asked here; a tree that no text has is a tree too, and `IsSourceTree` says
//! which ones texts have.
#![tactic(auto)]

pub mod build;
mod laws;
mod module;
mod tree;

pub use laws::{parts_have_no_more_nodes, sites_are_counted};
pub use module::{FunName, FunNames, Module, Site, SiteList};
pub use tree::{
    Binder, Binders, Clause, Clauses, Def, Defs, Expr, ExprForm, Exprs, KeyPattern, KeyPatterns,
    MapPart, MapParts, Pattern, PatternForm, Patterns, SegPattern, SegPatterns, Segment, Segments,
};
