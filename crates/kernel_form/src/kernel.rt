// Functions, and the module that they make.
use crate::tree::KExpr;
use erl_base::{FunKey, List, Name, SiteId};
use erl_term::Attributes;
use kernel_parts::Vars;

/// A function of a module, with the terms that it captured as its last parameters. `next` is above every variable of
/// the module.
#[derive(Drop)]
pub struct KFun {
    pub key: FunKey,
    pub site: SiteId,
    pub params: Vars,
    pub next: u32,
    pub body: KExpr,
}

#[derive(Drop)]
pub struct Kernel {
    pub name: Name,
    pub exports: FunKeys,
    pub attributes: Attributes,
    pub funs: KFuns,
}

pub type FunKeys = List<FunKey>;

pub type KFuns = List<KFun>;
