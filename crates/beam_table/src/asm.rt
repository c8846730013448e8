ghost use Rattle.std.specs.Prelude.{◌≡◌, IfOk};

use crate::insn::Insns;
use erl_base::{Duplicate, FunKey, LabelId, List, Name, NoMemory};
use erl_term::Attributes;
use std::alloc::Global;

/// Keys of functions.
pub type FunKeys = List<FunKey>;

/// Functions in the order of their sites.
pub type AsmFuns = List<AsmFun>;

/// A function: its name and arity, the labels of its head, and the code that follows the entry label.
#[derive(Drop)]
pub struct AsmFun {
    pub key: FunKey,
    pub info: LabelId,
    pub entry: LabelId,
    pub code: Insns,
}

/// A module of assembly. An export means the first function of its name and arity.
#[derive(Drop)]
pub struct AsmModule {
    pub name: Name,
    pub exports: FunKeys,
    pub attributes: Attributes,
    pub funs: AsmFuns,
}

impl AsmFun {
    pub fn copy(&self, alloc: Global) -> Result<AsmFun, NoMemory>
        ensures { IfOk result (λ copy. copy ≡ self.now) }
    {
        let key = self.key.copy(alloc)?;
        let code = self.code.copy(alloc)?;
        Ok(AsmFun {
            key,
            info: self.info,
            entry: self.entry,
            code,
        })
    }
}

impl Duplicate for AsmFun {
    fn copy(&self, alloc: Global) -> Result<AsmFun, NoMemory> {
        AsmFun::copy(self, alloc)
    }
}

impl AsmModule {
    pub fn copy(&self, alloc: Global) -> Result<AsmModule, NoMemory>
        ensures { IfOk result (λ copy. copy ≡ self.now) }
    {
        let name = self.name.copy(alloc)?;
        let exports = self.exports.copy(alloc)?;
        let attributes = self.attributes.copy(alloc)?;
        let funs = self.funs.copy(alloc)?;
        Ok(AsmModule {
            name,
            exports,
            attributes,
            funs,
        })
    }
}
