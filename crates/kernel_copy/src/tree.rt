// What can be copied, and how each is.
ghost use Rattle.std.specs.Prelude.{◌≡◌, IfOk, take};

use crate::copies::{copy_expr, copy_tree};
use erl_base::{Duplicate, List, NoMemory};
use kernel_form::{Case, KExpr, KFun, Kernel, Row, SegRow, Tree};
use std::alloc::Global;

/// What can be copied of kernel form beside values, steps and patterns, which `Duplicate` copies.
pub trait KernelCopy {
    fn copy(&self, alloc: Global) -> Result<Self, NoMemory>
        ensures { IfOk result (λ copy. copy ≡ self.now) };
}

impl KernelCopy for KExpr {
    fn copy(&self, alloc: Global) -> Result<KExpr, NoMemory> {
        Ok(copy_expr(self, alloc)?.into_inner())
    }
}

impl KernelCopy for Tree {
    fn copy(&self, alloc: Global) -> Result<Tree, NoMemory> {
        Ok(copy_tree(self, alloc)?.into_inner())
    }
}

impl<T: KernelCopy + Drop> KernelCopy for List<T> {
    fn copy(&self, alloc: Global) -> Result<List<T>, NoMemory> {
        let mut copy = List::new(alloc);
        for item in self.as_slice() {
            copy.push(item.copy(alloc)?)?;
        }
        Ok(copy)
    }
}

impl KernelCopy for Case {
    fn copy(&self, alloc: Global) -> Result<Case, NoMemory> {
        let shape = self.shape.copy(alloc)?;
        let parts = self.parts.copy(alloc)?;
        let then = self.then.copy(alloc)?;
        Ok(Case { shape, parts, then })
    }
}

impl KernelCopy for SegRow {
    fn copy(&self, alloc: Global) -> Result<SegRow, NoMemory> {
        let segs = self.segs.copy(alloc)?;
        let then = self.then.copy(alloc)?;
        Ok(SegRow { segs, then })
    }
}

impl KernelCopy for Row {
    fn copy(&self, alloc: Global) -> Result<Row, NoMemory> {
        let pats = self.pats.copy(alloc)?;
        let guard = self.guard.copy(alloc)?;
        let body = self.body.copy(alloc)?;
        Ok(Row { pats, guard, body })
    }
}

impl KernelCopy for KFun {
    fn copy(&self, alloc: Global) -> Result<KFun, NoMemory> {
        let key = self.key.copy(alloc)?;
        let params = self.params.copy(alloc)?;
        let body = self.body.copy(alloc)?;
        Ok(KFun {
            key,
            site: self.site,
            params,
            next: self.next,
            body,
        })
    }
}

impl KernelCopy for Kernel {
    fn copy(&self, alloc: Global) -> Result<Kernel, NoMemory> {
        let name = self.name.copy(alloc)?;
        let exports = self.exports.copy(alloc)?;
        let attributes = self.attributes.copy(alloc)?;
        let funs = self.funs.copy(alloc)?;
        Ok(Kernel {
            name,
            exports,
            attributes,
            funs,
        })
    }
}
