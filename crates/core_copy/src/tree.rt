// What can be copied, and how each is.
ghost use Rattle.std.specs.Prelude.{◌≡◌, IfOk, take};

use crate::copies::{
    copy_clause, copy_def, copy_defs, copy_expr, copy_key, copy_part, copy_pattern,
    copy_seg_pattern, copy_segment,
};
use core_form::build::nodes;
use core_form::{Clause, Def, Expr, KeyPattern, MapPart, Module, Pattern, SegPattern, Segment};
use erl_base::{List, NoMemory};
use std::alloc::Global;

/// A part of the syntax tree that can be copied. (`Duplicate` cannot be had for it here: both are of crates below.)
pub trait CoreCopy {
    fn copy(&self, alloc: Global) -> Result<Self, NoMemory>
        ensures { IfOk result (λ copy. copy ≡ self.now) };
}

impl CoreCopy for Expr {
    fn copy(&self, alloc: Global) -> Result<Expr, NoMemory> {
        Ok(copy_expr(self, alloc)?.into_inner())
    }
}

impl CoreCopy for MapPart {
    fn copy(&self, alloc: Global) -> Result<MapPart, NoMemory> {
        Ok(copy_part(self, alloc)?.into_inner())
    }
}

impl CoreCopy for Segment {
    fn copy(&self, alloc: Global) -> Result<Segment, NoMemory> {
        Ok(copy_segment(self, alloc)?.into_inner())
    }
}

impl CoreCopy for Def {
    fn copy(&self, alloc: Global) -> Result<Def, NoMemory> {
        Ok(copy_def(self, alloc)?.into_inner())
    }
}

impl CoreCopy for Clause {
    fn copy(&self, alloc: Global) -> Result<Clause, NoMemory> {
        Ok(copy_clause(self, alloc)?.into_inner())
    }
}

impl CoreCopy for Pattern {
    fn copy(&self, alloc: Global) -> Result<Pattern, NoMemory> {
        Ok(copy_pattern(self, alloc)?.into_inner())
    }
}

impl CoreCopy for KeyPattern {
    fn copy(&self, alloc: Global) -> Result<KeyPattern, NoMemory> {
        Ok(copy_key(self, alloc)?.into_inner())
    }
}

impl CoreCopy for SegPattern {
    fn copy(&self, alloc: Global) -> Result<SegPattern, NoMemory> {
        Ok(copy_seg_pattern(self, alloc)?.into_inner())
    }
}

impl<T: CoreCopy + Drop> CoreCopy for List<T> {
    fn copy(&self, alloc: Global) -> Result<List<T>, NoMemory> {
        let mut copy = List::new(alloc);
        for item in self.as_slice() {
            copy.push(item.copy(alloc)?)?;
        }
        Ok(copy)
    }
}

impl CoreCopy for Module {
    fn copy(&self, alloc: Global) -> Result<Module, NoMemory> {
        nodes::with_defs(alloc, self, copy_defs(&self.defs, alloc))
    }
}
