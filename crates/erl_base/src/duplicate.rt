ghost use Rattle.std.specs.Prelude.{◌≡◌, IfOk, take};

use crate::boxed::Boxed;
use crate::ids::{FunKey, VarId};
use crate::list::List;
use crate::memory::NoMemory;
use crate::name::Name;
use std::alloc::Global;

/// A value that can be copied where there is memory.
pub trait Duplicate {
    fn copy(&self, alloc: Global) -> Result<Self, NoMemory>
        ensures { IfOk result (λ copy. copy ≡ self.now) };
}

impl Duplicate for u8 {
    fn copy(&self, _alloc: Global) -> Result<u8, NoMemory> {
        Ok(*self)
    }
}

impl Duplicate for u32 {
    fn copy(&self, _alloc: Global) -> Result<u32, NoMemory> {
        Ok(*self)
    }
}

impl Duplicate for char {
    fn copy(&self, _alloc: Global) -> Result<char, NoMemory> {
        Ok(*self)
    }
}

impl Duplicate for VarId {
    fn copy(&self, _alloc: Global) -> Result<VarId, NoMemory> {
        Ok(*self)
    }
}

impl Duplicate for Name {
    fn copy(&self, alloc: Global) -> Result<Name, NoMemory> {
        Name::copy(self, alloc)
    }
}

impl Duplicate for FunKey {
    fn copy(&self, alloc: Global) -> Result<FunKey, NoMemory> {
        FunKey::copy(self, alloc)
    }
}

impl<T: Duplicate + Drop> Duplicate for List<T> {
    fn copy(&self, alloc: Global) -> Result<List<T>, NoMemory> {
        let mut copy = List::new(alloc);
        for item in self.as_slice() {
            copy.push(item.copy(alloc)?)?;
        }
        Ok(copy)
    }
}

impl<T: Duplicate + Drop> Duplicate for Boxed<T> {
    fn copy(&self, alloc: Global) -> Result<Boxed<T>, NoMemory> {
        let value = self.get().copy(alloc)?;
        Boxed::new(alloc, value)
    }
}
