//! Second values that contracts see as equal to the first.

ghost use Rattle.std.specs.Prelude.{◌≡◌, IfOk};

use crate::NoMemory;
use bytes::Bytes;
use std::alloc::Global;

/// A second value that contracts see as equal to the first.
pub trait Share: Sized {
    fn share(&self, alloc: Global) -> Result<Self, NoMemory>
        ensures { IfOk result (λ copy. copy ≡ self.now) };
}

/// The bytes are shared and not copied.
impl Share for Bytes {
    fn share(&self, _alloc: Global) -> Result<Self, NoMemory> {
        self.clone()
    }
}
