//! The bytes of an index header, of any kind.

ghost use Rattle.std.specs.Prelude.{◌≡◌, IfOk, IsTrue, nat_eq};
ghost use Rattle.std.specs.Cmp.{partial_equiv_from_equiv};
ghost use Rattle.std.specs.Cmp.Lexicographic.{pointwise, nat_list_eq_equiv};
ghost use Rattle.nrt_base.specs.Bytes.{is_header};

use crate::NoMemory;
use crate::share::Share;
use std::alloc::Global;
use std::marker::Model;

/// The bytes of an index header: at most 408, of any kind.
#[derive(Debug, Drop)]
pub struct NameBytes {
    bytes: Vec<u8>,
}

impl Model for NameBytes {
    ghost use Rattle.std.specs.Prelude.{ℕ, List, IsTrue};
    ghost use Rattle.nrt_base.specs.Bytes.{is_header};

    ghost Value = { List ℕ };

    ghost view = { λ header. header.bytes.items };

    ghost invariant = { λ header. IsTrue (is_header header.bytes.items) };
}

impl NameBytes {
    pub fn new(alloc: Global, bytes: &[u8]) -> Result<Self, NoMemory>
        requires { IsTrue (is_header bytes.now) }
        ensures { IfOk result (λ header. header ≡ bytes.now) }
    {
        Ok(NameBytes {
            bytes: bytes.to_vec(alloc)?,
        })
    }

    pub fn as_slice(&self) -> &[u8]
        ensures bytes { result.now ≡ self.now }
        ensures kind { IsTrue (is_header self.now) }
    {
        self.bytes.as_slice()
    }
}

impl Share for NameBytes {
    fn share(&self, alloc: Global) -> Result<Self, NoMemory> {
        NameBytes::new(alloc, self.as_slice())
    }
}

impl PartialEq for NameBytes {
    ghost eq = { pointwise nat_eq };

    ghost laws = { partial_equiv_from_equiv nat_list_eq_equiv };

    fn eq(&self, other: &NameBytes) -> bool {
        self.as_slice() == other.as_slice()
    }
}

impl Eq for NameBytes {
    ghost laws = { nat_list_eq_equiv };
}
