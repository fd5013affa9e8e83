//! The text of a document.

ghost use Rattle.std.specs.Prelude.{◌≡◌, IfOk, IsTrue, nat_eq};
ghost use Rattle.std.specs.Cmp.{partial_equiv_from_equiv};
ghost use Rattle.std.specs.Cmp.Lexicographic.{pointwise, nat_list_eq_equiv};
ghost use Rattle.nrt_base.specs.Bytes.{is_text};

use crate::NoMemory;
use crate::share::Share;
use bytes::Bytes;
use std::alloc::Global;
use std::marker::Model;

/// The text of a document: at most 4,096 bytes from space to `~`. Its bytes are shared and not copied.
#[derive(Debug, Drop)]
pub struct Text {
    bytes: Bytes,
}

impl Model for Text {
    ghost use Rattle.std.specs.Prelude.{ℕ, List, IsTrue};
    ghost use Rattle.nrt_base.specs.Bytes.{is_text};

    ghost Value = { List ℕ };

    ghost view = { λ text. text.bytes };

    ghost invariant = { λ text. IsTrue (is_text text.bytes) };
}

impl Text {
    pub fn new(alloc: Global, bytes: &[u8]) -> Result<Self, NoMemory>
        requires { IsTrue (is_text bytes.now) }
        ensures { IfOk result (λ text. text ≡ bytes.now) }
    {
        Ok(Text {
            bytes: Bytes::copy_from_slice(alloc, bytes)?,
        })
    }

    pub fn as_slice(&self) -> &[u8]
        ensures bytes { result.now ≡ self.now }
        ensures kind { IsTrue (is_text self.now) }
    {
        self.bytes.as_slice()
    }
}

impl Share for Text {
    fn share(&self, _alloc: Global) -> Result<Self, NoMemory> {
        Ok(Text {
            bytes: self.bytes.clone()?,
        })
    }
}

impl PartialEq for Text {
    ghost eq = { pointwise nat_eq };

    ghost laws = { partial_equiv_from_equiv nat_list_eq_equiv };

    fn eq(&self, other: &Text) -> bool {
        self.as_slice() == other.as_slice()
    }
}

impl Eq for Text {
    ghost laws = { nat_list_eq_equiv };
}
