//! A word of the command line.
ghost use Rattle.std.specs.Prelude.{◌≡◌, IfOk, nat_eq};
ghost use Rattle.std.specs.Cmp.{partial_equiv_from_equiv};
ghost use Rattle.std.specs.Cmp.Lexicographic.{pointwise, nat_list_eq_equiv};

use nrt_base::{NoMemory, Share};
use std::alloc::Global;
use std::marker::Model;

/// A word of the command line: any bytes.
#[derive(Debug, Drop)]
pub struct Arg {
    bytes: Vec<u8>,
}

impl Model for Arg {
    ghost use Rattle.std.specs.Prelude.{ℕ, List};

    ghost Value = { List ℕ };

    ghost view = { λ arg. arg.bytes.items };
}

impl Arg {
    pub fn new(alloc: Global, bytes: &[u8]) -> Result<Self, NoMemory>
        ensures { IfOk result (λ arg. arg ≡ bytes.now) }
    {
        Ok(Arg {
            bytes: bytes.to_vec(alloc)?,
        })
    }

    pub fn as_slice(&self) -> &[u8]
        ensures { result.now ≡ self.now }
    {
        self.bytes.as_slice()
    }
}

impl Share for Arg {
    fn share(&self, alloc: Global) -> Result<Self, NoMemory> {
        Arg::new(alloc, self.as_slice())
    }
}

impl PartialEq for Arg {
    ghost eq = { pointwise nat_eq };

    ghost laws = { partial_equiv_from_equiv nat_list_eq_equiv };

    fn eq(&self, other: &Arg) -> bool {
        self.as_slice() == other.as_slice()
    }
}

impl Eq for Arg {
    ghost laws = { nat_list_eq_equiv };
}
