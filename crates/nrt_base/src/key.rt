//! The key of a document.

ghost use Rattle.std.specs.Prelude.{◌≡◌, IfOk, IsTrue, Some, nat_eq};
ghost use Rattle.std.proofs.Common.{rules, refl, sym};
ghost use Rattle.std.specs.Cmp.{partial_equiv_from_equiv, partial_order_from_total, partial_order_from_own_ties};
ghost use Rattle.std.specs.Cmp.Lexicographic.{pointwise, slice_cmp, nat_list_eq_equiv, nat_list_cmp_total};
ghost use Rattle.std.specs.Cmp.Rules.{comparing, hashing};
ghost use Rattle.std.specs.Hash as fed;
ghost use Rattle.std.specs.Ordering.{nat_cmp, as_partial_cmp};
ghost use Rattle.std.proofs.lemmas.Map.Text.{is_eq-slice_cmp};
ghost use Rattle.nrt_base.specs.Bytes.{is_key};

use crate::NoMemory;
use crate::share::Share;
use std::alloc::Global;
use std::cmp::Ordering;
use std::fmt;
use std::hash::{Hash, Hasher};
use std::marker::Model;

/// The key of a document: 1 to 64 bytes from `!` to `~`, ordered by its bytes.
#[derive(Debug, Drop)]
pub struct Key {
    bytes: Vec<u8>,
}

impl Model for Key {
    ghost use Rattle.std.specs.Prelude.{ℕ, List, IsTrue};
    ghost use Rattle.nrt_base.specs.Bytes.{is_key};

    ghost Value = { List ℕ };

    ghost view = { λ key. key.bytes.items };

    ghost invariant = { λ key. IsTrue (is_key key.bytes.items) };
}

impl Key {
    pub fn new(alloc: Global, bytes: &[u8]) -> Result<Self, NoMemory>
        requires { IsTrue (is_key bytes.now) }
        ensures { IfOk result (λ key. key ≡ bytes.now) }
    {
        Ok(Key {
            bytes: bytes.to_vec(alloc)?,
        })
    }

    pub fn as_slice(&self) -> &[u8]
        ensures bytes { result.now ≡ self.now }
        ensures kind { IsTrue (is_key self.now) }
    {
        self.bytes.as_slice()
    }

    // The key as text, which is compared and hashed eight bytes at a time.
    fn as_str(&self) -> &str
        ensures { result.now ≡ self.now }
    {
        // Each of its bytes is one of ASCII.
        unsafe { str::from_utf8_unchecked(self.as_slice()) }
    }
}

/// The key as it is.
impl fmt::Display for Key {
    fn fmt<W: fmt::Write>(&self, f: &mut fmt::Formatter<W>) -> fmt::Result {
        for byte in self.as_slice() {
            write!(f, "{}", *byte as char)?;
        }
        Ok(())
    }
}

impl Share for Key {
    fn share(&self, alloc: Global) -> Result<Self, NoMemory> {
        Key::new(alloc, self.as_slice())
    }
}

impl PartialEq for Key {
    ghost eq = { pointwise nat_eq };

    ghost laws = { partial_equiv_from_equiv nat_list_eq_equiv };

    fn eq(&self, other: &Key) -> bool {
        self.as_str() == other.as_str()
    }
}

impl Eq for Key {
    ghost laws = { nat_list_eq_equiv };
}

impl Hash for Key {
    ghost hash_input = { fed.str };

    ghost respects_eq = { Prim.search (hashing, rules) };

    fn hash<H: Hasher>(&self, state: &mut H) {
        self.as_str().hash(state);
    }
}

impl PartialOrd for Key {
    ghost partial_cmp = { as_partial_cmp (slice_cmp nat_cmp) };

    ghost laws = { partial_order_from_own_ties (partial_order_from_total nat_list_cmp_total) (λ a b. sym (is_eq-slice_cmp a b)) };

    fn partial_cmp(&self, other: &Key) -> Option<Ordering> {
        Some(self.cmp(other))
    }
}

impl Ord for Key {
    ghost cmp = { slice_cmp nat_cmp };

    ghost total = { nat_list_cmp_total };

    ghost matches_partial_cmp = { λ a b. refl };

    ghost matches_eq = { λ a b. sym (is_eq-slice_cmp a b) };

    fn cmp(&self, other: &Key) -> Ordering {
        self.as_str().cmp(other.as_str())
    }
}
