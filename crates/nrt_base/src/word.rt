//! A word of a text or a query.

ghost use Rattle.std.specs.Prelude.{◌≡◌, IfOk, IsTrue, Some, nat_eq};
ghost use Rattle.std.proofs.Common.{rules, refl, sym};
ghost use Rattle.std.specs.Cmp.{partial_equiv_from_equiv, partial_order_from_total, partial_order_from_own_ties};
ghost use Rattle.std.specs.Cmp.Lexicographic.{pointwise, slice_cmp, nat_list_eq_equiv, nat_list_cmp_total};
ghost use Rattle.std.specs.Cmp.Rules.{comparing, hashing};
ghost use Rattle.std.specs.Hash as fed;
ghost use Rattle.std.specs.Ordering.{nat_cmp, as_partial_cmp};
ghost use Rattle.std.proofs.lemmas.Map.Text.{is_eq-slice_cmp};
ghost use Rattle.nrt_base.specs.Bytes.{is_word};

use crate::NoMemory;
use crate::share::Share;
use std::alloc::Global;
use std::cmp::Ordering;
use std::hash::{Hash, Hasher};
use std::marker::Model;

/// A word of a text or a query: at least one byte, each a small letter or a digit, ordered by its bytes.
#[derive(Debug, Drop)]
pub struct Word {
    bytes: Vec<u8>,
}

impl Model for Word {
    ghost use Rattle.std.specs.Prelude.{ℕ, List, IsTrue};
    ghost use Rattle.nrt_base.specs.Bytes.{is_word};

    ghost Value = { List ℕ };

    ghost view = { λ word. word.bytes.items };

    ghost invariant = { λ word. IsTrue (is_word word.bytes.items) };
}

impl Word {
    pub fn new(alloc: Global, bytes: &[u8]) -> Result<Self, NoMemory>
        requires { IsTrue (is_word bytes.now) }
        ensures { IfOk result (λ word. word ≡ bytes.now) }
    {
        Ok(Word {
            bytes: bytes.to_vec(alloc)?,
        })
    }

    pub fn as_slice(&self) -> &[u8]
        ensures bytes { result.now ≡ self.now }
        ensures kind { IsTrue (is_word self.now) }
    {
        self.bytes.as_slice()
    }

    // The word as text, which is compared and hashed eight bytes at a time.
    fn as_str(&self) -> &str
        ensures { result.now ≡ self.now }
    {
        // Each of its bytes is one of ASCII.
        unsafe { str::from_utf8_unchecked(self.as_slice()) }
    }
}

impl Share for Word {
    fn share(&self, alloc: Global) -> Result<Self, NoMemory> {
        Word::new(alloc, self.as_slice())
    }
}

impl PartialEq for Word {
    ghost eq = { pointwise nat_eq };

    ghost laws = { partial_equiv_from_equiv nat_list_eq_equiv };

    fn eq(&self, other: &Word) -> bool {
        self.as_str() == other.as_str()
    }
}

impl Eq for Word {
    ghost laws = { nat_list_eq_equiv };
}

impl Hash for Word {
    ghost hash_input = { fed.str };

    ghost respects_eq = { Prim.search (hashing, rules) };

    fn hash<H: Hasher>(&self, state: &mut H) {
        self.as_str().hash(state);
    }
}

impl PartialOrd for Word {
    ghost partial_cmp = { as_partial_cmp (slice_cmp nat_cmp) };

    ghost laws = { partial_order_from_own_ties (partial_order_from_total nat_list_cmp_total) (λ a b. sym (is_eq-slice_cmp a b)) };

    fn partial_cmp(&self, other: &Word) -> Option<Ordering> {
        Some(self.cmp(other))
    }
}

impl Ord for Word {
    ghost cmp = { slice_cmp nat_cmp };

    ghost total = { nat_list_cmp_total };

    ghost matches_partial_cmp = { λ a b. refl };

    ghost matches_eq = { λ a b. sym (is_eq-slice_cmp a b) };

    fn cmp(&self, other: &Word) -> Ordering {
        self.as_str().cmp(other.as_str())
    }
}
