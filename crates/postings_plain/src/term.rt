//! Terms: a field and bytes, in the order of the file.

ghost use Rattle.std.specs.Prelude.{◌≡◌, ◌∷◌, ◌<◌, ◌^◌, IfOk, length, nat_eq};
ghost use Rattle.std.proofs.Common.{refl, sym};
ghost use Rattle.std.specs.Cmp.{partial_equiv_from_equiv, partial_order_from_total, partial_order_from_own_ties};
ghost use Rattle.std.specs.Cmp.Lexicographic.{pointwise, slice_cmp, nat_list_eq_equiv, nat_list_cmp_total};
ghost use Rattle.std.specs.Ordering.{nat_cmp, as_partial_cmp};
ghost use Rattle.std.proofs.lemmas.Map.Text.{is_eq-slice_cmp};

use nrt_base::{Key, NoMemory, Word};
use std::alloc::AllocError;
use std::cmp::Ordering;
use std::marker::Model;

// The most bytes of a term.
const LONGEST: usize = 0xffff_ffff;

/// A term, seen as its field and its bytes in one list: 0 and a key, or 1 and a word. It has at least one byte, and
/// fewer than 2^32. The order is that of the file: by field, then by the bytes.
#[derive(Debug, Drop)]
pub struct Term<'a> {
    field: u8,
    bytes: &'a [u8],
}

impl<'a> Model for Term<'a> {
    ghost use Rattle.std.specs.Prelude.{ℕ, List, ◌∷◌, ◌<◌, ◌^◌, length};

    ghost Value = { List ℕ };

    ghost view = { λ term. term.field ∷ term.bytes.now };

    ghost invariant = { λ term. (term.field < 2) × (0 < length term.bytes.now) × (length term.bytes.now < 2 ^ 32) };
}

impl<'a> Term<'a> {
    pub fn of_key(key: &'a Key) -> Term<'a>
        ensures { result ≡ 0 ∷ key.now }
    {
        Term {
            field: 0,
            bytes: key.as_slice(),
        }
    }

    /// A word of 2^32 bytes or more is out of memory.
    pub fn of_word(word: &'a Word) -> Result<Term<'a>, NoMemory>
        ensures { IfOk result (λ term. term ≡ 1 ∷ word.now) }
    {
        let bytes = word.as_slice();
        if bytes.len() > LONGEST {
            return Err(AllocError);
        }
        Ok(Term { field: 1, bytes })
    }

    /// The term of an entry.
    pub fn of_entry(field: u8, bytes: &'a [u8]) -> Term<'a>
        requires field { field < 2 }
        requires some { 0 < length bytes.now }
        requires few { length bytes.now < 2 ^ 32 }
        ensures { result ≡ field ∷ bytes.now }
    {
        Term { field, bytes }
    }

    /// The field and the bytes.
    pub fn parts(&self) -> (u8, &'a [u8])
        ensures both { self.now ≡ result.0 ∷ result.1.now }
        ensures field { result.0 < 2 }
        ensures some { 0 < length result.1.now }
        ensures few { length result.1.now < 2 ^ 32 }
    {
        (self.field, self.bytes)
    }
}

impl<'a> PartialEq for Term<'a> {
    ghost eq = { pointwise nat_eq };

    ghost laws = { partial_equiv_from_equiv nat_list_eq_equiv };

    fn eq(&self, other: &Term<'a>) -> bool {
        self.field == other.field && self.bytes == other.bytes
    }
}

impl<'a> Eq for Term<'a> {
    ghost laws = { nat_list_eq_equiv };
}

impl<'a> PartialOrd for Term<'a> {
    ghost partial_cmp = { as_partial_cmp (slice_cmp nat_cmp) };

    ghost laws = { partial_order_from_own_ties (partial_order_from_total nat_list_cmp_total) (λ a b. sym (is_eq-slice_cmp a b)) };

    fn partial_cmp(&self, other: &Term<'a>) -> Option<Ordering> {
        Some(self.cmp(other))
    }
}

impl<'a> Ord for Term<'a> {
    ghost cmp = { slice_cmp nat_cmp };

    ghost total = { nat_list_cmp_total };

    ghost matches_partial_cmp = { λ a b. refl };

    ghost matches_eq = { λ a b. sym (is_eq-slice_cmp a b) };

    fn cmp(&self, other: &Term<'a>) -> Ordering {
        match self.field.cmp(&other.field) {
            Ordering::Equal => self.bytes.cmp(&other.bytes),
            Ordering::Less => Ordering::Less,
            Ordering::Greater => Ordering::Greater,
        }
    }
}
