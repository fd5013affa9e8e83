//! The positions of a word in a row, read as they are asked for.

ghost use Rattle.std.specs.Prelude.{◌≡◌, ◌<◌, ◌^◌, ℕ, List, [], length, Some};
ghost use Rattle.std.specs.Ordering.{nat_cmp};
ghost use Rattle.std.specs.List.Sorted.{IsStrictlySortedBy};
ghost use Rattle.body_forms.specs.Numbers.{ascending_at};

use body_forms::{difference_of, positive_of};
use std::marker::Model;

/// The positions of a word in a row, from 0 and ascending; they are lent from the file's bytes.
#[derive(Drop)]
pub struct Positions<'a> {
    // The least position that may come next, how many are left, and the bytes that begin with them.
    least: u64,
    count: u32,
    rest: &'a [u8],
}

impl<'a> Model for Positions<'a> {
    ghost use Rattle.std.specs.Prelude.{List, ℕ, ◌≤◌, ◌^◌};
    ghost use Rattle.body_forms.specs.Format.{chain_at};
    ghost use Rattle.body_forms.specs.Numbers.{difference_at, above};
    ghost use Rattle.postings_plain.specs.Reading.{numbers_or_none, AreNumbers};

    ghost Value = { List ℕ };

    ghost view = { λ a. numbers_or_none (chain_at difference_at above a.count a.least a.rest.now) };

    ghost invariant = { λ a. (a.least ≤ 2 ^ 32) × AreNumbers (chain_at difference_at above a.count a.least a.rest.now) };
}

impl Positions<'_> {
    /// No positions; the bytes are not looked at.
    pub(crate) fn none(bytes: &[u8]) -> Positions<'_>
        ensures { result ≡ [] }
    {
        Positions {
            least: 0,
            count: 0,
            rest: bytes,
        }
    }

    /// The positions at the front of the bytes, how many there are first.
    pub(crate) fn counted(bytes: &[u8]) -> Positions<'_>
        requires { (xs : List ℕ) × (tail : List ℕ) × (ascending_at bytes.now ≡ Some (xs, tail)) }
        ensures value { (xs tail : List ℕ) → ascending_at bytes.now ≡ Some (xs, tail)
            → result ≡ xs }
        ensures few { length result < 2 ^ 32 }
        ensures ascend { IsStrictlySortedBy nat_cmp result }
    {
        match positive_of(bytes) {
            Some((count, rest)) => Positions {
                least: 0,
                count,
                rest,
            },
            None => unreachable!(),
        }
    }

    /// How many are left.
    pub fn left(&self) -> u32
        ensures { result ≡ length self.now }
    {
        self.count
    }
}

impl<'a> Iterator for Positions<'a> {
    ghost use Rattle.std.specs.Iterator.{YieldsFirst, item_count};

    type Item = u32;

    ghost next_gives = { YieldsFirst (λ s. s) };

    ghost remaining = { item_count (λ s. s) };

    fn next(&mut self) -> Option<u32> {
        if self.count == 0 {
            return None;
        }
        match difference_of(self.least, self.rest) {
            Some((position, after)) => {
                self.least = u64::from(position) + 1;
                self.count -= 1;
                self.rest = after;
                Some(position)
            }
            None => unreachable!(),
        }
    }
}
