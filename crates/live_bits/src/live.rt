//! Which rows of a segment are live.

ghost use Rattle.std.specs.Prelude.{◌≡◌, ◌<◌, length, replicate, slice_index_or, slice_set, true, false, IfOk, MatchOption};
ghost use Rattle.live_bits.specs.LiveRows.{live_rows, AreDeadFrom, IsFirstLive};

use crate::bits::{all_set, clear, is_set, next_set};
use file_names::{NoMemory, Share};
use std::alloc::Global;
use std::marker::Model;

/// Which rows of a segment are live, seen as the truth value of each row.
#[derive(Debug, Drop)]
pub struct LiveBits {
    pub(crate) bits: Vec<u8>,
    pub(crate) rows: u32,
    pub(crate) live: u32,
}

impl Model for LiveBits {
    ghost use Rattle.std.specs.Prelude.{List, Bool};
    ghost use Rattle.live_bits.specs.Held.{rows_in, HoldsRows};

    ghost Value = { List Bool };

    ghost view = { λ a. rows_in a.rows a.bits.items };

    ghost invariant = { λ a. HoldsRows a.bits.items a.rows a.live };
}

impl LiveBits {
    /// So many rows, all of them live.
    pub fn all(alloc: Global, rows: u32) -> Result<LiveBits, NoMemory>
        ensures { IfOk result (λ live. live ≡ replicate rows true) }
    {
        Ok(LiveBits {
            bits: all_set(alloc, rows)?,
            rows,
            live: rows,
        })
    }

    /// Makes a row dead. A dead row stays so.
    pub fn kill(&mut self, row: u32)
        requires { row < length self.old }
        ensures { self.new ≡ slice_set self.old row false }
    {
        if is_set(&self.bits, row) {
            clear(&mut self.bits, row);
            self.live -= 1;
        }
    }

    /// Whether a row is live.
    pub fn is_live(&self, row: u32) -> bool
        requires { row < length self.now }
        ensures { result ≡ slice_index_or self.now row false }
    {
        is_set(&self.bits, row)
    }

    /// The first live row at or above this one. Eight dead rows are passed at once.
    pub fn next_live(&self, least: u32) -> Option<u32>
        ensures { MatchOption result (AreDeadFrom least self.now) (IsFirstLive least self.now) }
    {
        next_set(&self.bits, self.rows, least)
    }

    /// How many rows there are, and how many of them are live. Both are kept, so nothing is counted.
    pub fn counts(&self) -> (u32, u32)
        ensures rows { result.0 ≡ length self.now }
        ensures live { result.1 ≡ live_rows self.now }
    {
        (self.rows, self.live)
    }
}

/// The bits are copied.
impl Share for LiveBits {
    fn share(&self, alloc: Global) -> Result<Self, NoMemory> {
        Ok(LiveBits {
            bits: Vec::from_slice(alloc, &self.bits)?,
            rows: self.rows,
            live: self.live,
        })
    }
}
