//! Blocks of rows, and their skip entries.

ghost use Rattle.std.specs.Prelude.{◌≡◌, ℕ, ◌<◌, ◌≤◌, ◌^◌, ◌++◌, ◌↔◌, min, take, drop, List, IfSome, IsTrue, OnOk};
ghost use Rattle.std.specs.List.{All};
ghost use Rattle.std.specs.Option.{option_map};
ghost use Rattle.body_forms.specs.Format.{Skips};
ghost use Rattle.postings_plain.specs.Postings.{Hit, row_of, block_rows, block_count, skip_count, skip};
ghost use Rattle.postings_plain.specs.Reading.{skip_at, skips_at};
ghost use Rattle.postings_plain.specs.Blocks.{IsBlockStart, IsReached};

use crate::format::Format;
use body_forms::{difference_of, push_difference, push_vint, vint_of};
use nrt_base::NoMemory;

/// How many rows a block has; the last block of a term has the rest.
pub const BLOCK_ROWS: u32 = 128;

/// How many of so many rows the first block has.
#[tactic(auto, unfolding(crate::specs::Postings::block_rows))]
pub fn first_block(rows: u32) -> u32
    ensures { result ≡ min block_rows rows }
{
    rows.min(BLOCK_ROWS)
}

/// How many skip entries a term of so many rows has.
#[tactic(auto, unfolding(crate::specs::Postings::block_rows, crate::specs::Postings::block_count))]
pub fn skips_of_rows(format: Format, rows: u32) -> u32
    ensures { result ≡ skip_count format rows }
{
    match format {
        Format::Two if rows > BLOCK_ROWS => rows.div_ceil(BLOCK_ROWS),
        _ => 0,
    }
}

/// The skip entry at the front, and the bytes after it: the last row of a block whose rows are the least or above, and how
/// many bytes its rows take.
pub fn skip_of(least: u64, bytes: &[u8]) -> Option<((u32, u32), &[u8])>
    requires { least ≤ 2 ^ 32 }
    ensures value { option_map (λ x. (x.0, x.1.now)) result ≡ skip_at least bytes.now }
    ensures below { IfSome result (λ x. x.0.0 < 2 ^ 32) }
{
    let (row, rest) = difference_of(least, bytes)?;
    let (len, rest) = vint_of(rest)?;
    Some(((row, len), rest))
}

/// Reads past so many skip entries.
pub fn skip_skips(count: u32, bytes: &[u8]) -> Option<&[u8]>
    ensures { Skips (option_map (λ r. r.now) result) (skips_at count 0 bytes.now) }
{
    let mut rest = bytes;
    let mut least: u64 = 0;
    for _ in 0..count {
        let ((row, _), after) = skip_of(least, rest)?;
        least = u64::from(row) + 1;
        rest = after;
    }
    Some(rest)
}

/// Puts a skip entry at the end: of a block whose last row is this one, and whose rows take so many bytes.
pub fn push_skip(out: &mut Vec<u8>, least: u64, row: u32, len: u32) -> Result<(), NoMemory>
    requires { least ≤ row }
    ensures { OnOk result (out.new.items ≡ out.old.items ++ skip least (row, len)) }
{
    push_difference(out, least, row)?;
    push_vint(out, len)?;
    Ok(())
}

/// Where a block begins: the least row that it may have, how many hits are left from it on, the bytes that begin with them,
/// and the bytes that begin with its skip entry.
#[derive(Clone, Copy)]
pub struct BlockStart<'a> {
    pub least: u64,
    pub count: u32,
    pub rest: &'a [u8],
    pub skips: &'a [u8],
}

impl<'a> BlockStart<'a> {
    /// Whether a reader comes to this block before the row, that has so many hits left.
    pub fn is_reached(&self, count: u32, row: u32) -> bool
        ensures { IsTrue result ↔ IsReached self.now count row }
    {
        self.count > 0 && (self.count == count || self.least <= u64::from(row))
    }

    /// The block after this one begins there. It has no rows where this one is the last.
    pub fn following(&self) -> BlockStart<'a>
        requires { (field : ℕ) × (hs : List Hit) × IsBlockStart field self.now hs
            × (0 < self.now.count) }
        ensures begins { (field : ℕ) (hs : List Hit) → IsBlockStart field self.now hs
            → IsBlockStart field result (drop block_rows hs) }
        ensures below { (field : ℕ) (hs : List Hit) → IsBlockStart field self.now hs
            → All (λ h. row_of h < result.least) (take block_rows hs) }
        ensures fewer { result.count < self.now.count }
    {
        match skip_of(self.least, self.skips) {
            Some(((row, len), skips)) => {
                let (_, rest) = self.rest.split_at(len as usize);
                BlockStart {
                    least: u64::from(row) + 1,
                    count: self.count - first_block(self.count),
                    rest,
                    skips,
                }
            }
            None => unreachable!(),
        }
    }
}
