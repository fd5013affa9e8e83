//! Bits of rows, packed eight to a byte, the lowest first.

ghost use Rattle.std.specs.Prelude.{◌≡◌, ◌↔◌, ℕ, ◌+◌, ◌*◌, ◌/◌, ◌^◌, ◌≤◌, ◌<◌, length, replicate, IsTrue, IfOk, MatchOption, true, false};
ghost use Rattle.live_bits.specs.LiveRows.{has_bit, live_rows, AreDeadFrom, IsFirstLive};
ghost use Rattle.live_bits.specs.Held.{rows_in, HoldsRows, ClearsBit};

use file_names::NoMemory;
use std::alloc::Global;

/// How many bytes the bits of so many rows take.
pub fn bytes_for(rows: u32) -> usize
    ensures { result ≡ (rows + 7) / 8 }
{
    (rows as usize + 7) / 8
}

/// Whether the bit of a row is set.
pub fn is_set(bits: &[u8], row: u32) -> bool
    requires { row / 8 < length bits.now }
    ensures { result ≡ has_bit bits.now row }
{
    bits[(row / 8) as usize] >> (row % 8) & 1 == 1
}

/// ClearsBit the bit of a row.
pub fn clear(bits: &mut [u8], row: u32)
    requires { row / 8 < length bits.old }
    ensures { ClearsBit bits.old bits.new row }
{
    bits[(row / 8) as usize] &= !(1u8 << (row % 8));
}

/// The bits of so many rows, all of them live.
pub fn all_set(alloc: Global, rows: u32) -> Result<Vec<u8>, NoMemory>
    ensures hold { IfOk result (λ bits. HoldsRows bits.items rows rows) }
    ensures rows { IfOk result (λ bits. rows_in rows bits.items ≡ replicate rows true) }
{
    let mut bits = vec![in alloc; 0xffu8; bytes_for(rows)]?;
    let rest = rows % 8;
    if rest > 0 {
        bits[(rows / 8) as usize] = 0xff >> (8 - rest);
    }
    Ok(bits)
}

/// Whether no bit past the last of so many rows is set.
pub fn ends_clear(bits: &[u8], rows: u32) -> bool
    requires { length bits.now ≡ (rows + 7) / 8 }
    ensures { IsTrue result ↔ ((i : ℕ) → rows ≤ i → has_bit bits.now i ≡ false) }
{
    let rest = rows % 8;
    rest == 0 || bits[(rows / 8) as usize] >> rest == 0
}

/// How many bits are set.
pub fn count_set(bits: &[u8]) -> u64
    requires { length bits.now < 2 ^ 32 }
    ensures { result ≡ live_rows (rows_in (8 * length bits.now) bits.now) }
{
    let mut count: u64 = 0;
    for byte in bits {
        count += u64::from(byte.count_ones());
    }
    count
}

/// The first of so many rows whose bit is set, at or above this one. Bits that are clear to the end of a byte are passed at
/// once.
pub fn next_set(bits: &[u8], rows: u32, least: u32) -> Option<u32>
    requires { length bits.now ≡ (rows + 7) / 8 }
    ensures { MatchOption result (AreDeadFrom least (rows_in rows bits.now))
        (IsFirstLive least (rows_in rows bits.now)) }
{
    let mut row = least;
    while row < rows {
        let rest = bits[(row / 8) as usize] >> (row % 8);
        if rest & 1 == 1 {
            return Some(row);
        }
        let step = if rest == 0 { 8 - row % 8 } else { 1 };
        if rows - row <= step {
            return None;
        }
        row += step;
    }
    None
}
