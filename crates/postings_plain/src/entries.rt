//! The parts of an entry, read past.

ghost use Rattle.std.specs.Prelude.{◌≡◌, ◌<◌, ◌≤◌, ◌^◌, ℕ, List, [], ◌∷◌, Some, IfSome, true, ◌↔◌, length, slice_index_or};
ghost use Rattle.std.specs.Option.{option_map, is_some};
ghost use Rattle.body_forms.specs.Format.{Skips};
ghost use Rattle.body_forms.specs.Numbers.{ascending_at};
ghost use Rattle.postings_plain.specs.Postings.{Skip};
ghost use Rattle.postings_plain.specs.Reading.{SkipsHit, CountsPositions, CountsHitPositions, SkipsHits, SkipsEntry, counted_from_at, field_at, term_at, positions_at, hit_at, skips_at, blocks_at, rows_of_term_at, hits_at, entry_at};

use crate::blocks::{first_block, skip_of, skip_skips, skips_of_rows};
use crate::format::Format;
use body_forms::{difference_of, positive_of, skip_ascending, string_of};

/// The field at the front, and the bytes after it.
#[tactic(auto, unfolding(crate::specs::Reading::field_at))]
pub fn field_of(bytes: &[u8]) -> Option<(u8, &[u8])>
    ensures { option_map (λ x. (x.0, x.1.now)) result ≡ field_at bytes.now }
{
    match bytes.split_first() {
        None => None,
        Some((field, rest)) => {
            if *field < 2 {
                Some((*field, rest))
            } else {
                None
            }
        }
    }
}

/// The term at the front, and the bytes after it.
#[tactic(auto, unfolding(crate::specs::Reading::term_at))]
pub fn term_of(bytes: &[u8]) -> Option<(&[u8], &[u8])>
    ensures { option_map (λ x. (x.0.now, x.1.now)) result ≡ term_at bytes.now }
{
    let (term, rest) = string_of(bytes)?;
    if term.is_empty() {
        None
    } else {
        Some((term, rest))
    }
}

// Reads past the positions of a word that stands once in its row, at a position of one byte, as most words do.
fn skip_one(bytes: &[u8]) -> Option<&[u8]>
    ensures position { IfSome result (λ rest. (position : ℕ)
        × (ascending_at bytes.now ≡ Some (position ∷ [], rest.now))) }
    ensures taken { is_some result ≡ true ↔ ((2 ≤ length bytes.now)
        × (slice_index_or bytes.now 0 0 ≡ 1) × (slice_index_or bytes.now 1 0 < 128)) }
{
    match bytes {
        [count, position, rest @ ..] if *count == 1 && *position < 128 => Some(rest),
        _ => None,
    }
}

// Reads past the positions of a hit.
fn skip_positions(field: u8, bytes: &[u8]) -> Option<&[u8]>
    ensures { Skips (option_map (λ r. r.now) result) (positions_at field bytes.now) }
{
    if field == 0 {
        return Some(bytes);
    }
    match skip_one(bytes) {
        Some(rest) => Some(rest),
        None => skip_ascending(bytes),
    }
}

/// Reads past a hit, and says which row it is of.
pub fn skip_hit(field: u8, least: u64, bytes: &[u8]) -> Option<(u32, &[u8])>
    requires { least ≤ 2 ^ 32 }
    ensures value { SkipsHit (option_map (λ x. (x.0, x.1.now)) result) (hit_at field least bytes.now) }
    ensures below { IfSome result (λ x. x.0 < 2 ^ 32) }
{
    let (row, rest) = difference_of(least, bytes)?;
    let rest = skip_positions(field, rest)?;
    Some((row, rest))
}

// Reads past the positions of a hit, and says how many they are.
fn count_positions(field: u8, bytes: &[u8]) -> Option<(u32, &[u8])>
    ensures { CountsPositions (option_map (λ x. (x.0, x.1.now)) result)
        (positions_at field bytes.now) }
{
    if field == 0 {
        return Some((0, bytes));
    }
    if let Some(rest) = skip_one(bytes) {
        return Some((1, rest));
    }
    let (count, _) = positive_of(bytes)?;
    let rest = skip_ascending(bytes)?;
    Some((count, rest))
}

/// Reads past a hit, and says which row it is of and how many positions are in it.
pub fn count_hit(field: u8, least: u64, bytes: &[u8]) -> Option<(u32, u32, &[u8])>
    requires { least ≤ 2 ^ 32 }
    ensures value { CountsHitPositions (option_map (λ x. (x.0, (x.1, x.2.now))) result)
        (hit_at field least bytes.now) }
    ensures below { IfSome result (λ x. x.0 < 2 ^ 32) }
{
    let (row, rest) = difference_of(least, bytes)?;
    let (count, rest) = count_positions(field, rest)?;
    Some((row, count, rest))
}

/// Reads past the hits of a term, and says which row is one above the last of them.
pub fn skip_hits(format: Format, field: u8, bytes: &[u8]) -> Option<(u64, &[u8])>
    ensures { SkipsHits 0 (option_map (λ x. (x.0, x.1.now)) result)
        (hits_at format field bytes.now) }
{
    let (count, rest) = positive_of(bytes)?;
    skip_rows(format, field, count, rest)
}

// Reads past the skip entries of so many hits and past the hits, where they agree.
fn skip_rows(format: Format, field: u8, count: u32, bytes: &[u8]) -> Option<(u64, &[u8])>
    ensures { SkipsHits 0 (option_map (λ x. (x.0, x.1.now)) result)
        (rows_of_term_at format field count bytes.now) }
{
    let blocks = skips_of_rows(format, count);
    let rows = skip_skips(blocks, bytes)?;
    skip_blocks(field, blocks, count, bytes, rows)
}

// Reads past so many hits, in so many blocks that end as their skip entries say.
fn skip_blocks<'a>(
    field: u8,
    blocks: u32,
    count: u32,
    skips: &[u8],
    rows: &'a [u8],
) -> Option<(u64, &'a [u8])>
    requires { (list : List Skip) × (after : List ℕ)
        × (skips_at blocks 0 skips.now ≡ Some (list, after)) }
    ensures { (list : List Skip) (after : List ℕ)
        → skips_at blocks 0 skips.now ≡ Some (list, after)
        → SkipsHits 0 (option_map (λ x. (x.0, x.1.now)) result)
        (blocks_at field list count 0 rows.now) }
{
    let mut skips = skips;
    let mut rest = rows;
    let mut least: u64 = 0;
    let mut left = count;
    for _ in 0..blocks {
        let ((row, len), others) = skip_of(least, skips)?;
        let block = first_block(left);
        let (end, after) = skip_counted(field, block, least, rest)?;
        if end != u64::from(row) + 1 || rest.len() != after.len() + len as usize {
            return None;
        }
        skips = others;
        rest = after;
        least = end;
        left -= block;
    }
    skip_counted(field, left, least, rest)
}

// Reads past so many hits, whose rows are the least or above.
fn skip_counted(field: u8, count: u32, least: u64, bytes: &[u8]) -> Option<(u64, &[u8])>
    requires { least ≤ 2 ^ 32 }
    ensures value { SkipsHits least (option_map (λ x. (x.0, x.1.now)) result)
        (counted_from_at field count least bytes.now) }
    ensures below { IfSome result (λ x. x.0 ≤ 2 ^ 32) }
{
    let mut rest = bytes;
    let mut end = least;
    for _ in 0..count {
        let (row, after) = skip_hit(field, end, rest)?;
        end = u64::from(row) + 1;
        rest = after;
    }
    Some((end, rest))
}

/// Reads past an entry, and says which row is one above the last of its hits.
pub fn skip_entry(format: Format, bytes: &[u8]) -> Option<(u64, &[u8])>
    ensures { SkipsEntry (option_map (λ x. (x.0, x.1.now)) result) (entry_at format bytes.now) }
{
    let (field, rest) = field_of(bytes)?;
    let (_, rest) = term_of(rest)?;
    skip_hits(format, field, rest)
}
