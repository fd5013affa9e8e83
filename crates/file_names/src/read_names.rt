//! The names of files, read back: the one reader of each kind.

ghost use Rattle.std.specs.Prelude.{◌≡◌, ◌<◌, ◌^◌, ℕ, List, true, Some, None, IfSome, IsSomeAnd, MatchOption};
ghost use Rattle.file_names.specs.Base36.{base36_of};
ghost use Rattle.file_names.specs.Names.{marked_name, numbered_name, is_unmarked, IsLastMark, live_name_of, IsLiveNameOf, number_of_digits, number_behind, number_of_commit, number_of_pending, IsFileOfSegment, IsTemporaryOfSegment};

use crate::names::FileName;
use crate::radix::read_base36;
use nrt_base::SegNo;

/// Commit numbers are below this.
const COMMIT_NUMBERS: u64 = 1 << 62;

// The number of a commit that the digits spell.
fn commit_number(digits: &[u8]) -> Option<u64>
    ensures number { result ≡ number_of_digits digits.now }
    ensures below { IfSome result (λ n. n < 2 ^ 62) }
{
    match read_base36(digits) {
        Ok(n) if 0 < n && n < COMMIT_NUMBERS => Some(n),
        _ => None,
    }
}

// The number of a commit that stands behind these letters and ends the name.
fn number_behind(name: &[u8], letters: &[u8]) -> Option<u64>
    ensures number { result ≡ number_behind letters.now name.now }
    ensures below { IfSome result (λ n. n < 2 ^ 62) }
{
    if name.starts_with(letters) {
        commit_number(&name[letters.len()..])
    } else {
        None
    }
}

/// The number of the commit that has this name.
pub fn commit_of(name: &FileName) -> Option<u64>
    ensures number { result ≡ number_of_commit name.now }
    ensures below { IfSome result (λ n. n < 2 ^ 62) }
{
    number_behind(name.as_slice(), b"segments_")
}

/// The number of the commit in preparation that has this name.
pub fn pending_of(name: &FileName) -> Option<u64>
    ensures number { result ≡ number_of_pending name.now }
    ensures below { IfSome result (λ n. n < 2 ^ 62) }
{
    number_behind(name.as_slice(), b"pending_segments_")
}

// The number that the digits are the spelling of.
fn spelled(digits: &[u8]) -> Option<u64>
    ensures some { IfSome result (λ n. (n < 2 ^ 64) × (digits.now ≡ base36_of n)) }
    ensures all { (n : ℕ) → n < 2 ^ 64 → digits.now ≡ base36_of n → result ≡ Some n }
{
    match read_base36(digits) {
        Ok(n) => Some(n),
        Err(_) => None,
    }
}

// The place of the last `_`.
fn last_mark(bytes: &[u8]) -> Option<usize>
    ensures { MatchOption result (is_unmarked bytes.now ≡ true) (λ at. IsLastMark bytes.now at) }
{
    let mut last = None;
    for (at, byte) in bytes.iter().enumerate() {
        if *byte == b'_' {
            last = Some(at);
        }
    }
    last
}

// The front and the number of what is `front_N` and this ending.
fn numbered<'a>(name: &'a [u8], ending: &[u8]) -> Option<(&'a [u8], u64)>
    ensures some { IfSome result
        (λ p. (p.1 < 2 ^ 64) × (name.now ≡ numbered_name p.0.now p.1 ending.now)) }
    ensures all { (front : List ℕ) (n : ℕ) → n < 2 ^ 64 → name.now ≡ numbered_name front n ending.now
        → IsSomeAnd result (λ p. (p.0.now ≡ front) × (p.1 ≡ n)) }
{
    let front = name.strip_suffix(ending)?;
    let at = last_mark(front)?;
    let n = spelled(&front[at + 1..])?;
    Some((&front[..at], n))
}

// The number of what is `_N` and this ending.
fn marked(name: &[u8], ending: &[u8]) -> Option<u64>
    ensures some { IfSome result (λ n. (n < 2 ^ 64) × (name.now ≡ marked_name n ending.now)) }
    ensures all { (n : ℕ) → n < 2 ^ 64 → name.now ≡ marked_name n ending.now → result ≡ Some n }
{
    match numbered(name, ending) {
        Some((front, n)) if front.is_empty() => Some(n),
        _ => None,
    }
}

// The segment that has this live file.
fn live_segment(name: &[u8]) -> Option<u64>
    ensures some { IfSome result (λ n. (n < 2 ^ 64) × IsLiveNameOf n name.now) }
    ensures all { (n live_gen : ℕ) → n < 2 ^ 64 → live_gen < 2 ^ 64
        → name.now ≡ live_name_of n live_gen → result ≡ Some n }
{
    let (front, _) = numbered(name, b".liv")?;
    marked(front, b"")
}

// The segment that has this file.
fn segment_in(name: &[u8]) -> Option<u64>
    ensures some { IfSome result (λ n. IsFileOfSegment n name.now) }
    ensures all { (n : ℕ) → IsFileOfSegment n name.now → result ≡ Some n }
{
    marked(name, b".docs")
        .or(marked(name, b".post"))
        .or(marked(name, b".si"))
        .or(live_segment(name))
}

/// The segment of which this is a file: a part, or live rows.
pub fn segment_of_file(name: &FileName) -> Option<SegNo>
    ensures some { IfSome result (λ seg. IsFileOfSegment seg.0 name.now) }
    ensures all { (seg : SegNo) → IsFileOfSegment seg.0 name.now → result ≡ Some seg }
{
    match segment_in(name.as_slice()) {
        Some(n) => Some(SegNo(n)),
        None => None,
    }
}

/// The segment of which this is a file's temporary name.
pub fn segment_of_temporary(name: &FileName) -> Option<SegNo>
    ensures some { IfSome result (λ seg. IsTemporaryOfSegment seg.0 name.now) }
    ensures all { (seg : SegNo) → IsTemporaryOfSegment seg.0 name.now → result ≡ Some seg }
{
    let (file, _) = numbered(name.as_slice(), b".tmp")?;
    match segment_in(file) {
        Some(n) => Some(SegNo(n)),
        None => None,
    }
}
