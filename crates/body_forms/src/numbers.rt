//! Numbers at the front of bytes, and numbers put at the end.

ghost use Rattle.std.specs.Prelude.{◌≡◌, ◌<◌, ◌≤◌, ◌^◌, ◌++◌, Option, Some, None, IfSome, OnOk, OnErr};
ghost use Rattle.std.specs.Option.{option_map};
ghost use Rattle.body_forms.specs.Format.{Skips, chain_at};
ghost use Rattle.body_forms.specs.Numbers.{u32_bytes, u32_at, u64_bytes, u64_at, vint_at, positive_at, difference, difference_at, above, ascending_at};

use crate::vint::{push_vint, read_vint, vint_len};
use byteorder::{BigEndian, ByteOrder};
use nrt_base::NoMemory;

/// The number in the first four bytes, the highest first, and the bytes after it.
#[tactic(auto, unfolding(crate::specs::Numbers::u32_at))]
pub fn u32_of(bytes: &[u8]) -> Option<(u32, &[u8])>
    ensures { option_map (λ x. (x.0, x.1.now)) result ≡ u32_at bytes.now }
{
    match bytes.split_first_chunk::<4>() {
        Some((number, rest)) => Some((BigEndian::read_u32(number), rest)),
        None => None,
    }
}

/// The number in the first eight bytes, the highest first, and the bytes after it.
#[tactic(auto, unfolding(crate::specs::Numbers::u64_at))]
pub fn u64_of(bytes: &[u8]) -> Option<(u64, &[u8])>
    ensures { option_map (λ x. (x.0, x.1.now)) result ≡ u64_at bytes.now }
{
    match bytes.split_first_chunk::<8>() {
        Some((number, rest)) => Some((BigEndian::read_u64(number), rest)),
        None => None,
    }
}

/// Puts a number at the end in four bytes, the highest first.
pub fn push_u32(out: &mut Vec<u8>, n: u32) -> Result<(), NoMemory>
    ensures ok { OnOk result (out.new.items ≡ out.old.items ++ u32_bytes n) }
    ensures err { OnErr result (out.new.items ≡ out.old.items) }
{
    let mut number = [0; 4];
    BigEndian::write_u32(&mut number, n);
    out.extend_from_slice(&number)
}

/// Puts a number at the end in eight bytes, the highest first.
pub fn push_u64(out: &mut Vec<u8>, n: u64) -> Result<(), NoMemory>
    ensures ok { OnOk result (out.new.items ≡ out.old.items ++ u64_bytes n) }
    ensures err { OnErr result (out.new.items ≡ out.old.items) }
{
    let mut number = [0; 8];
    BigEndian::write_u64(&mut number, n);
    out.extend_from_slice(&number)
}

/// The vInt at the front, and the bytes after it. It is in its shortest form: a longer one is none.
pub fn vint_of(bytes: &[u8]) -> Option<(u32, &[u8])>
    ensures { option_map (λ x. (x.0, x.1.now)) result ≡ vint_at bytes.now }
{
    match bytes {
        // Most numbers take one byte: it is read at once.
        [b, rest @ ..] if *b < 128 => Some((u32::from(*b), rest)),
        _ => match read_vint(bytes) {
            Ok((n, taken)) if taken == vint_len(n) => {
                let (_, rest) = bytes.split_at(taken);
                Some((n, rest))
            }
            _ => None,
        },
    }
}

/// The vInt at the front where it is not 0, and the bytes after it.
#[tactic(auto, unfolding(crate::specs::Numbers::positive_at))]
pub fn positive_of(bytes: &[u8]) -> Option<(u32, &[u8])>
    ensures { option_map (λ x. (x.0, x.1.now)) result ≡ positive_at bytes.now }
{
    let (n, rest) = vint_of(bytes)?;
    if n == 0 { None } else { Some((n, rest)) }
}

/// The next of ascending numbers, and the bytes after it. `least` is the least that may come: 0 for the first, and
/// one above the number before for each other. The difference is counted from `least - 1`, or from 0.
#[tactic(auto, unfolding(crate::specs::Numbers::difference_at))]
pub fn difference_of(least: u64, bytes: &[u8]) -> Option<(u32, &[u8])>
    requires { least ≤ 2 ^ 32 }
    ensures value { option_map (λ x. (x.0, x.1.now)) result ≡ difference_at least bytes.now }
    ensures below { IfSome result (λ x. x.0 < 2 ^ 32) }
{
    let (d, rest) = vint_of(bytes)?;
    let base = if least == 0 { 0 } else { least - 1 };
    let next = base + u64::from(d);
    if next < least {
        return None;
    }
    match u32::try_from(next) {
        Ok(x) => Some((x, rest)),
        Err(_) => None,
    }
}

/// Puts the next of ascending numbers at the end.
pub fn push_difference(out: &mut Vec<u8>, least: u64, n: u32) -> Result<(), NoMemory>
    requires { least ≤ n }
    ensures ok { OnOk result (out.new.items ≡ out.old.items ++ difference least n) }
    ensures err { OnErr result (out.new.items ≡ out.old.items) }
{
    let base = least.saturating_sub(1) as u32;
    push_vint(out, n - base)
}

/// The bytes after at least one ascending number: how many they are, then each.
pub fn skip_ascending(bytes: &[u8]) -> Option<&[u8]>
    ensures { Skips (option_map (λ r. r.now) result) (ascending_at bytes.now) }
{
    let (count, rest) = positive_of(bytes)?;
    skip_differences(count, rest)
}

fn skip_differences(count: u32, bytes: &[u8]) -> Option<&[u8]>
    ensures { Skips (option_map (λ r. r.now) result) (chain_at difference_at above count 0 bytes.now) }
{
    let mut rest = bytes;
    let mut least: u64 = 0;
    for _ in 0..count {
        let (x, after) = difference_of(least, rest)?;
        least = u64::from(x) + 1;
        rest = after;
    }
    Some(rest)
}
