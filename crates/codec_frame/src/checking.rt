//! Whether bytes are framed as wanted.

ghost use Rattle.std.specs.Prelude.{◌≡◌, ◌+◌, ◌^◌, ◌<◌, ◌≤◌, ◌↔◌, length, IsTrue, IfSome, IfOk, IfErr, OnOk, slice_range};
ghost use Rattle.codec_frame.specs.Checking.{NoFaultBelow, IsChecked, IsFirstFault, HasHeader, HasFooter, HasShortString, be32_at, be64_at};
ghost use Rattle.codec_frame.specs.Frame.{header_length, wanted};

use crate::crc::crc32;
use crate::frame::{FOOTER_LENGTH, FOOTER_MAGIC, FrameFault, Framed, HEADER_MAGIC, Want};
use byteorder::{BigEndian, ByteOrder};

/// Whether the bytes are a file that is framed as wanted: the frame, or the first fault. A file that
/// was written so is accepted, with its version, its id and its body.
pub fn check(bytes: &[u8], want: &Want) -> Result<Framed, FrameFault>
    requires name { length want.now.name.now < 128 }
    requires suffix { length want.now.suffix.now < 256 }

    ensures { IsChecked (wanted want.now) bytes.now result }
{
    let start = 26 + want.name.len() + want.suffix.len();
    if bytes.len() < start + FOOTER_LENGTH {
        return Err(FrameFault::Truncated);
    }
    let (version, id) = check_header(bytes, want)?;
    check_footer(bytes, want)?;
    Ok(Framed {
        version,
        id,
        start,
        end: bytes.len() - FOOTER_LENGTH,
    })
}

// The version and the id of a header that is as wanted, or the first fault in it.
fn check_header(bytes: &[u8], want: &Want) -> Result<(u32, [u8; 16]), FrameFault>
    requires whole { header_length (wanted want.now) + 16 ≤ length bytes.now }
    ensures ok { IfOk result (λ found. HasHeader (wanted want.now) bytes.now found.0 found.1) }
    ensures err { IfErr result (λ fault. IsFirstFault (wanted want.now) bytes.now fault) }
    ensures newest { want.now.max < 2 ^ 32 }
{
    let length = want.name.len();
    if u32_of(bytes, 0) != HEADER_MAGIC {
        return Err(FrameFault::Magic);
    }
    if !has_string(bytes, 4, want.name) {
        return Err(FrameFault::Codec);
    }
    let version = u32_of(bytes, 5 + length);
    if version < want.min {
        return Err(FrameFault::TooOld(version));
    }
    if version > want.max {
        return Err(FrameFault::TooNew(version));
    }
    let id: [u8; 16] = array_of(bytes, 9 + length);
    if !is_wanted(&id, &want.id) {
        return Err(FrameFault::Id);
    }
    if !has_string(bytes, 25 + length, want.suffix) {
        return Err(FrameFault::Suffix);
    }
    Ok((version, id))
}

// The first fault in the footer, where the header has none.
fn check_footer(bytes: &[u8], want: &Want) -> Result<(), FrameFault>
    requires whole { 16 ≤ length bytes.now }
    requires header { NoFaultBelow 8 (wanted want.now) bytes.now }
    ensures ok { OnOk result (HasFooter bytes.now) }
    ensures err { IfErr result (λ fault. IsFirstFault (wanted want.now) bytes.now fault) }
{
    let footer = bytes.len() - FOOTER_LENGTH;
    if u32_of(bytes, footer) != FOOTER_MAGIC {
        return Err(FrameFault::FooterMagic);
    }
    if u32_of(bytes, footer + 4) != 0 {
        return Err(FrameFault::Algorithm);
    }
    let want = u64::from(crc32(&bytes[..footer + 8]));
    let found = u64_of(bytes, footer + 8);
    if want != found {
        return Err(FrameFault::Checksum { want, found });
    }
    Ok(())
}

// Whether the id is the wanted one, or any will do.
fn is_wanted(id: &[u8; 16], wanted: &Option<[u8; 16]>) -> bool
    ensures { IsTrue result ↔ IfSome wanted.now (λ wanted. id.now ≡ wanted) }
{
    match wanted {
        Some(wanted) => id == wanted,
        None => true,
    }
}

// Whether the text stands at a place, with its length before it in one byte.
fn has_string(bytes: &[u8], at: usize, text: &[u8]) -> bool
    requires { at + (1 + length text.now) ≤ length bytes.now }
    ensures { IsTrue result ↔ HasShortString bytes.now at text.now }
{
    bytes[at] as usize == text.len() && &bytes[at + 1..at + 1 + text.len()] == text
}

// The number in the four bytes from a place on.
fn u32_of(bytes: &[u8], at: usize) -> u32
    requires { at + 4 ≤ length bytes.now }
    ensures { result ≡ be32_at bytes.now at }
{
    BigEndian::read_u32(&bytes[at..])
}

// The number in the eight bytes from a place on.
fn u64_of(bytes: &[u8], at: usize) -> u64
    requires { at + 8 ≤ length bytes.now }
    ensures { result ≡ be64_at bytes.now at }
{
    BigEndian::read_u64(&bytes[at..])
}

// The N bytes from a place on.
fn array_of<const N: usize>(bytes: &[u8], at: usize) -> [u8; N]
    requires { at + N ≤ length bytes.now }
    ensures { result ≡ slice_range bytes.now at (at + N) }
{
    match bytes[at..].first_chunk::<N>() {
        Some(array) => *array,
        None => unreachable!(),
    }
}
