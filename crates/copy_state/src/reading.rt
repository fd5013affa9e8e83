//! The metadata that a file's bytes tell.

ghost use Rattle.std.specs.Prelude.{◌≡◌, ◌+◌, ◌-◌, ◌≤◌, ◌↔◌, length, drop, slice_range, Some, None, IfOk};
ghost use Rattle.codec_frame.specs.Checking.{be32_at};
ghost use Rattle.codec_frame.specs.declared.frame.FrameFault.{FrameFault};
ghost use Rattle.copy_state.specs.Meta.{name_length, told_header, meta_fault, meta_fault_by, IsMetaOf};

use crate::meta::{FileMetaData, MetaFault};
use byteorder::{BigEndian, ByteOrder};
use codec_frame::{FOOTER_LENGTH, FOOTER_MAGIC, FrameFault, HEADER_MAGIC};
use segment_infos::NameBytes;
use std::alloc::Global;

/// How many bytes a file has at least: an index header without a name and a suffix, and a footer.
const LEAST: usize = 42;

/// The longest name of a format.
const LONGEST_NAME: usize = 127;

// The bytes from a place on.
fn array_of<const N: usize>(bytes: &[u8], at: usize) -> [u8; N]
    requires { at + N ≤ length bytes.now }
    ensures { result ≡ slice_range bytes.now at (at + N) }
{
    match bytes[at..].first_chunk::<N>() {
        Some(array) => *array,
        None => unreachable!(),
    }
}

// The number in the four bytes from a place on.
fn u32_of(bytes: &[u8], at: usize) -> u32
    requires { at + 4 ≤ length bytes.now }
    ensures { result ≡ be32_at bytes.now at }
{
    BigEndian::read_u32(&bytes[at..])
}

// How long the index header is that the bytes tell of.
fn header_of(bytes: &[u8]) -> usize
    requires { 42 + name_length bytes.now ≤ length bytes.now }
    ensures header { result ≡ told_header bytes.now }
    ensures most { result ≤ 281 + name_length bytes.now }
{
    let name = bytes[4] as usize;
    26 + name + bytes[25 + name] as usize
}

// The fault of a footer, but for its checksum.
fn footer_fault(bytes: &[u8]) -> Option<FrameFault>
    requires { 16 ≤ length bytes.now }
    ensures { result ≡ meta_fault_by bytes.now }
{
    let footer = bytes.len() - FOOTER_LENGTH;
    if u32_of(bytes, footer) != FOOTER_MAGIC {
        return Some(FrameFault::FooterMagic);
    }
    if u32_of(bytes, footer + 4) != 0 {
        return Some(FrameFault::Algorithm);
    }
    None
}

// The first reason why the bytes tell of no metadata.
fn fault_of(bytes: &[u8]) -> Option<FrameFault>
    ensures fault { result ≡ meta_fault bytes.now }
    ensures name { result ≡ None → 42 + name_length bytes.now ≤ length bytes.now }
    ensures long { result ≡ None → told_header bytes.now + 16 ≤ length bytes.now }
    ensures short { result ≡ None → told_header bytes.now ≤ 408 }
{
    if bytes.len() < LEAST {
        return Some(FrameFault::Truncated);
    }
    if u32_of(bytes, 0) != HEADER_MAGIC {
        return Some(FrameFault::Magic);
    }
    let name = bytes[4] as usize;
    if name > LONGEST_NAME {
        return Some(FrameFault::Codec);
    }
    if bytes.len() < LEAST + name {
        return Some(FrameFault::Truncated);
    }
    if bytes.len() < header_of(bytes) + FOOTER_LENGTH {
        return Some(FrameFault::Truncated);
    }
    footer_fault(bytes)
}

// The metadata of bytes that tell it.
fn meta_of(alloc: Global, bytes: &[u8]) -> Result<FileMetaData, MetaFault>
    requires readable { meta_fault bytes.now ≡ None }
    requires name { 42 + name_length bytes.now ≤ length bytes.now }
    requires long { told_header bytes.now + 16 ≤ length bytes.now }
    requires short { told_header bytes.now ≤ 408 }
    ensures meta { IfOk result (IsMetaOf bytes.now) }
    ensures fault { (fault : FrameFault) → result ≡ Err (MetaFault.Frame fault) → ⊥ }
{
    let header = NameBytes::new(alloc, &bytes[..header_of(bytes)])?;
    let footer = bytes.len() - FOOTER_LENGTH;
    Ok(FileMetaData {
        header,
        footer: array_of(bytes, footer),
        length: bytes.len() as u64,
        checksum: BigEndian::read_u64(&bytes[footer + 8..]),
    })
}

/// The metadata of a file, or the first reason why there is none. The checksum is read as it stands, and not computed.
pub fn read_meta(alloc: Global, bytes: &[u8]) -> Result<FileMetaData, MetaFault>
    ensures meta { IfOk result (IsMetaOf bytes.now) }
    ensures fault { (fault : FrameFault) → (result ≡ Err (MetaFault.Frame fault))
        ↔ (meta_fault bytes.now ≡ Some fault) }
{
    match fault_of(bytes) {
        Some(fault) => Err(MetaFault::Frame(fault)),
        None => meta_of(alloc, bytes),
    }
}
