//! What writes the header and the footer of a frame.

ghost use Rattle.std.specs.Prelude.{◌≡◌, ◌+◌, ◌<◌, ◌≤◌, ◌++◌, length, OnOk, OnErr, vec_len, vec_capacity};
ghost use Rattle.std.specs.Int.{w32, w64, to_be_bytes};
ghost use Rattle.codec_frame.specs.Frame.{header, index_header, with_footer};

use crate::crc::crc32;
use crate::frame::{FOOTER_LENGTH, FOOTER_MAGIC, HEADER_MAGIC};
use byteorder::{BigEndian, ByteOrder};
use std::alloc::AllocError;

/// Adds a header: the magic, the name of the format and its version.
pub fn write_header(out: &mut Vec<u8>, name: &[u8], version: u32) -> Result<(), AllocError>
    requires { length name.now < 128 }
    ensures ok { OnOk result (out.new.items ≡ out.old.items ++ header name.now version) }
    ensures err { OnErr result (out.new.items ≡ out.old.items) }
{
    out.reserve(9 + name.len())?;
    add_header(out, name, version);
    Ok(())
}

/// Adds an index header: a header, the id of the file and a suffix.
#[tactic(auto, unfolding(crate::specs::Frame::index_header))]
pub fn write_index_header(
    out: &mut Vec<u8>,
    name: &[u8],
    version: u32,
    id: &[u8; 16],
    suffix: &[u8],
) -> Result<(), AllocError>
    requires name { length name.now < 128 }
    requires suffix { length suffix.now < 256 }
    ensures ok { OnOk result
        (out.new.items ≡ out.old.items ++ index_header name.now version id.now suffix.now) }
    ensures err { OnErr result (out.new.items ≡ out.old.items) }
{
    out.reserve(26 + name.len() + suffix.len())?;
    add_header(out, name, version);
    add(out, id);
    add(out, &[suffix.len() as u8]);
    add(out, suffix);
    Ok(())
}

/// Adds a footer: its magic, the algorithm 0, and the CRC-32 of all that `out` has before that.
#[tactic(auto, unfolding(crate::specs::Frame::with_footer))]
pub fn write_footer(out: &mut Vec<u8>) -> Result<(), AllocError>
    ensures ok { OnOk result (out.new.items ≡ with_footer out.old.items) }
    ensures err { OnErr result (out.new.items ≡ out.old.items) }
{
    out.reserve(FOOTER_LENGTH)?;
    add_u32(out, FOOTER_MAGIC);
    add_u32(out, 0);
    let checksum = u64::from(crc32(out));
    add_u64(out, checksum);
    Ok(())
}

// Adds a header, for which there is room.
#[tactic(auto, unfolding(crate::specs::Frame::header))]
fn add_header(out: &mut Vec<u8>, name: &[u8], version: u32)
    requires name { length name.now < 128 }
    requires room { vec_len out.old + (9 + length name.now) ≤ vec_capacity out.old }
    ensures items { out.new.items ≡ out.old.items ++ header name.now version }
    ensures len { vec_len out.new ≡ vec_len out.old + (9 + length name.now) }
    ensures room { vec_capacity out.old ≤ vec_capacity out.new }
{
    add_u32(out, HEADER_MAGIC);
    add(out, &[name.len() as u8]);
    add(out, name);
    add_u32(out, version);
}

// Adds a number in four bytes, for which there is room.
fn add_u32(out: &mut Vec<u8>, n: u32)
    requires { vec_len out.old + 4 ≤ vec_capacity out.old }
    ensures items { out.new.items ≡ out.old.items ++ to_be_bytes w32 n }
    ensures len { vec_len out.new ≡ vec_len out.old + 4 }
    ensures room { vec_capacity out.old ≤ vec_capacity out.new }
{
    let mut bytes = [0; 4];
    BigEndian::write_u32(&mut bytes, n);
    add(out, &bytes);
}

// Adds a number in eight bytes, for which there is room.
fn add_u64(out: &mut Vec<u8>, n: u64)
    requires { vec_len out.old + 8 ≤ vec_capacity out.old }
    ensures items { out.new.items ≡ out.old.items ++ to_be_bytes w64 n }
    ensures len { vec_len out.new ≡ vec_len out.old + 8 }
    ensures room { vec_capacity out.old ≤ vec_capacity out.new }
{
    let mut bytes = [0; 8];
    BigEndian::write_u64(&mut bytes, n);
    add(out, &bytes);
}

// Adds bytes, for which there is room.
fn add(out: &mut Vec<u8>, bytes: &[u8])
    requires { vec_len out.old + length bytes.now ≤ vec_capacity out.old }
    ensures items { out.new.items ≡ out.old.items ++ bytes.now }
    ensures len { vec_len out.new ≡ vec_len out.old + length bytes.now }
    ensures room { vec_capacity out.old ≤ vec_capacity out.new }
{
    let _ = out.extend_from_slice(bytes);
}
