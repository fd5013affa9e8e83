//! Files of live rows, written and read.

ghost use Rattle.std.specs.Prelude.{◌≡◌, ◌<◌, ◌++◌, ℕ, List, length, Bool, OnOk, IfOk, IfSome, IfNone};
ghost use Rattle.file_names.specs.Base36.{base36_of};
ghost use Rattle.codec_frame.specs.Frame.{wanted};
ghost use Rattle.codec_frame.specs.Checking.{IsChecked};
ghost use Rattle.body_forms.specs.File.{AddsSpelling, IsFileAnswer};
ghost use Rattle.body_forms.specs.declared.read_fault.ReadFault.TheVariants.{File};
ghost use Rattle.live_bits.specs.LiveRows.{SpellsLiveRows, live_wanted, IsLiveFile};
ghost use Rattle.live_bits.specs.Held.{AreParts};

use crate::bits::{bytes_for, count_set, ends_clear};
use crate::live::LiveBits;
use body_forms::{ReadFault, push_u32, u32_of};
use bytes::Bytes;
use codec_frame::{FileFault, FrameFault, Framed, Want, check, write_footer, write_index_header};
use file_names::{Base36, NoMemory, base36};
use std::alloc::Global;

/// The name of the format in the header.
const NAME: &[u8; 7] = b"NrtLive";

/// The version of the format.
const VERSION: u32 = 1;

// What is wanted of a file with this id, whose live generation has these digits.
fn want<'a>(id: &[u8; 16], live_gen: &'a Base36) -> Want<'a>
    ensures want { (n : ℕ) → live_gen.now ≡ base36_of n
        → wanted result ≡ live_wanted id.now n }
    ensures suffix { length result.suffix.now < 256 }
{
    Want {
        name: NAME,
        min: VERSION,
        max: VERSION,
        id: Some(*id),
        suffix: live_gen.as_slice(),
    }
}

/// The file of live rows, at a live generation of the segment with this id.
pub fn encode(
    alloc: Global,
    id: &[u8; 16],
    live_gen: u64,
    live: &LiveBits,
) -> Result<Bytes, NoMemory>
    ensures { IfOk result (IsLiveFile id.now live_gen live.now) }
{
    let mut out = Vec::new(alloc);
    let digits = base36(live_gen);
    write_index_header(&mut out, NAME, VERSION, id, digits.as_slice())?;
    push_body(&mut out, live)?;
    write_footer(&mut out)?;
    Ok(Bytes::from_vec(out)?)
}

// Puts the body of live rows at the end.
fn push_body(out: &mut Vec<u8>, live: &LiveBits) -> Result<(), NoMemory>
    ensures { OnOk result (AddsSpelling SpellsLiveRows live.now out.old.items out.new.items) }
{
    push_u32(out, live.rows)?;
    push_u32(out, live.live)?;
    out.extend_from_slice(&live.bits)?;
    Ok(())
}

// What a body of live rows has: how many rows, how many live ones, and the bits.
#[derive(Drop)]
struct Parts<'a> {
    rows: u32,
    live: u32,
    bits: &'a [u8],
}

// The parts of a body, which is looked at whole.
fn parts_of(body: &[u8]) -> Option<Parts<'_>>
    ensures some { IfSome result (λ parts. AreParts body.now parts.rows parts.live parts.bits.now) }
    ensures none { IfNone result ((live : List Bool) → SpellsLiveRows body.now live → ⊥) }
{
    let (rows, rest) = u32_of(body)?;
    let (live, bits) = u32_of(rest)?;
    if bits.len() != bytes_for(rows) {
        return None;
    }
    if !ends_clear(bits, rows) {
        return None;
    }
    if count_set(bits) != u64::from(live) {
        return None;
    }
    Some(Parts { rows, live, bits })
}

// The frame of a file at a live generation of the segment with this id.
fn frame_of(bytes: &[u8], id: &[u8; 16], live_gen: u64) -> Result<Framed, FrameFault>
    ensures { IsChecked (live_wanted id.now live_gen) bytes.now result }
{
    let digits = base36(live_gen);
    check(bytes, &want(id, &digits))
}

/// The live rows of a file at a live generation of the segment with this id. The file is looked at whole; its bits
/// are copied, for which the reader may be out of memory.
pub fn read_live(
    alloc: Global,
    bytes: &[u8],
    id: &[u8; 16],
    live_gen: u64,
) -> Result<LiveBits, ReadFault>
    ensures { IsFileAnswer SpellsLiveRows (live_wanted id.now live_gen) (λ _. id.now) File
        bytes.now result }
{
    let frame = frame_of(bytes, id, live_gen)?;
    match parts_of(&bytes[frame.start..frame.end]) {
        Some(parts) => Ok(LiveBits {
            bits: Vec::from_slice(alloc, parts.bits)?,
            rows: parts.rows,
            live: parts.live,
        }),
        None => Err(ReadFault::File(FileFault::Body)),
    }
}
