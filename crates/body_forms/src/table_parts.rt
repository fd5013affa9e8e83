//! The offsets and the area of a table of items, written apart and then put together.

ghost use Rattle.std.specs.Prelude.{◌≡◌, ◌++◌, ◌<◌, ◌^◌, length, take, OnOk, OnErr};
ghost use Rattle.body_forms.specs.Numbers.{u32_bytes};
ghost use Rattle.body_forms.specs.TableParts.{AddsTable};

use crate::numbers::push_u32;
use nrt_base::NoMemory;
use std::alloc::AllocError;

// The most items, and the most bytes of an area and of a table.
const MOST: usize = 0xffff_ffff;

/// Puts where the area ends now at the end of the offsets: first for an empty area, and then after each item. An area of
/// 2^32 bytes or more is out of memory.
pub fn push_end(offsets: &mut Vec<u8>, area: &[u8]) -> Result<(), NoMemory>
    ensures small { OnOk result (length area.now < 2 ^ 32) }
    ensures end { OnOk result (offsets.new.items ≡ offsets.old.items ++ u32_bytes (length area.now)) }
    ensures err { OnErr result (offsets.new.items ≡ offsets.old.items) }
{
    if area.len() > MOST {
        return Err(AllocError);
    }
    push_u32(offsets, area.len() as u32)
}

/// Puts the table of so many items at the end, from its offsets and its area. A table of 2^32 bytes or more, and 2^32
/// items or more, are out of memory.
pub fn push_table(
    out: &mut Vec<u8>,
    count: usize,
    offsets: &[u8],
    area: &[u8],
) -> Result<(), NoMemory>
    ensures ok { OnOk result (AddsTable count offsets.now area.now out.old.items out.new.items) }
    ensures err { OnErr result (out.new.items ≡ out.old.items) }
{
    let start = out.len();
    match push_parts(out, count, offsets, area) {
        Ok(()) => Ok(()),
        Err(no_memory) => {
            out.truncate(start);
            Err(no_memory)
        }
    }
}

// Puts the parts of a table at the end. Where memory runs out, some of them may stand there.
fn push_parts(out: &mut Vec<u8>, count: usize, offsets: &[u8], area: &[u8]) -> Result<(), NoMemory>
    ensures front { take (length out.old.items) out.new.items ≡ out.old.items }
    ensures table { OnOk result (AddsTable count offsets.now area.now out.old.items out.new.items) }
{
    let start = out.len();
    if count > MOST {
        return Err(AllocError);
    }
    push_u32(out, count as u32)?;
    out.extend_from_slice(offsets)?;
    out.extend_from_slice(area)?;
    if out.len() - start > MOST {
        return Err(AllocError);
    }
    Ok(())
}
