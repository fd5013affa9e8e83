//! A directory whose commit names one segment, from bytes that were spelled elsewhere.

ghost use Rattle.std.specs.Prelude.{IfOk};
ghost use Rattle.replica_opening.specs.Opened.{IsSettledOn};

use bytes::Bytes;
use disk_memory::MemDir;
use disk_model::{Dir, FaultDir};
use file_names::{FileName, SegPart, commit_name, file_name, part_name};
use nrt_base::SegNo;
use std::alloc::Global;
use std::test::Fail;

/// The segment of the commit.
pub const SEG: SegNo = SegNo(1_679_616);

/// Stored documents: the one document with the key `a` and the text `x`. The checksums are zlib's.
pub const DOCS: [u8; 64] = [
    0x3f, 0xd7, b'l', 0x17, 7, b'N', b'r', b't', b'D', b'o', b'c', b's', 0, 0, 0, 1, 0, 0, 0, 0, 0,
    0, 0, 1, 0, 0, 0, 0, 0, 0, 0, 0, 0, 0, 0, 0, 1, 0, 0, 0, 0, 0, 0, 0, 3, 1, b'a', b'x', 0xc0,
    0x28, 0x93, 0xe8, 0, 0, 0, 0, 0, 0, 0, 0, 0x1b, b'j', 0xc9, b'S',
];

/// Its postings.
pub const POST: [u8; 81] = [
    0x3f, 0xd7, b'l', 0x17, 0x0b, b'N', b'r', b't', b'P', b'o', b's', b't', b'i', b'n', b'g', b's',
    0, 0, 0, 1, 0, 0, 0, 0, 0, 0, 0, 1, 0, 0, 0, 0, 0, 0, 0, 0, 0, 0, 0, 0, 2, 0, 0, 0, 0, 0, 0, 0,
    5, 0, 0, 0, 0x0c, 0, 1, b'a', 1, 0, 1, 1, b'x', 1, 0, 1, 0, 0xc0, 0x28, 0x93, 0xe8, 0, 0, 0, 0,
    0, 0, 0, 0, b'b', 0x40, b'g', 0xff,
];

/// The numbers of the segment.
pub const INFO: [u8; 69] = [
    0x3f, 0xd7, b'l', 0x17, 0x0e, b'N', b'r', b't', b'S', b'e', b'g', b'm', b'e', b'n', b't', b'I',
    b'n', b'f', b'o', 0, 0, 0, 1, 0, 0, 0, 0, 0, 0, 0, 1, 0, 0, 0, 0, 0, 0, 0, 0, 0, 0, 0, 0, 0, 0,
    0x19, 0xa1, 0, 0, 0, 0, 1, 1, 0xc0, 0x28, 0x93, 0xe8, 0, 0, 0, 0, 0, 0, 0, 0, 0x1c, 0x86, 0xb9,
    0xc7,
];

// A commit of generation 2 and version 3, of this segment.
const COMMIT: [u8; 129] = [
    0x3f, 0xd7, b'l', 0x17, 8, b'N', b'r', b't', b'I', b'n', b'f', b'o', b's', 0, 0, 0, 1, 0, 0, 0,
    0, 0, 0, 0, 2, 0, 0, 0, 0, 0, 0, 0, 3, 0, 0, 0, 0, 0, 0, 0, 0, 2, 0, 0, 0, 0, 0, 0, 0, 3, 0, 0,
    0, 1, 0, 0, 0, 1, 0, 0, 0, 0, 0, 0x19, 0xa1, 0, 0, 0, 0, 1, 0, 0, 0, 0, 0, 0, 0, 0, 0, 0, 0, 1,
    0, 0, 0, 2, 0x0c, 0x5f, 0x5f, b'p', b'r', b'i', b'm', b'a', b'r', b'y', b'G', b'e', b'n', 1,
    0x32, 9, 0x5f, 0x5f, b'v', b'e', b'r', b's', b'i', b'o', b'n', 1, 0x33, 0xc0, 0x28, 0x93, 0xe8,
    0, 0, 0, 0, 0, 0, 0, 0, 0x3a, b'l', b'p', 0x1c,
];

/// A name that no file of a point has.
pub fn leftover(bytes: &[u8]) -> Result<FileName, Fail> {
    match file_name(bytes) {
        Ok(name) => Ok(name),
        Err(_) => Err(Fail::new("no name")),
    }
}

// Writes a file that a crash leaves.
fn write<D: Dir>(alloc: Global, dir: &mut D, name: FileName, bytes: &[u8]) -> Result<(), Fail> {
    dir.write_new(&name, Bytes::from_vec(bytes.to_vec(alloc)?)?)?;
    dir.sync(&[name])?;
    Ok(())
}

/// A directory whose commit names these documents, and which has two files more.
pub fn committed<D: Dir>(alloc: Global, dir: &mut D, docs: &[u8]) -> Result<(), Fail> {
    write(alloc, dir, part_name(SEG, SegPart::Docs), docs)?;
    write(alloc, dir, part_name(SEG, SegPart::Post), &POST)?;
    write(alloc, dir, part_name(SEG, SegPart::Info), &INFO)?;
    write(alloc, dir, commit_name(1), &COMMIT)?;
    write(alloc, dir, leftover(b"_10001.docs")?, b"x")?;
    write(alloc, dir, leftover(b"pending_segments_2")?, b"x")?;
    dir.sync_names()?;
    Ok(())
}

/// The directory after a crash.
pub fn crashed<D: FaultDir + Drop>(dir: D) -> Result<D, Fail>
    ensures { IfOk result (λ dir. IsSettledOn (D.cells dir)) }
{
    let mut dir = dir;
    match dir.crash(0) {
        Ok(()) => Ok(dir),
        Err(_) => Err(Fail::new("out of memory")),
    }
}

/// That directory in memory, after a crash.
pub fn opened_on(alloc: Global, docs: &[u8]) -> Result<MemDir, Fail> {
    let mut dir = MemDir::new(alloc)?;
    committed(alloc, &mut dir, docs)?;
    Ok(dir)
}
