//! The files of a segment of one row, from outside.

ghost use Rattle.std.specs.Prelude.{IfOk, IsTrue};
ghost use Rattle.nrt_base.specs.Bytes.{is_key, is_text};
ghost use Rattle.seg_build.specs.Rows.{IsPrepared};

use live_bits::{LiveBits, encode as encode_live};
use nrt_base::{Doc, Gen, Key, NoMemory, SegNo, Text, Version};
use seg_build::{Prepared, build, segment_id};
use segment_infos::{decode, encode};
use std::alloc::Global;
use std::test::Fail;

/// The first segment of generation 1.
pub const FIRST: SegNo = SegNo(1_679_616);

/// Stored documents: the one document with the key `a` and the text `x`. The checksums are zlib's.
pub const DOCS: [u8; 64] = [
    0x3f, 0xd7, b'l', 0x17, 7, b'N', b'r', b't', b'D', b'o', b'c', b's', 0, 0, 0, 1, 0, 0, 0, 0, 0,
    0, 0, 1, 0, 0, 0, 0, 0, 0, 0, 0, 0, 0, 0, 0, 1, 0, 0, 0, 0, 0, 0, 0, 3, 1, b'a', b'x', 0xc0,
    0x28, 0x93, 0xe8, 0, 0, 0, 0, 0, 0, 0, 0, 0x1b, b'j', 0xc9, b'S',
];

/// Its postings.
pub const POST: [u8; 81] = [
    0x3f, 0xd7, b'l', 0x17, 0x0b, b'N', b'r', b't', b'P', b'o', b's', b't', b'i', b'n', b'g', b's',
    0, 0, 0, 1, 0, 0, 0, 0, 0, 0, 0, 1, 0, 0, 0, 0, 0, 0, 0, 0, 0, 0, 0, 0, 2, 0, 0, 0, 0, 0, 0, 0,
    5, 0, 0, 0, 0x0c, 0, 1, b'a', 1, 0, 1, 1, b'x', 1, 0, 1, 0, 0xc0, 0x28, 0x93, 0xe8, 0, 0, 0, 0,
    0, 0, 0, 0, b'b', 0x40, b'g', 0xff,
];

/// The numbers of the segment.
pub const INFO: [u8; 69] = [
    0x3f, 0xd7, b'l', 0x17, 0x0e, b'N', b'r', b't', b'S', b'e', b'g', b'm', b'e', b'n', b't', b'I',
    b'n', b'f', b'o', 0, 0, 0, 1, 0, 0, 0, 0, 0, 0, 0, 1, 0, 0, 0, 0, 0, 0, 0, 0, 0, 0, 0, 0, 0, 0,
    0x19, 0xa1, 0, 0, 0, 0, 1, 1, 0xc0, 0x28, 0x93, 0xe8, 0, 0, 0, 0, 0, 0, 0, 0, 0x1c, 0x86, 0xb9,
    0xc7,
];

/// Infos of generation 1 and version 2, of this segment.
pub const INFOS: [u8; 129] = [
    0x3f, 0xd7, b'l', 0x17, 8, b'N', b'r', b't', b'I', b'n', b'f', b'o', b's', 0, 0, 0, 1, 0, 0, 0,
    0, 0, 0, 0, 1, 0, 0, 0, 0, 0, 0, 0, 2, 0, 0, 0, 0, 0, 0, 0, 0, 1, 0, 0, 0, 0, 0, 0, 0, 2, 0, 0,
    0, 1, 0, 0, 0, 1, 0, 0, 0, 0, 0, 0x19, 0xa1, 0, 0, 0, 0, 1, 0, 0, 0, 0, 0, 0, 0, 0, 0, 0, 0, 1,
    0, 0, 0, 2, 0x0c, 0x5f, 0x5f, b'p', b'r', b'i', b'm', b'a', b'r', b'y', b'G', b'e', b'n', 1,
    0x31, 9, 0x5f, 0x5f, b'v', b'e', b'r', b's', b'i', b'o', b'n', 1, 0x32, 0xc0, 0x28, 0x93, 0xe8,
    0, 0, 0, 0, 0, 0, 0, 0, 0x26, 0x88, 0x9f, 0xac,
];

/// Infos that have two rows of it.
pub const INFOS_OF_TWO: [u8; 129] = [
    0x3f, 0xd7, b'l', 0x17, 8, b'N', b'r', b't', b'I', b'n', b'f', b'o', b's', 0, 0, 0, 1, 0, 0, 0,
    0, 0, 0, 0, 1, 0, 0, 0, 0, 0, 0, 0, 2, 0, 0, 0, 0, 0, 0, 0, 0, 1, 0, 0, 0, 0, 0, 0, 0, 2, 0, 0,
    0, 1, 0, 0, 0, 1, 0, 0, 0, 0, 0, 0x19, 0xa1, 0, 0, 0, 0, 2, 0, 0, 0, 0, 0, 0, 0, 0, 0, 0, 0, 2,
    0, 0, 0, 2, 0x0c, 0x5f, 0x5f, b'p', b'r', b'i', b'm', b'a', b'r', b'y', b'G', b'e', b'n', 1,
    0x31, 9, 0x5f, 0x5f, b'v', b'e', b'r', b's', b'i', b'o', b'n', 1, 0x32, 0xc0, 0x28, 0x93, 0xe8,
    0, 0, 0, 0, 0, 0, 0, 0, 0xb6, b'a', 0x2b, 0x33,
];

fn prepared(alloc: Global, key: &[u8], text: &[u8]) -> Result<Prepared, NoMemory>
    requires key { IsTrue (is_key key.now) }
    requires text { IsTrue (is_text text.now) }
    ensures { IfOk result IsPrepared }
{
    let key = Key::new(alloc, key)?;
    let text = Text::new(alloc, text)?;
    Prepared::of(alloc, Doc { key, text })
}

#[test]
fn files_of_one_row(rt: HostRuntime) -> Result<(), Fail> {
    let rows = [prepared(rt.alloc(), b"a", b"x")?];
    let built = build(rt.alloc(), FIRST, &rows, &[false])?;
    let due: [(&[u8], &[u8]); 3] = [
        (b"_10000.docs", &DOCS),
        (b"_10000.post", &POST),
        (b"_10000.si", &INFO),
    ];
    assert_eq!(rt; built.files.as_slice().len(), 3);
    for (file, due) in built.files.as_slice().iter().zip(due.iter()) {
        assert_eq!(rt; file.0.as_slice(), due.0);
        assert_eq!(rt; file.1.as_slice(), due.1);
    }
    Ok(())
}

#[test]
fn file_of_infos_with_one_segment(rt: HostRuntime) -> Result<(), Fail> {
    let Ok(infos) = decode(rt.alloc(), &INFOS) else {
        return Err(Fail::from("no infos"));
    };
    assert_eq!(rt; (infos.generation, infos.version), (Gen(1), Version(2)));
    let bytes = encode(rt.alloc(), &infos)?;
    assert_eq!(rt; bytes.as_slice(), INFOS.as_slice());
    Ok(())
}

// Rows a, b and c, of which the first two are dead.
#[test]
fn two_of_three_rows_dead(rt: HostRuntime) -> Result<(), Fail> {
    let mut live = LiveBits::all(rt.alloc(), 3)?;
    live.kill(0);
    live.kill(1);
    let bytes = encode_live(rt.alloc(), &segment_id(FIRST), 1, &live)?;
    assert_eq!(rt; bytes.len(), 59);
    let body = b"\0\0\0\x03\0\0\0\x01\x04";
    assert_eq!(rt; bytes.as_slice().get(34..43), Some(body.as_slice()));
    Ok(())
}
