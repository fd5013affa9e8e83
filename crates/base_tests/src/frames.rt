//! Sums and frames from outside, and the first fault of altered ones.

ghost use Rattle.std.specs.Prelude.{◌≡◌, length};

use codec_frame::{FrameFault, Framed, Want, check, crc32, write_footer, write_index_header};
use std::test::Fail;

// Stored documents: the one document with the key `a` and the text `x`. The checksum is zlib's.
const FILE: [u8; 64] = [
    0x3f, 0xd7, 0x6c, 0x17, 7, b'N', b'r', b't', b'D', b'o', b'c', b's', 0, 0, 0, 1, 0, 0, 0, 0, 0,
    0, 0, 1, 0, 0, 0, 0, 0, 0, 0, 0, 0, 0, 0, 0, 1, 0, 0, 0, 0, 0, 0, 0, 3, 1, b'a', b'x', 0xc0,
    0x28, 0x93, 0xe8, 0, 0, 0, 0, 0, 0, 0, 0, 0x1b, 0x6a, 0xc9, 0x53,
];

const ID: [u8; 16] = [0, 0, 0, 0, 0, 0, 0, 1, 0, 0, 0, 0, 0, 0, 0, 0];

fn documents() -> Want<'static>
    ensures name { length result.name.now ≡ 7 }
    ensures suffix { length result.suffix.now ≡ 0 }
{
    Want {
        name: b"NrtDocs",
        min: 1,
        max: 1,
        id: Some(ID),
        suffix: b"",
    }
}

#[test]
fn checksums_of_zlib(rt: HostRuntime) {
    assert_eq!(rt; crc32(b""), 0);
    assert_eq!(rt; crc32(b"a"), 0xe8b7_be43);
    assert_eq!(rt; crc32(b"123456789"), 0xcbf4_3926);
    assert_eq!(rt;
        crc32(b"The quick brown fox jumps over the lazy dog"),
        0x414f_a339
    );
}

#[test]
fn framed_documents(rt: HostRuntime) -> Result<(), Fail> {
    let mut file = Vec::new(rt.alloc());
    write_index_header(&mut file, b"NrtDocs", 1, &ID, b"")?;
    file.extend_from_slice(&FILE[33..48])?;
    write_footer(&mut file)?;
    assert_eq!(rt; file.as_slice(), FILE.as_slice());
    let frame = Framed {
        version: 1,
        id: ID,
        start: 33,
        end: 48,
    };
    assert_eq!(rt; check(&FILE, &documents()), Ok(frame));
    Ok(())
}

#[test]
fn first_faults(rt: HostRuntime) {
    let table = [
        (0, 0x3e, FrameFault::Magic),
        (5, 0x4f, FrameFault::Codec),
        (15, 0, FrameFault::TooOld(0)),
        (15, 2, FrameFault::TooNew(2)),
        (23, 2, FrameFault::Id),
        (32, 1, FrameFault::Suffix),
        (48, 0xc1, FrameFault::FooterMagic),
        (55, 1, FrameFault::Algorithm),
        (
            36,
            2,
            FrameFault::Checksum {
                want: 0xb4c3_8499,
                found: 0x1b6a_c953,
            },
        ),
        (
            63,
            0x52,
            FrameFault::Checksum {
                want: 0x1b6a_c953,
                found: 0x1b6a_c952,
            },
        ),
    ];
    for (at, byte, fault) in table {
        let mut file = FILE;
        if let Some(place) = file.get_mut(at) {
            *place = byte;
        }
        assert_eq!(rt;
            check(&file, &documents()),
            Err(fault),
            "byte {at} made {byte}"
        );
    }
}

#[test]
fn other_lengths(rt: HostRuntime) -> Result<(), Fail> {
    assert_eq!(rt;
        check(&FILE[..63], &documents()),
        Err(FrameFault::FooterMagic)
    );
    assert_eq!(rt;
        check(&FILE[..48], &documents()),
        Err(FrameFault::Truncated)
    );
    let mut longer = Vec::from_slice(rt.alloc(), &FILE)?;
    longer.push(0)?;
    assert_eq!(rt; check(&longer, &documents()), Err(FrameFault::FooterMagic));
    Ok(())
}
