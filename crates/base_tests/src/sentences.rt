//! What faults of names, numbers, frames and files say.

use body_forms::{ReadFault, VIntFault};
use codec_frame::{FileFault, FrameFault};
use file_names::{Base36Fault, NameFault, commit_name};
use nrt_base::Key;
use nrt_streams::Failed;
use std::alloc::{AllocError, Global};
use std::error::Error;
use std::test::Fail;

fn said<E: Error>(alloc: Global, fault: E) -> Result<String, AllocError> {
    fault.to_string(alloc)
}

#[test]
fn names_and_numbers(rt: HostRuntime) -> Result<(), Fail> {
    let alloc = rt.alloc();
    for (fault, want) in [
        (NameFault::Empty, "a name of a file is empty"),
        (
            NameFault::Long(65),
            "a name of a file has 65 bytes, at most 64",
        ),
        (
            NameFault::Byte(8),
            "a name of a file has small letters, digits, `_` and `.` alone, not so at offset 8",
        ),
    ] {
        assert_eq!(rt; said(alloc, fault)?.as_str(), want);
    }
    for (fault, want) in [
        (Base36Fault::Empty, "a number in base 36 has no digit"),
        (
            Base36Fault::Digit(2),
            "a number in base 36 has the digits 0-9 and a-z alone, not so at offset 2",
        ),
        (
            Base36Fault::LeadingZero,
            "a number in base 36 begins with a zero that it does not need",
        ),
        (
            Base36Fault::TooLarge,
            "a number in base 36 is above 18446744073709551615",
        ),
    ] {
        assert_eq!(rt; said(alloc, fault)?.as_str(), want);
    }
    for (fault, want) in [
        (
            VIntFault::Short,
            "a number of variable length is cut off before its last byte",
        ),
        (
            VIntFault::Long,
            "a number of variable length is above 4294967295",
        ),
    ] {
        assert_eq!(rt; said(alloc, fault)?.as_str(), want);
    }
    assert_eq!(rt;
        format!(in alloc; "{}", commit_name(36))?.as_str(),
        "segments_10"
    );
    assert_eq!(rt;
        format!(in alloc; "{}", Key::new(alloc, b"a~1")?)?.as_str(),
        "a~1"
    );
    Ok(())
}

#[test]
fn frames_and_files(rt: HostRuntime) -> Result<(), Fail> {
    let alloc = rt.alloc();
    let checksum = FrameFault::Checksum {
        want: 0x12ab,
        found: u64::MAX,
    };
    for (fault, want) in [
        (
            FrameFault::Truncated,
            "the file is too short for a header and a footer",
        ),
        (
            FrameFault::Magic,
            "the file does not begin with the magic number 3fd76c17",
        ),
        (
            FrameFault::Codec,
            "the header names another format than this file should have",
        ),
        (
            FrameFault::TooOld(0),
            "the file has format version 0, older than any that is read",
        ),
        (
            FrameFault::TooNew(9),
            "the file has format version 9, newer than any that is read",
        ),
        (
            FrameFault::Id,
            "the header has another id than this file should have",
        ),
        (
            FrameFault::Suffix,
            "the header has another suffix than this file should have",
        ),
        (
            FrameFault::FooterMagic,
            "the footer does not begin with the magic number c02893e8",
        ),
        (
            FrameFault::Algorithm,
            "the footer names another checksum algorithm than CRC-32",
        ),
        (
            checksum,
            "the file is damaged: its checksum is 000012ab, but its footer says ffffffffffffffff",
        ),
    ] {
        assert_eq!(rt; said(alloc, fault)?.as_str(), want);
        assert_eq!(rt; said(alloc, FileFault::Frame(fault))?.as_str(), want);
    }
    let body = "the content is not in the format of the file, though header and footer are right";
    assert_eq!(rt;
        said(alloc, ReadFault::File(FileFault::Body))?.as_str(),
        body
    );
    assert_eq!(rt; said(alloc, ReadFault::Memory)?.as_str(), "out of memory");
    assert_eq!(rt; said(alloc, Failed)?.as_str(), "a read or a write failed");
    Ok(())
}
