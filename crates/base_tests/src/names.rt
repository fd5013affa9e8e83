//! How names of each kind and numbers are spelled.

use body_forms::{push_vint, read_vint, vint_len};
use file_names::{
    FileName, SegPart, base36, commit_name, live_name, part_name, pending_name, read_base36,
    temp_name,
};
use nrt_base::SegNo;
use std::test::Fail;

#[test]
fn names_of_each_kind(rt: HostRuntime) {
    let first = SegNo(1679616);
    let docs = part_name(first, SegPart::Docs);
    let cases: [(FileName, &[u8]); 9] = [
        (docs, b"_10000.docs"),
        (part_name(first, SegPart::Post), b"_10000.post"),
        (part_name(SegNo(3359232), SegPart::Info), b"_20000.si"),
        (live_name(first, 1), b"_10000_1.liv"),
        (commit_name(1), b"segments_1"),
        (commit_name(36), b"segments_10"),
        (pending_name(1), b"pending_segments_1"),
        (temp_name(&docs, 1), b"_10000.docs_1.tmp"),
        (pending_name(u64::MAX), b"pending_segments_3w5e11264sgsf"),
    ];
    for (name, bytes) in cases {
        assert_eq!(rt; name.as_slice(), bytes);
    }
}

#[test]
fn numbers_have_one_spelling(rt: HostRuntime) {
    let spellings: [(u64, &[u8]); 6] = [
        (0, b"0"),
        (35, b"z"),
        (36, b"10"),
        (1679616, b"10000"),
        (3359232, b"20000"),
        (u64::MAX, b"3w5e11264sgsf"),
    ];
    for (n, digits) in spellings {
        assert_eq!(rt; base36(n).as_slice(), digits, "at {n}");
        assert_eq!(rt; read_base36(digits), Ok(n), "at {n}");
    }
}

#[test]
fn shortest_forms(rt: HostRuntime) -> Result<(), Fail> {
    let forms: [(u32, &[u8]); 6] = [
        (0, b"\x00"),
        (127, b"\x7f"),
        (128, b"\x80\x01"),
        (300, b"\xac\x02"),
        (16384, b"\x80\x80\x01"),
        (u32::MAX, b"\xff\xff\xff\xff\x0f"),
    ];
    for (n, form) in forms {
        let mut out = Vec::new(rt.alloc());
        push_vint(&mut out, n)?;
        assert_eq!(rt; out.as_slice(), form, "at {n}");
        assert_eq!(rt; vint_len(n), form.len(), "at {n}");
        assert_eq!(rt; read_vint(form), Ok((n, form.len())), "at {n}");
    }
    Ok(())
}
