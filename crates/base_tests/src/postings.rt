//! Postings of 129 rows: their bytes, their prefixes, and altered bytes.

use bytes::Bytes;
use codec_frame::{FileFault, FrameFault, write_footer};
use nrt_base::{Key, List, Word};
use postings_plain::{TermRow, encode, read_postings};
use std::alloc::Global;
use std::test::Fail;

const ID: [u8; 16] = [0, 0, 0, 0, 0, 0, 0, 1, 0, 0, 0, 0, 0, 0, 0, 0];

fn fault_of(alloc: Global, bytes: &[u8]) -> Result<Option<FileFault>, Fail> {
    match read_postings(Bytes::copy_from_slice(alloc, bytes)?, &ID) {
        Ok(_) => Ok(None),
        Err(fault) => Ok(Some(fault)),
    }
}

// The row of the key `a` and the text `x`.
fn row(alloc: Global) -> Result<TermRow, Fail> {
    let mut words = Vec::new(alloc);
    words.push(Word::new(alloc, b"x")?)?;
    Ok(TermRow {
        key: Key::new(alloc, b"a")?,
        words: List::from_vec(words),
    })
}

// The file of so many such rows.
fn file_of_x(alloc: Global, count: u32) -> Result<Bytes, Fail> {
    let mut rows = Vec::new(alloc);
    for _ in 0..count {
        rows.push(row(alloc)?)?;
    }
    if rows.is_empty() {
        return Err(Fail::from("no row"));
    }
    Ok(encode(alloc, &ID, &rows)?)
}

// The file with one byte made another and its footer made right.
fn altered(alloc: Global, file: &[u8], at: usize, byte: u8) -> Result<Vec<u8>, Fail> {
    let mut new = Vec::new(alloc);
    let end = file.len().saturating_sub(16);
    new.extend_from_slice(file.get(..end).unwrap_or(file))?;
    if let Some(place) = new.get_mut(at) {
        *place = byte;
    }
    write_footer(&mut new)?;
    Ok(new)
}

// The entry of the word begins at byte 192 of the file.
#[test]
fn blocks_of_129_rows(rt: HostRuntime) -> Result<(), Fail> {
    let alloc = rt.alloc();
    let file = file_of_x(alloc, 129)?;
    let bytes = file.as_slice();
    assert_eq!(rt; bytes.len(), 192 + 397 + 16);
    let begins = b"\x01\x01x\x81\x01\x7f\x80\x03\x01\x03\0\x01\0\x01\x01\0";
    assert_eq!(rt; bytes.get(192..208), Some(begins.as_slice()));
    assert_eq!(rt; fault_of(alloc, bytes)?, None);
    let row_off_by_one = altered(alloc, bytes, 197, 0x7e)?;
    assert_eq!(rt; fault_of(alloc, &row_off_by_one)?, Some(FileFault::Body));
    let third_version = altered(alloc, bytes, 19, 3)?;
    let too_new = FileFault::Frame(FrameFault::TooNew(3));
    assert_eq!(rt; fault_of(alloc, &third_version)?, Some(too_new));
    // A body of the second format is none of the first.
    let first_version = altered(alloc, bytes, 19, 1)?;
    assert_eq!(rt; fault_of(alloc, &first_version)?, Some(FileFault::Body));
    Ok(())
}

#[test]
fn prefixes_and_altered_bytes(rt: HostRuntime) -> Result<(), Fail> {
    let alloc = rt.alloc();
    let file = file_of_x(alloc, 129)?;
    let bytes = file.as_slice();
    for end in 0..bytes.len() {
        let prefix = bytes.get(..end).unwrap_or(bytes);
        assert!(rt; fault_of(alloc, prefix)?.is_some(), "the first {end} bytes");
    }
    // Each byte of the skip entries, with the footer made right.
    for at in [58, 59, 60, 61, 62, 197, 198, 199, 200, 201] {
        let other = altered(alloc, bytes, at, bytes.get(at).copied().unwrap_or(0) ^ 1)?;
        assert_eq!(rt;
            fault_of(alloc, &other)?,
            Some(FileFault::Body),
            "byte {at}"
        );
    }
    Ok(())
}
