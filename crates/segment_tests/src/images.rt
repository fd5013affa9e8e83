//! Images of a directory whose commit names the segment of one row.

use crate::files::{DOCS, INFO, INFOS, INFOS_OF_TWO, POST};
use bytes::Bytes;
use file_names::file_name;
use index_check::{ImageFault, check_image, read_image, write_image};
use nrt_base::NoMemory;
use std::alloc::Global;
use std::test::Fail;

// A file: its name and its bytes.
type File<'a> = (&'a [u8], &'a [u8]);

// Adds a file to an image. Its name is shorter than 128 bytes.
fn push_file(image: &mut Vec<u8>, file: &File<'_>) -> Result<(), NoMemory> {
    let length = u32::try_from(file.1.len()).unwrap_or(0);
    image.push(u8::try_from(file.0.len()).unwrap_or(0))?;
    image.extend_from_slice(file.0)?;
    image.extend_from_slice(&length.to_be_bytes())?;
    image.extend_from_slice(file.1)
}

fn image_of(alloc: Global, files: &[File<'_>]) -> Result<Vec<u8>, NoMemory> {
    let mut image = Vec::new(alloc);
    let count = u32::try_from(files.len()).unwrap_or(0);
    image.extend_from_slice(&count.to_be_bytes())?;
    for file in files {
        push_file(&mut image, file)?;
    }
    Ok(image)
}

// The image of a directory of these documents, these postings and these infos.
fn image<'a>(alloc: Global, docs: &'a [u8], infos: &'a [u8]) -> Result<Vec<u8>, NoMemory> {
    image_of(
        alloc,
        &[
            (b"_10000.docs", docs),
            (b"_10000.post", &POST),
            (b"_10000.si", &INFO),
            (b"segments_1", infos),
        ],
    )
}

// The line of a check of an image.
fn line_of(alloc: Global, image: &[u8]) -> Result<Vec<u8>, Fail> {
    let checked = check_image(alloc, image).ok().ok_or("no image")?;
    Ok(checked.line.into_vec())
}

/// Bytes of which one is altered.
pub fn with_flip(alloc: Global, bytes: &[u8], at: usize, flip: u8) -> Result<Vec<u8>, Fail> {
    let mut altered = bytes.to_vec(alloc)?;
    *altered.get_mut(at).ok_or("too short")? ^= flip;
    Ok(altered)
}

// The segment; byte 36 of its documents altered; infos of another number of rows; and no postings.
#[test]
fn images_of_one_segment(rt: HostRuntime) -> Result<(), Fail> {
    let alloc = rt.alloc();
    let altered = with_flip(alloc, &DOCS, 36, 1)?;
    let without: [File<'_>; 3] = [
        (b"_10000.docs", &DOCS),
        (b"_10000.si", &INFO),
        (b"segments_1", &INFOS),
    ];
    let right = b"check commit 1 version 2 segments 1 documents 1\n";
    let line = line_of(alloc, &image(alloc, &DOCS, &INFOS)?)?;
    assert_eq!(rt; line.as_slice(), right.as_slice());
    let line = line_of(alloc, &image(alloc, &altered, &INFOS)?)?;
    assert_eq!(rt; line.as_slice(), b"check fault _10000.docs 3\n".as_slice());
    let line = line_of(alloc, &image(alloc, &DOCS, &INFOS_OF_TWO)?)?;
    assert_eq!(rt; line.as_slice(), b"check fault _10000.docs 4\n".as_slice());
    let line = line_of(alloc, &image_of(alloc, &without)?)?;
    assert_eq!(rt; line.as_slice(), b"check fault _10000.post 2\n".as_slice());
    Ok(())
}

// Each front of a good image is no image. With a byte altered it is none, or something is wrong with its directory; or, where
// the name of the infos' file became another, there is no commit.
#[test]
fn each_front_and_each_byte(rt: HostRuntime) -> Result<(), Fail> {
    let alloc = rt.alloc();
    let good = image(alloc, &DOCS, &INFOS)?;
    for count in 0..good.len() {
        let front = check_image(alloc, &good[..count]);
        assert_eq!(rt; front.err(), Some(ImageFault::Body));
    }
    for at in 0..good.len() {
        for flip in [0x01, 0x80] {
            match check_image(alloc, &with_flip(alloc, &good, at, flip)?) {
                Ok(checked) => {
                    let is_none = checked.line.as_slice() == b"check none\n".as_slice();
                    assert!(rt; checked.fault.is_some() || is_none);
                }
                Err(fault) => assert_eq!(rt; fault, ImageFault::Body),
            }
        }
    }
    Ok(())
}

// The image of one file, which has the name `a` and these bytes, as it is written.
fn image_of_one(alloc: Global, bytes: &[u8]) -> Result<Vec<u8>, Fail> {
    let name = file_name(b"a").ok().ok_or("refused")?;
    if bytes.len() > 9 {
        return Err(Fail::from("too long"));
    }
    let files = [(name, Bytes::copy_from_slice(alloc, bytes)?)];
    Ok(write_image(alloc, &files)?)
}

#[test]
fn image_of_one_file(rt: HostRuntime) -> Result<(), Fail> {
    let image = image_of_one(rt.alloc(), b"xy")?;
    assert_eq!(rt; image.as_slice(), b"\0\0\0\x01\x01a\0\0\0\x02xy".as_slice());
    let files = read_image(rt.alloc(), &image).ok().ok_or("refused")?;
    assert_eq!(rt; files.len(), 1);
    for (name, bytes) in &files {
        assert_eq!(rt; name.as_slice(), b"a".as_slice());
        assert_eq!(rt; bytes.as_slice(), b"xy".as_slice());
    }
    Ok(())
}
