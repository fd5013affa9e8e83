//! Each reader of a file, on each front of a good file, and on each good file with one byte altered: it refuses them all.

use crate::files::{DOCS, FIRST, INFO, INFOS, POST};
use crate::images::with_flip;
use bytes::Bytes;
use docs_plain::read_docs;
use live_bits::{LiveBits, encode as encode_live, read_live};
use nrt_base::NoMemory;
use postings_plain::read_postings;
use seg_build::segment_id;
use segment_infos::{decode, read_info};
use std::alloc::Global;
use std::test::Fail;

// A kind of file.
#[derive(Clone, Copy, Debug)]
enum Kind {
    Docs,
    Post,
    Info,
    Infos,
    Live,
}

// Whether the reader of this kind takes the bytes.
fn is_read(alloc: Global, kind: Kind, bytes: &[u8]) -> Result<bool, NoMemory> {
    let id = segment_id(FIRST);
    Ok(match kind {
        Kind::Docs => read_docs(Bytes::copy_from_slice(alloc, bytes)?, &id).is_ok(),
        Kind::Post => read_postings(Bytes::copy_from_slice(alloc, bytes)?, &id).is_ok(),
        Kind::Info => read_info(bytes, &id).is_ok(),
        Kind::Infos => decode(alloc, bytes).is_ok(),
        Kind::Live => read_live(alloc, bytes, &id, 1).is_ok(),
    })
}

// How many fronts of the file, and how many files with one byte altered, are read.
fn read_count(alloc: Global, kind: Kind, file: &[u8]) -> Result<usize, Fail> {
    let mut count = 0usize;
    for end in 0..file.len() {
        let mut read = is_read(alloc, kind, &file[..end])?;
        for flip in [1, 0x80, 0xff] {
            let altered = with_flip(alloc, file, end, flip)?;
            read = read || is_read(alloc, kind, &altered)?;
        }
        if read {
            count = count.saturating_add(1);
        }
    }
    Ok(count)
}

#[test]
fn fronts_and_altered_files(rt: HostRuntime) -> Result<(), Fail> {
    let alloc = rt.alloc();
    let mut live = LiveBits::all(alloc, 3)?;
    live.kill(1);
    let live = encode_live(alloc, &segment_id(FIRST), 1, &live)?;
    let files: [(Kind, &[u8]); 5] = [
        (Kind::Docs, &DOCS),
        (Kind::Post, &POST),
        (Kind::Info, &INFO),
        (Kind::Infos, &INFOS),
        (Kind::Live, live.as_slice()),
    ];
    for (kind, file) in files {
        assert!(rt; is_read(alloc, kind, file)?);
        assert_eq!(rt; read_count(alloc, kind, file)?, 0, "{kind:?}");
    }
    Ok(())
}
