//! What the files of a segment say.

ghost use Rattle.std.specs.Prelude.{◌≡◌, Some};
ghost use Rattle.seg_reader.specs.Files.{record_id};
ghost use Rattle.seg_reader.specs.Reading.{IsLiveRead, IsRead};

use crate::id::segment_id;
use crate::parts::{SegFault, SegFile, SegParts};
use bytes::Bytes;
use codec_frame::FileFault;
use docs_plain::{DocsFile, read_docs};
use live_bits::{LiveBits, read_live};
use postings_plain::{PostFile, read_postings};
use segment_infos::{ReadFault, SegInfo, SegRecord, read_info};
use std::alloc::Global;

/// What the files of a segment say.
#[derive(Drop)]
pub struct Contents {
    pub docs: DocsFile,
    pub post: PostFile,
    /// How many rows the postings speak of.
    pub post_rows: u64,
    pub info: SegInfo,
    /// The live rows, where there is a file of them.
    pub live: Option<LiveBits>,
}

// What a live file says.
fn read_live_rows(
    alloc: Global,
    bytes: &[u8],
    id: &[u8; 16],
    record: &SegRecord,
) -> Result<Option<LiveBits>, SegFault>
    requires { id.now ≡ record_id record.now }
    ensures { IsLiveRead (Some bytes.now) record.now result }
{
    match read_live(alloc, bytes, id, record.live_gen) {
        Ok(live) => Ok(Some(live)),
        Err(ReadFault::File(fault)) => Err(SegFault::File(SegFile::Live, fault)),
        Err(ReadFault::Memory) => Err(SegFault::Memory),
    }
}

// What the live file says, where there is one.
fn read_live_file(
    alloc: Global,
    bytes: Option<Bytes>,
    id: &[u8; 16],
    record: &SegRecord,
) -> Result<Option<LiveBits>, SegFault>
    requires { id.now ≡ record_id record.now }
    ensures { IsLiveRead bytes record.now result }
{
    match bytes {
        Some(bytes) => read_live_rows(alloc, bytes.as_slice(), id, record),
        None => Ok(None),
    }
}

/// What the files of a segment say, or the first of them that is outside its grammar.
pub fn read_contents(
    alloc: Global,
    parts: SegParts,
    record: &SegRecord,
) -> Result<Contents, SegFault>
    ensures { IsRead parts record.now result }
{
    let id = segment_id(record.seg);
    let SegParts {
        docs,
        post,
        info,
        live,
    } = parts;
    let docs = match read_docs(docs, &id) {
        Ok(docs) => docs,
        Err(fault) => return Err(SegFault::File(SegFile::Docs, fault)),
    };
    let post = match read_postings(post, &id) {
        Ok(post) => post,
        Err(fault) => return Err(SegFault::File(SegFile::Post, fault)),
    };
    let info = match read_info(info.as_slice(), &id) {
        Ok(info) => info,
        Err(fault) => return Err(SegFault::File(SegFile::Info, fault)),
    };
    let live = read_live_file(alloc, live, &id, record)?;
    let post_rows = post.rows();
    Ok(Contents {
        docs,
        post,
        post_rows,
        info,
        live,
    })
}
