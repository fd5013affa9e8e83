//! The segment that is read from the files that were built.

ghost use Rattle.std.specs.Prelude.{◌≡◌, List, IfOk};
ghost use Rattle.nrt_base.specs.declared.doc.Doc.{Doc};
ghost use Rattle.segment_infos.specs.declared.infos.SegRecord.{SegRecord};
ghost use Rattle.seg_reader.specs.declared.parts.SegParts.{SegParts};
ghost use Rattle.seg_reader.specs.Files.{IsSegmentOf};
ghost use Rattle.seg_reader.specs.Sound.{IsSound};
ghost use Rattle.seg_build.specs.Built.{record_of, files_of, IsNewSegment};

use crate::files::{SegFiles, first_record};
use bytes::Bytes;
use file_names::FileName;
use nrt_base::{NoMemory, Share};
use seg_reader::{SegFault, SegParts, Segment};
use std::alloc::{AllocError, Global};

// The parts of a segment, from its files.
fn parts_in(alloc: Global, files: &[(FileName, Bytes)]) -> Result<SegParts, NoMemory>
    requires { (r : SegRecord) × (parts : SegParts) × (files.now ≡ files_of r parts) }
    ensures { (r : SegRecord) (parts : SegParts) → files.now ≡ files_of r parts
        → IfOk result (λ read. read ≡ parts) }
{
    let [docs, post, info, rest @ ..] = files else {
        unreachable!()
    };
    let docs = docs.1.share(alloc)?;
    let post = post.1.share(alloc)?;
    let info = info.1.share(alloc)?;
    let live = match rest {
        [] => None,
        [live, ..] => Some(live.1.share(alloc)?),
    };
    Ok(SegParts {
        docs,
        post,
        info,
        live,
    })
}

// Want of memory, where the files are not refused.
fn want_of_memory(fault: SegFault) -> NoMemory
    requires { fault ≡ SegFault.Memory }
{
    match fault {
        SegFault::Memory => AllocError,
        SegFault::File(_, _) => unreachable!(),
        SegFault::Disagrees { .. } => unreachable!(),
    }
}

/// Reads the segment from the files that were built: it shows what they were built from. The files are shared, and the bits
/// of the live rows are copied.
pub fn read_back(alloc: Global, built: &SegFiles) -> Result<Segment, NoMemory>
    requires { (docs : List Doc) × IsNewSegment built.now.seg built.now.live built.now.files docs }
    ensures docs { (docs : List Doc) → IsNewSegment built.now.seg built.now.live built.now.files docs
        → IfOk result (λ segment. segment.docs ≡ docs) }
    ensures live { IfOk result (λ segment. segment.live ≡ built.now.live) }
    ensures sound { IfOk result IsSound }

    // It is what the files that were built show under the segment's record.
    ensures segment { (docs : List Doc)
        (is : IsNewSegment built.now.seg built.now.live built.now.files docs)
        → IfOk result (IsSegmentOf is.parts (record_of built.now.seg built.now.live)) }
{
    let record = first_record(built.seg, &built.live);
    let parts = parts_in(alloc, built.files.as_slice())?;
    match Segment::from_parts(alloc, parts, &record) {
        Ok(segment) => Ok(segment),
        Err(fault) => Err(want_of_memory(fault)),
    }
}
