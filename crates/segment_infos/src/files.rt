//! The files that infos name.

ghost use Rattle.std.specs.Prelude.{◌≡◌, ◌++◌, IfOk, OnOk};
ghost use Rattle.std.specs.List.{flat_map};
ghost use Rattle.segment_infos.specs.Files.{files_of_segment, AreFilesOf};

use crate::infos::{Infos, SegRecord};
use file_names::{FileName, NoMemory, SegPart, live_name, part_name};
use std::alloc::Global;

// Puts the names of a segment's files at the end.
fn push_files(names: &mut Vec<FileName>, segment: &SegRecord) -> Result<(), NoMemory>
    ensures { OnOk result (names.new.items ≡ names.old.items ++ files_of_segment segment.now) }
{
    names.push(part_name(segment.seg, SegPart::Docs))?;
    names.push(part_name(segment.seg, SegPart::Post))?;
    names.push(part_name(segment.seg, SegPart::Info))?;
    if segment.live_gen > 0 {
        names.push(live_name(segment.seg, segment.live_gen))?;
    }
    Ok(())
}

// The names of the files of each segment, one segment after the other.
fn all_files(alloc: Global, segs: &[SegRecord]) -> Result<Vec<FileName>, NoMemory>
    ensures { IfOk result (λ names. names.items ≡ flat_map files_of_segment segs.now) }
{
    let mut names = Vec::new(alloc);
    for segment in segs {
        push_files(&mut names, segment)?;
    }
    Ok(names)
}

/// The names of the files that infos name, in ascending order and each once.
pub fn files_of(alloc: Global, infos: &Infos) -> Result<Vec<FileName>, NoMemory>
    ensures { IfOk result (λ names. AreFilesOf infos.now names.items) }
{
    let mut names = all_files(alloc, infos.segs.as_slice())?;
    names.sort_unstable();
    names.dedup();
    Ok(names)
}
