//! The cut-over of a merge: the merged segment takes the place of its inputs.

ghost use Rattle.std.specs.Prelude.{◌≡◌, ◌≤◌, List, Some, None, true, OnOk, OnErr, IfOk, IfErr, IsErrOf, IsSome};
ghost use Rattle.nrt_base.specs.Causes.{Rose};
ghost use Rattle.disk_model.specs.Faults.{IsMemoryOrFailed};
ghost use Rattle.searcher_switch.specs.Appearing.{AppearsOnly, NoneAppears};
ghost use Rattle.searcher_switch.specs.Node.{KeepsCounts};
ghost use Rattle.index_primary.specs.Held.{IsOwnFile};
ghost use Rattle.index_primary.specs.Merges.{merges_without};
ghost use Rattle.index_primary.specs.Primary.{IsPrimary, KeepsHeldBytes, loose_of};
ghost use Rattle.index_primary.specs.Calls.{DrawsOnly, FillsUndrawn, HoldsNoNew};
ghost use Rattle.index_primary.specs.CutOverCalls.{AreInBoth, AreWrittenOf, IsFilledMerge, IsCutMade, IsCutReady, HasWrittenCut, IsCutOver, KeepsDocuments};

use crate::merge_ends::{abandon, merge_in, take_merge};
use crate::parts::{PrimaryFault, PrimaryParts};
use crate::primary::Primary;
use crate::states::Merging;
use crate::write::{joined, names_in, write_all};
use bytes::Bytes;
use disk_model::{Dir, DirFault};
use file_names::FileName;
use nrt_base::{List, NoMemory, SegNo};
use seg_reader::Segment;
use segment_infos::{Infos, files_of};
use segment_steps::{NextSegments, cut_over};
use std::alloc::Global;

/// The lists that a cut-over makes before its write: the new infos and segments, the names of their files, what is written, what is
/// given back at the end, and the files of completed merges.
#[derive(Drop)]
pub struct CutReady {
    pub infos: Infos,
    pub segs: List<Segment>,
    pub names: List<FileName>,
    pub files: List<(FileName, Bytes)>,
    pub written: List<FileName>,
    pub gone: List<FileName>,
    pub completed: List<FileName>,
}

// The names of both lists, ascending and each once.
fn ascending(alloc: Global, a: &[FileName], b: &[FileName]) -> Result<List<FileName>, NoMemory>
    ensures { IfOk result (AreInBoth a.now b.now) }
{
    let mut names = joined(alloc, a, b)?.into_vec();
    names.sort_unstable();
    names.dedup();
    Ok(List::from_vec(names))
}

// The segments after the cut-over of a merge whose files are written.
fn segments_after<D: Dir>(
    alloc: Global,
    parts: &PrimaryParts<D>,
    seg: SegNo,
) -> Result<NextSegments, NoMemory>
    requires whole { IsPrimary D.cells parts.now }
    requires ready { IsFilledMerge parts.now seg }
    ensures { IfOk result (IsCutMade parts.now seg) }
{
    let merging = merge_in(parts.merges.as_slice(), seg);
    let Some(merged) = &merging.merged else {
        unreachable!()
    };
    match cut_over(
        alloc,
        parts.infos.generation,
        merging.inputs.as_slice(),
        merging.task.live.as_slice(),
        merged,
        parts.infos.segs.as_slice(),
        parts.segs.as_slice(),
    ) {
        Ok(made) => Ok(made),
        Err(fault) => Err(fault),
    }
}

// The names of the files that a merge wrote.
fn names_written(alloc: Global, merging: &Merging) -> Result<List<FileName>, NoMemory>
    requires { IsSome merging.now.merged }
    ensures { IfOk result (AreWrittenOf merging.now.merged) }
{
    let Some(merged) = &merging.merged else {
        unreachable!()
    };
    names_in(alloc, merged.files.files.as_slice())
}

// All that a cut-over needs memory for.
fn prepare<D: Dir>(alloc: Global, parts: &PrimaryParts<D>, seg: SegNo) -> Result<CutReady, NoMemory>
    requires whole { IsPrimary D.cells parts.now }
    requires ready { IsFilledMerge parts.now seg }
    ensures { IfOk result (IsCutReady parts.now seg) }
{
    let made = segments_after(alloc, parts, seg)?;
    let NextSegments {
        records,
        segs,
        files,
    } = made;
    let merging = merge_in(parts.merges.as_slice(), seg);
    let own = names_written(alloc, merging)?;
    let completed = ascending(alloc, parts.completed.as_slice(), own.as_slice())?;
    let infos = Infos {
        generation: parts.infos.generation,
        version: parts.infos.version,
        counter: parts.infos.counter,
        segs: records,
    };
    let names = List::from_vec(files_of(alloc, &infos)?);
    let written = names_in(alloc, files.as_slice())?;
    let held = joined(alloc, parts.names.as_slice(), merging.names.as_slice())?;
    let gone = joined(alloc, held.as_slice(), written.as_slice())?;
    Ok(CutReady {
        infos,
        segs,
        names,
        files,
        written,
        gone,
        completed,
    })
}

// Writes the live file, where some row died, and counts the files of the new infos.
fn write<D: Dir>(
    alloc: Global,
    parts: &mut PrimaryParts<D>,
    seg: SegNo,
    ready: &CutReady,
) -> Result<(), DirFault>
    requires whole { IsPrimary D.cells parts.old }
    requires calm { parts.old.publish ≡ None }
    requires ready { IsCutReady parts.old seg ready.now }
    ensures written { OnOk result (HasWrittenCut D.cells parts.new seg ready.now) }
    ensures only { IfErr result IsMemoryOrFailed }
    ensures failed { IsErrOf result DirFault.Failed
        → Rose (D.faults parts.old.dir) (D.faults parts.new.dir) }
    ensures grows { OnOk result (KeepsCounts parts.old.files parts.new.files) }
    ensures no_new { OnErr result (HoldsNoNew parts.old parts.new) }
    ensures others { parts.new
        ≡ record parts.old { dir = parts.new.dir; files = parts.new.files } }
    ensures stays { KeepsHeldBytes D.cells parts.old parts.new }
    ensures appears { AppearsOnly (IsOwnFile parts.old.infos (loose_of parts.old))
        (D.cells parts.old.dir) (D.cells parts.new.dir) }
    ensures later { D.faults parts.old.dir ≤ D.faults parts.new.dir }
    ensures whole { OnErr result (IsPrimary D.cells parts.new) }
{
    match write_all(
        alloc,
        ready.written.as_slice(),
        ready.files.as_slice(),
        &mut parts.files,
        &mut parts.dir,
    ) {
        Ok(()) => {}
        Err(fault) => return Err(fault),
    }
    match parts.files.hold_there(ready.names.as_slice(), &parts.dir) {
        Ok(()) => Ok(()),
        Err(_) => {
            parts
                .files
                .release(ready.written.as_slice(), &mut parts.dir);
            Err(DirFault::Memory)
        }
    }
}

// The writer has the new infos; the files of the former ones, those that the merge held, and what is in hand are given back.
fn place<D: Dir>(parts: &mut PrimaryParts<D>, seg: SegNo, ready: CutReady)
    requires { HasWrittenCut D.cells parts.old seg ready }
    ensures infos { (parts.new.infos ≡ ready.infos) × (parts.new.segs ≡ ready.segs) }
    ensures names { parts.new.names ≡ ready.names }
    ensures merges { parts.new.merges ≡ merges_without seg.0 parts.old.merges }
    ensures cut_over { parts.new.has_cut_over ≡ true }
    ensures completed { parts.new.completed ≡ ready.completed }
    ensures others { parts.new ≡ record parts.old {
      dir = parts.new.dir;
      files = parts.new.files;
      infos = parts.new.infos;
      segs = parts.new.segs;
      names = parts.new.names;
      merges = parts.new.merges;
      has_cut_over = parts.new.has_cut_over;
      completed = parts.new.completed;
    } }
    ensures stays { KeepsHeldBytes D.cells parts.old parts.new }
    ensures appears { NoneAppears (D.cells parts.old.dir) (D.cells parts.new.dir) }
    ensures later { D.faults parts.old.dir ≤ D.faults parts.new.dir }
    ensures whole { IsPrimary D.cells parts.new }
{
    let _merging = take_merge(&mut parts.merges, seg);
    parts.infos = ready.infos;
    parts.segs = ready.segs;
    parts.names = ready.names;
    parts.completed = ready.completed;
    parts.has_cut_over = true;
    parts.files.release(ready.gone.as_slice(), &mut parts.dir);
}

impl<D: Dir> Primary<D> {
    /// Puts the merged segment of a merge whose files are written in the place of its inputs. Rows that died since the merge started
    /// are dead in its first live file; without a live row it is not put in. Where the directory fails, the merge has ended.
    pub fn merge_cut(&mut self, alloc: Global, seg: SegNo) -> Result<(), PrimaryFault>
        requires ready { IsFilledMerge self.old seg }
        requires calm { self.old.publish ≡ None }
        ensures cut { OnOk result (IsCutOver seg self.old self.new) }
        ensures documents { OnOk result (KeepsDocuments self.old self.new) }
        ensures failed { IsErrOf result PrimaryFault.Failed
            → Rose (D.faults self.old.dir) (D.faults self.new.dir) }
        ensures ended { IsErrOf result PrimaryFault.Failed
            → self.new.merges ≡ merges_without seg.0 self.old.merges }
        ensures memory { IsErrOf result PrimaryFault.Memory → self.new.merges ≡ self.old.merges }
        ensures err { OnErr result (self.new ≡ record self.old {
          dir = self.new.dir;
          files = self.new.files;
          merges = self.new.merges;
        }) }
        ensures given_back { OnErr result (HoldsNoNew self.old self.new) }
        ensures others { self.new ≡ record self.old {
          dir = self.new.dir;
          files = self.new.files;
          infos = self.new.infos;
          segs = self.new.segs;
          names = self.new.names;
          merges = self.new.merges;
          has_cut_over = self.new.has_cut_over;
          completed = self.new.completed;
        } }
        ensures stays { KeepsHeldBytes D.cells self.old self.new }
        ensures fresh { FillsUndrawn self.old self.new }
        ensures drawn { DrawsOnly self.old self.new }
        ensures appears { AppearsOnly (IsOwnFile self.old.infos (loose_of self.old))
            (D.cells self.old.dir) (D.cells self.new.dir) }
        ensures later { D.faults self.old.dir ≤ D.faults self.new.dir }
        ensures whole { IsPrimary D.cells self.new }
    {
        let ready = prepare(alloc, &self.parts, seg)?;
        match write(alloc, &mut self.parts, seg, &ready) {
            Ok(()) => {
                place(&mut self.parts, seg, ready);
                Ok(())
            }
            Err(DirFault::Failed) => {
                abandon(&mut self.parts, seg);
                Err(PrimaryFault::Failed)
            }
            Err(_) => Err(PrimaryFault::Memory),
        }
    }
}
