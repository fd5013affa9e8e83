//! A publish that ends: all memory, then the writes, then the new point.

ghost use Rattle.std.specs.Prelude.{◌≡◌, ◌+◌, ◌<◌, ◌≤◌, ◌^◌, List, None, false, OnOk, OnErr, IfOk, IfErr, IsErrOf, Ok, Err, ◌⊎◌, length};
ghost use Rattle.nrt_base.specs.Causes.{Rose};
ghost use Rattle.disk_model.specs.Faults.{IsMemoryOrFailed};
ghost use Rattle.searcher_switch.specs.Node.{KeepsCounts};
ghost use Rattle.searcher_switch.specs.Appearing.{NoneAppears, AppearsOnly};
ghost use Rattle.index_primary.specs.Cut.{after_cut};
ghost use Rattle.index_primary.specs.Primary.{IsPrimary, KeepsHeldBytes, loose_of};
ghost use Rattle.index_primary.specs.Held.{IsOwnFile, next_infos};
ghost use Rattle.index_primary.specs.Calls.{IsPublished, KeepsPoint, KeepsOthers, HasSameCounts, FillsUndrawn, DrawsOnly};
ghost use Rattle.index_primary.specs.Publishing.{IsStepOf, IsReady, HasWritten};
ghost use Rattle.index_primary.specs.Work.{IsWorkOf, AreOfCut};

use crate::parts::{PrimaryFault, PrimaryParts};
use crate::primary::Primary;
use crate::ready::Ready;
use crate::states::inputs_of;
use crate::waiting::end_cut;
use crate::write::{joined, names_in, write_all};
use disk_model::{Dir, DirFault};
use nrt_base::{List, NoMemory, Share, Version};
use segment_infos::{Infos, files_of};
use segment_steps::{FlushWork, NextSegments, next_segments};
use std::alloc::Global;

// All that a publish needs memory for.
fn prepare<D: Dir>(
    alloc: Global,
    parts: &PrimaryParts<D>,
    made: NextSegments,
) -> Result<Ready, NoMemory>
    requires step { IsStepOf parts.now made.records made.segs made.files }
    requires below { parts.now.infos.version.0 + 1 < 2 ^ 63 }
    ensures ready { IfOk result (IsReady parts.now) }
    ensures segs { IfOk result (λ ready. ready.segs ≡ made.segs) }
    ensures infos { IfOk result (λ ready. ready.infos ≡ next_infos parts.now.infos made.records) }
{
    let NextSegments {
        records,
        segs,
        files,
    } = made;
    let infos = Infos {
        generation: parts.infos.generation,
        version: Version(parts.infos.version.0 + 1),
        counter: parts.infos.counter,
        segs: records,
    };
    let point_infos = infos.share(alloc)?;
    let readers = segs.share(alloc)?;
    let names = List::from_vec(files_of(alloc, &infos)?);
    let point_names = names.share(alloc)?;
    let written = names_in(alloc, files.as_slice())?;
    let twice = joined(alloc, names.as_slice(), names.as_slice())?;
    let former = joined(
        alloc,
        parts.searchers.point.names.as_slice(),
        parts.names.as_slice(),
    )?;
    let gone = joined(alloc, former.as_slice(), written.as_slice())?;
    Ok(Ready {
        infos,
        point_infos,
        segs,
        readers,
        names,
        point_names,
        files,
        written,
        twice,
        gone,
    })
}

// Writes the new files, and counts those of the new infos twice: once for these and once for the point.
fn write<D: Dir>(alloc: Global, parts: &mut PrimaryParts<D>, ready: &Ready) -> Result<(), DirFault>
    requires whole { IsPrimary D.cells parts.old }
    requires ready { IsReady parts.old ready.now }
    ensures written { OnOk result (HasWritten D.cells parts.new ready.now) }
    ensures only { IfErr result IsMemoryOrFailed }
    ensures failed { IsErrOf result DirFault.Failed
        → Rose (D.faults parts.old.dir) (D.faults parts.new.dir) }
    ensures grows { OnOk result (KeepsCounts parts.old.files parts.new.files) }
    ensures others { parts.new ≡ record parts.old { dir = parts.new.dir; files = parts.new.files } }
    ensures stays { KeepsHeldBytes D.cells parts.old parts.new }
    ensures appears { AppearsOnly (IsOwnFile parts.old.infos (loose_of parts.old))
        (D.cells parts.old.dir) (D.cells parts.new.dir) }
    ensures later { D.faults parts.old.dir ≤ D.faults parts.new.dir }
    ensures whole { OnErr result (IsPrimary D.cells parts.new) }
{
    match write_all(
        alloc,
        ready.written.as_slice(),
        ready.files.as_slice(),
        &mut parts.files,
        &mut parts.dir,
    ) {
        Ok(()) => {}
        Err(fault) => return Err(fault),
    }
    match parts.files.hold_there(ready.twice.as_slice(), &parts.dir) {
        Ok(()) => Ok(()),
        Err(_) => {
            parts
                .files
                .release(ready.written.as_slice(), &mut parts.dir);
            Err(DirFault::Memory)
        }
    }
}

// Searches the new point, and gives back the files of the former one, those of the former infos, and what is in hand. A removal
// is due afterwards only where the directory failed twice.
fn place<D: Dir>(parts: &mut PrimaryParts<D>, ready: Ready) -> Version
    requires { HasWritten D.cells parts.old ready }
    ensures version { result ≡ ready.infos.version }
    ensures point { parts.new.searchers.point
        ≡ record { version = ready.infos.version; names = ready.names; readers = ready.segs } }
    ensures tickets { parts.new.searchers.tickets ≡ parts.old.searchers.tickets }
    ensures infos { (parts.new.infos ≡ ready.infos) × (parts.new.point_infos ≡ ready.infos) }
    ensures segs { (parts.new.segs ≡ ready.segs) × (parts.new.names ≡ ready.names) }
    ensures none { parts.new.publish ≡ None }
    ensures rest { parts.new.waiting ≡ after_cut parts.old.publish parts.old.waiting }
    ensures cut_over { parts.new.has_cut_over ≡ false }
    ensures others { KeepsOthers parts.old parts.new }
    ensures stays { KeepsHeldBytes D.cells parts.old parts.new }
    ensures appears { NoneAppears (D.cells parts.old.dir) (D.cells parts.new.dir) }
    ensures twice { 0 < length parts.new.files.due
        → Rose (D.faults parts.old.dir + 1) (D.faults parts.new.dir) }
    ensures later { D.faults parts.old.dir ≤ D.faults parts.new.dir }
    ensures whole { IsPrimary D.cells parts.new }
{
    let version = ready.infos.version;
    let _former = parts
        .searchers
        .replace(version, ready.point_names, ready.readers);
    parts.point_infos = ready.point_infos;
    parts.infos = ready.infos;
    parts.segs = ready.segs;
    parts.names = ready.names;
    end_cut(&mut parts.waiting, &mut parts.publish);
    parts.has_cut_over = false;
    parts.files.release(ready.gone.as_slice(), &mut parts.dir);
    // A removal that has just failed is tried once more.
    parts.files.sweep(&mut parts.dir);
    version
}

// No publish is in flight from now on.
fn end_publish<D: Dir>(parts: &mut PrimaryParts<D>)
    requires { IsPrimary D.cells parts.old }
    ensures set { parts.new ≡ record parts.old { publish = None } }
    ensures whole { IsPrimary D.cells parts.new }
{
    parts.publish = None;
}

// Writes the new files, makes a point of the new segments, and gives back what is named no more.
fn make_point<D: Dir>(
    alloc: Global,
    parts: &mut PrimaryParts<D>,
    made: NextSegments,
) -> Result<Version, PrimaryFault>
    requires whole { IsPrimary D.cells parts.old }
    requires step { IsStepOf parts.old made.records made.segs made.files }
    requires below { parts.old.infos.version.0 + 1 < 2 ^ 63 }
    ensures version { IfOk result (λ version. version.0 ≡ parts.old.infos.version.0 + 1) }
    ensures point { IfOk result (λ version. (parts.new.searchers.point.version ≡ version)
        × (parts.new.searchers.point.readers ≡ made.segs) × (parts.new.segs ≡ made.segs)) }
    ensures infos { OnOk result ((parts.new.infos ≡ next_infos parts.old.infos made.records)
        × (parts.new.point_infos ≡ next_infos parts.old.infos made.records)) }
    ensures rest { OnOk result ((parts.new.waiting ≡ after_cut parts.old.publish parts.old.waiting)
        × (parts.new.has_cut_over ≡ false)) }
    ensures tickets { parts.new.searchers.tickets ≡ parts.old.searchers.tickets }
    ensures failed { IsErrOf result PrimaryFault.Failed
        → Rose (D.faults parts.old.dir) (D.faults parts.new.dir) }
    ensures err { OnErr result (KeepsPoint parts.old parts.new) }
    ensures none { result ≡ Err PrimaryFault.Memory ⊎ (parts.new.publish ≡ None) }
    ensures ended { OnErr result ((parts.new.publish ≡ None)
        ⊎ (parts.new.publish ≡ parts.old.publish)) }
    ensures others { KeepsOthers parts.old parts.new }
    ensures stays { KeepsHeldBytes D.cells parts.old parts.new }
    ensures appears { AppearsOnly (IsOwnFile parts.old.infos (loose_of parts.old))
        (D.cells parts.old.dir) (D.cells parts.new.dir) }
    ensures twice { OnOk result (0 < length parts.new.files.due
        → Rose (D.faults parts.old.dir + 1) (D.faults parts.new.dir)) }
    ensures later { D.faults parts.old.dir ≤ D.faults parts.new.dir }
    ensures whole { IsPrimary D.cells parts.new }
{
    let ready = prepare(alloc, parts, made)?;
    match write(alloc, parts, &ready) {
        Ok(()) => Ok(place(parts, ready)),
        Err(DirFault::Failed) => {
            end_publish(parts);
            Err(PrimaryFault::Failed)
        }
        Err(_) => {
            end_publish(parts);
            Err(PrimaryFault::Memory)
        }
    }
}

impl<D: Dir> Primary<D> {
    /// Ends a publish with the work that was made for it: writes the new files, makes a point of the new segments, and gives
    /// back what is named no more; a removal that fails is tried once more, so one is due afterwards only where the directory
    /// failed twice. After an `Err` the point and the operations are as before.
    pub fn publish_end(&mut self, alloc: Global, work: FlushWork) -> Result<Version, PrimaryFault>
        requires work { IsWorkOf self.old work }
        requires below { self.old.infos.version.0 + 1 < 2 ^ 63 }
        ensures version { IfOk result (λ version. version.0 ≡ self.old.infos.version.0 + 1) }
        ensures point { OnOk result (IsPublished self.old work self.new) }
        ensures documents { OnOk result (AreOfCut self.old self.new) }
        ensures failed { IsErrOf result PrimaryFault.Failed
            → Rose (D.faults self.old.dir) (D.faults self.new.dir) }
        ensures err { OnErr result (KeepsPoint self.old self.new) }
        ensures given_back { OnErr result (HasSameCounts self.old self.new) }
        ensures none { result ≡ Err PrimaryFault.Memory ⊎ (self.new.publish ≡ None) }
        ensures others { KeepsOthers self.old self.new }
        ensures stays { KeepsHeldBytes D.cells self.old self.new }
        ensures fresh { FillsUndrawn self.old self.new }
        ensures drawn { DrawsOnly self.old self.new }
        ensures appears { AppearsOnly (IsOwnFile self.old.infos (loose_of self.old))
            (D.cells self.old.dir) (D.cells self.new.dir) }
        ensures twice { OnOk result (0 < length self.new.files.due
            → Rose (D.faults self.old.dir + 1) (D.faults self.new.dir)) }
        ensures later { D.faults self.old.dir ≤ D.faults self.new.dir }
        ensures whole { IsPrimary D.cells self.new }
    {
        let Ok(held) = inputs_of(alloc, self.parts.merges.as_slice()) else {
            return Err(PrimaryFault::Memory);
        };
        let made = match next_segments(
            alloc,
            self.parts.infos.generation,
            self.parts.infos.segs.as_slice(),
            self.parts.segs.as_slice(),
            work,
            &held,
        ) {
            Ok(made) => made,
            Err(_) => return Err(PrimaryFault::Memory),
        };
        let version = match make_point(alloc, &mut self.parts, made) {
            Ok(version) => version,
            Err(fault) => return Err(fault),
        };
        Ok(version)
    }
}
