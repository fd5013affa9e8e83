//! A merge that starts.

ghost use Rattle.std.specs.Prelude.{◌≡◌, ◌≤◌, ◌<◌, ◌++◌, ◌∷◌, [], ◌==◌, OnOk, OnErr, IfOk, IfSome, MatchOption};
ghost use Rattle.std.specs.List.{list_any};
ghost use Rattle.nrt_base.specs.SegNumbers.{segments_of_generation};
ghost use Rattle.file_deleter.specs.Holdings.{AreThere};
ghost use Rattle.file_deleter.specs.Moves.{HoldsFiles};
ghost use Rattle.segment_infos.specs.Files.{AreFilesOf};
ghost use Rattle.merge_choice.specs.Choice.{HasNoRange};
ghost use Rattle.index_primary.specs.Primary.{IsPrimary, KeepsHeldBytes};
ghost use Rattle.index_primary.specs.Calls.{DrawsOnly, HoldsNoNew};
ghost use Rattle.index_primary.specs.StartCalls.{records_in, merge_sizes, IsChosen, IsFitTask, StartsMerge, AnswersMerge};

use crate::parts::{PrimaryParts, PublishFault};
use crate::primary::Primary;
use crate::states::{Merging, inputs_of};
use disk_model::Dir;
use file_deleter::FileDeleter;
use file_names::FileName;
use nrt_base::{List, NoMemory, SegNo, Share};
use segment_infos::{Infos, SegRecord, files_of};
use segment_steps::{MergeStart, MergeTask, sizes_of, start_merge};
use std::alloc::{AllocError, Global};

// Whether the number is one of these.
fn is_among(inputs: &[SegNo], seg: SegNo) -> bool
    ensures { result ≡ list_any (λ other. other.0 == seg.0) inputs.now }
{
    inputs.iter().any(|other| other.0 == seg.0)
}

// Puts the record at the end where its number is one of these.
fn push_chosen(
    inputs: &[SegNo],
    entry: SegRecord,
    found: &mut List<SegRecord>,
) -> Result<(), NoMemory>
    ensures { OnOk result (found.new ≡ found.old ++ records_in inputs.now (entry ∷ [])) }
{
    if is_among(inputs, entry.seg) {
        found.push(entry)?;
    }
    Ok(())
}

// The records of the segments that have one of these numbers.
fn chosen(
    alloc: Global,
    records: &[SegRecord],
    inputs: &[SegNo],
) -> Result<List<SegRecord>, NoMemory>
    ensures { IfOk result (λ found. found ≡ records_in inputs.now records.now) }
{
    let mut found = List::new(alloc);
    for entry in records {
        push_chosen(inputs, *entry, &mut found)?;
    }
    Ok(found)
}

// The names of the files of the segments that have one of these numbers, ascending.
fn names_of_inputs(
    alloc: Global,
    infos: &Infos,
    inputs: &[SegNo],
) -> Result<List<FileName>, NoMemory>
    ensures { IfOk result
        (AreFilesOf (record infos.now { segs = records_in inputs.now infos.now.segs })) }
{
    let segs = chosen(alloc, infos.segs.as_slice(), inputs)?;
    let infos = Infos {
        generation: infos.generation,
        version: infos.version,
        counter: infos.counter,
        segs,
    };
    Ok(List::from_vec(files_of(alloc, &infos)?))
}

// A second task of the same contents.
fn shared(alloc: Global, task: &MergeTask) -> Result<MergeTask, NoMemory>
    ensures { IfOk result (λ other. other ≡ task.now) }
{
    let inputs = task.inputs.share(alloc)?;
    let Ok(live) = task.live.share(alloc) else {
        drop(inputs);
        return Err(AllocError);
    };
    Ok(MergeTask {
        seg: task.seg,
        inputs,
        live,
    })
}

// The merge is in flight, and the files of its inputs are held.
fn note<D: Dir>(
    merging: Merging,
    merges: &mut List<Merging>,
    names: &[FileName],
    files: &mut FileDeleter,
    dir: &D,
) -> Result<(), NoMemory>
    requires { AreThere (D.cells dir.now) names.now }
    ensures merges { OnOk result (merges.new ≡ merges.old ++ merging ∷ []) }
    ensures holds { OnOk result (HoldsFiles names.now files.old files.new (D.cells dir.now)) }
    ensures err { OnErr result ((merges.new ≡ merges.old) × (files.new ≡ files.old)) }
{
    merges.push(merging)?;
    match files.hold_there(names, dir) {
        Ok(()) => Ok(()),
        Err(fault) => {
            merges.cut_last();
            Err(fault)
        }
    }
}

// What a merge that starts takes memory for: its task as it is noted, the names of the files of its inputs, and the same names as
// they are held.
#[derive(Drop)]
struct StartReady {
    task: MergeTask,
    names: List<FileName>,
    held: List<FileName>,
}

fn prepare(alloc: Global, infos: &Infos, start: &MergeStart) -> Result<StartReady, NoMemory>
    ensures task { IfOk result (λ ready. ready.task ≡ start.now.task) }
    ensures names { IfOk result (λ ready.
        AreFilesOf (record infos.now { segs = records_in start.now.inputs infos.now.segs }) ready.names) }
    ensures held { IfOk result (λ ready. ready.held ≡ ready.names) }
{
    let names = names_of_inputs(alloc, infos, start.inputs.as_slice())?;
    let Ok(held) = names.share(alloc) else {
        drop(names);
        return Err(AllocError);
    };
    let Ok(task) = shared(alloc, &start.task) else {
        drop(names);
        drop(held);
        return Err(AllocError);
    };
    Ok(StartReady { task, names, held })
}

// The merge that was chosen starts: its number is drawn.
fn begin<D: Dir>(
    alloc: Global,
    parts: &mut PrimaryParts<D>,
    factor: u32,
    start: MergeStart,
) -> Result<MergeTask, NoMemory>
    requires whole { IsPrimary D.cells parts.old }
    requires factor { 2 ≤ factor }
    requires start { IsChosen factor parts.old start }
    requires more { parts.old.infos.counter < segments_of_generation }
    ensures starts { IfOk result (λ task. StartsMerge factor parts.old task parts.new) }
    ensures fit { IfOk result IsFitTask }
    ensures err { OnErr result (parts.new ≡ parts.old) }
    ensures stays { KeepsHeldBytes D.cells parts.old parts.new }
    ensures no_new { HoldsNoNew parts.old parts.new }
    ensures drawn { DrawsOnly parts.old parts.new }
    ensures whole { IsPrimary D.cells parts.new }
{
    let Ok(ready) = prepare(alloc, &parts.infos, &start) else {
        drop(start);
        return Err(AllocError);
    };
    let MergeStart { task, inputs } = start;
    let StartReady {
        task: noted,
        names,
        held,
    } = ready;
    let merging = Merging {
        task: noted,
        inputs,
        names,
        merged: None,
    };
    match note(
        merging,
        &mut parts.merges,
        held.as_slice(),
        &mut parts.files,
        &parts.dir,
    ) {
        Ok(()) => {
            parts.infos.counter += 1;
            drop(held);
            Ok(task)
        }
        Err(fault) => {
            drop(held);
            drop(task);
            Err(fault)
        }
    }
}

// The merge of the first neighbours that can be chosen, under the next number.
fn choose<D: Dir>(
    alloc: Global,
    parts: &PrimaryParts<D>,
    factor: u32,
) -> Result<Option<MergeStart>, NoMemory>
    requires whole { IsPrimary D.cells parts.now }
    requires factor { 2 ≤ factor }
    ensures { IfOk result (λ start. MatchOption start
        (HasNoRange factor (merge_sizes parts.now)) (IsChosen factor parts.now)) }
{
    let held = inputs_of(alloc, parts.merges.as_slice())?;
    let seg = SegNo(parts.infos.generation.0 * SegNo::OF_GENERATION + parts.infos.counter as u64);
    match start_merge(
        alloc,
        seg,
        factor,
        parts.infos.segs.as_slice(),
        parts.segs.as_slice(),
        &held,
    ) {
        Ok(start) => Ok(start),
        Err(fault) => Err(fault),
    }
}

impl<D: Dir> Primary<D> {
    /// The sizes of the writer's segments, of which a merge is chosen.
    pub fn sizes(&self, alloc: Global) -> Result<List<Option<u32>>, NoMemory>
        ensures { IfOk result (λ sizes. sizes ≡ merge_sizes self.now) }
    {
        let held = inputs_of(alloc, self.parts.merges.as_slice())?;
        let sizes = sizes_of(alloc, self.parts.infos.segs.as_slice(), &held)?;
        Ok(List::from_vec(sizes))
    }

    /// Starts a merge of the first neighbours that can be chosen, as many as the factor: draws its number, and holds the files of its
    /// inputs. None comes exactly where there are none. The directory is not called.
    pub fn merge_start(
        &mut self,
        alloc: Global,
        factor: u32,
    ) -> Result<Option<MergeTask>, PublishFault>
        requires { 2 ≤ factor }
        ensures answers { AnswersMerge factor self.old self.new result }
        ensures fit { IfOk result (λ task. IfSome task IsFitTask) }
        ensures stays { KeepsHeldBytes D.cells self.old self.new }
        ensures no_new { HoldsNoNew self.old self.new }
        ensures drawn { DrawsOnly self.old self.new }
        ensures whole { IsPrimary D.cells self.new }
    {
        let start = match choose(alloc, &self.parts, factor) {
            Ok(Some(start)) => start,
            Ok(None) => return Ok(None),
            Err(_) => return Err(PublishFault::Memory),
        };
        if self.parts.infos.counter as u64 == SegNo::OF_GENERATION {
            return Err(PublishFault::NamesSpent);
        }
        let Ok(task) = begin(alloc, &mut self.parts, factor, start) else {
            return Err(PublishFault::Memory);
        };
        Ok(Some(task))
    }
}
