//! Copy states that are out, and merges in flight.

ghost use Rattle.std.specs.Prelude.{◌≡◌, ◌+◌, ◌<◌, ◌≤◌, List, [], ◌∷◌, ◌++◌, true, IfOk, IfErr, OnOk, OnErr, IsErrOf, length};
ghost use Rattle.std.specs.List.{All};
ghost use Rattle.nrt_base.specs.Causes.{Rose};
ghost use Rattle.std.specs.Cmp.Lexicographic.{pointwise};
ghost use Rattle.disk_model.specs.Disk.{same, reads_of};
ghost use Rattle.file_deleter.specs.Holdings.{AreThere, AreCounted};
ghost use Rattle.file_deleter.specs.Moves.{MovesCounts};
ghost use Rattle.disk_model.specs.Faults.{IsMemoryOrFailed};
ghost use Rattle.commit_steps.specs.StepCalls.{CallsInRow};
ghost use Rattle.searcher_switch.specs.Node.{AddsOnly};
ghost use Rattle.copy_state.specs.Meta.{IsMetaOf};
ghost use Rattle.copy_state.specs.States.{meta_names};
ghost use Rattle.index_primary.specs.Merges.{merge_inputs};
ghost use Rattle.index_primary.specs.States.{IsFramedFile, IsFramedIn, IsMetaIn, out_of, state_place, states_without, is_out, state_names, TakesOut};

use copy_state::{CopyState, FileMetaData, MetaFault, read_meta};
use disk_model::{Dir, DirFault};
use file_deleter::FileDeleter;
use file_names::FileName;
use nrt_base::{List, NoMemory, SegNo, Version};
use segment_steps::{MergeTask, Merged};
use std::alloc::{AllocError, Global};

/// A merge in flight.
#[derive(Drop)]
pub struct Merging {
    /// What it is made from: the number that it drew, its inputs as they were, and the rows that were noted.
    pub task: MergeTask,
    /// The numbers of its inputs.
    pub inputs: List<SegNo>,
    /// The names that it holds: the files of its inputs as they were noted, and those that were written.
    pub names: List<FileName>,
    /// What was made of it, where its files are written.
    pub merged: Option<Merged>,
}

/// What is held for a copy state that is out: the names of its files.
#[derive(Drop)]
pub struct Out {
    pub version: Version,
    pub names: List<FileName>,
}

/// The metadata of a framed file.
pub fn meta_told(alloc: Global, bytes: &[u8]) -> Result<FileMetaData, NoMemory>
    requires { IsFramedFile bytes.now }
    ensures { IfOk result (IsMetaOf bytes.now) }
{
    match read_meta(alloc, bytes) {
        Ok(meta) => Ok(meta),
        Err(MetaFault::Memory) => Err(AllocError),
        Err(MetaFault::Frame(_)) => unreachable!(),
    }
}

// The metadata of a file that is there and framed.
fn meta_of<D: Dir>(
    alloc: Global,
    name: &FileName,
    dir: &mut D,
) -> Result<(FileName, FileMetaData), DirFault>
    requires { IsFramedIn (reads_of (D.cells dir.old)) name.now }
    ensures name { IfOk result (λ f. f.0 ≡ name.now) }
    ensures meta { IfOk result (IsMetaIn (reads_of (D.cells dir.old))) }
    ensures only { IfErr result IsMemoryOrFailed }
    ensures failed { IsErrOf result DirFault.Failed → Rose (D.faults dir.old) (D.faults dir.new) }
    ensures calls { CallsInRow 1 (D.plans dir.old) (D.plans dir.new) result }
    ensures cells { D.cells dir.new ≡ D.cells dir.old }
    ensures later { D.faults dir.old ≤ D.faults dir.new }
{
    let bytes = match dir.load(name) {
        Ok(bytes) => bytes,
        Err(fault) => return Err(fault),
    };
    match meta_told(alloc, &bytes) {
        Ok(meta) => Ok((*name, meta)),
        Err(_) => Err(DirFault::Memory),
    }
}

/// The metadata of files that are there and framed, in order: one load each.
pub fn metas_of<D: Dir>(
    alloc: Global,
    names: &[FileName],
    dir: &mut D,
) -> Result<List<(FileName, FileMetaData)>, DirFault>
    requires { All (IsFramedIn (reads_of (D.cells dir.old))) names.now }
    ensures names { IfOk result (λ files. meta_names files ≡ names.now) }
    ensures metas { IfOk result (λ files. All (IsMetaIn (reads_of (D.cells dir.old))) files) }
    ensures only { IfErr result IsMemoryOrFailed }
    ensures failed { IsErrOf result DirFault.Failed → Rose (D.faults dir.old) (D.faults dir.new) }
    ensures calls { CallsInRow (length names.now) (D.plans dir.old) (D.plans dir.new) result }
    ensures cells { D.cells dir.new ≡ D.cells dir.old }
    ensures later { D.faults dir.old ≤ D.faults dir.new }
{
    let mut files = List::new(alloc);
    for name in names {
        match meta_of(alloc, name, dir) {
            Ok(file) => {
                let Ok(()) = files.push(file) else {
                    return Err(DirFault::Memory);
                };
            }
            Err(fault) => return Err(fault),
        }
    }
    Ok(files)
}

/// Holds the files of a copy state that is given out.
pub fn lend<D: Dir>(
    out: Out,
    states: &mut List<Out>,
    names: &[FileName],
    files: &mut FileDeleter,
    dir: &D,
) -> Result<(), NoMemory>
    requires there { AreThere (D.cells dir.now) names.now }
    requires names { out.names ≡ names.now }
    ensures out { OnOk result (states.new ≡ states.old ++ out ∷ []) }
    ensures err { OnErr result ((states.new ≡ states.old) × (files.new ≡ files.old)) }
    ensures moves { MovesCounts [] (state_names states.old) (state_names states.new)
        files.old files.new (D.cells dir.now) (D.cells dir.now) }
    ensures only { AddsOnly names.now (state_names states.old) (state_names states.new) }
{
    states.push(out)?;
    match files.hold_there(names, dir) {
        Ok(()) => Ok(()),
        Err(fault) => {
            states.cut_last();
            Err(fault)
        }
    }
}

/// The numbers of the inputs of merges in flight.
pub fn inputs_of(alloc: Global, merges: &[Merging]) -> Result<Vec<SegNo>, NoMemory>
    ensures { IfOk result (λ inputs. inputs.items ≡ merge_inputs merges.now) }
{
    let mut inputs = Vec::new(alloc);
    for merge in merges {
        inputs.extend_from_slice(merge.inputs.as_slice())?;
    }
    Ok(inputs)
}

// Whether the names are those of the files, in order.
fn are_names_of(names: &[FileName], files: &[(FileName, FileMetaData)]) -> bool
    ensures { result ≡ pointwise same names.now (meta_names files.now) }
{
    match (names, files) {
        ([], []) => true,
        ([name, names @ ..], [file, files @ ..]) => {
            *name == file.0 && are_names_of(names, files)
        }
        _ => false,
    }
}

fn place(states: &[Out], state: &CopyState) -> usize
    ensures { result ≡ state_place (out_of state.now) states.now }
{
    let mut i = 0;
    while i < states.len() {
        if state.version.0 == states[i].version.0
            && are_names_of(states[i].names.as_slice(), state.files.as_slice())
        {
            return i;
        }
        i += 1;
    }
    i
}

// Takes what is held for a state out.
#[tactic(auto, using(crate::proofs::StateLemmas::states_at))]
fn take_out(states: &mut List<Out>, state: &CopyState) -> Out
    requires { is_out (out_of state.now) states.old ≡ true }
    ensures rest { states.new ≡ states_without (out_of state.now) states.old }
    ensures names { TakesOut result states.old states.new }
{
    let at = place(states.as_slice(), state);
    states.remove(at)
}

/// Takes a copy state back, and gives its files back.
pub fn take_back<D: Dir>(
    state: &CopyState,
    states: &mut List<Out>,
    files: &mut FileDeleter,
    dir: &mut D,
)
    requires out { is_out (out_of state.now) states.old ≡ true }
    requires counted { AreCounted (state_names states.old) files.old }
    ensures rest { states.new ≡ states_without (out_of state.now) states.old }
    ensures moves { MovesCounts [] (state_names states.old) (state_names states.new)
        files.old files.new (D.cells dir.old) (D.cells dir.new) }
    ensures only { AddsOnly [] (state_names states.old) (state_names states.new) }
    ensures later { D.faults dir.old ≤ D.faults dir.new }
{
    let found = take_out(states, state);
    files.release(found.names.as_slice(), dir);
}
