//! A merge whose files are written.

ghost use Rattle.std.specs.Prelude.{◌≡◌, ◌+◌, ◌≤◌, ◌++◌, ◌∷◌, [], List, Some, true, is_some, OnOk, OnErr, IfOk, IsErrOf};
ghost use Rattle.std.specs.List.{All};
ghost use Rattle.nrt_base.specs.Causes.{Rose};
ghost use Rattle.disk_model.specs.Disk.{Name, Content, reads_of};
ghost use Rattle.copy_state.specs.States.{IsCopyState, meta_names};
ghost use Rattle.searcher_switch.specs.Appearing.{AppearsOnly};
ghost use Rattle.index_primary.specs.Cut.{last_number};
ghost use Rattle.index_primary.specs.Held.{IsOwnFile};
ghost use Rattle.index_primary.specs.States.{IsFramedFile, IsMetaIn, IsStateOf, out_of};
ghost use Rattle.index_primary.specs.Merges.{merge_of, merges_with, merges_without};
ghost use Rattle.index_primary.specs.Primary.{IsPrimary, KeepsHeldBytes, loose_of};
ghost use Rattle.index_primary.specs.Written.{names_of, ReadsSo};
ghost use Rattle.index_primary.specs.Calls.{DrawsOnly, FillsUndrawn, HoldsNoNew};
ghost use Rattle.index_primary.specs.MergeCalls.{IsMadeFor, IsReadied, IsStateReady};

use crate::merge_ends::{abandon, merge_in, place_of};
use crate::parts::{PrimaryFault, PrimaryParts};
use crate::primary::Primary;
use crate::states::{Merging, Out, lend, meta_told};
use crate::write::{joined, names_in, write_all};
use bytes::Bytes;
use copy_state::{CopyState, FileMetaData};
use disk_model::{Dir, DirFault};
use file_names::FileName;
use nrt_base::{List, NoMemory, Share};
use seg_merge::Merged;
use segment_infos::encode;
use std::alloc::Global;
use std::mem::replace;

// The metadata of framed files, from their bytes.
fn metas_told(
    alloc: Global,
    files: &[(FileName, Bytes)],
) -> Result<List<(FileName, FileMetaData)>, NoMemory>
    requires { All (λ f. IsFramedFile f.1) files.now }
    ensures names { IfOk result (λ metas. meta_names metas ≡ names_of files.now) }
    ensures metas { IfOk result (λ metas. (reads : Name → Content)
        → All (λ f. reads f.0 ≡ Some f.1) files.now → All (IsMetaIn reads) metas) }
{
    let mut metas = List::new(alloc);
    for file in files {
        let meta = meta_told(alloc, &file.1)?;
        metas.push((file.0, meta))?;
    }
    Ok(metas)
}

// What was made of the merge in this place is noted, with the names that it holds from now on.
fn set_made(alloc: Global, merges: &mut List<Merging>, merged: Merged, names: List<FileName>)
    requires { is_some (merge_of merged.files.seg.0 merges.old) ≡ true }
    ensures { merges.new ≡ merges_with merged names merges.old }
{
    let at = place_of(merges.as_slice(), merged.files.seg);
    let mut items = replace(merges, List::new(alloc)).into_vec();
    let merging = &mut items[at];
    merging.merged = Some(merged);
    merging.names = names;
    *merges = List::from_vec(items);
}

/// The lists that are made before the first write: the names of the files, those that the merge holds from now on, and the state
/// with what is held for it.
#[derive(Drop)]
pub struct StateReady {
    pub written: List<FileName>,
    pub names: List<FileName>,
    pub state: CopyState,
    pub out: Out,
}

// All that memory is needed for.
fn prepare<D: Dir>(
    alloc: Global,
    parts: &PrimaryParts<D>,
    merged: &Merged,
) -> Result<StateReady, NoMemory>
    requires whole { IsPrimary D.cells parts.now }
    requires made { IsMadeFor parts.now merged.now }
    ensures { IfOk result (IsStateReady parts.now merged.now) }
{
    let merging = merge_in(parts.merges.as_slice(), merged.files.seg);
    let files = merged.files.files.as_slice();
    let written = names_in(alloc, files)?;
    let names = joined(alloc, merging.names.as_slice(), written.as_slice())?;
    let held = written.share(alloc)?;
    let completed = parts.completed.share(alloc)?;
    let infos = encode(alloc, &parts.point_infos)?;
    let metas = metas_told(alloc, files)?;
    let version = parts.point_infos.version;
    Ok(StateReady {
        written,
        names,
        state: CopyState {
            version,
            generation: parts.commits.last().unwrap_or(0),
            primary_gen: parts.point_infos.generation,
            infos,
            files: metas,
            completed,
        },
        out: Out {
            version,
            names: held,
        },
    })
}

impl<D: Dir> Primary<D> {
    /// Writes the files of a merge in flight, of which the merged segment was made, and holds them. Answers a copy state that
    /// names them, which is out until it is given back. Where the directory fails, the merge has ended.
    pub fn merge_ready(&mut self, alloc: Global, merged: Merged) -> Result<CopyState, PrimaryFault>
        requires { IsMadeFor self.old merged }
        ensures state { IfOk result (IsStateOf (reads_of (D.cells self.new.dir)) self.old.point_infos
            (names_of merged.files.files) (last_number self.old.commits) self.old.completed) }
        ensures copy { IfOk result IsCopyState }
        ensures out { IfOk result (λ s. self.new.states ≡ self.old.states ++ out_of s ∷ []) }
        ensures merges { OnOk result (IsReadied merged self.old self.new) }
        ensures written { OnOk result (All (ReadsSo (D.cells self.new.dir)) merged.files.files) }
        ensures failed { IsErrOf result PrimaryFault.Failed
            → Rose (D.faults self.old.dir) (D.faults self.new.dir) }
        ensures ended { IsErrOf result PrimaryFault.Failed
            → self.new.merges ≡ merges_without merged.files.seg.0 self.old.merges }
        ensures memory { IsErrOf result PrimaryFault.Memory → self.new.merges ≡ self.old.merges }
        ensures err { OnErr result (self.new.states ≡ self.old.states) }
        ensures given_back { OnErr result (HoldsNoNew self.old self.new) }
        ensures others { self.new ≡ record self.old {
          dir = self.new.dir;
          files = self.new.files;
          states = self.new.states;
          merges = self.new.merges;
        } }
        ensures stays { KeepsHeldBytes D.cells self.old self.new }
        ensures fresh { FillsUndrawn self.old self.new }
        ensures drawn { DrawsOnly self.old self.new }
        ensures appears { AppearsOnly (IsOwnFile self.old.infos (loose_of self.old))
            (D.cells self.old.dir) (D.cells self.new.dir) }
        ensures later { D.faults self.old.dir ≤ D.faults self.new.dir }
        ensures whole { IsPrimary D.cells self.new }
    {
        let ready = prepare(alloc, &self.parts, &merged)?;
        match write_all(
            alloc,
            ready.written.as_slice(),
            merged.files.files.as_slice(),
            &mut self.parts.files,
            &mut self.parts.dir,
        ) {
            Ok(()) => {}
            Err(DirFault::Failed) => {
                abandon(&mut self.parts, merged.files.seg);
                drop(ready);
                drop(merged);
                return Err(PrimaryFault::Failed);
            }
            Err(_) => {
                drop(ready);
                drop(merged);
                return Err(PrimaryFault::Memory);
            }
        }
        match lend(
            ready.out,
            &mut self.parts.states,
            ready.written.as_slice(),
            &mut self.parts.files,
            &self.parts.dir,
        ) {
            Ok(()) => {
                set_made(alloc, &mut self.parts.merges, merged, ready.names);
                drop(ready.written);
                Ok(ready.state)
            }
            Err(_) => {
                self.parts
                    .files
                    .release(ready.written.as_slice(), &mut self.parts.dir);
                drop(ready.written);
                drop(ready.names);
                drop(ready.state);
                drop(merged);
                Err(PrimaryFault::Memory)
            }
        }
    }
}
