//! Copy states of a primary.

ghost use Rattle.std.specs.Prelude.{◌≡◌, ◌+◌, ◌<◌, ◌≤◌, [], ◌∷◌, ◌++◌, Some, true, OnErr, IfOk, IsErrOf, Ok, Err, length};
ghost use Rattle.nrt_base.specs.Causes.{Rose};
ghost use Rattle.disk_model.specs.Disk.{reads_of};
ghost use Rattle.disk_model.specs.Faults.{FailsByPlans};
ghost use Rattle.file_deleter.specs.Holdings.{times};
ghost use Rattle.copy_state.specs.States.{IsCopyState};
ghost use Rattle.commit_steps.specs.StepCalls.{CallsInRow};
ghost use Rattle.searcher_switch.specs.Appearing.{NoneAppears};
ghost use Rattle.index_primary.specs.Loads.{disk_answer, load_refusal};
ghost use Rattle.index_primary.specs.States.{state_names, is_out, out_of, states_without, IsStateOf};
ghost use Rattle.index_primary.specs.Cut.{last_number};
ghost use Rattle.index_primary.specs.Primary.{IsPrimary, KeepsHeldBytes};
ghost use Rattle.index_primary.specs.Calls.{HoldsNoNew};

use crate::parts::PrimaryFault;
use crate::primary::Primary;
use crate::states::{Out, lend, metas_of, take_back};
use bytes::Bytes;
use copy_state::CopyState;
use disk_model::{Dir, DirFault};
use file_names::FileName;
use nrt_base::Share;
use segment_infos::encode;
use std::alloc::Global;

// A fault of the directory, as the primary's refusal.
fn refused(fault: DirFault) -> PrimaryFault
    ensures { result ≡ load_refusal fault }
{
    match fault {
        DirFault::Failed => PrimaryFault::Failed,
        DirFault::Memory | DirFault::Missing | DirFault::Exists => PrimaryFault::Memory,
    }
}

impl<D: Dir> Primary<D> {
    /// The copy state of the point that is searched: one load for each of its files, ascending. It holds these files until
    /// it is given back.
    pub fn take_state(&mut self, alloc: Global) -> Result<CopyState, PrimaryFault>
        ensures state { IfOk result (IsStateOf (reads_of (D.cells self.old.dir)) self.old.point_infos
            self.old.searchers.point.names (last_number self.old.commits) self.old.completed) }
        ensures copy { IfOk result IsCopyState }
        ensures out { IfOk result (λ s. self.new.states ≡ self.old.states ++ out_of s ∷ []) }
        ensures failed { IsErrOf result PrimaryFault.Failed
            → Rose (D.faults self.old.dir) (D.faults self.new.dir) }
        ensures calls { CallsInRow (length self.old.searchers.point.names)
            (D.plans self.old.dir) (D.plans self.new.dir) (disk_answer result) }
        ensures err { OnErr result ((self.new.states ≡ self.old.states)
            × (self.new.files ≡ self.old.files)) }
        ensures cells { D.cells self.new.dir ≡ D.cells self.old.dir }
        ensures others { self.new ≡ record self.old {
          dir = self.new.dir;
          files = self.new.files;
          states = self.new.states;
        } }
        ensures stays { KeepsHeldBytes D.cells self.old self.new }
        ensures no_new { HoldsNoNew self.old self.new }
        ensures later { D.faults self.old.dir ≤ D.faults self.new.dir }
        ensures whole { IsPrimary D.cells self.new }
    {
        let searchers = &self.parts.searchers;
        let names = searchers.point.names.share(alloc)?;
        let held = names.share(alloc)?;
        let completed = self.parts.completed.share(alloc)?;
        let infos = encode(alloc, &self.parts.point_infos)?;
        let files = match metas_of(alloc, names.as_slice(), &mut self.parts.dir) {
            Ok(files) => files,
            Err(fault) => return Err(refused(fault)),
        };
        let version = self.parts.point_infos.version;
        let out = Out {
            version,
            names: held,
        };
        match lend(
            out,
            &mut self.parts.states,
            names.as_slice(),
            &mut self.parts.files,
            &self.parts.dir,
        ) {
            Ok(()) => {}
            Err(_) => return Err(PrimaryFault::Memory),
        }
        Ok(CopyState {
            version,
            generation: self.parts.commits.last().unwrap_or(0),
            primary_gen: self.parts.point_infos.generation,
            infos,
            files,
            completed,
        })
    }

    /// The bytes of a file that a copy state which is out names: one load.
    pub fn source(&mut self, name: &FileName) -> Result<Bytes, PrimaryFault>
        requires out { 0 < times (state_names self.old.states) name.now }
        ensures bytes { IfOk result (λ bytes. (D.cells self.old.dir name.now).now ≡ Some bytes) }
        ensures failed { IsErrOf result PrimaryFault.Failed
            → Rose (D.faults self.old.dir) (D.faults self.new.dir) }
        ensures plans { FailsByPlans (D.plans self.old.dir) (D.plans self.new.dir)
            (disk_answer result) }
        ensures cells { D.cells self.new.dir ≡ D.cells self.old.dir }
        ensures others { self.new ≡ record self.old { dir = self.new.dir } }
        ensures no_new { HoldsNoNew self.old self.new }
        ensures later { D.faults self.old.dir ≤ D.faults self.new.dir }
        ensures whole { IsPrimary D.cells self.new }
    {
        let bytes = match self.parts.dir.load(name) {
            Ok(bytes) => bytes,
            Err(fault) => return Err(refused(fault)),
        };
        Ok(bytes)
    }

    /// Takes a copy state back, and gives its files back. Takes no memory.
    pub fn give_back(&mut self, state: CopyState)
        requires out { is_out (out_of state) self.old.states ≡ true }
        ensures states { self.new.states ≡ states_without (out_of state) self.old.states }
        ensures others { self.new ≡ record self.old {
          dir = self.new.dir;
          files = self.new.files;
          states = self.new.states;
        } }
        ensures stays { KeepsHeldBytes D.cells self.old self.new }
        ensures no_new { HoldsNoNew self.old self.new }
        ensures appears { NoneAppears (D.cells self.old.dir) (D.cells self.new.dir) }
        ensures later { D.faults self.old.dir ≤ D.faults self.new.dir }
        ensures whole { IsPrimary D.cells self.new }
    {
        take_back(
            &state,
            &mut self.parts.states,
            &mut self.parts.files,
            &mut self.parts.dir,
        );
    }
}
