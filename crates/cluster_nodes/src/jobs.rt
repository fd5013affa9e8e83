//! Jobs that copy the primary's point to a replica, in the terms of these two: begun, stopped, and ended.

ghost use Rattle.std.specs.Prelude.{◌≡◌, ◌≤◌, ◌<◌, ◌+◌, ◌^◌, None, Some, true, IsSome, IfSome, IfOk, OnOk, []};
ghost use Rattle.disk_model.specs.Disk.{reads_of};
ghost use Rattle.file_deleter.specs.Holdings.{times};
ghost use Rattle.copy_job.specs.Jobs.{reads_under};
ghost use Rattle.searcher_switch.specs.Standing.{StandsForSome};
ghost use Rattle.std.specs.Option.{option_map};
ghost use Rattle.index_primary.specs.States.{is_out, out_of, state_names};
ghost use Rattle.replica_node.specs.Jobs.{running_point};
ghost use Rattle.cluster_nodes.specs.Outs.{want_of};
ghost use Rattle.cluster_nodes.specs.JobChanges.{BeginsAt, BeginsNot, FinishesAt, ReadsFor, StopsFor};
ghost use Rattle.cluster_nodes.specs.Ends.{StopsJob, TakesBack};
ghost use Rattle.cluster_nodes.specs.Went.{ByWent};

use crate::failed::{is_dir_failed, is_failed};
use crate::states::{share_state, state_of};
use crate::went::Went;
use bytes::Bytes;
use copy_state::CopyState;
use disk_model::Dir;
use file_names::FileName;
use index_primary::Primary;
use nrt_base::NoMemory;
use replica_node::Replica;
use replica_node::laws::point_runs;
use std::alloc::{AllocError, Global};

/// Stops the job of a replica that copies a point, where one runs. It keeps its parts for the next one.
pub fn stop_job<D: Dir + Drop>(replica: &mut Replica<D>)
    ensures { StopsJob D.cells replica.old replica.new }
{
    let Some(job) = replica.job() else { return };
    let number = job.number();
    point_runs::<D>();
    replica.fail(number);
}

// Gives a copy state back at the primary, where there is one.
fn give_back<D: Dir + Drop>(primary: &mut Primary<D>, state: Option<CopyState>)
    requires { IfSome (option_map out_of state) (λ s. is_out s primary.old.states ≡ true) }
    ensures { TakesBack D.cells (option_map out_of state) primary.old primary.new }
{
    let Some(state) = state else { return };
    primary.give_back(state);
}

/// Begins a job of the primary's point at a replica that is behind it, and answers its number. It takes over what it wants of an older
/// job, and gives the state of that one back where it ran. Where the primary's disk fails none begins. It fails when out of memory, or out
/// of numbers below 2^63.
pub fn begin_job<D: Dir + Drop>(
    alloc: Global,
    primary: &mut Primary<D>,
    replica: &mut Replica<D>,
) -> Result<Went<u64>, NoMemory>
    requires behind { replica.old.searchers.point.version.0 < primary.old.point_infos.version.0 }
    requires seen { replica.old.seen.0 ≤ primary.old.point_infos.generation.0 }
    requires out { IfSome (want_of replica.old.job) (λ s. is_out s primary.old.states ≡ true) }
    ensures { IfOk result (ByWent
        (λ number. BeginsAt D.cells number primary.old primary.new replica.old replica.new)
        (BeginsNot D.cells primary.old primary.new replica.old replica.new)) }
{
    let begun = replica.jobs();
    if begun >= (1 << 63) - 1 {
        return Err(AllocError);
    }
    let state = match primary.take_state(alloc) {
        Ok(state) => state,
        Err(fault) => {
            is_failed(fault)?;
            return Ok(Went::Failed);
        }
    };
    let older = state_of(alloc, replica)?;
    replica.new_point(state.primary_gen, state.version);
    let Ok(number) = replica.start_job(alloc, state) else {
        return Err(AllocError);
    };
    give_back(primary, older);
    Ok(Went::Done(number))
}

/// Stops the job of a replica, which runs, and gives back the copy state that it was begun with.
pub fn stop_for<D: Dir + Drop>(
    alloc: Global,
    primary: &mut Primary<D>,
    replica: &mut Replica<D>,
) -> Result<(), NoMemory>
    requires some { IsSome (running_point replica.old.job) }
    requires out { IfSome (want_of replica.old.job) (λ s. is_out s primary.old.states ≡ true) }
    ensures { OnOk result
        (StopsFor D.cells None primary.old primary.new replica.old replica.new) }
{
    let Some(job) = replica.job() else {
        unreachable!()
    };
    let state = share_state(alloc, job.want())?;
    stop_job(replica);
    primary.give_back(state);
    Ok(())
}

/// Searches the point of a replica's job, which runs and of which nothing is missing, and gives back the copy state that it was begun with.
/// Where the replica's disk fails the job is stopped.
pub fn finish_job<D: Dir + Drop>(
    alloc: Global,
    primary: &mut Primary<D>,
    replica: &mut Replica<D>,
) -> Result<Went<()>, NoMemory>
    requires some { IsSome (running_point replica.old.job) }
    requires complete { IfSome (running_point replica.old.job) (λ j. j.copy.missing ≡ []) }
    requires standing { IfSome (running_point replica.old.job) (λ j.
        StandsForSome (reads_under j.copy.parts (reads_of (D.cells replica.old.dir))) j.infos) }
    requires out { IfSome (want_of replica.old.job) (λ s. is_out s primary.old.states ≡ true) }
    ensures { IfOk result (ByWent
        (λ done. IfSome (running_point replica.old.job) (λ j.
        FinishesAt D.cells j primary.old primary.new replica.old replica.new))
        (StopsFor D.cells None primary.old primary.new replica.old replica.new)) }
{
    let Some(job) = replica.job() else {
        unreachable!()
    };
    let state = share_state(alloc, job.want())?;
    let number = job.number();
    match replica.finish(alloc, number) {
        Ok(_) => {
            primary.give_back(state);
            Ok(Went::Done(()))
        }
        Err(fault) => {
            is_dir_failed(fault)?;
            primary.give_back(state);
            Ok(Went::Failed)
        }
    }
}

/// The bytes of a file that a copy state which is out names, for the job of a replica, which runs. Where the primary's disk fails the job is
/// stopped.
pub fn read_for<D: Dir + Drop>(
    alloc: Global,
    primary: &mut Primary<D>,
    replica: &mut Replica<D>,
    name: &FileName,
) -> Result<Went<Bytes>, NoMemory>
    requires some { IsSome (running_point replica.old.job) }
    requires out { IfSome (want_of replica.old.job) (λ s. is_out s primary.old.states ≡ true) }
    requires named { 0 < times (state_names primary.old.states) name.now }
    ensures { IfOk result (ByWent
        (λ bytes. ReadsFor D.cells name.now bytes primary.old primary.new replica.old replica.new)
        (StopsFor D.cells None primary.old primary.new replica.old replica.new)) }
{
    match primary.source(name) {
        Ok(bytes) => Ok(Went::Done(bytes)),
        Err(fault) => {
            is_failed(fault)?;
            stop_for(alloc, primary, replica)?;
            Ok(Went::Failed)
        }
    }
}
