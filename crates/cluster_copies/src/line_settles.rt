//! Settles: copies to every replica that runs.

ghost use Rattle.std.specs.Prelude.{◌≡◌, [], false, OnOk, OnErr, IfOk};
ghost use Rattle.history_rules.specs.Lines.{entries_of_line};
ghost use Rattle.history_book.specs.Log.{printed};
ghost use Rattle.cluster_state.specs.Run.{KeepsRest, IsEnded};
ghost use Rattle.cluster_state.specs.Keeping.{KeepsButBegun};
ghost use Rattle.cluster_state.specs.Settles.{IsSettling};
ghost use Rattle.cluster_state.specs.CopyCalls.{SettleStarts, SettleGoesOn};

use crate::copies::begin_settling;
use crate::line_copies::is_being_copied;
use crate::settles::{begin_settle, next_left};
use cluster_nodes::{CopyTask, SettleTask, Went};
use cluster_state::{ClusterState, Turn, refuse_turn};
use disk_model::FaultDir;
use history_rules::{Cause, Event};
use nrt_base::{At, NoMemory};
use std::alloc::{AllocError, Global};

/// Starts a settle.
pub fn settle_start<D: FaultDir + Drop>(
    state: &mut ClusterState<D>,
    alloc: Global,
    at: At,
) -> Result<Turn<SettleTask>, NoMemory>
    requires running { state.old.ended ≡ false }
    requires fresh { entries_of_line at (printed state.old.log) ≡ [] }
    ensures ok { IfOk result (SettleStarts at state.old state.new) }
    ensures rest { OnOk result (KeepsRest state.old state.new) }
    ensures err { OnErr result (IsEnded state.old state.new) }
{
    if state.primary().is_none() {
        return refuse_turn(state, at, Cause::NoPrimary);
    }
    let task = begin_settle(alloc, state, at)?;
    Ok(Turn::Work(task))
}

/// Begins the job of the next replica that a settle waits for. Where none is left the line has its reply, and where its source has
/// crashed it is refused as lost.
pub fn settle_next<D: FaultDir + Drop>(
    state: &mut ClusterState<D>,
    alloc: Global,
    at: At,
    task: &mut SettleTask,
) -> Result<Turn<CopyTask>, NoMemory>
    requires running { state.old.ended ≡ false }
    requires settling { IsSettling state.old.nodes (printed state.old.log) at task.old }
    ensures ok { IfOk result (SettleGoesOn at state.old state.new task.new) }
    ensures version { task.new.version ≡ task.old.version }
    ensures rest { IfOk result (KeepsButBegun state.old state.new) }
    ensures err { OnErr result (IsEnded state.old state.new) }
{
    state.book().is_legal();
    state.is_apart(at);
    state.has_no_commit(at);
    if !state.book().source_survives(at) {
        state.note(at, Event::Refused { cause: Cause::Lost })?;
        return Ok(Turn::Done);
    }
    let Some(n) = next_left(state, at, task) else {
        if !state.book().is_whole(at) {
            state.end();
            return Err(AllocError);
        }
        state.note(at, Event::Settled { v: task.version })?;
        return Ok(Turn::Done);
    };
    if is_being_copied(state.book(), n) {
        return Ok(Turn::Busy);
    }
    state.job_low(n);
    match state.primary() {
        None => unreachable!(),
        Some(p) => {
            match begin_settling(alloc, state, at, p, n, task.version)? {
                Went::Done(job) => Ok(Turn::Work(job)),
                Went::Failed => Ok(Turn::Done),
            }
        }
    }
}
