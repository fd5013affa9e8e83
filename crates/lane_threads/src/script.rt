//! A whole script: phase after phase.

ghost use Rattle.std.specs.Prelude.{◌≡◌, [], true, false, None, reverse, IsTrue, IfOk};
ghost use Rattle.history_rules.specs.declared.entry.History.{History};
ghost use Rattle.script_serving.specs.Form.{IsInForm};
ghost use Rattle.script_serving.specs.Lines.{lines_of};
ghost use Rattle.script_serving.specs.Serves.{Serves};
ghost use Rattle.history_book.specs.Log.{name_of};
ghost use Rattle.lane_threads.specs.Idle.{NoneIsTold};
ghost use Rattle.lane_threads.specs.Firsts.{FirstIsTold};
ghost use Rattle.lane_threads.specs.Owes.{IsSettledLog};
ghost use Rattle.lane_threads.specs.Phases.{IsHistoryOf};
ghost use Rattle.lane_threads.specs.Parts.{all_run};
ghost use Rattle.lane_threads.specs.Lanes.{setup_of};

use crate::lane::RunsLines;
use crate::phase::run_phase;
use crate::run::{LaneRun, Setup};
use crate::seating::{disband, make_crew};
use crate::section::is_running;
use hist_lock::HistLock;
use nrt_base::NoMemory;
use script_serving::Script;
use std::alloc::{AllocError, Global};
use std::sync::Wait;
use std::thread::Threads;

// Each entry names the seat of its lane, or none. A law.
fn names_are_seats<T: LaneRun>()
    ensures { T.names ≡ name_of }
{}

// The history of a run is the list of its entries, the oldest first. A law.
fn log_is_history<T: LaneRun>(run: &T)
    ensures { T.history run.now ≡ reverse (T.log run.now) }
{}

// Whether a run has not ended, and was set up as the script asks.
fn is_whole<T: LaneRun>(run: &T, script: &Script) -> bool
    ensures running { result ≡ true → T.ended run.now ≡ false }
    ensures setup { result ≡ true → T.set_up run.now ≡ setup_of script.now }
    ensures settled { result ≡ true → IsSettledLog script.now.log (T.log run.now) }
{
    let setup = Setup {
        nodes: script.nodes,
        log: script.log,
    };
    is_running(run, setup)
}

/// Runs a script on a new value, by eight lanes and the script's workers in threads of their own, and answers the value as the script
/// leaves it.
///
/// Whatever the threads do in between, the history that is left serves the script, where a publish was answered `none` no merge was cut over
/// since the last point, and each merge takes the first range that is due. It fails only when out of memory.
pub fn run_script<R: Threads + Wait + Sync, T: LaneRun + Send + Drop, Q: RunsLines<T> + Sync>(
    rt: &R,
    alloc: Global,
    runner: &Q,
    run: T,
    script: &Script,
) -> Result<T, NoMemory>
    requires form { IsInForm script.now }
    requires setup { Q.set_up runner.now ≡ setup_of script.now }
    requires runs { IsTrue (all_run (Q.runs runner.now) (lines_of script.now)) }
    requires new { T.log run ≡ [] }
    ensures running { IfOk result (λ left. T.ended left ≡ false) }
    ensures setup { IfOk result (λ left. T.set_up left ≡ setup_of script.now) }
    ensures serves { IfOk result (λ left. (h : History)
        → IsHistoryOf script.now.nodes (T.log left) h → Serves script.now h) }
    ensures none { IfOk result (λ left. NoneIsTold script.now (T.log left)) }
    ensures first { IfOk result (λ left. FirstIsTold script.now None (T.log left)) }
{
    names_are_seats::<T>();
    log_is_history(&run);
    let (lock, mut hub) = HistLock::new(alloc, run)?;
    let mut lanes = make_crew(alloc, &lock, &mut hub, script.workers)?;
    for phase in script.phases.as_slice() {
        run_phase(
            rt,
            &lock,
            runner,
            script.log,
            &mut hub,
            lanes.as_mut_slice(),
            phase,
        )?;
    }
    disband(lanes, &lock, &mut hub);
    let left = lock.close(hub);
    log_is_history(&left);
    if !is_whole(&left, script) {
        return Err(AllocError);
    }
    Ok(left)
}
