//! A whole script.

ghost use Rattle.std.specs.Prelude.{◌≡◌, ◌≤◌, [], false, IfOk, OnOk, length};
ghost use Rattle.std.specs.List.{All};
ghost use Rattle.history_rules.specs.Legal.{IsLegal};
ghost use Rattle.script_serving.specs.Form.{IsInForm};
ghost use Rattle.script_serving.specs.Serves.{Serves};
ghost use Rattle.disk_memory.specs.Memory.{cells_in, known_plans};
ghost use Rattle.trans_log.specs.Logs.{SameLogs, IsCalm};
ghost use Rattle.cluster_state.specs.Starting.{IsEmptyDir};
ghost use Rattle.cluster_site.specs.Sites.{is_logged};
ghost use Rattle.cluster_run.specs.Running.{history_of, TellsInner};

use crate::crossing::{ledger_crosses, sent};
use crate::runner::ClusterLines;
use cluster_nodes::NodePlace;
use cluster_site::{Cluster, Gate, Site};
use cluster_state::ClusterState;
use disk_memory::MemDir;
use lane_threads::Setup;
use merge_tasks::{Ledger, Tasks};
use nrt_base::NoMemory;
use script_serving::Script;
use std::alloc::Global;
use std::sync::Wait;
use std::thread::Threads;
use trans_log::TransLog;

// An empty directory in memory.
fn empty_dir(alloc: Global) -> Result<MemDir, NoMemory>
    ensures { IfOk result (λ dir. IsEmptyDir (cells_in dir)) }
{
    MemDir::new(alloc)
}

// An empty directory for a log, for which no fault is planned.
fn log_dir(alloc: Global) -> Result<MemDir, NoMemory>
    ensures empty { IfOk result (λ dir. IsEmptyDir (cells_in dir)) }
    ensures same { IfOk result (λ dir. SameLogs (cells_in dir)) }
    ensures calm { IfOk result (λ dir. IsCalm (known_plans dir)) }
{
    MemDir::new(alloc)
}

// So many empty directories.
fn empty_dirs(alloc: Global, count: u8) -> Result<Vec<MemDir>, NoMemory>
    ensures count { IfOk result (λ dirs. length dirs.items ≡ count) }
    ensures empty { IfOk result (λ dirs. All (λ dir. IsEmptyDir (cells_in dir)) dirs.items) }
{
    let mut dirs = Vec::with_capacity(alloc, count as usize)?;
    for _ in 0..count {
        dirs.push(empty_dir(alloc)?)?;
    }
    Ok(dirs)
}

// A new site for a script, with a log where the script has one.
fn new_site(alloc: Global, script: &Script) -> Result<Site<MemDir>, NoMemory>
    requires { IsInForm script.now }
    ensures running { IfOk result (λ s. s.run.ended ≡ false) }
    ensures nodes { IfOk result (λ s. s.run.nodes ≡ script.now.nodes) }
    ensures logged { IfOk result (λ s. is_logged s ≡ script.now.log) }
    ensures log { IfOk result (λ s. s.run.log ≡ []) }
{
    let dirs = empty_dirs(alloc, script.nodes)?;
    if script.log {
        return Site::start_with_log(alloc, dirs, log_dir(alloc)?);
    }
    Site::start(alloc, dirs)
}

/// Runs a script on a new cluster, its lanes in threads of their own, and answers the cluster as the script leaves it. Where the script has
/// `log`, the site has one, which a promotion replays. `Err` is want of memory alone.
///
/// Whatever the lanes' threads do in between, the history is legal and serves the script, each printed entry tells what is so of inner
/// work, an answer `none` to a publish too, and each merge takes the first range that is due.
pub fn run_script<R: Threads + Wait + Sync, G: Gate + Sync>(
    rt: &R,
    alloc: Global,
    gate: &G,
    script: &Script,
) -> Result<Cluster<MemDir>, NoMemory>
    requires form { IsInForm script.now }
    ensures running { IfOk result (λ c. c.ended ≡ false) }
    ensures legal { IfOk result (λ c. IsLegal (history_of c)) }
    ensures serves { IfOk result (λ c. Serves script.now (history_of c)) }
    ensures told { IfOk result (λ c. TellsInner script.now c.log) }
{
    ledger_crosses();
    sent::<Ledger>();
    sent::<Tasks>();
    sent::<Vec<Option<NodePlace<MemDir>>>>();
    sent::<[bool; 255]>();
    sent::<ClusterState<MemDir>>();
    sent::<Cluster<MemDir>>();
    sent::<Option<TransLog<MemDir>>>();
    sent::<Site<MemDir>>();
    let setup = Setup {
        nodes: script.nodes,
        log: script.log,
    };
    let site = new_site(alloc, script)?;
    let lines = ClusterLines { alloc, setup, gate };
    let left = lane_threads::run_script(rt, alloc, &lines, site, script)?;
    let cluster = left.into_cluster();
    cluster.ended();
    Ok(cluster)
}

/// Lets go what a run left. What lets it go by itself has the drop of each of its parts to prove.
pub fn let_go(left: Option<Cluster<MemDir>>) {
    drop(left);
}
