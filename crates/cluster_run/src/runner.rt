//! What runs the lines of a cluster, for all lanes.

ghost use Rattle.script_serving.specs.Form.{is_command};

use cluster_site::{Gate, Lanes, Site};
use disk_model::FaultDir;
use documents::Op;
use hist_lock::{HistLock, LaneSeat};
use lane_copies::{copy, do_posted, drain, merge, settle};
use lane_lines::{
    ask, close, commit, crash, fault, list_files, open, promote, publish, reopen, search, write,
};
use lane_threads::{Halt, Lane, RunsLines, Setup};
use nrt_base::{NoMemory, Share};
use script_serving::{Line, LineCommand};
use std::alloc::Global;
use std::sync::Wait;

/// What runs the lines of sites that were set up so: memory, and the gate that lines pass before they work.
#[derive(Drop)]
pub struct ClusterLines<'g, G: Gate> {
    pub alloc: Global,
    pub setup: Setup,
    pub gate: &'g G,
}

impl<'g, D: FaultDir + Drop, G: Gate> RunsLines<Site<D>> for ClusterLines<'g, G> {
    ghost set_up = { λ r. r.setup };

    ghost runs = { λ r command. is_command r.setup.nodes command };

    fn run_line<R: Wait>(
        &self,
        rt: &R,
        lock: &HistLock<Site<D>>,
        halt: &Halt,
        seat: &mut LaneSeat<Site<D>>,
        line: &Line,
    ) -> Result<(), NoMemory> {
        let lanes = Lanes {
            rt,
            alloc: self.alloc,
            lock,
            setup: self.setup,
            gate: self.gate,
            halt,
        };
        let at = line.at;
        match &line.command {
            LineCommand::Put(doc) => write(&lanes, seat, at, Op::Put(doc.share(self.alloc)?)),
            LineCommand::Delete(key) => write(&lanes, seat, at, Op::Delete(key.share(self.alloc)?)),
            LineCommand::Drop(word) => write(&lanes, seat, at, Op::Drop(word.share(self.alloc)?)),
            LineCommand::Publish => publish(&lanes, seat, at),
            LineCommand::Copy(n) => copy(&lanes, seat, at, *n),
            LineCommand::Settle => settle(&lanes, seat, at),
            LineCommand::Search(n, query) => search(&lanes, seat, at, *n, query),
            LineCommand::Open(n, t) => open(&lanes, seat, at, *n, *t),
            LineCommand::Ask(t, query) => ask(&lanes, seat, at, *t, query),
            LineCommand::Close(t) => close(&lanes, seat, at, *t),
            LineCommand::Files(n) => list_files(&lanes, seat, at, *n),
            LineCommand::Commit(n) => commit(&lanes, seat, at, *n),
            LineCommand::Crash(n, pick) => crash(&lanes, seat, at, *n, *pick),
            LineCommand::Reopen(n) => reopen(&lanes, seat, at, *n),
            LineCommand::Promote(n, force) => promote(&lanes, seat, at, *n, *force),
            LineCommand::Merge(factor) => merge(&lanes, seat, at, *factor),
            LineCommand::Drain(most) => drain(&lanes, seat, at, *most),
            LineCommand::Fault(n, plan) => fault(&lanes, seat, at, *n, *plan),
        }
    }

    fn do_task<R: Wait>(
        &self,
        rt: &R,
        lock: &HistLock<Site<D>>,
        halt: &Halt,
        lane: &mut Lane<Site<D>>,
    ) -> Result<bool, NoMemory> {
        let lanes = Lanes {
            rt,
            alloc: self.alloc,
            lock,
            setup: self.setup,
            gate: self.gate,
            halt,
        };
        do_posted(&lanes, lane)
    }
}
