//! Commits. Each disk call is a section of its own.

ghost use Rattle.std.specs.Prelude.{◌≡◌, [], OnOk, IfOk};
ghost use Rattle.history_rules.specs.Nodes.{IsNode};
ghost use Rattle.history_rules.specs.Lines.{entries_of_line};
ghost use Rattle.history_book.specs.Log.{printed};
ghost use Rattle.script_serving.specs.declared.script.LineCommand.TheVariants.{Commit};
ghost use Rattle.lane_threads.specs.Seats.{log_seen, IsLaneSeat, EndsItsLine};
ghost use Rattle.cluster_site.specs.Flights.{HasCommitAt, WaitsWhere};
ghost use Rattle.cluster_site.specs.Turns.{IsUnbegunIn, NeverWaits, TurnsLine};
ghost use Rattle.lane_lines.specs.Commits.{HasBegunCommit, IsCommitting};

use cluster_nodes::CommitTask;
use cluster_site::{Gate, Lanes, Site, Turn, enter_site, give_way};
use disk_model::FaultDir;
use hist_lock::LaneSeat;
use lane_threads::leave;
use nrt_base::{At, NoMemory, NodeNo};
use std::sync::Wait;

// Starts a commit, where no other line's is in flight at the node.
fn start<R: Wait, D: FaultDir + Drop, G: Gate>(
    lanes: &Lanes<'_, R, D, G>,
    seat: &mut LaneSeat<Site<D>>,
    at: At,
    n: NodeNo,
) -> Result<Turn<CommitTask>, NoMemory>
    requires seat { IsLaneSeat lanes.now.setup.log lanes.now.lock.now at.lane.0 seat.old }
    requires fresh { entries_of_line at (printed (log_seen seat.old)) ≡ [] }
    requires node { IsNode lanes.now.setup.nodes n.0 }
    ensures turns { IfOk result (TurnsLine lanes.now.setup.log (IsCommitting at n) (IsUnbegunIn at)
        lanes.now.lock.now (Commit n) at seat.old seat.new) }
    ensures waits { IfOk result (WaitsWhere (HasCommitAt n.0) (log_seen seat.new)) }
{
    let mut held = enter_site(lanes, seat, at)?;
    let answer = held.value().commit_start(lanes.alloc, at, n);
    leave(lanes.lock, at.lane, seat, held);
    answer
}

// Makes the next disk call of a commit.
fn step<R: Wait, D: FaultDir + Drop, G: Gate>(
    lanes: &Lanes<'_, R, D, G>,
    seat: &mut LaneSeat<Site<D>>,
    at: At,
    task: &CommitTask,
) -> Result<Turn<()>, NoMemory>
    requires seat { IsLaneSeat lanes.now.setup.log lanes.now.lock.now at.lane.0 seat.old }
    requires begun { HasBegunCommit at task.now (log_seen seat.old) }
    ensures { IfOk result (TurnsLine lanes.now.setup.log (λ made. HasBegunCommit at task.now)
        NeverWaits lanes.now.lock.now (Commit task.now.node) at seat.old seat.new) }
{
    let mut held = enter_site(lanes, seat, at)?;
    let answer = held.value().commit_step(lanes.alloc, at, task);
    leave(lanes.lock, at.lane, seat, held);
    answer
}

// Makes the disk calls of a commit, until the line has its reply.
fn finish<R: Wait, D: FaultDir + Drop, G: Gate>(
    lanes: &Lanes<'_, R, D, G>,
    seat: &mut LaneSeat<Site<D>>,
    at: At,
    task: &CommitTask,
) -> Result<(), NoMemory>
    requires seat { IsLaneSeat lanes.now.setup.log lanes.now.lock.now at.lane.0 seat.old }
    requires begun { HasBegunCommit at task.now (log_seen seat.old) }
    ensures { OnOk result (EndsItsLine lanes.now.setup.log lanes.now.lock.now (Commit task.now.node)
        at seat.old seat.new) }
{
    for _ in lanes.rt.forever() {
        match step(lanes, seat, at, task)? {
            Turn::Busy => unreachable!(),
            Turn::Done => return Ok(()),
            Turn::Work(()) => {}
        }
    }
    unreachable!()
}

/// Commits what a node searches. While another line's commit is in flight there the line waits.
pub fn commit<R: Wait, D: FaultDir + Drop, G: Gate>(
    lanes: &Lanes<'_, R, D, G>,
    seat: &mut LaneSeat<Site<D>>,
    at: At,
    n: NodeNo,
) -> Result<(), NoMemory>
    requires seat { IsLaneSeat lanes.now.setup.log lanes.now.lock.now at.lane.0 seat.old }
    requires fresh { entries_of_line at (printed (log_seen seat.old)) ≡ [] }
    requires node { IsNode lanes.now.setup.nodes n.0 }
    ensures { OnOk result (EndsItsLine lanes.now.setup.log lanes.now.lock.now (Commit n) at seat.old
        seat.new) }
{
    for _ in lanes.rt.forever() {
        match start(lanes, seat, at, n)? {
            Turn::Busy => give_way(lanes.halt, seat)?,
            Turn::Done => return Ok(()),
            Turn::Work(task) => return finish(lanes, seat, at, &task),
        }
    }
    unreachable!()
}
