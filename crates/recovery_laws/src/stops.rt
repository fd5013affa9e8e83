//! A node whose disk stops, that crashes and is opened again. What a law ensures is what it says.

ghost use Rattle.std.specs.Prelude.{◌≡◌, ◌<◌, true, IfOk, IfErr, IsSome};
ghost use Rattle.disk_model.specs.Disk.{HasCrashed};
ghost use Rattle.commit_steps.specs.Recovery.{IsCutOff};
ghost use Rattle.replica_opening.specs.Opened.{IsSettledOn};
ghost use Rattle.replica_node.specs.Replica.{AreStanding};
ghost use Rattle.replica_node.specs.Starting.{OpensOn};
ghost use Rattle.recovery_laws.specs.Stops.{FindsCommit, CommitGoesOn, IsStillInFlight, StandsAgain, HasInfosAgain};

use commit_steps::{RecoverFault, recover};
use disk_model::FaultDir;
use nrt_base::NoMemory;
use replica_node::{Replica, StartFault};
use segment_infos::Infos;
use std::alloc::Global;

// What a crash leaves of a directory.
fn left_by_crash<D: FaultDir + Drop>(dir: D, pick: u64) -> Result<D, NoMemory>
    ensures { IfOk result (λ left. HasCrashed (D.cells dir) (D.cells left)) }
{
    let mut dir = dir;
    dir.crash(pick)?;
    Ok(dir)
}

// A replica on a directory, and what it stands at.
fn opens_on<D: FaultDir + Drop>(alloc: Global, dir: D) -> Result<Replica<D>, StartFault>
    requires { IsSettledOn (D.cells dir) }
    ensures { IfOk result (OpensOn D.cells dir) }
{
    match Replica::start_from(alloc, dir) {
        Ok(again) => Ok(again),
        Err(refused) => Err(refused.fault),
    }
}

/// Crashes a replica, and looks for its commit; the number picks among what a crash may leave. `Err` is want of memory, or a disk that
/// failed.
///
/// That a replica stands is kept by each call of it, also by one in which its disk stopped. So wherever it stopped, a commit is found: the
/// last one or the one in flight, or nothing where none was made.
pub fn recovers<D: FaultDir + Drop>(
    alloc: Global,
    replica: Replica<D>,
    pick: u64,
) -> Result<Option<(u64, Infos)>, RecoverFault>
    requires { AreStanding D.cells replica }
    ensures found { IfOk result (FindsCommit replica) }
    ensures refused { IfErr result IsCutOff }
{
    replica.images();
    replica.version();
    match left_by_crash(replica.into_dir(), pick) {
        Ok(mut dir) => recover(alloc, &mut dir),
        Err(_) => Err(RecoverFault::Memory),
    }
}

/// Crashes a replica, and opens it again. It stands at that commit, and searches just the documents that the commit was of.
pub fn reopens<D: FaultDir + Drop>(
    alloc: Global,
    replica: Replica<D>,
    pick: u64,
) -> Result<Replica<D>, StartFault>
    requires { AreStanding D.cells replica }
    ensures { IfOk result (StandsAgain D.cells replica) }
{
    replica.images();
    match left_by_crash(replica.into_dir(), pick) {
        Ok(dir) => opens_on(alloc, dir),
        Err(_) => Err(StartFault::Memory),
    }
}

// Makes the next call of the directory for the commit in flight, and answers whether more are to come.
fn goes_on<D: FaultDir + Drop>(alloc: Global, replica: &mut Replica<D>) -> bool
    requires standing { AreStanding D.cells replica.old }
    requires in_flight { IsSome replica.old.commits.stage }
    ensures standing { AreStanding D.cells replica.new }
    ensures goes { CommitGoesOn replica.old.commits replica.new.commits }
    ensures more { result ≡ true → IsStillInFlight replica.old.commits replica.new.commits }
{
    match replica.commit_step(alloc) {
        Ok(made) => !made,
        Err(_) => false,
    }
}

// Goes on with the commit in flight until it is made, or a call of the directory is refused.
fn carry<D: FaultDir + Drop>(alloc: Global, replica: &mut Replica<D>)
    requires standing { AreStanding D.cells replica.old }
    requires in_flight { IsSome replica.old.commits.stage }
    ensures standing { AreStanding D.cells replica.new }
    ensures goes { CommitGoesOn replica.old.commits replica.new.commits }
{
    for _ in 0..6 {
        if !goes_on(alloc, replica) {
            return;
        }
    }
}

/// Stops the disk of a replica at a call while it makes the commit in flight, crashes it, and opens it again. Whichever call that is, and
/// whatever the crash leaves, the replica stands at its last commit or at that one, or, where none was made, at the opening point.
pub fn reopens_after_stop<D: FaultDir + Drop>(
    alloc: Global,
    replica: Replica<D>,
    stop: u64,
    pick: u64,
) -> Result<Replica<D>, StartFault>
    requires standing { AreStanding D.cells replica }
    requires in_flight { IsSome replica.commits.stage }
    requires some { 0 < stop }
    ensures { IfOk result (HasInfosAgain replica) }
{
    let mut replica = replica;
    replica.stop_at(stop);
    carry(alloc, &mut replica);
    reopens(alloc, replica, pick)
}
