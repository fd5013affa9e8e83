//! A newer point in hand, before it is searched.

ghost use Rattle.std.specs.Prelude.{◌≡◌, ◌+◌, ◌≤◌, ℕ, List, IfOk, IfErr, OnErr, IsErrOf};
ghost use Rattle.nrt_base.specs.Causes.{Rose};
ghost use Rattle.disk_model.specs.Disk.{reads_of};
ghost use Rattle.file_deleter.specs.Holdings.{IsWhole, count_of, times};
ghost use Rattle.file_deleter.specs.Moves.{MovesCounts};
ghost use Rattle.copy_job.specs.Parts.{placed_to, written_names, ArePlaceable};
ghost use Rattle.copy_job.specs.Placing.{IsPlacingFault};
ghost use Rattle.copy_job.specs.Jobs.{job_names};
ghost use Rattle.segment_infos.specs.Infos.{CanSpell};
ghost use Rattle.replica_opening.specs.Reading.{IsReadCutOff};
ghost use Rattle.replica_node.specs.Replica.{IsPointOf, KeepsReads};
ghost use Rattle.replica_node.specs.Advancing.{IsJobReady, TakesInHand};

use copy_job::{CopyJob, JobFault};
use disk_model::Dir;
use file_deleter::FileDeleter;
use file_names::FileName;
use nrt_base::{List, NoMemory, Share};
use replica_opening::{LoadFault, readers_of};
use searcher_switch::SearchPoint;
use seg_reader::Segment;
use segment_infos::{Infos, files_of};
use std::alloc::Global;

/// A point that is to be searched: its files, its segments, twice, and what is given back once it is searched.
#[derive(Drop)]
pub struct NewPoint {
    pub names: List<FileName>,
    pub gone: List<FileName>,
    pub segs: List<Segment>,
    pub readers: List<Segment>,
}

// The names of a point and of a job, and these.
fn gone_names(
    alloc: Global,
    names: &List<FileName>,
    copy: &CopyJob,
    dropped: &[FileName],
) -> Result<List<FileName>, NoMemory>
    ensures { IfOk result (λ gone. (q : List ℕ) → times gone q
        ≡ times names.now q + times (job_names copy.now) q + times dropped.now q) }
{
    let mut gone = names.share(alloc)?;
    for file in dropped {
        gone.push(*file)?;
    }
    for part in copy.parts() {
        gone.push(part.now)?;
    }
    for name in copy.reused() {
        gone.push(*name)?;
    }
    Ok(gone)
}

// Why a point is not in hand.
fn cut_off(fault: LoadFault) -> JobFault
    requires { IsReadCutOff fault }
    ensures fault { IsPlacingFault result }
    ensures failed { result ≡ JobFault.DirFailed → fault ≡ LoadFault.Failed }
{
    match fault {
        LoadFault::Memory => JobFault::Memory,
        LoadFault::Failed => JobFault::DirFailed,
        LoadFault::Refused(_) => unreachable!(),
    }
}

/// Gives the parts of a job their own names, makes the readers of its point, and counts the point's files. Whatever is
/// answered, the job holds what it has: after a refusal the renamed parts under their own names. What is given back once the
/// point is searched are the older point's files, the job's, and these.
pub fn advance<D: Dir>(
    alloc: Global,
    copy: &mut CopyJob,
    wanted: &Infos,
    infos: &Infos,
    olds: &SearchPoint<Segment>,
    dropped: &[FileName],
    files: &mut FileDeleter,
    dir: &mut D,
) -> Result<NewPoint, JobFault>
    requires ready { IsJobReady (D.cells dir.old) files.old copy.old wanted.now }
    requires whole { IsWhole (D.cells dir.old) files.old }
    requires point { IsPointOf (reads_of (D.cells dir.old)) infos.now olds.now }
    requires spelled { CanSpell infos.now }
    requires counted { (q : List ℕ)
        → times olds.now.names q + times (job_names copy.old) q ≤ count_of files.old q }

    // What the job has afterwards, whatever is answered.
    ensures job { copy.new ≡ record copy.old { parts = copy.new.parts } }
    ensures parts { (n : ℕ) × (copy.new.parts ≡ placed_to n copy.old.parts) }

    ensures ok { IfOk result (λ point. TakesInHand copy.old copy.new wanted.now
        olds.now.names dropped.now point
        files.old files.new (D.cells dir.old) (D.cells dir.new)) }
    ensures err { OnErr result (MovesCounts (written_names copy.old.parts)
        (job_names copy.old) (job_names copy.new)
        files.old files.new (D.cells dir.old) (D.cells dir.new)) }
    ensures still { OnErr result (KeepsReads copy.old copy.new (D.cells dir.old) (D.cells dir.new)) }
    ensures able { OnErr result (ArePlaceable files.new copy.new.parts) }
    ensures fault { IfErr result IsPlacingFault }
    ensures failed { IsErrOf result JobFault.DirFailed → Rose (D.faults dir.old) (D.faults dir.new) }
    ensures later { D.faults dir.old ≤ D.faults dir.new }
{
    let names = match files_of(alloc, wanted) {
        Ok(names) => List::from_vec(names),
        Err(_) => return Err(JobFault::Memory),
    };
    if let Err(fault) = copy.place(files, dir) {
        return Err(fault);
    }
    let segs = match readers_of(
        alloc,
        wanted.segs.as_slice(),
        infos.segs.as_slice(),
        olds.readers.as_slice(),
        dir,
    ) {
        Ok(segs) => List::from_vec(segs),
        Err(fault) => return Err(cut_off(fault)),
    };
    let Ok(readers) = segs.share(alloc) else {
        return Err(JobFault::Memory);
    };
    let Ok(gone) = gone_names(alloc, &olds.names, copy, dropped) else {
        return Err(JobFault::Memory);
    };
    let Ok(()) = files.hold_there(names.as_slice(), dir) else {
        return Err(JobFault::Memory);
    };
    Ok(NewPoint {
        names,
        gone,
        segs,
        readers,
    })
}
