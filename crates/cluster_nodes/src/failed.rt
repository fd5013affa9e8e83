//! Whether a call of a node found its disk failed, or no memory.

ghost use Rattle.std.specs.Prelude.{◌≡◌, OnOk};
ghost use Rattle.copy_job.specs.Placing.{IsPlacingFault};

use commit_steps::CommitFault;
use copy_job::JobFault;
use index_primary::PrimaryFault;
use nrt_base::NoMemory;
use std::alloc::AllocError;

/// The primary's disk failed, or no memory was found.
pub fn is_failed(fault: PrimaryFault) -> Result<(), NoMemory>
    ensures { OnOk result (fault ≡ PrimaryFault.Failed) }
{
    match fault {
        PrimaryFault::Failed => Ok(()),
        PrimaryFault::Memory => Err(AllocError),
    }
}

/// The replica's disk failed, or no memory was found.
pub fn is_dir_failed(fault: JobFault) -> Result<(), NoMemory>
    requires { IsPlacingFault fault }
    ensures { OnOk result (fault ≡ JobFault.DirFailed) }
{
    match fault {
        JobFault::DirFailed => Ok(()),
        JobFault::Memory => Err(AllocError),
        JobFault::LinkFailed => unreachable!(),
        JobFault::Damaged { .. } => unreachable!(),
        JobFault::NameClash { .. } => unreachable!(),
    }
}

/// The disk failed in a call for a commit, or no memory was found.
pub fn is_commit_failed(fault: CommitFault) -> Result<(), NoMemory>
    ensures { OnOk result (fault ≡ CommitFault.Failed) }
{
    match fault {
        CommitFault::Failed => Ok(()),
        CommitFault::Memory => Err(AllocError),
    }
}
