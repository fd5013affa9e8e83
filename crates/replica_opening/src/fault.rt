//! Why a replica is not opened.

use commit_steps::RecoverFault;
use nrt_base::{NoMemory, SegNo};
use seg_reader::SegFault;
use thiserror::Error;

/// Why a replica is not opened on a directory.
#[derive(Clone, Copy, Debug, PartialEq, Eq, Error)]
pub enum StartFault {
    /// Out of memory.
    #[error("out of memory")]
    Memory,
    /// The commit is not recovered.
    #[error(transparent)]
    Recover(RecoverFault),
    /// This segment is the first whose files are refused.
    #[error("segment {number}: {1}", number = .0.0)]
    Segment(SegNo, SegFault),
    /// The disk failed, at a list, a load or a removal.
    #[error("the disk failed")]
    Failed,
}

impl From<NoMemory> for StartFault {
    ghost use Rattle.std.specs.Prelude.{◌≡◌};
    ghost use Rattle.replica_opening.specs.declared.fault.StartFault.TheVariants.{Memory};

    ghost from_gives = { λ _ e. e ≡ Memory };

    fn from(_: NoMemory) -> Self {
        StartFault::Memory
    }
}
