//! The states of a commit in flight.

ghost use Rattle.std.specs.Prelude.{◌≡◌};

use bytes::Bytes;
use file_names::FileName;
use nrt_base::{List, NoMemory};
use segment_infos::Infos;
use thiserror::Error;

/// What is committed.
#[derive(Drop)]
pub struct Commit {
    /// The N of `segments_N`, from 1.
    pub number: u64,
    pub infos: Infos,
    /// The files that the infos name, in ascending order.
    pub files: List<FileName>,
    /// What the commit holds once it is done: these files, and its own.
    pub names: List<FileName>,
}

/// A commit in flight, with the bytes of its file.
#[derive(Drop)]
pub struct Flight {
    pub commit: Commit,
    pub bytes: Bytes,
}

/// A commit that has begun.
#[derive(Drop)]
pub struct Begun(pub Flight);

/// Its files are synced.
#[derive(Drop)]
pub struct Synced(pub Flight);

/// Its own file is written, under the name `pending_segments_N`.
#[derive(Drop)]
pub struct Written(pub Flight);

/// Its own file is synced.
#[derive(Drop)]
pub struct Pending(pub Flight);

/// The names are synced.
#[derive(Drop)]
pub struct Named(pub Flight);

/// Its own file has the name `segments_N`.
#[derive(Drop)]
pub struct Renamed(pub Flight);

/// The names are synced again: the commit is acknowledged.
#[derive(Drop)]
pub struct Done(pub Flight);

/// Why a call of a commit is refused.
#[derive(Clone, Copy, Debug, PartialEq, Eq, Error)]
pub enum CommitFault {
    /// Out of memory.
    #[error("out of memory")]
    Memory,
    /// The disk failed.
    #[error("the disk failed")]
    Failed,
}

impl From<NoMemory> for CommitFault {
    ghost use Rattle.commit_steps.specs.declared.states.CommitFault.TheVariants.{Memory};

    ghost from_gives = { λ _ e. e ≡ Memory };

    fn from(_: NoMemory) -> Self {
        CommitFault::Memory
    }
}

/// A refused call hands its state back.
#[derive(Drop)]
pub struct Stopped<S> {
    pub state: S,
    pub fault: CommitFault,
}
