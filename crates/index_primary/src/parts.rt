//! What a primary is made of, and why its calls are refused.

ghost use Rattle.std.specs.Prelude.{◌≡◌};

use crate::states::{Merging, Out};
use documents::Op;
use file_deleter::FileDeleter;
use file_names::FileName;
use nrt_base::{List, NoMemory, SegNo};
use searcher_switch::{CommitBook, Searchers};
use segment_infos::Infos;
use segment_steps::Segment;
use thiserror::Error;

/// Why a call of a primary is refused.
#[derive(Clone, Copy, Debug, PartialEq, Eq, Error)]
pub enum PrimaryFault {
    /// Out of memory.
    #[error("out of memory")]
    Memory,
    /// The directory failed.
    #[error("the disk failed")]
    Failed,
}

impl From<NoMemory> for PrimaryFault {
    ghost use Rattle.index_primary.specs.declared.parts.PrimaryFault.TheVariants.{Memory};

    ghost from_gives = { λ _ e. e ≡ Memory };

    fn from(_: NoMemory) -> Self {
        PrimaryFault::Memory
    }
}

/// Why a publish does not start.
#[derive(Clone, Copy, Debug, PartialEq, Eq, Error)]
pub enum PublishFault {
    /// Out of memory.
    #[error("out of memory")]
    Memory,
    /// A name is needed, and the generation has drawn all.
    #[error("all 1679616 segments of the generation are used: promote a node to begin the next")]
    NamesSpent,
    /// There is a put, and there are as many segments as there may be.
    #[error("there are 256 segments, as many as there may be: merge some")]
    TooManySegments,
}

impl From<NoMemory> for PublishFault {
    ghost use Rattle.index_primary.specs.declared.parts.PublishFault.TheVariants.{Memory};

    ghost from_gives = { λ _ e. e ≡ Memory };

    fn from(_: NoMemory) -> Self {
        PublishFault::Memory
    }
}

/// A publish in flight: the number of the segment that it drew, and how many operations it takes.
#[derive(Drop)]
pub struct Publish {
    pub seg: Option<SegNo>,
    pub count: usize,
}

/// What a primary is made of, as its callers see it.
#[derive(Drop)]
pub struct PrimaryParts<D> {
    pub dir: D,
    pub files: FileDeleter,
    pub searchers: Searchers<Segment>,
    pub commits: CommitBook,
    /// The infos of the point that is searched.
    pub point_infos: Infos,
    /// The writer's infos, what reads their segments, and the names of their files.
    pub infos: Infos,
    pub segs: List<Segment>,
    pub names: List<FileName>,
    /// The copy states that are out.
    pub states: List<Out>,
    /// The merges in flight.
    pub merges: List<Merging>,
    /// The operations that are accepted and not published.
    pub waiting: List<Op>,
    /// How many operations this primary accepted.
    pub accepted: u32,
    pub publish: Option<Publish>,
    /// Whether a merge was cut over since the last point.
    pub has_cut_over: bool,
    /// The files of the merges that were cut over in this generation.
    pub completed: List<FileName>,
}
