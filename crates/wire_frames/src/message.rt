//! What one node tells another, and why bytes or messages are refused.

ghost use Rattle.std.specs.Prelude.{◌≡◌};

use bytes::Bytes;
use copy_state::FileMetaData;
use file_names::FileName;
use nrt_base::{Gen, NoMemory, Version};
use std::alloc::AllocFailed;
use thiserror::Error;

/// What one node tells another.
#[derive(Debug, Drop)]
pub enum Message {
    /// A point was published.
    Notice {
        generation: Gen,
        version: Version,
    },
    /// The state of a point that is to be copied; so many files and so many completed names follow.
    State {
        version: Version,
        /// The number of the primary's last commit, 0 without one.
        generation: u64,
        primary_gen: Gen,
        files: u32,
        completed: u32,
        infos: Bytes,
    },
    /// A file of a point.
    File {
        name: FileName,
        meta: FileMetaData,
    },
    /// A file of a merge that ended.
    Completed {
        name: FileName,
    },
    /// Bytes of a file, from a place on.
    Chunk {
        name: FileName,
        at: u64,
        bytes: Bytes,
    },
}

/// Why a stream is refused: its first faulty frame has this fault, or memory ran out.
#[derive(Clone, Copy, Debug, PartialEq, Eq, Error)]
pub enum WireFault {
    /// The length of the frame is this, 0 or above 65,536.
    #[error("a frame has the length {0}, where 1 to 65536 is wanted")]
    Length(u32),
    /// The kind of the frame is this, and none.
    #[error("a frame has the kind {0}, where 1 to 5 is wanted")]
    Kind(u8),
    /// The body is of no message of its kind.
    #[error("the body of a frame is no message of its kind")]
    Body,
    /// Out of memory.
    #[error("out of memory")]
    Memory,
}

impl From<NoMemory> for WireFault {
    ghost use Rattle.wire_frames.specs.declared.message.WireFault.TheVariants.{Memory};

    ghost from_gives = { λ _ e. e ≡ Memory };

    fn from(_: NoMemory) -> Self {
        WireFault::Memory
    }
}

impl<T: Drop> From<AllocFailed<T>> for WireFault {
    ghost use Rattle.wire_frames.specs.declared.message.WireFault.TheVariants.{Memory};

    ghost from_gives = { λ _ e. e ≡ Memory };

    fn from(_: AllocFailed<T>) -> Self {
        WireFault::Memory
    }
}

/// Why messages are no state.
#[derive(Clone, Copy, Debug, PartialEq, Eq, Error)]
pub enum StateFault {
    /// At this place the messages are not those of a state, or one is missing.
    #[error("the messages are no state of a point: the one at place {0} is another or missing")]
    Order(usize),
    /// Out of memory.
    #[error("out of memory")]
    Memory,
}

impl From<NoMemory> for StateFault {
    ghost use Rattle.wire_frames.specs.declared.message.StateFault.TheVariants.{Memory};

    ghost from_gives = { λ _ e. e ≡ Memory };

    fn from(_: NoMemory) -> Self {
        StateFault::Memory
    }
}
