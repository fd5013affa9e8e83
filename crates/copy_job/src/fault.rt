//! Why copies are refused.

use copy_state::FileMetaData;
use file_names::FileName;
use link_model::LinkFault;
use nrt_base::NoMemory;
use thiserror::Error;

/// Why a copy is refused.
#[derive(Debug, Drop, Error)]
pub enum JobFault {
    /// Memory was wanting.
    #[error("out of memory")]
    Memory,
    /// The link failed.
    #[error("the link to the other node failed")]
    LinkFailed,
    /// The bytes that arrived are not those of the file.
    #[error("the file {name} was damaged on its way: its checksum is {want:08x}, {found:08x} arrived")]
    Damaged {
        name: FileName,
        /// The checksum of the file's metadata.
        want: u64,
        /// The CRC-32 of what arrived before the checksum, or else the checksum that arrived.
        found: u64,
    },
    /// The disk failed.
    #[error("the disk failed")]
    DirFailed,
    /// A held file of that name has other metadata.
    #[error("another file {name} is here: its checksum is {here:08x}, that of the other node {there:08x}", here = .ours.checksum, there = .theirs.checksum)]
    NameClash {
        name: FileName,
        ours: FileMetaData,
        theirs: FileMetaData,
    },
}

impl From<NoMemory> for JobFault {
    ghost use Rattle.std.specs.Prelude.{◌≡◌};
    ghost use Rattle.copy_job.specs.declared.fault.JobFault.TheVariants.{Memory};

    ghost from_gives = { λ _ e. e ≡ Memory };

    fn from(_: NoMemory) -> Self {
        JobFault::Memory
    }
}

impl From<LinkFault> for JobFault {
    ghost use Rattle.copy_job.specs.Copying.{IsOfLink};

    ghost from_gives = { IsOfLink };

    fn from(fault: LinkFault) -> Self {
        match fault {
            LinkFault::Memory => JobFault::Memory,
            LinkFault::Failed => JobFault::LinkFailed,
        }
    }
}
