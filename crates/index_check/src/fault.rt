//! What is wrong with a directory.

ghost use Rattle.std.specs.Prelude.{◌≡◌};

use codec_frame::FileFault;
use file_names::FileName;
use nrt_base::{Key, NoMemory};
use thiserror::Error;

/// Why a check was refused: the first of these, segments in the order of the infos and their files in ascending order.
/// `NoFile` to `Postings` are looked for segment by segment, the others after all segments.
#[derive(Debug, Drop, PartialEq, Eq, Error)]
pub enum CheckFault {
    /// Out of memory.
    #[error("out of memory")]
    Memory,
    /// The disk failed.
    #[error("the disk failed")]
    Failed,
    /// The infos name this file, which does not exist.
    #[error("{0}: the last commit needs this file, which does not exist")]
    NoFile(FileName),
    /// This file, that of the infos included, is refused by its reader.
    #[error("{0}: {1}")]
    File(FileName, FileFault),
    /// In this file the segment's number, the number of rows or that of live rows is not the one that the infos want.
    #[error("{name}: it says {found} where the last commit wants {want}")]
    Disagrees {
        name: FileName,
        want: u64,
        found: u64,
    },
    /// The postings in this file are not those of the segment's rows.
    #[error("{0}: the postings are not those of the documents of its segment")]
    Postings(FileName),
    /// A live row in this file of documents has the key of a live row before it.
    #[error("{0}: the key {1} has two live documents")]
    TwoRows(FileName, Key),
    /// The live rows in order of key are other documents, first at this place.
    #[error("the live documents in order of key are not the wanted ones, first at place {0}")]
    OtherDocs(usize),
}

impl From<NoMemory> for CheckFault {
    ghost use Rattle.index_check.specs.declared.fault.CheckFault.TheVariants.{Memory};

    ghost from_gives = { λ _ fault. fault ≡ Memory };

    fn from(_: NoMemory) -> Self {
        CheckFault::Memory
    }
}
