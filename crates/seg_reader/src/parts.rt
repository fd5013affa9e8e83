//! The files of a segment, and why they are refused.

ghost use Rattle.std.specs.Prelude.{◌≡◌};
ghost use Rattle.seg_reader.specs.declared.parts.SegFault.TheVariants.{Memory};

use bytes::Bytes;
use codec_frame::FileFault;
use nrt_base::NoMemory;
use std::fmt;
use thiserror::Error;

/// The bytes of a segment's files.
#[derive(Debug, Drop)]
pub struct SegParts {
    pub docs: Bytes,
    pub post: Bytes,
    pub info: Bytes,
    /// Its live rows, where it has a file of them.
    pub live: Option<Bytes>,
}

/// A file of a segment. They are looked at in this order.
#[derive(Clone, Copy, Debug, PartialEq, Eq)]
pub enum SegFile {
    Docs,
    Post,
    Info,
    Live,
}

/// What a reader calls it.
impl fmt::Display for SegFile {
    fn fmt<W: fmt::Write>(&self, f: &mut fmt::Formatter<W>) -> fmt::Result {
        f.write_str(match self {
            SegFile::Docs => "file of documents",
            SegFile::Post => "file of postings",
            SegFile::Info => "info file",
            SegFile::Live => "file of live rows",
        })
    }
}

/// Why files are not those of a segment.
#[derive(Clone, Copy, Debug, PartialEq, Eq, Error)]
pub enum SegFault {
    /// The reader is out of memory.
    #[error("out of memory")]
    Memory,
    /// This file is the first outside its grammar.
    #[error("the {0} of a segment cannot be read: {1}")]
    File(SegFile, FileFault),
    /// Every file is in its grammar, and this file is the first in which the segment's number, the number of rows or that
    /// of live rows is not the one that infos want; or it is the postings, whose version is not the format, which is
    /// wanted, of the info file.
    #[error("the {part} of a segment says {found} where {want} is wanted")]
    Disagrees {
        part: SegFile,
        want: u64,
        found: u64,
    },
}

impl From<NoMemory> for SegFault {
    ghost from_gives = { λ _ fault. fault ≡ Memory };

    fn from(_none: NoMemory) -> SegFault {
        SegFault::Memory
    }
}
