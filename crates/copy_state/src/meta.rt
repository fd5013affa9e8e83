//! What a file is known by, apart from its body.

ghost use Rattle.std.specs.Prelude.{◌≡◌, ◌↔◌, IsTrue};

use codec_frame::FrameFault;
use segment_infos::{NameBytes, NoMemory, Share};
use std::alloc::Global;
use thiserror::Error;

/// The index header of a file, its last sixteen bytes, its length, and its last eight bytes as a number.
#[derive(Debug, Drop)]
pub struct FileMetaData {
    pub header: NameBytes,
    pub footer: [u8; 16],
    pub length: u64,
    pub checksum: u64,
}

impl Share for FileMetaData {
    fn share(&self, alloc: Global) -> Result<Self, NoMemory> {
        Ok(FileMetaData {
            header: self.header.share(alloc)?,
            footer: self.footer,
            length: self.length,
            checksum: self.checksum,
        })
    }
}

/// Why metadata is not read: the file's frame is refused, or the reader is out of memory.
#[derive(Clone, Copy, Debug, PartialEq, Eq, Error)]
pub enum MetaFault {
    #[error(transparent)]
    Frame(FrameFault),
    #[error("out of memory")]
    Memory,
}

impl From<FrameFault> for MetaFault {
    ghost use Rattle.copy_state.specs.declared.meta.MetaFault.TheVariants.{Frame};

    ghost from_gives = { λ fault e. e ≡ Frame fault };

    fn from(fault: FrameFault) -> Self {
        MetaFault::Frame(fault)
    }
}

impl From<NoMemory> for MetaFault {
    ghost use Rattle.copy_state.specs.declared.meta.MetaFault.TheVariants.{Memory};

    ghost from_gives = { λ _ e. e ≡ Memory };

    fn from(_: NoMemory) -> Self {
        MetaFault::Memory
    }
}

/// Whether two files have the same metadata.
pub fn same(a: &FileMetaData, b: &FileMetaData) -> bool
    ensures { IsTrue result ↔ (a.now ≡ b.now) }
{
    a.header == b.header && a.footer == b.footer && a.length == b.length && a.checksum == b.checksum
}
