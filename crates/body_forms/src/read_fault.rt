//! Why a file is not read.

ghost use Rattle.std.specs.Prelude.{◌≡◌};

use codec_frame::{FileFault, FrameFault};
use nrt_base::NoMemory;
use thiserror::Error;

/// Why a file is not read: it is refused, or the reader is out of memory.
#[derive(Clone, Copy, Debug, PartialEq, Eq, Error)]
pub enum ReadFault {
    /// The file is refused.
    #[error(transparent)]
    File(FileFault),
    /// The reader is out of memory.
    #[error("out of memory")]
    Memory,
}

impl From<FileFault> for ReadFault {
    ghost use Rattle.body_forms.specs.declared.read_fault.ReadFault.TheVariants.{File};

    ghost from_gives = { λ fault read. read ≡ File fault };

    fn from(fault: FileFault) -> ReadFault {
        ReadFault::File(fault)
    }
}

impl From<FrameFault> for ReadFault {
    ghost use Rattle.codec_frame.specs.declared.frame.FileFault.TheVariants.{Frame};
    ghost use Rattle.body_forms.specs.declared.read_fault.ReadFault.TheVariants.{File};

    ghost from_gives = { λ fault read. read ≡ File (Frame fault) };

    fn from(fault: FrameFault) -> ReadFault {
        ReadFault::File(FileFault::Frame(fault))
    }
}

impl From<NoMemory> for ReadFault {
    ghost use Rattle.body_forms.specs.declared.read_fault.ReadFault.TheVariants.{Memory};

    ghost from_gives = { λ _ read. read ≡ Memory };

    fn from(_none: NoMemory) -> ReadFault {
        ReadFault::Memory
    }
}
