//! The types of frames and of their faults, and the numbers that every frame has.

ghost use Rattle.std.specs.Prelude.{◌≡◌};
ghost use Rattle.codec_frame.specs.declared.frame.FileFault.TheVariants.{Frame};

use thiserror::Error;

/// The first four bytes of a file, as a big-endian number.
pub const HEADER_MAGIC: u32 = 0x3fd7_6c17;

/// The first four bytes of a footer.
pub const FOOTER_MAGIC: u32 = 0xc028_93e8;

/// How many bytes a footer has.
pub const FOOTER_LENGTH: usize = 16;

/// What `check` wants of a file: the name of its format in below 128 bytes, the least and the
/// greatest version, the id where it matters, and the suffix in below 256 bytes.
#[derive(Clone, Copy, Debug)]
pub struct Want<'a> {
    pub name: &'a [u8],
    pub min: u32,
    pub max: u32,
    pub id: Option<[u8; 16]>,
    pub suffix: &'a [u8],
}

/// A file that is framed as wanted. Its body is the bytes from `start` to before `end`.
#[derive(Clone, Copy, Debug, PartialEq, Eq)]
pub struct Framed {
    pub version: u32,
    pub id: [u8; 16],
    pub start: usize,
    pub end: usize,
}

/// Why bytes are not framed as wanted. Where there is more than one reason, it is the first in this
/// order.
#[derive(Clone, Copy, Debug, PartialEq, Eq, Error)]
pub enum FrameFault {
    /// They are too few for the header and the footer.
    #[error("the file is too short for a header and a footer")]
    Truncated,
    /// They do not begin with the magic.
    #[error("the file does not begin with the magic number 3fd76c17")]
    Magic,
    /// The format has another name.
    #[error("the header names another format than this file should have")]
    Codec,
    /// The version is below the least one.
    #[error("the file has format version {0}, older than any that is read")]
    TooOld(u32),
    /// The version is above the greatest one.
    #[error("the file has format version {0}, newer than any that is read")]
    TooNew(u32),
    /// The id is another one.
    #[error("the header has another id than this file should have")]
    Id,
    /// The suffix is another one.
    #[error("the header has another suffix than this file should have")]
    Suffix,
    /// The last 16 bytes do not begin with the footer's magic.
    #[error("the footer does not begin with the magic number c02893e8")]
    FooterMagic,
    /// The footer names another algorithm than CRC-32.
    #[error("the footer names another checksum algorithm than CRC-32")]
    Algorithm,
    /// The checksum of the file is `want`, and its footer says `found`.
    #[error("the file is damaged: its checksum is {want:08x}, but its footer says {found:08x}")]
    Checksum { want: u64, found: u64 },
}

/// Why a file is refused: its frame, or else its body, which is outside its grammar.
#[derive(Clone, Copy, Debug, PartialEq, Eq, Error)]
pub enum FileFault {
    #[error(transparent)]
    Frame(FrameFault),
    #[error("the content is not in the format of the file, though header and footer are right")]
    Body,
}

impl From<FrameFault> for FileFault {
    ghost from_gives = { λ fault file. file ≡ Frame fault };

    fn from(fault: FrameFault) -> FileFault {
        FileFault::Frame(fault)
    }
}
