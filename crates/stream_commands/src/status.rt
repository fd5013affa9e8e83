//! What the program answers: its exit status, and the sentence that goes with it.

ghost use Rattle.std.specs.Prelude.{◌≡◌};
ghost use Rattle.stream_commands.specs.Statuses.{exit_status};

use index_check::ImageFault;
use nrt_base::LineNo;
use script_text::LineFault;
use thiserror::Error;

/// What the program answers.
#[derive(Clone, Copy, Debug, PartialEq, Eq, Error)]
pub enum Status {
    /// The source was read to its end, and the text of what it gave fully written.
    #[error("all is done")]
    Done,
    /// The words are no row of the table.
    #[error("the words after the program's name are no command")]
    Usage,
    /// This line is the first that is refused, for this cause.
    #[error("line {number}: {1}", number = .0.0)]
    BadScript(LineNo, LineFault),
    /// The source failed.
    #[error("standard input cannot be read")]
    ReadFault,
    /// The sink failed; a part of the text from its front is written.
    #[error("standard output cannot be written")]
    WriteFault,
    /// Want of memory.
    #[error("out of memory")]
    Memory,
    /// The source has more than 16,777,216 bytes.
    #[error("the input has more than 16777216 bytes")]
    TooLarge,
    /// Something is wrong with the directory, and the line that names it is written.
    #[error("the directory is not as its last commit says")]
    BadIndex,
    /// The bytes are no image of a directory.
    #[error("{fault}", fault = ImageFault::Body)]
    BadImage,
    /// The stream is bad: its first faulty frame has a wrong length (1), a wrong kind (2) or a wrong body (3), or it ends
    /// within a frame (4).
    #[error("bad stream, cause {0}")]
    BadStream(u8),
    /// The report is not that of a legal history which serves the script, and the line that says where it goes wrong is written.
    #[error("the report is not that of a legal history")]
    BadReport,
    /// The script has fewer nodes than the number of the one that is asked for.
    #[error("the script has fewer nodes")]
    NoSuchNode,
    /// No copy to the node that is asked for can begin, as the script leaves it.
    #[error("no copy can begin: no primary runs, or the node is down or is the primary")]
    NoCopy,
}

impl Status {
    /// The exit status of the process.
    pub fn number(self) -> u8
        ensures { result ≡ exit_status self }
    {
        match self {
            Status::Done => 0,
            Status::Usage => 2,
            Status::BadScript(..) => 3,
            Status::ReadFault => 4,
            Status::WriteFault => 5,
            Status::Memory => 6,
            Status::TooLarge => 7,
            Status::BadIndex => 8,
            Status::BadImage => 9,
            Status::BadStream(_) => 10,
            Status::BadReport => 11,
            Status::NoSuchNode => 12,
            Status::NoCopy => 13,
        }
    }
}
