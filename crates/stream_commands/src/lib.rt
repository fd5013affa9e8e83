//! The commands that read a stream and write a text, and know no cluster: the messages of a stream of frames, the check of an image, the
//! judge of a report and what is shown of one. With them stands what all commands share: how a source is read and a sink written, what the
//! words ask for, and what is answered.
#![tactic(auto)]

mod asking;
mod checking;
mod judging;
mod message;
mod picturing;
mod reading;
mod status;
mod telling;
mod writing;

pub use asking::{is_pair, is_word, number_asked};
pub use checking::check_source;
pub use judging::judge_source;
pub use message::{StreamFault, stream_fault};
pub use picturing::{PictureKind, has_report, show, show_report};
pub use reading::{ReadEnd, read_all, read_script};
pub use status::Status;
pub use telling::frames_source;
pub use writing::write_all;
