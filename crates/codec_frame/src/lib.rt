//! Frames of files, and their checksum.
#![tactic(auto)]

mod checking;
mod crc;
mod frame;
pub mod laws;
mod tables;
mod writing;

pub use checking::check;
pub use crc::crc32;
pub use frame::{FOOTER_LENGTH, FOOTER_MAGIC, FileFault, FrameFault, Framed, HEADER_MAGIC, Want};
pub use writing::{write_footer, write_header, write_index_header};
