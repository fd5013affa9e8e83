//! A directory of files, by what reads now under each name and what a crash may leave there.
#![tactic(auto)]

mod dir;

pub use dir::{Dir, DirFault, FaultDir, first_missing};
pub use file_names::{FileName, NoMemory, file_name};
