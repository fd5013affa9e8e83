//! What is known of the entries before a place: the numbers of the run, and of each line, each node and each ticket what they show.
#![tactic(auto)]

mod lines;
mod nodes;
mod past;
mod versions;

pub use lines::{KnownLine, KnownLines, is_fault};
pub use nodes::{Commits, KnownNode, KnownNodes, Life, LinePlace};
pub use past::KnownPast;
pub use versions::{KnownVersions, Made};
