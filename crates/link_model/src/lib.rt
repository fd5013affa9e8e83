//! Links, over which files are carried from one node to another.
#![tactic(auto)]

mod fate;
mod link;
mod memory;

pub use fate::Fate;
pub use link::{Link, LinkFault};
pub use memory::MemLink;
