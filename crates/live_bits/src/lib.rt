//! The live rows of a segment, and their file.
#![tactic(auto)]

mod bits;
mod file;
pub mod laws;
mod live;

pub use file::{encode, read_live};
pub use live::LiveBits;
