//! What a file is known by, apart from its body, and what a replica is told of a point that it is to copy.
#![tactic(auto)]

pub mod laws;
mod meta;
mod reading;
mod state;

pub use meta::{FileMetaData, MetaFault, same};
pub use reading::read_meta;
pub use segment_infos::{Infos, encode};
pub use state::CopyState;
