//! The frames in which nodes send each other what replication tells, and a stream of them as text.
#![tactic(auto)]

mod decoder;
mod encoding;
pub mod laws;
mod lines;
mod message;
mod parts;
mod running;
mod states;

pub use decoder::Decoder;
pub use encoding::{chunk_head, encode};
pub use message::{Message, StateFault, WireFault};
pub use running::{FramesEnd, run_frames};
pub use states::{state_messages, state_of};
