//! A picture of a run as text: how far each node is behind, entry by entry.
#![tactic(auto)]

mod columns;
mod rows;
mod shown;
mod whole;

pub use columns::{node_of_sign, push_number, push_state, sign};
pub use shown::{Heads, NodeView, PlaceView};
pub use whole::picture;
