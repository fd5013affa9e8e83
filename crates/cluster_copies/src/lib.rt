//! Copies between the nodes of a cluster, and what a copy of the newest point to a node takes. Each kind of path is a
//! crate of its own, so that a change of one proves no other again.
#![tactic(auto)]

mod copies;
mod line_copies;
mod line_settles;
mod met;
mod sends;
mod settles;
mod transfers;

pub use line_copies::{copy_arrived, copy_next, copy_start};
pub use line_settles::{settle_next, settle_start};
pub use sends::{Sending, into_send};
