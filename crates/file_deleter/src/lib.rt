//! Counts of the names that are held. A file whose last count goes is removed, and a removal that failed is tried again.
#![tactic(auto)]

mod counts;
mod deleter;
mod removals;
mod tally;

pub use deleter::{FileDeleter, HoldFault};
