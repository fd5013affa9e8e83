//! A new generation: what the infos of a node become when it is promoted.
#![tactic(auto)]

mod fault;
mod generation;

pub use fault::PromoteFault;
pub use generation::open_generation;
