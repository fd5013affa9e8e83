//! A lock round a value with a history. All threads extend one history, and each has a seat that knows how much of it the thread has seen, and which entries are its own.
#![tactic(auto)]

mod bells;
pub mod grows;
pub mod lock;
mod pairs;
pub mod steps;
#[cfg(test)]
mod tests;
pub mod view;

pub use grows::Grows;
pub use lock::{Held, HistLock, LaneSeat};
