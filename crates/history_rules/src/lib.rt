//! What a history is, what it shows, which histories are legal, and the laws of legal ones.
#![tactic(auto)]

mod cause;
mod entry;
pub mod fault_laws;
pub mod laws;
pub mod passed_laws;
pub mod plain_laws;
mod point;

pub use cause::{Cause, FaultKind, FaultPlan};
pub use entry::{Entry, Event, History};
pub use point::{Point, Verdict};
