//! The generated script, the summary of a run of it, and what every run of it finds: what `nrt load` has beside a run.
#![tactic(auto)]

mod commands;
mod found;
mod laws;
mod lines;
mod whole;

pub use found::summary;
pub use whole::generated;
