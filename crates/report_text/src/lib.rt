//! The report: one line of text for each entry of a history.
#![tactic(auto)]

mod causes;
mod events;
mod lines;
mod words;

pub use lines::{line, report, report_entries};
