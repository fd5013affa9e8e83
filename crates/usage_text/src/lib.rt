//! What the program says of itself and of what is wrong with the words of its command or of a line of a script. It alone
//! stands on `clap`.
#![tactic(auto)]

mod advise;
mod forms;
mod kinds;
mod ranges;
mod room;
mod usage;
mod words;

pub use advise::advice;
pub use usage::{asked, mistake};
