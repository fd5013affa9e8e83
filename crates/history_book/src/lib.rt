//! The book of a run: its entries and inner work in one list, kept legal, with what each entry tells.
#![tactic(auto)]

mod book;
mod inner;
pub mod laws;
mod starts;
mod whole;

pub use book::Book;
pub use history_tables::{Job, JobRow, Opening, Start};
pub use inner::{Inner, Mark, Step, Stop};
pub use link_model::Fate;
