//! The file of a segment's postings: for each key and each word, the rows that have it.
#![tactic(auto)]

mod blocks;
mod body;
mod encoding;
mod entries;
mod file;
mod find;
mod format;
mod hits;
mod inverting;
mod joining;
pub mod laws;
mod positions;
mod postings;
mod row;
mod term;

pub use encoding::{encode, encode_in};
pub use file::{PostFile, read_postings};
pub use format::Format;
pub use joining::Joined;
pub use positions::Positions;
pub use postings::Postings;
pub use row::TermRow;
