//! The file of a segment's stored documents: one row for each, its key and its text.
#![tactic(auto)]

mod encoding;
mod file;
pub mod laws;
mod row;

pub use encoding::encode;
pub use file::{DocsFile, read_docs};
