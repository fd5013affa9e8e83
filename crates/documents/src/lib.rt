//! Documents: operations on them, queries, and what a scan of them answers.
#![tactic(auto)]

pub mod answer;
mod documents;
mod matching;
pub mod operation;
pub mod query;
mod ranking;
mod text_words;

pub use answer::{Answer, Hit};
pub use documents::{Texts, apply, change, listed, texts_of};
pub use matching::matches;
pub use operation::Op;
pub use query::Query;
pub use ranking::{scan, scan_if_told};
pub use text_words::{has_word, words};
