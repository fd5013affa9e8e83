//! A row of terms.

use nrt_base::{Key, List, Word};

/// A row of a segment that is written: its key, and the words of its text in order.
#[derive(Debug, Drop)]
pub struct TermRow {
    pub key: Key,
    pub words: List<Word>,
}
