//! What a search answers.

use nrt_base::{Key, List};

/// A document that a search found.
#[derive(Debug, PartialEq, Eq, Drop)]
pub struct Hit {
    pub key: Key,
    /// How often the document has what is looked for.
    pub rank: u32,
}

/// What a search answers.
#[derive(Debug, Drop)]
pub struct Answer {
    /// How many documents match.
    pub total: u32,
    /// The best 20 of them: the greatest rank first, and equal ranks in ascending order of key.
    pub hits: List<Hit>,
}
