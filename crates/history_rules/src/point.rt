//! A point of a history, and the verdict on a history.

use nrt_base::{Doc, Gen, List, Version};

/// A point: the documents that were published as a version.
#[derive(Debug, Drop)]
pub struct Point {
    pub generation: Gen,
    pub version: Version,
    /// In ascending order of key.
    pub docs: List<Doc>,
}

/// Whether a history is legal.
#[derive(Clone, Copy, Debug, PartialEq, Eq)]
pub enum Verdict {
    /// Every entry keeps the rule of its kind.
    Legal,
    /// The entry at this place, from 0, is the first that breaks the rule of its kind, which has this number.
    Broken { at: usize, rule: u8 },
}
