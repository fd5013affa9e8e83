//! How a call of a node's disk went.

/// How a call of a node's disk went: what it gives, or nothing, as the disk failed.
#[derive(Debug, Drop)]
pub enum Went<T> {
    /// The call was made.
    Done(T),
    /// The disk failed.
    Failed,
}
