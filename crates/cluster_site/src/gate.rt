//! The gate that a line passes before it works outside the lock.

use file_names::FileName;
use nrt_base::{LineNo, NodeNo};

/// The work that a line is about to do, by its number.
#[derive(Clone, Copy, Debug, PartialEq, Eq)]
pub enum Place {
    /// To fetch a chunk of a file for a node, by the chunk's number from 0.
    Chunk(LineNo, NodeNo, FileName, usize),
    /// To evaluate a query at a node.
    Evaluate(LineNo, NodeNo),
    /// To build a segment.
    Build(LineNo),
    /// To merge segments.
    Merge(LineNo),
}

/// What every lane passes before it works outside the lock. A test holds lanes there.
pub trait Gate {
    fn pass(&self, place: Place);
}
