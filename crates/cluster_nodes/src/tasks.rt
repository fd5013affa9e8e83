//! What copies, settles and commits hand out.

use bytes::Bytes;
use copy_state::FileMetaData;
use file_names::FileName;
use link_model::Fate;
use nrt_base::{LineNo, NodeNo, Version};

/// A job that copies a point to a node.
#[derive(Clone, Copy, Debug, PartialEq, Eq)]
pub struct CopyTask {
    pub node: NodeNo,
    /// Its number at the node.
    pub job: u64,
    pub line: LineNo,
}

/// A file that is to be copied, with the bytes of its source and what becomes of it.
#[derive(Debug, Drop)]
pub struct FileTask {
    pub name: FileName,
    pub source: Bytes,
    pub meta: FileMetaData,
    pub fate: Fate,
}

/// A commit of a node, at the version that it searched.
#[derive(Clone, Copy, Debug, PartialEq, Eq)]
pub struct CommitTask {
    pub node: NodeNo,
    pub version: Version,
}

/// The replicas that a settle has still to look at, ascending.
#[derive(Debug, Drop)]
pub struct SettleTask {
    /// The version that was the newest at its start.
    pub version: Version,
    pub left: Vec<NodeNo>,
}
