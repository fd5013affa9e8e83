//! A script: phases of lines, and what each line asks for.

use documents::Query;
use history_rules::FaultPlan;
use nrt_base::{At, Doc, Key, LaneNo, List, NodeNo, TicketNo, Word};

/// The version that a promotion is forced to be above.
#[derive(Clone, Copy, Debug, PartialEq, Eq)]
pub enum Force {
    /// The greatest published version.
    Auto,
    /// This version.
    Exactly(u64),
}

/// What a line asks for.
#[derive(Debug, Drop)]
pub enum LineCommand {
    /// Put a document.
    Put(Doc),
    /// Delete the document of a key.
    Delete(Key),
    /// Drop every document that has the word.
    Drop(Word),
    /// Publish what was accepted.
    Publish,
    /// Copy the newest point to the node.
    Copy(NodeNo),
    /// Copy the newest point to every running replica.
    Settle,
    /// Search at the node's present point.
    Search(NodeNo, Query),
    /// Open a ticket at the node's present point.
    Open(NodeNo, TicketNo),
    /// Search at the ticket's point.
    Ask(TicketNo, Query),
    /// Close the ticket.
    Close(TicketNo),
    /// Commit the node's present point.
    Commit(NodeNo),
    /// Crash the node; the number picks what its disk keeps.
    Crash(NodeNo, u64),
    /// Reopen the node, as a replica.
    Reopen(NodeNo),
    /// Promote the node.
    Promote(NodeNo, Force),
    /// Start a merge of so many neighbours.
    Merge(u32),
    /// Do at most so many tasks.
    Drain(u32),
    /// List the node's directory.
    Files(NodeNo),
    /// Plan a fault at the node.
    Fault(NodeNo, FaultPlan),
}

/// A line of a lane.
#[derive(Debug, Drop)]
pub struct Line {
    pub at: At,
    pub command: LineCommand,
}

/// What the lanes do at the same time: the lines of each lane, in order.
#[derive(Debug, Drop)]
pub struct Phase {
    pub lanes: List<(LaneNo, List<Line>)>,
}

/// A script: how many nodes and workers there are, whether operations are logged, and its phases in order.
#[derive(Debug, Drop)]
pub struct Script {
    pub nodes: u8,
    pub workers: u8,
    /// Whether accepted operations are logged, so that a promotion accepts again what its point lacks.
    pub log: bool,
    pub phases: List<Phase>,
}
