//! A history: what happened in a run, entry by entry.

use crate::cause::{Cause, FaultKind, FaultPlan};
use documents::{Answer, Op, Query};
use file_names::FileName;
use nrt_base::{At, Gen, List, NodeNo, SegNo, TicketNo, Version};

/// What happened. `n` is a node, `t` a ticket, `v` a version.
#[derive(Debug, Drop)]
pub enum Event {
    /// The primary accepted an operation; `seq` counts them over the whole run, from 1.
    Accepted {
        seq: u32,
        op: Op,
    },
    /// A publish began.
    Publishing,
    /// A publish made the point of this version.
    Published {
        generation: Gen,
        v: Version,
    },
    /// A copy to the node began, when this version was the newest.
    Copying {
        n: NodeNo,
        v: Version,
    },
    /// The node searches this version from now on.
    Switched {
        n: NodeNo,
        v: Version,
    },
    /// A copy to the node ended, and this is the version that the node searches.
    Copied {
        n: NodeNo,
        v: Version,
    },
    /// A copy to every running replica began, when this version was the newest.
    Settling {
        v: Version,
    },
    /// Every replica that ran when it began, and has not crashed since, is at this version or above.
    Settled {
        v: Version,
    },
    /// A ticket of the lane was opened, or, with ticket 0, a search began.
    Opened {
        n: NodeNo,
        t: TicketNo,
        v: Version,
    },
    /// A search at a ticket of the lane began.
    Asking {
        n: NodeNo,
        t: TicketNo,
        v: Version,
    },
    /// A search was answered.
    Answered {
        n: NodeNo,
        t: TicketNo,
        v: Version,
        query: Query,
        answer: Answer,
    },
    /// A ticket of the lane was closed.
    Closed {
        n: NodeNo,
        t: TicketNo,
    },
    /// A commit of the version that the node searches began.
    Committing {
        n: NodeNo,
        v: Version,
    },
    /// A commit was acknowledged.
    Committed {
        n: NodeNo,
        v: Version,
    },
    /// The node crashed.
    Crashed {
        n: NodeNo,
    },
    /// The node runs again, as a replica, at this version.
    Reopened {
        n: NodeNo,
        v: Version,
    },
    /// The node is the primary of a new generation, whose first point has version `v`, one above `forced`.
    Promoted {
        n: NodeNo,
        generation: Gen,
        forced: Version,
        v: Version,
    },
    /// A merge into this segment began.
    Merging {
        seg: SegNo,
    },
    /// The line did this many tasks, of at most so many.
    Drained {
        done: u32,
        most: u32,
    },
    /// The names in the node's directory, in ascending order.
    Files {
        n: NodeNo,
        names: List<FileName>,
    },
    /// A fault was planned at the node.
    Planned {
        n: NodeNo,
        plan: FaultPlan,
    },
    /// A planned fault was met at the node.
    Fault {
        n: NodeNo,
        kind: FaultKind,
    },
    /// The line was refused.
    Refused {
        cause: Cause,
    },
}

/// What happened, and the line of the script that it belongs to.
#[derive(Debug, Drop)]
pub struct Entry {
    pub at: At,
    pub event: Event,
}

/// What happened in a run, in order.
#[derive(Debug, Drop)]
pub struct History {
    /// The nodes are 1 to this number.
    pub nodes: u8,
    pub entries: List<Entry>,
}
