//! Why a line of a script is refused, and the kinds of faults.

use file_names::FileName;
use nrt_base::Version;

/// Why a line is refused.
#[derive(Debug, Drop)]
pub enum Cause {
    /// The node does not run.
    Down,
    /// The node is the running primary.
    Primary,
    /// No primary runs.
    NoPrimary,
    /// A primary runs.
    PrimaryUp,
    /// The forced version is below this one, the greatest published.
    ForceLow(Version),
    /// The lane has no such ticket.
    NoTicket,
    /// The line's node, or its source, has crashed since the line's start.
    Lost,
    /// A job for this version, above the line's, was started at the node since.
    Cancelled(Version),
    /// A planned fault of the link was met.
    LinkFault,
    /// A planned damage of this file was met.
    Damaged(FileName),
    /// A planned fault of a disk was met.
    DiskFault,
    /// There is nothing to publish, or nothing to merge. Its text is `none`.
    Nothing,
    /// The node runs.
    Up,
    /// The lane has that ticket.
    NameUsed,
    /// Every segment name of the generation was drawn.
    NamesSpent,
    /// There are as many segments as there may be.
    TooManySegments,
    /// The forced version is too great to be raised.
    ForceHigh,
}

/// What kind of fault is planned or met.
#[derive(Clone, Copy, Debug, PartialEq, Eq)]
pub enum FaultKind {
    /// A file that was begun fails.
    Link,
    /// A file that was begun is altered in one byte.
    Damage,
    /// One disk call fails.
    Disk,
    /// A disk call and all after it fail.
    Stop,
}

/// A fault to come at a node. The first number says which file or disk call from now on it is, from 1.
#[derive(Clone, Copy, Debug, PartialEq, Eq)]
pub enum FaultPlan {
    /// This file begun for the node fails.
    Link(u32),
    /// This file begun for the node is altered at the byte of the second number, modulo its length.
    Damage(u32, u32),
    /// This disk call of the node fails.
    Disk(u32),
    /// This disk call of the node and all after it fail, until a crash or a new plan of this kind.
    Stop(u32),
}
