//! What a replica answers where it is told of a point.

use nrt_base::{Gen, Version};

/// What a replica answers where it is told of a point.
#[derive(Clone, Copy, Debug, PartialEq, Eq)]
pub enum PointAnswer {
    /// The point is newer.
    Start,
    /// It is the one that is searched.
    Same(Version),
    /// It is older than the one that is searched, which has this version.
    Older(Version),
    /// Its generation is below this one, the greatest that was seen.
    OldGen(Gen),
}
