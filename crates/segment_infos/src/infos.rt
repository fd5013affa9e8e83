//! Infos: what the segments of a point are.

use file_names::{Gen, List, NoMemory, SegNo, Share, Version};
use std::alloc::Global;

/// A segment of a point.
#[derive(Clone, Copy, Debug, PartialEq, Eq)]
pub struct SegRecord {
    pub seg: SegNo,
    /// How many rows it has.
    pub rows: u32,
    /// The generation of its live file, from 1, or 0 where it has none and all rows are live.
    pub live_gen: u64,
    /// How many of its rows are live.
    pub live: u32,
}

impl Share for SegRecord {
    fn share(&self, _alloc: Global) -> Result<Self, NoMemory> {
        Ok(*self)
    }
}

/// The infos of a point: what its segments are.
#[derive(Debug, Drop)]
pub struct Infos {
    /// The generation of the primary that made it.
    pub generation: Gen,
    pub version: Version,
    /// How many segment names the generation has drawn.
    pub counter: u32,
    /// The segments, no two of which have one number.
    pub segs: List<SegRecord>,
}

impl Share for Infos {
    fn share(&self, alloc: Global) -> Result<Self, NoMemory> {
        Ok(Infos {
            generation: self.generation,
            version: self.version,
            counter: self.counter,
            segs: self.segs.share(alloc)?,
        })
    }
}
