//! Numbers that count one thing each, as types of their own.

ghost use Rattle.std.specs.Prelude.{◌≡◌, ◌^◌, ◌≤◌, IfNone, IfSome};
ghost use Rattle.nrt_base.specs.SegNumbers.{segment_number, segment_generation, segment_place};

/// A generation of primaries, from 1.
#[derive(Clone, Copy, Debug, PartialEq, Eq, PartialOrd, Ord, Hash)]
pub struct Gen(pub u64);

/// A version of a point, from 1.
#[derive(Clone, Copy, Debug, PartialEq, Eq, PartialOrd, Ord, Hash)]
pub struct Version(pub u64);

/// The number of a segment: each generation numbers its own, from 0, behind those of the one before.
#[derive(Clone, Copy, Debug, PartialEq, Eq, PartialOrd, Ord, Hash)]
pub struct SegNo(pub u64);

impl SegNo {
    /// How many segments a generation can number.
    pub const OF_GENERATION: u64 = 1_679_616;

    /// The segment at this place of a generation, unless its number takes more than 64 bits.
    pub fn new(generation: Gen, place: u64) -> Option<SegNo>
        ensures some { IfSome result (λ seg. seg.0 ≡ segment_number generation.0 place) }
        ensures none { IfNone result (2 ^ 64 ≤ segment_number generation.0 place) }
    {
        let first = generation.0.checked_mul(SegNo::OF_GENERATION)?;
        let number = first.checked_add(place)?;
        Some(SegNo(number))
    }

    /// The generation that numbered it.
    pub fn generation(self) -> Gen
        ensures { result.0 ≡ segment_generation self.0 }
    {
        Gen(self.0 / SegNo::OF_GENERATION)
    }

    /// Its place in the generation, counted from 0.
    pub fn place(self) -> u64
        ensures { result ≡ segment_place self.0 }
    {
        self.0 % SegNo::OF_GENERATION
    }
}

/// A node, 1 to 16.
#[derive(Clone, Copy, Debug, PartialEq, Eq, PartialOrd, Ord, Hash)]
pub struct NodeNo(pub u8);

/// A lane of a script, 1 to 8.
#[derive(Clone, Copy, Debug, PartialEq, Eq, PartialOrd, Ord, Hash)]
pub struct LaneNo(pub u8);

/// A line of a script, from 1.
#[derive(Clone, Copy, Debug, PartialEq, Eq, PartialOrd, Ord, Hash)]
pub struct LineNo(pub u32);

/// A ticket's number in a script, 0 to 9999.
#[derive(Clone, Copy, Debug, PartialEq, Eq, PartialOrd, Ord, Hash)]
pub struct TicketNo(pub u16);

/// Where an entry of a history comes from: a line of a script, in its lane.
#[derive(Clone, Copy, Debug, PartialEq, Eq)]
pub struct At {
    pub lane: LaneNo,
    pub line: LineNo,
}
