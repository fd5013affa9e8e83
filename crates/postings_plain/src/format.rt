//! The formats of postings.

ghost use Rattle.std.specs.Prelude.{◌≡◌, ◌≤◌};
ghost use Rattle.postings_plain.specs.Postings.{format_number, format_for};

use crate::blocks::BLOCK_ROWS;

/// A format of postings. In the second, many rows of a term stand in blocks, and before them stands a skip entry for each
/// block.
#[derive(Clone, Copy, Debug, PartialEq, Eq)]
pub enum Format {
    One,
    Two,
}

impl Format {
    /// The format of a segment of so many rows: the second exactly where they are more than a block has.
    #[tactic(auto, unfolding(crate::specs::Postings::block_rows))]
    pub fn of_rows(rows: usize) -> Format
        ensures { result ≡ format_for rows }
    {
        if rows > BLOCK_ROWS as usize {
            Format::Two
        } else {
            Format::One
        }
    }

    /// The format of files of this version, where there is one.
    pub(crate) fn of_version(version: u32) -> Format
        ensures { (format : Format) → version ≡ format_number format → result ≡ format }
    {
        if version == 1 {
            Format::One
        } else {
            Format::Two
        }
    }

    /// Its number, which is the version of its files.
    pub fn number(self) -> u8
        ensures value { result ≡ format_number self }
        ensures first { 1 ≤ result }
        ensures last { result ≤ 2 }
    {
        match self {
            Format::One => 1,
            Format::Two => 2,
        }
    }
}
