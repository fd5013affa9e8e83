//! The names that an index gives its files: parts of segments, live rows, commits and temporary files.

ghost use Rattle.std.specs.Prelude.{◌≡◌, ◌+◌, ◌≤◌, ◌<◌, ◌^◌, ◌++◌, [], length, IsTrue};
ghost use Rattle.file_names.specs.Names.{is_file_name};
ghost use Rattle.file_names.specs.Names.{part_ending, part_name_of, live_name_of, commit_name_of, commit_number, is_commit_name, pending_name_of, pending_number, is_pending_name, temp_name_of};

use crate::names::{FileName, padded};
use crate::radix::base36;
use nrt_base::SegNo;
use std::marker::Model;

/// A part of a segment that has a file of its own and is written once.
#[derive(Clone, Copy, Debug, PartialEq, Eq)]
pub enum SegPart {
    /// Its stored documents.
    Docs,
    /// Its postings.
    Post,
    /// What it says of itself.
    Info,
}

// A name that grows.
#[derive(Drop)]
struct Draft {
    bytes: [u8; 64],
    len: usize,
}

impl Model for Draft {
    ghost use Rattle.std.specs.Prelude.{◌≡◌, ℕ, ◌≤◌, List, length, take};

    ghost Value = { List ℕ };

    ghost view = { λ a. take a.len a.bytes };

    ghost invariant = { λ a. (length a.bytes ≡ 64) × (a.len ≤ 64) };
}

impl Draft {
    fn new() -> Self
        ensures { result ≡ [] }
    {
        Draft {
            bytes: [0; 64],
            len: 0,
        }
    }

    fn push(&mut self, piece: &[u8])
        requires { length self.old + length piece.now ≤ 64 }
        ensures { self.new ≡ self.old ++ piece.now }
    {
        let end = self.len + piece.len();
        self.bytes[self.len..end].copy_from_slice(piece);
        self.len = end;
    }

    fn finish(self) -> FileName
        requires { IsTrue (is_file_name self) }
        ensures { result ≡ self }
    {
        padded(&self.bytes[..self.len])
    }
}

fn part_ending(part: SegPart) -> &'static [u8]
    ensures bytes { result.now ≡ part_ending part }
{
    match part {
        SegPart::Docs => b".docs",
        SegPart::Post => b".post",
        SegPart::Info => b".si",
    }
}

/// The name of a part of a segment: `_S.docs`, `_S.post` or `_S.si`, S the segment's number in base 36.
pub fn part_name(seg: SegNo, part: SegPart) -> FileName
    ensures name { result ≡ part_name_of seg.0 part }
    ensures len { length result ≤ 19 }
{
    let mut name = Draft::new();
    name.push(b"_");
    name.push(base36(seg.0).as_slice());
    name.push(part_ending(part));
    name.finish()
}

/// The name of a segment's live rows: `_S_G.liv`, S the segment's number and G their generation in base 36.
pub fn live_name(seg: SegNo, live_gen: u64) -> FileName
    ensures name { result ≡ live_name_of seg.0 live_gen }
    ensures len { length result ≤ 32 }
{
    let mut name = Draft::new();
    name.push(b"_");
    name.push(base36(seg.0).as_slice());
    name.push(b"_");
    name.push(base36(live_gen).as_slice());
    name.push(b".liv");
    name.finish()
}

/// The name of a commit: `segments_N`, N its number in base 36.
pub fn commit_name(n: u64) -> FileName
    ensures name { result ≡ commit_name_of n }
    ensures number { commit_number result ≡ n }
    ensures kind { 0 < n → n < 2 ^ 62 → IsTrue (is_commit_name result) }
{
    let mut name = Draft::new();
    name.push(b"segments_");
    name.push(base36(n).as_slice());
    name.finish()
}

/// The name of a commit in preparation: `pending_segments_N`, N its number in base 36.
pub fn pending_name(n: u64) -> FileName
    ensures name { result ≡ pending_name_of n }
    ensures number { pending_number result ≡ n }
    ensures kind { 0 < n → n < 2 ^ 62 → IsTrue (is_pending_name result) }
{
    let mut name = Draft::new();
    name.push(b"pending_segments_");
    name.push(base36(n).as_slice());
    name.finish()
}

/// The temporary name of a file in a job: `NAME_J.tmp`, J the job's number in base 36.
pub fn temp_name(name: &FileName, job: u64) -> FileName
    requires { length name.now ≤ 46 }
    ensures { result ≡ temp_name_of name.now job }
{
    let mut temp = Draft::new();
    temp.push(name.as_slice());
    temp.push(b"_");
    temp.push(base36(job).as_slice());
    temp.push(b".tmp");
    temp.finish()
}
