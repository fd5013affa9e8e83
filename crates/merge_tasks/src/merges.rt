//! The merges in flight.

ghost use Rattle.std.specs.Prelude.{◌≡◌, ◌≢◌, ◌≤◌, ◌+◌, ◌==◌, None, length, not, vec_capacity, vec_len};
ghost use Rattle.std.specs.List.{filter};
ghost use Rattle.merge_tasks.specs.Merging.{line_of};

use nrt_base::{At, SegNo};
use std::alloc::{AllocError, Global};
use std::marker::Model;

/// A merge in flight: the segment that it makes, and its line.
#[derive(Clone, Copy, Debug, PartialEq, Eq)]
pub struct MergeRow {
    pub seg: SegNo,
    pub at: At,
}

/// The merges in flight, and whether one was cut over since the last point.
#[derive(Debug, Drop)]
pub struct Merges {
    rows: Vec<MergeRow>,
    cut: bool,
}

impl Model for Merges {
    ghost use Rattle.std.specs.Prelude.{vec_capacity, vec_len, ◌-◌};
    ghost use Rattle.merge_tasks.specs.Merging.{MergeTable};

    ghost Value = { MergeTable };

    ghost view = { λ m. record { rows = m.rows.items; cut = m.cut; room = vec_capacity m.rows - vec_len m.rows } };
}

fn without(rows: &mut Vec<MergeRow>, seg: SegNo)
    ensures capacity { vec_capacity rows.new ≡ vec_capacity rows.old }
    ensures length { vec_len rows.new ≤ vec_len rows.old }
    ensures rows { rows.new.items ≡ filter (λ r. not (r.seg.0 == seg.0)) rows.old.items }
{
    rows.retain(|row| !(row.seg.0 == seg.0));
}

#[tactic(auto, using(crate::proofs::MergeRowLemmas::fewer))]
fn without_there(rows: &mut Vec<MergeRow>, seg: SegNo)
    requires { line_of rows.old.items seg.0 ≢ None }
    ensures capacity { vec_capacity rows.new ≡ vec_capacity rows.old }
    ensures length { vec_len rows.new ≤ vec_len rows.old }
    ensures rows { rows.new.items ≡ filter (λ r. not (r.seg.0 == seg.0)) rows.old.items }
    ensures fewer { length rows.new.items + 1 ≤ length rows.old.items }
{
    without(rows, seg);
}

impl Merges {
    ghost use Rattle.std.specs.Prelude.{ℕ, ◌≡◌, ◌≤◌, ◌+◌, ◌==◌, ◌≢◌, ◌∷◌, [], true, false, Some, None, length, if◌then◌else◌, OnOk};
    ghost use Rattle.merge_tasks.specs.Merging.{line_of, cut_after};

    pub fn new(alloc: Global) -> Self
        ensures rows { result.rows ≡ [] }
        ensures cut { result.cut ≡ false }
    {
        Merges {
            rows: Vec::new(alloc),
            cut: false,
        }
    }

    /// The line of the merge in flight into a segment.
    pub fn get(&self, seg: SegNo) -> Option<At>
        ensures { result ≡ line_of self.now.rows seg.0 }
    {
        for row in self.rows.as_slice() {
            if row.seg.0 == seg.0 {
                return Some(row.at);
            }
        }
        None
    }

    /// Makes room for one more.
    pub fn reserve(&mut self) -> Result<(), AllocError>
        ensures rows { self.new.rows ≡ self.old.rows }
        ensures cut { self.new.cut ≡ self.old.cut }
        ensures room { OnOk result (1 ≤ self.new.room) }
    {
        self.rows.reserve(1)
    }

    /// One more merge is in flight, into a segment of which none is.
    #[tactic(auto, using(crate::proofs::MergeRowLemmas::line_last))]
    pub fn begin(&mut self, seg: SegNo, at: At)
        requires room { 1 ≤ self.old.room }
        requires fresh { line_of self.old.rows seg.0 ≡ None }
        ensures lines { (s : ℕ) → line_of self.new.rows s
            ≡ (if seg.0 == s then Some at else line_of self.old.rows s) }
        ensures count { length self.new.rows ≡ length self.old.rows + 1 }
        ensures cut { self.new.cut ≡ self.old.cut }
    {
        self.rows.push_reserved(MergeRow { seg, at });
    }

    /// A merge has ended, cut over or not.
    #[tactic(auto, using(crate::proofs::MergeRowLemmas::line_kept))]
    pub fn end(&mut self, seg: SegNo, cut: bool)
        requires { line_of self.old.rows seg.0 ≢ None }
        ensures lines { (s : ℕ) → line_of self.new.rows s
            ≡ (if seg.0 == s then None else line_of self.old.rows s) }
        ensures fewer { length self.new.rows + 1 ≤ length self.old.rows }
        ensures cut { self.new.cut ≡ cut_after cut self.old.cut }
        ensures room { self.old.room ≤ self.new.room }
    {
        without_there(&mut self.rows, seg);
        self.cut = self.cut || cut;
    }

    /// The cut-overs are published.
    pub fn publish(&mut self)
        ensures { self.new ≡ record self.old { cut = false } }
    {
        self.cut = false;
    }

    /// Whether a merge was cut over since the last point.
    pub fn has_cut(&self) -> bool
        ensures { result ≡ self.now.cut }
    {
        self.cut
    }

    /// The primary has crashed, so no merge is in flight.
    pub fn clear(&mut self)
        ensures rows { self.new.rows ≡ [] }
        ensures cut { self.new.cut ≡ false }
        ensures room { self.old.room ≤ self.new.room }
    {
        self.rows.clear();
        self.publish();
    }
}
