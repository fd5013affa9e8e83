//! The merges in flight, by their segments.

ghost use Rattle.std.specs.Prelude.{◌≡◌, ◌≢◌, ◌∷◌, ◌==◌, ◌&&◌, None, Some, true, false, not, IfSome, IsSome, slice_get, length};
ghost use Rattle.std.specs.List.{filter, list_any};
ghost use Rattle.std.specs.Option.{option_map};
ghost use Rattle.merge_tasks.specs.Board.{open_merge, merge_at, spread_at, with_spread, without_merge, is_sent_in, without_sent, sent_less};

use crate::tasks::{OpenMerge, Sent, Spread};
use nrt_base::{NodeNo, SegNo};

/// The merge in flight into a segment.
pub(crate) fn merge_in(rows: &[OpenMerge], seg: SegNo) -> Option<&OpenMerge>
    ensures { option_map (λ r. r.now) result ≡ open_merge seg.0 rows.now }
{
    for row in rows {
        if row.seg.0 == seg.0 {
            return Some(row);
        }
    }
    None
}

/// Whether a copy to a node is among those that have not ended.
pub(crate) fn is_among(left: &[Sent], n: NodeNo, job: u64) -> bool
    ensures { result ≡ is_sent_in n.0 job left.now }
{
    left.iter().any(|s| s.node.0 == n.0 && s.job == job)
}

// The place of the merge into a segment, or the length.
fn place_of(rows: &[OpenMerge], seg: SegNo) -> usize
    ensures { result ≡ merge_at seg.0 rows.now }
{
    let mut i = 0;
    while i < rows.len() {
        if rows[i].seg.0 == seg.0 {
            return i;
        }
        i += 1;
    }
    i
}

/// The merge into a segment has these files written, or none.
#[tactic(auto, using(crate::proofs::BoardRows::place_inside))]
pub(crate) fn set_spread(rows: &mut Vec<OpenMerge>, seg: SegNo, spread: Option<Spread>)
    requires { open_merge seg.0 rows.old.items ≢ None }
    ensures { rows.new.items ≡ with_spread seg.0 spread rows.old.items }
{
    let at = place_of(rows.as_slice(), seg);
    rows[at].spread = spread;
}

/// Takes what was written of the merge into a segment, and leaves nothing of it.
#[tactic(auto, using(crate::proofs::BoardRows::place_inside))]
pub(crate) fn take_spread(rows: &mut Vec<OpenMerge>, seg: SegNo) -> Option<Spread>
    requires { open_merge seg.0 rows.old.items ≢ None }
    ensures spread { result ≡ spread_at (open_merge seg.0 rows.old.items) }
    ensures rows { rows.new.items ≡ with_spread seg.0 None rows.old.items }
{
    let at = place_of(rows.as_slice(), seg);
    rows[at].spread.take()
}

/// Leaves the merge into a segment out.
pub(crate) fn leave_out(rows: &mut Vec<OpenMerge>, seg: SegNo)
    ensures { rows.new.items ≡ without_merge seg.0 rows.old.items }
{
    rows.retain(|row| !(row.seg.0 == seg.0));
}

/// Leaves a copy to a node out.
pub(crate) fn leave_sent(left: &mut Vec<Sent>, n: NodeNo, job: u64)
    ensures { left.new.items ≡ without_sent n.0 job left.old.items }
{
    left.retain(|s| !(s.node.0 == n.0 && s.job == job));
}
