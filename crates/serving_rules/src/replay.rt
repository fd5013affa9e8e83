//! Whether entries begin with a replay.

ghost use Rattle.std.specs.Prelude.{◌≡◌, ◌↔◌, IsTrue};
ghost use Rattle.history_rules.specs.Lines.{same_at};
ghost use Rattle.serving_rules.specs.Replay.{IsAcceptance, IsAcceptanceOf, Accepts, AcceptsAgain, BeginsWithReplay};

use documents::Op;
use history_rules::{Entry, Event};
use nrt_base::At;

// Whether the two are one line of the script.
fn is_at(entry: &Entry, at: At) -> bool
    ensures { result ≡ same_at entry.now.at at }
{
    entry.at.lane.0 == at.lane.0 && entry.at.line.0 == at.line.0
}

// Whether the two are one operation.
fn is_same(a: &Op, b: &Op) -> bool
    ensures { IsTrue result ↔ (a.now ≡ b.now) }
{
    match (a, b) {
        (Op::Put(a), Op::Put(b)) => {
            a.key.as_slice() == b.key.as_slice() && a.text.as_slice() == b.text.as_slice()
        }
        (Op::Delete(a), Op::Delete(b)) => a.as_slice() == b.as_slice(),
        (Op::Drop(a), Op::Drop(b)) => a.as_slice() == b.as_slice(),
        _ => false,
    }
}

// Whether the event accepts an operation.
fn is_acceptance(event: &Event) -> bool
    ensures { IsTrue result ↔ IsAcceptance event.now }
{
    matches!(event, Event::Accepted { .. })
}

// Whether the event accepts this operation.
fn is_acceptance_of(op: &Op, event: &Event) -> bool
    ensures { IsTrue result ↔ IsAcceptanceOf op.now event.now }
{
    match event {
        Event::Accepted { op: again, .. } => is_same(again, op),
        _ => false,
    }
}

// Whether the entry accepts an operation for the line.
fn accepts(at: At, entry: &Entry) -> bool
    ensures { IsTrue result ↔ Accepts at entry.now }
{
    is_at(entry, at) && is_acceptance(&entry.event)
}

// Whether the entry accepts this operation for the line.
fn accepts_again(at: At, op: &Op, entry: &Entry) -> bool
    ensures { IsTrue result ↔ AcceptsAgain at op.now entry.now }
{
    is_at(entry, at) && is_acceptance_of(op, &entry.event)
}

/// Whether the entries behind a promotion begin with a replay of these operations: the line accepts each of them again, in
/// order, and then none.
pub fn begins_with_replay(at: At, ops: &[Op], entries: &[Entry]) -> bool
    ensures { IsTrue result ↔ BeginsWithReplay at ops.now entries.now }
{
    let mut rest = entries;
    for op in ops {
        let Some((entry, others)) = rest.split_first() else {
            return false;
        };
        if !accepts_again(at, op, entry) {
            return false;
        }
        rest = others;
    }
    match rest.first() {
        Some(entry) => !accepts(at, entry),
        None => true,
    }
}
