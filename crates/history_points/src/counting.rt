//! How many operations a point has.

ghost use Rattle.std.specs.Prelude.{◌≡◌, ◌∷◌, ℕ, true, false, reverse, length, MatchOption};
ghost use Rattle.history_rules.specs.Nodes.{Past, is_point, accepted_count};
ghost use Rattle.history_rules.specs.Points.{operations_at};
ghost use Rattle.history_rules.specs.Legal.{IsLegal, KeepsRule};

use history_facts::{is_point, operation_count};
use history_rules::{Entry, Event, History};
use nrt_base::Version;

/// The number of the operation that was accepted last, or 0, after one more entry.
fn accepted_after(last: u32, entry: &Entry) -> u32
    ensures { (size : ℕ) (past : Past) → last ≡ accepted_count past
        → KeepsRule size past entry.now.at entry.now.event
        → result ≡ accepted_count (entry.now ∷ past) }
{
    match &entry.event {
        Event::Accepted { seq, .. } => *seq,
        _ => last,
    }
}

/// How many operations were accepted.
fn accepted(h: &History) -> u32
    requires { IsLegal h.now }
    ensures { result ≡ accepted_count (reverse h.now.entries) }
{
    let mut last = 0;
    for entry in h.entries.as_slice() {
        last = accepted_after(last, entry);
    }
    last
}

/// How many operations the point of a version has. None comes exactly where no point has the version.
pub fn operations(h: &History, v: Version) -> Option<u32>
    requires { IsLegal h.now }
    ensures { MatchOption result (is_point v.0 (reverse h.now.entries) ≡ false)
        (λ count. (is_point v.0 (reverse h.now.entries) ≡ true)
        × (count ≡ length (operations_at (reverse h.now.entries) v.0))) }
{
    if !is_point(v, h.entries.as_slice()) {
        return None;
    }
    let _accepted = accepted(h);
    Some(operation_count(h.entries.as_slice(), v) as u32)
}
