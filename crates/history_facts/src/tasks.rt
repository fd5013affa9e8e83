//! The merges that a history shows, and the tasks that were done for them.

ghost use Rattle.std.specs.Prelude.{◌≡◌, ◌≤◌, ◌*◌, ◌^◌, reverse, length};
ghost use Rattle.history_rules.specs.Tasks.{merge_count, drained_count};

use history_rules::{Entry, Event};

/// How many merges were started.
pub fn merge_count(entries: &[Entry]) -> usize
    ensures count { result ≡ merge_count (reverse entries.now) }
    ensures few { result ≤ length entries.now }
{
    let mut count = 0;
    for entry in entries {
        if let Event::Merging { .. } = &entry.event {
            count += 1;
        }
    }
    count
}

/// How many tasks all drains together did.
pub fn drained_count(entries: &[Entry]) -> u128
    ensures count { result ≡ drained_count (reverse entries.now) }
    ensures few { result ≤ length entries.now * 2 ^ 32 }
{
    let mut count = 0;
    for entry in entries {
        if let Event::Drained { done, .. } = &entry.event {
            count += u128::from(*done);
        }
    }
    count
}
