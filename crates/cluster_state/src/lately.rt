//! Whether a line is a merge, by a walk back over the entries.

ghost use Rattle.std.specs.Prelude.{◌≡◌, ◌∷◌, List, reverse, unwrap_or};
ghost use Rattle.history_rules.specs.declared.entry.Entry.{Entry};
ghost use Rattle.history_rules.specs.Lines.{last_of_line};
ghost use Rattle.history_rules.specs.Rules.{is_merging};
ghost use Rattle.history_book.specs.Log.{printed};

use history_book::Book;
use history_facts::same_at;
use history_rules::{Entry, Event};
use nrt_base::At;

// Whether an entry shows that a line is a merge, where it is one of the line and no fault.
fn merges_by(at: At, entry: &Entry) -> Option<bool>
    ensures { (past : List Entry) → is_merging (last_of_line at (entry.now ∷ past))
        ≡ unwrap_or result (is_merging (last_of_line at past)) }
{
    if !same_at(entry.at, at) {
        return None;
    }
    match &entry.event {
        Event::Fault { .. } => None,
        Event::Merging { .. } => Some(true),
        _ => Some(false),
    }
}

// Whether a line is a merge.
fn merges(at: At, entries: &[Entry]) -> bool
    ensures { result ≡ is_merging (last_of_line at (reverse entries.now)) }
{
    let mut left = entries;
    while let Some((entry, front)) = left.split_last() {
        match merges_by(at, entry) {
            Some(starts) => return starts,
            None => left = front,
        }
    }
    false
}

/// Whether a line is a merge: its newest entry that is no fault starts one.
pub fn is_merge_line(book: &Book, at: At) -> bool
    ensures { result ≡ is_merging (last_of_line at (printed book.now.log)) }
{
    merges(at, book.entries())
}
