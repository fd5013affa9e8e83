//! Which bytes are the body of postings.

ghost use Rattle.std.specs.Prelude.{◌↔◌, IsTrue, ◌<◌, ◌+◌, ℕ, List, length, MatchOption};
ghost use Rattle.body_forms.specs.ItemTable.{IsItemTable};
ghost use Rattle.postings_plain.specs.declared.format.Format.{Format};
ghost use Rattle.postings_plain.specs.Postings.{Entry};
ghost use Rattle.postings_plain.specs.Body.{IsBefore, SpellsPostings, IsRowCount};
ghost use Rattle.postings_plain.specs.Reading.{IsEntry, AreEntries, IsEntryUpTo, entry_of};

use crate::entries::skip_entry;
use crate::find::{compare_headings, heading_in};
use crate::format::Format;
use body_forms::{is_item_table, item_at, item_count};

// One above the greatest row of the entry that the bytes are.
fn entry_end(format: Format, item: &[u8]) -> Option<u64>
    ensures { MatchOption result (IsEntry format item.now → ⊥) (IsEntryUpTo format item.now) }
{
    let (end, rest) = skip_entry(format, item)?;
    if rest.is_empty() { Some(end) } else { None }
}

// Whether the entry at a place stands before the next one, by field and by the bytes of the term.
fn is_below_next(body: &[u8], place: u32) -> bool
    requires table { (format : Format) × (items : List (List ℕ)) × IsItemTable body.now items
        × AreEntries format items × (place + 1 < length items) }
    ensures { (format : Format) (items : List (List ℕ)) → IsItemTable body.now items
        → AreEntries format items
        → IsTrue result
        ↔ IsBefore (entry_of format items place) (entry_of format items (place + 1)) }
{
    let (field, term) = heading_in(item_at(body, place));
    let (next_field, next_term) = heading_in(item_at(body, place + 1));
    compare_headings(field, term, next_field, next_term).is_lt()
}

/// How many rows the bytes speak of, where they are the body of postings in this format: one above the greatest.
pub fn row_count(format: Format, body: &[u8]) -> Option<u64>
    ensures { MatchOption result ((es : List Entry) → SpellsPostings format body.now es → ⊥)
        (λ rows. (es : List Entry) × SpellsPostings format body.now es × IsRowCount es rows) }
{
    if !is_item_table(body) {
        return None;
    }
    let count = item_count(body);
    if count == 0 {
        return None;
    }
    let mut rows: u64 = 0;
    for place in 0..count {
        let end = entry_end(format, item_at(body, place))?;
        rows = rows.max(end);
    }
    for low in 0..count - 1 {
        if !is_below_next(body, low) {
            return None;
        }
    }
    Some(rows)
}
