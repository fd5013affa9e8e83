//! The entry of a term, found by halving.

ghost use Rattle.std.specs.Prelude.{◌≡◌, ◌<◌, ◌∷◌, List, length, MatchOption};
ghost use Rattle.postings_plain.specs.declared.format.Format.{Format};
ghost use Rattle.postings_plain.specs.Postings.{Entry, field_of as field_in, term_of as term_in, IsFileEntry, entry};
ghost use Rattle.postings_plain.specs.Body.{heading_of, heading_order, SpellsPostings};
ghost use Rattle.postings_plain.specs.Reading.{IsEntry, HasNoHeading, HasHeadingAt, at_place};

use crate::entries::{field_of, term_of};
use body_forms::{item_at, item_count};
use std::cmp::Ordering;

/// Lends the field and the term of an entry.
pub fn heading_in(item: &[u8]) -> (u8, &[u8])
    requires { (format : Format) × IsEntry format item.now }
    ensures field { (format : Format) (e : Entry) → IsFileEntry format e → item.now ≡ entry format e
        → result.0 ≡ field_in e }
    ensures term { (format : Format) (e : Entry) → IsFileEntry format e → item.now ≡ entry format e
        → result.1.now ≡ term_in e }
{
    match field_of(item) {
        Some((field, rest)) => match term_of(rest) {
            Some((term, _)) => (field, term),
            None => unreachable!(),
        },
        None => unreachable!(),
    }
}

/// The order of two headings: by field, then by the bytes of the term.
pub fn compare_headings(field: u8, term: &[u8], other: u8, other_term: &[u8]) -> Ordering
    ensures { result ≡ heading_order (field ∷ term.now) (other ∷ other_term.now) }
{
    match field.cmp(&other) {
        Ordering::Equal => term.cmp(other_term),
        Ordering::Less => Ordering::Less,
        Ordering::Greater => Ordering::Greater,
    }
}

// The order of the heading at a place and another one.
fn compare_at(body: &[u8], place: u32, field: u8, term: &[u8]) -> Ordering
    requires { (format : Format) × (es : List Entry) × SpellsPostings format body.now es
        × (place < length es) }
    ensures { (format : Format) (es : List Entry) → SpellsPostings format body.now es
        → result ≡ heading_order (heading_of (at_place es place)) (field ∷ term.now) }
{
    let (other, other_term) = heading_in(item_at(body, place));
    compare_headings(other, other_term, field, term)
}

/// The place of the entry of this field and this term.
pub fn find(body: &[u8], field: u8, term: &[u8]) -> Option<u32>
    requires { (format : Format) × (es : List Entry) × SpellsPostings format body.now es }
    ensures { (format : Format) (es : List Entry) → SpellsPostings format body.now es
        → MatchOption result (HasNoHeading es (field ∷ term.now))
        (HasHeadingAt es (field ∷ term.now)) }
{
    let mut low = 0;
    let mut high = item_count(body);
    while low < high {
        let middle = low + (high - low) / 2;
        match compare_at(body, middle, field, term) {
            Ordering::Equal => return Some(middle),
            Ordering::Less => low = middle + 1,
            Ordering::Greater => high = middle,
        }
    }
    None
}
