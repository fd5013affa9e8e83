//! The hits of a term, read as they are asked for.

ghost use Rattle.std.specs.Prelude.{◌≡◌, ◌<◌, ◌^◌, length, IfSome, IfNone, All};
ghost use Rattle.std.specs.Ordering.{nat_cmp};
ghost use Rattle.std.specs.List.Sorted.{IsStrictlySortedBy};
ghost use Rattle.postings_plain.specs.Postings.{row_of, Entry, IsFileEntry, entry, hits_of};
ghost use Rattle.postings_plain.specs.Rows.{from_row, first_row, first_positions, first_hit, after_first, IsLeastFrom};
ghost use Rattle.postings_plain.specs.Reading.{IsEntry, rows_of_term_at, hits_or_none, AreHits};

use crate::blocks::{BlockStart, skip_skips, skips_of_rows};
use crate::entries::{count_hit, field_of, skip_hit, term_of};
use crate::format::Format;
use crate::positions::Positions;
use body_forms::{difference_of, positive_of};
use std::marker::Model;

/// The hits of a term that were not passed yet, seen as the list of them: each is a row and the positions in it. They are
/// lent from the file's bytes.
#[derive(Drop)]
pub struct Postings<'a> {
    field: u8,
    // The least row that may come next, how many hits are left, and the bytes that begin with them.
    least: u64,
    count: u32,
    rest: &'a [u8],
    // The next block, where the hits are in blocks.
    next: BlockStart<'a>,
}

impl<'a> Model for Postings<'a> {
    ghost use Rattle.std.specs.Prelude.{List, ◌≤◌, ◌^◌};
    ghost use Rattle.postings_plain.specs.Postings.{Hit};
    ghost use Rattle.postings_plain.specs.Reading.{counted_from_at, hits_or_none, AreHits};
    ghost use Rattle.postings_plain.specs.Blocks.{IsAhead};

    ghost Value = { List Hit };

    ghost view = { λ a. hits_or_none (counted_from_at a.field a.count a.least a.rest.now) };

    ghost invariant = { λ a. (a.least ≤ 2 ^ 32) × AreHits (counted_from_at a.field a.count a.least a.rest.now)
        × IsAhead a.field (hits_or_none (counted_from_at a.field a.count a.least a.rest.now))
        a.next };
}

impl<'a> Postings<'a> {
    /// The hits of an entry.
    pub(crate) fn of_entry(format: Format, item: &'a [u8]) -> Postings<'a>
        requires { IsEntry format item.now }
        ensures { (e : Entry) → IsFileEntry format e → item.now ≡ entry format e
            → result ≡ hits_of e }
    {
        match field_of(item) {
            Some((field, rest)) => match term_of(rest) {
                Some((_, rest)) => match positive_of(rest) {
                    Some((count, rest)) => Postings::counted(format, field, count, rest),
                    None => unreachable!(),
                },
                None => unreachable!(),
            },
            None => unreachable!(),
        }
    }

    // So many hits, whose skip entries the bytes begin with, and then the hits. The first block is still ahead.
    fn counted(format: Format, field: u8, count: u32, bytes: &'a [u8]) -> Postings<'a>
        requires { AreHits (rows_of_term_at format field count bytes.now) }
        ensures { result ≡ hits_or_none (rows_of_term_at format field count bytes.now) }
    {
        let blocks = skips_of_rows(format, count);
        match skip_skips(blocks, bytes) {
            Some(rows) => Postings {
                field,
                least: 0,
                count,
                rest: rows,
                next: BlockStart {
                    least: 0,
                    count: if blocks > 0 { count } else { 0 },
                    rest: rows,
                    skips: bytes,
                },
            },
            None => unreachable!(),
        }
    }

    /// Moves to the first row at or above this one, and says which it is. Rows that were passed do not come again: the rows
    /// below this one are passed, and the row that is found stays the first. A block that ends below the row is not read.
    pub fn next_from(&mut self, row: u32) -> Option<u32>
        ensures left { self.new ≡ from_row row self.old }
        ensures answer { result ≡ first_row (from_row row self.old) }
        ensures found { IfSome result (IsLeastFrom row self.old) }
        ensures none { IfNone result (All (λ h. row_of h < row) self.old) }
    {
        while self.count > 0 {
            if self.next.is_reached(self.count, row) {
                self.least = self.next.least;
                self.count = self.next.count;
                self.rest = self.next.rest;
                self.next = self.next.following();
                continue;
            }
            match skip_hit(self.field, self.least, self.rest) {
                Some((found, after)) => {
                    if found >= row {
                        return Some(found);
                    }
                    self.least = u64::from(found) + 1;
                    self.count -= 1;
                    self.rest = after;
                }
                None => unreachable!(),
            }
        }
        None
    }

    /// Takes the first hit that is left: says which row it is of and how many positions are in it, and passes it.
    #[inline(always)]
    pub fn next_hit(&mut self) -> Option<(u32, u32)>
        ensures answer { result ≡ first_hit self.old }
        ensures left { self.new ≡ after_first self.old }
        ensures above { IfSome result (λ hit. All (λ h. hit.0 < row_of h) self.new) }
    {
        while self.count > 0 {
            if self.next.is_reached(self.count, 0) {
                self.least = self.next.least;
                self.count = self.next.count;
                self.rest = self.next.rest;
                self.next = self.next.following();
                continue;
            }
            match count_hit(self.field, self.least, self.rest) {
                Some((row, count, after)) => {
                    self.least = u64::from(row) + 1;
                    self.count -= 1;
                    self.rest = after;
                    return Some((row, count));
                }
                None => unreachable!(),
            }
        }
        None
    }

    /// The positions of the word in the first row that is left: none where no row is left, and none for a key. They are lent
    /// from the file's bytes, and stay as the rows are passed.
    pub fn positions(&self) -> Positions<'a>
        ensures value { result ≡ first_positions self.now }
        ensures few { length result < 2 ^ 32 }
        ensures ascend { IsStrictlySortedBy nat_cmp result }
    {
        if self.count == 0 || self.field == 0 {
            return Positions::none(self.rest);
        }
        match difference_of(self.least, self.rest) {
            Some((_, after)) => Positions::counted(after),
            None => unreachable!(),
        }
    }
}
