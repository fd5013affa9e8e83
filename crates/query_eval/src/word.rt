//! The rows that have a word, taken one by one.

ghost use Rattle.std.specs.Prelude.{◌≡◌, ◌+◌, ◌≤◌, IfOk, IfSome, IfNone};
ghost use Rattle.std.specs.List.{All};
ghost use Rattle.query_eval.specs.Rows.{RowsAscend, rows_of_hits, rows_from, first_row_of, TakesRow};

use nrt_base::NoMemory;
use postings_plain::Postings;
use std::alloc::Global;
use std::marker::Model;

/// The rows that have a word and were not passed, in order, each with how often the word stands in it. The first is read, and
/// those behind it are held apart, so that what holds this moves a few bytes.
#[derive(Drop)]
pub struct WordRows<'a> {
    first: Option<(u32, u32)>,
    behind: Box<Postings<'a>>,
}

impl<'a> Model for WordRows<'a> {
    ghost use Rattle.std.specs.Prelude.{List};
    ghost use Rattle.query_eval.specs.Rows.{WordRow, RowsAscend, with_first};

    ghost Value = { List WordRow };

    ghost view = { λ w. with_first w.first w.behind.value };

    ghost invariant = { λ w. RowsAscend (with_first w.first w.behind.value) };
}

impl<'a> WordRows<'a> {
    pub fn new(alloc: Global, hits: Postings<'a>) -> Result<WordRows<'a>, NoMemory>
        requires { RowsAscend (rows_of_hits hits) }
        ensures { IfOk result (λ rows. rows ≡ rows_of_hits hits.entry) }
    {
        let mut behind = Box::new(alloc, hits)?;
        let first = behind.next_hit();
        Ok(WordRows { first, behind })
    }

    // Passes the rows below this one.
    fn move_to(&mut self, row: u32)
        ensures { self.new ≡ rows_from row self.old }
    {
        match self.first {
            Some((first, _)) if first < row => {
                self.behind.next_from(row);
                self.first = self.behind.next_hit();
            }
            _ => {}
        }
    }

    /// Moves to the first row at or above this one, and says which it is.
    pub fn next_from(&mut self, row: u32) -> Option<u32>
        ensures left { self.new ≡ rows_from row self.old }
        ensures first { result ≡ first_row_of self.new }
        ensures above { All (λ r. row ≤ r.0) self.new }
        ensures ascend { RowsAscend self.new }
    {
        self.move_to(row);
        match self.first {
            Some((first, _)) => Some(first),
            None => None,
        }
    }

    /// Takes the first row out where it is below the end of the 64 rows that begin here, and says how often the word stands in it.
    pub fn take_within(&mut self, start: u32) -> Option<(u32, u32)>
        ensures taken { IfSome result (λ row. TakesRow row (start + 64) self.old self.new) }
        ensures same { IfNone result (self.new ≡ self.old) }
        ensures none { IfNone result (All (λ row. start + 64 ≤ row.0) self.old) }
    {
        match self.first {
            Some((row, times)) if u64::from(row) < u64::from(start) + 64 => {
                self.first = self.behind.next_hit();
                Some((row, times))
            }
            _ => None,
        }
    }
}
