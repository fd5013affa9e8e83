//! The rows of a word and of a phrase in a window of 64 rows, as bits.

ghost use Rattle.std.specs.Prelude.{◌<◌};
ghost use Rattle.query_eval.specs.Phrases.{phrase_in, phrase_times};
ghost use Rattle.query_eval.specs.Rows.{has_row_at, times_at};
ghost use Rattle.query_eval.specs.Windows.{AddsAt, HasMarked, MarksRow, SetsBit};

use crate::phrase::{PhraseWord, align, count_here};
use crate::word::WordRows;

// Sets a bit.
fn set_bit(marks: &mut u64, place: u32)
    requires { place < 64 }
    ensures { SetsBit place marks.old marks.new }
{
    *marks |= 1u64 << place;
}

// Adds to the number at a place.
fn add_at(times: &mut [u32; 64], place: u32, count: u32)
    requires { place < 64 }
    ensures { AddsAt place count times.old times.new }
{
    times[place as usize] = times[place as usize].saturating_add(count);
}

// Marks the row at a place in which something stands so often, and adds it; nothing where it does not stand there.
fn mark_row(marks: &mut u64, times: &mut [u32; 64], place: u32, count: u32)
    requires { place < 64 }
    ensures { MarksRow place count marks.old marks.new times.old times.new }
{
    if count > 0 {
        set_bit(marks, place);
        add_at(times, place, count);
    }
}

/// Marks the rows of a word in the window that begins at a row, and passes them.
pub fn mark_word(word: &mut WordRows<'_>, start: u32, times: &mut [u32; 64]) -> u64
    ensures { HasMarked (has_row_at word.old) (has_row_at word.new)
        (times_at word.old) (times_at word.new) start result times.old times.new }
{
    let mut marks = 0;
    word.next_from(start);
    'rows: while let Some((row, count)) = word.take_within(start) {
        let place = row - start;
        set_bit(&mut marks, place);
        add_at(times, place, count);
    }
    marks
}

/// Marks the rows in which a phrase stands in the window that begins at a row, and passes them.
pub fn mark_phrase(words: &mut [PhraseWord<'_>], start: u32, times: &mut [u32; 64]) -> u64
    ensures { HasMarked (phrase_in words.old) (phrase_in words.new)
        (phrase_times words.old) (phrase_times words.new) start result times.old times.new }
{
    let mut marks = 0;
    let mut row = start;
    'aligned: while let Some(found) = align(words, row) {
        let place = found - start;
        if place >= 64 {
            return marks;
        }
        let count = count_here(words);
        mark_row(&mut marks, times, place, count);
        match found.checked_add(1) {
            Some(next) => row = next,
            None => return marks,
        }
    }
    marks
}
