//! How many statements stand before one, and how many of them promote.

ghost use Rattle.std.specs.Prelude.{◌≡◌, ◌+◌, ◌<◌, ◌^◌};
ghost use Rattle.script_text.specs.Grammar.{words_in, is_promotion as is_promotion_lem};
ghost use Rattle.script_text.specs.Refused.{counted_with, has_room as has_room_lem};
ghost use Rattle.script_text.specs.Reading.{headers_counted};

use crate::lines::Statement;
use crate::words::{first_words, is_word};

/// The most statements of a script.
const MOST_STATEMENTS: u32 = 200_000;

/// The most statements of a script with a log.
const MOST_LOGGED: u32 = 10_000;

/// The most promotions of a script with a log.
const MOST_PROMOTIONS: u32 = 64;

/// The statements before one.
#[derive(Clone, Copy)]
pub struct Counted {
    pub statements: u32,
    /// How many of them promote.
    pub promotions: u32,
}

/// Whether a line promotes: its second word says so.
fn is_promotion(line: &[u8]) -> bool
    ensures { result ≡ is_promotion_lem (words_in line.now) }
{
    is_word(b"promote", first_words(line).second)
}

impl Counted {
    /// So many headers.
    pub fn headers(number: u32) -> Counted
        ensures { result ≡ headers_counted number }
    {
        Counted {
            statements: number,
            promotions: 0,
        }
    }

    /// Whether a line is none too many behind these statements, in a script with a log or without.
    pub fn has_room(self, log: bool, line: &[u8]) -> bool
        ensures { result ≡ has_room_lem log self (words_in line.now) }
    {
        let most = if log { MOST_LOGGED } else { MOST_STATEMENTS };
        self.statements < most && (!log || self.promotions < MOST_PROMOTIONS || !is_promotion(line))
    }

    /// These statements and one more.
    pub fn with(self, statement: Statement<'_>) -> Counted
        requires statements { self.statements + 1 < 2 ^ 32 }
        requires promotions { self.promotions + 1 < 2 ^ 32 }
        ensures { result ≡ counted_with self
            (record { number = statement.entry.number; line = statement.entry.line.now }) }
    {
        let promotions = if is_promotion(statement.line) {
            self.promotions + 1
        } else {
            self.promotions
        };
        Counted {
            statements: self.statements + 1,
            promotions,
        }
    }
}
