//! Words of a line that are numbers.

ghost use Rattle.std.specs.Prelude.{◌≡◌};
ghost use Rattle.report_reading.specs.Cuts.{later_words};
ghost use Rattle.report_reading.specs.Readings.{node_fitting, ticket_fitting, count_fitting, node_word as node_word_lem, ticket_word as ticket_word_lem, count_word as count_word_lem, one_number as one_number_lem, two_numbers as two_numbers_lem, three_numbers as three_numbers_lem, node_first as node_first_lem, node_version as node_version_lem, node_ticket_version as node_ticket_version_lem, node_count as node_count_lem, node_counts as node_counts_lem};

use crate::cuts::{is_last, next_word};
use nrt_base::{NodeNo, TicketNo, Version};
use script_text::number_u64;

/// A node of 8 bits.
pub fn node(n: u64) -> Option<NodeNo>
    ensures { result ≡ node_fitting n }
{
    if n < 256 { Some(NodeNo(n as u8)) } else { None }
}

/// A ticket of 16 bits.
pub fn ticket(n: u64) -> Option<TicketNo>
    ensures { result ≡ ticket_fitting n }
{
    if n < 65536 {
        Some(TicketNo(n as u16))
    } else {
        None
    }
}

/// A count of 32 bits.
pub fn count(n: u64) -> Option<u32>
    ensures { result ≡ count_fitting n }
{
    if n < 4_294_967_296 {
        Some(n as u32)
    } else {
        None
    }
}

/// The node that a word is.
pub fn node_word(word: &[u8]) -> Option<NodeNo>
    ensures { result ≡ node_word_lem word.now }
{
    node(number_u64(word)?)
}

/// The ticket that a word is.
pub fn ticket_word(word: &[u8]) -> Option<TicketNo>
    ensures { result ≡ ticket_word_lem word.now }
{
    ticket(number_u64(word)?)
}

/// The count that a word is.
pub fn count_word(word: &[u8]) -> Option<u32>
    ensures { result ≡ count_word_lem word.now }
{
    count(number_u64(word)?)
}

/// The one number that is left.
pub fn one_number(text: &[u8]) -> Option<u64>
    ensures { result ≡ one_number_lem (later_words text.now) }
{
    let (word, rest) = next_word(text)?;
    if is_last(rest) {
        number_u64(word)
    } else {
        None
    }
}

/// The two numbers that are left.
pub fn two_numbers(text: &[u8]) -> Option<(u64, u64)>
    ensures { result ≡ two_numbers_lem (later_words text.now) }
{
    let (word, rest) = next_word(text)?;
    let first = number_u64(word)?;
    Some((first, one_number(rest)?))
}

/// The three numbers that are left.
pub fn three_numbers(text: &[u8]) -> Option<(u64, u64, u64)>
    ensures { result ≡ three_numbers_lem (later_words text.now) }
{
    let (word, rest) = next_word(text)?;
    let first = number_u64(word)?;
    let others = two_numbers(rest)?;
    Some((first, others.0, others.1))
}

/// A node and a number, which are left.
pub fn node_first(text: &[u8]) -> Option<(NodeNo, u64)>
    ensures { result ≡ node_first_lem (later_words text.now) }
{
    let numbers = two_numbers(text)?;
    Some((node(numbers.0)?, numbers.1))
}

/// A node and a version, which are left.
pub fn node_version(text: &[u8]) -> Option<(NodeNo, Version)>
    ensures { result ≡ node_version_lem (later_words text.now) }
{
    let numbers = node_first(text)?;
    Some((numbers.0, Version(numbers.1)))
}

/// A node, a ticket and a version, which are left.
pub fn node_ticket_version(text: &[u8]) -> Option<(NodeNo, TicketNo, Version)>
    ensures { result ≡ node_ticket_version_lem (later_words text.now) }
{
    let numbers = three_numbers(text)?;
    let n = node(numbers.0)?;
    Some((n, ticket(numbers.1)?, Version(numbers.2)))
}

/// A node and a count, which are left.
pub fn node_count(text: &[u8]) -> Option<(NodeNo, u32)>
    ensures { result ≡ node_count_lem (later_words text.now) }
{
    let numbers = node_first(text)?;
    Some((numbers.0, count(numbers.1)?))
}

/// A node and two counts, which are left.
pub fn node_counts(text: &[u8]) -> Option<(NodeNo, u32, u32)>
    ensures { result ≡ node_counts_lem (later_words text.now) }
{
    let numbers = three_numbers(text)?;
    let n = node(numbers.0)?;
    let first = count(numbers.1)?;
    Some((n, first, count(numbers.2)?))
}
