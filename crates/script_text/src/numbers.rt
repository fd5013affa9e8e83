//! Numbers in a script, read from their decimal digits.

ghost use Rattle.std.specs.Prelude.{◌≡◌, ◌≤◌, ◌^◌, ℕ, IsTrue, MatchOption};
ghost use Rattle.std.specs.List.{list_all};
ghost use Rattle.script_text.specs.Refused.{is_digit as is_digit_lem, is_digits as is_digits_lem, is_number as is_number_lem, value_of};
ghost use Rattle.script_text.specs.Reading.{number_within, node_named, ticket_named, force_named, lane_named};

use crate::words::is_word;
use nrt_base::{LaneNo, NodeNo, TicketNo};
use script_serving::Force;

fn is_digit(byte: u8) -> bool
    ensures { result ≡ is_digit_lem byte }
{
    matches!(byte, b'0'..=b'9')
}

fn are_digits(word: &[u8]) -> bool
    ensures { result ≡ list_all is_digit_lem word.now }
{
    word.iter().all(|b| is_digit(*b))
}

/// Whether a word has digits alone.
pub fn is_digits(word: &[u8]) -> bool
    ensures { result ≡ is_digits_lem word.now }
{
    !word.is_empty() && are_digits(word)
}

/// Whether a word is a number: decimal digits without a leading zero.
fn is_number(word: &[u8]) -> bool
    ensures { result ≡ is_number_lem word.now }
{
    match word {
        [] => false,
        [digit] => is_digit(*digit),
        [first, ..] => *first != b'0' && are_digits(word),
    }
}

/// The number that decimal digits spell, where it is below 2^64.
fn value(digits: &[u8]) -> Option<u64>
    ensures { MatchOption result (2 ^ 64 ≤ value_of digits.now) (λ n. n ≡ value_of digits.now) }
{
    let mut value = 0u64;
    for digit in digits {
        let tens = value.checked_mul(10)?;
        value = tens.checked_add(u64::from(digit.saturating_sub(b'0')))?;
    }
    Some(value)
}

/// The number that a word is, where it is one in the range.
fn number(low: u64, high: u64, word: &[u8]) -> Option<u64>
    ensures { result ≡ number_within low high word.now }
{
    if !is_number(word) {
        return None;
    }
    let value = value(word)?;
    if low <= value && value <= high {
        Some(value)
    } else {
        None
    }
}

/// The number of 32 bits that a word is, where it is one in the range.
pub fn number_u32(low: u32, high: u32, word: &[u8]) -> Option<u32>
    ensures { result ≡ number_within low high word.now }
{
    Some(number(u64::from(low), u64::from(high), word)? as u32)
}

/// The number of 64 bits that a word is.
pub fn number_u64(word: &[u8]) -> Option<u64>
    ensures { result ≡ number_within 0 18446744073709551615 word.now }
{
    number(0, u64::MAX, word)
}

/// The number of eight bits that a word is, where it is one in the range.
pub fn number_u8(low: u8, high: u8, word: &[u8]) -> Option<u8>
    ensures { result ≡ number_within low high word.now }
{
    Some(number(u64::from(low), u64::from(high), word)? as u8)
}

/// The node that a word names, where there are so many nodes.
pub fn node(nodes: u8, word: &[u8]) -> Option<NodeNo>
    ensures { result ≡ node_named nodes word.now }
{
    Some(NodeNo(number_u8(1, nodes, word)?))
}

/// The lane that a word names.
pub fn lane(word: &[u8]) -> Option<LaneNo>
    ensures { result ≡ lane_named word.now }
{
    Some(LaneNo(number_u8(1, 8, word)?))
}

/// The ticket that a word names.
pub fn ticket(word: &[u8]) -> Option<TicketNo>
    ensures { result ≡ ticket_named word.now }
{
    Some(TicketNo(number_u32(1, 9999, word)? as u16))
}

/// The forced version that a word names.
pub fn force(word: &[u8]) -> Option<Force>
    ensures { result ≡ force_named word.now }
{
    if is_word(b"auto", word) {
        return Some(Force::Auto);
    }
    Some(Force::Exactly(number_u64(word)?))
}
