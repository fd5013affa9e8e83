//! Numbers in base 36, written as digits and read back.

ghost use Rattle.std.specs.Prelude.{◌≡◌, ◌^◌, ◌<◌, ◌↔◌, ℕ, [], position, IsErrOf, IsTrue, SomeIff};
ghost use Rattle.std.specs.List.{list_all};
ghost use Rattle.file_names.specs.Base36.{is_base36_digit, digit_value, base36_value, has_leading_zero, first_not_digit, base36_of, SpellsBase36, IsLedByZero, SpellsTooLarge};

use crate::numeral::Base36;
use thiserror::Error;

/// Why bytes are no number in base 36.
#[derive(Clone, Copy, Debug, PartialEq, Eq, Error)]
pub enum Base36Fault {
    /// There are none.
    #[error("a number in base 36 has no digit")]
    Empty,
    /// The first byte that is no digit stands at this place, from 0.
    #[error("a number in base 36 has the digits 0-9 and a-z alone, not so at offset {0}")]
    Digit(usize),
    /// A zero stands before other digits.
    #[error("a number in base 36 begins with a zero that it does not need")]
    LeadingZero,
    /// The number is above 2^64 - 1.
    #[error("a number in base 36 is above 18446744073709551615")]
    TooLarge,
}

/// The digits of a number in base 36, without leading zeros.
pub fn base36(n: u64) -> Base36
    ensures digits { result ≡ base36_of n }
    ensures spelled { SpellsBase36 result n }
{
    Base36::of(n)
}

/// The number that the bytes spell in base 36.
pub fn read_base36(bytes: &[u8]) -> Result<u64, Base36Fault>
    ensures number { (n : ℕ) → (result ≡ Ok n) ↔ (SpellsBase36 bytes.now n × (n < 2 ^ 64)) }
    ensures empty { IsErrOf result Base36Fault.Empty ↔ (bytes.now ≡ []) }
    ensures digit { (at : ℕ)
        → IsErrOf result (Base36Fault.Digit at) ↔ (first_not_digit bytes.now ≡ Some at) }
    ensures leading { IsErrOf result Base36Fault.LeadingZero ↔ IsLedByZero bytes.now }
    ensures large { IsErrOf result Base36Fault.TooLarge ↔ SpellsTooLarge bytes.now }
{
    if bytes.is_empty() {
        return Err(Base36Fault::Empty);
    }
    if let Some(at) = first_not_digit(bytes) {
        return Err(Base36Fault::Digit(at));
    }
    if has_leading_zero(bytes) {
        return Err(Base36Fault::LeadingZero);
    }
    match value_of(bytes) {
        Some(n) => Ok(n),
        None => Err(Base36Fault::TooLarge),
    }
}

fn has_leading_zero(bytes: &[u8]) -> bool
    ensures { result ≡ has_leading_zero bytes.now }
{
    bytes.len() > 1 && bytes[0] == b'0'
}

fn is_base36_digit(byte: u8) -> bool
    ensures { result ≡ is_base36_digit byte }
{
    matches!(byte, b'0'..=b'9' | b'a'..=b'z')
}

fn first_not_digit(bytes: &[u8]) -> Option<usize>
    ensures { result ≡ first_not_digit bytes.now }
{
    bytes.iter().position(|b| !is_base36_digit(*b))
}

fn digit_value(byte: u8) -> u8
    requires { IsTrue (is_base36_digit byte) }
    ensures value { result ≡ digit_value byte }
    ensures below { result < 36 }
{
    if byte <= b'9' {
        byte - b'0'
    } else {
        byte - b'a' + 10
    }
}

fn value_of(digits: &[u8]) -> Option<u64>
    requires { IsTrue (list_all is_base36_digit digits.now) }
    ensures { SomeIff result (base36_value digits.now < 2 ^ 64) (base36_value digits.now) }
{
    let mut value = 0u64;
    for byte in digits {
        let digit = digit_value(*byte);
        value = value.checked_mul(36)?.checked_add(u64::from(digit))?;
    }
    Some(value)
}
