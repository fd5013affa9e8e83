//! A number in base 36, as its digits.

ghost use Rattle.std.specs.Prelude.{◌≡◌, ◌<◌, IsTrue};
ghost use Rattle.file_names.specs.Base36.{digit_of, is_base36, base36_of};

use nrt_base::NoMemory;
use std::fmt;
use std::marker::Model;

/// A number in base 36, seen as its digits: 1 to 13 bytes, each `0` to `9` or `a` to `z`.
pub struct Base36 {
    bytes: [u8; 13],
    start: u8,
}

impl Model for Base36 {
    ghost use Rattle.std.specs.Prelude.{◌≡◌, ℕ, ◌-◌, ◌≤◌, List, ◌++◌, length, drop, replicate, IsTrue};
    ghost use Rattle.file_names.specs.Base36.{is_base36};
    ghost use Rattle.file_names.specs.Base36Layout.{inverse_of_view};

    ghost Value = { List ℕ };

    ghost view = { λ a. drop a.start a.bytes };

    ghost invariant = { λ a. (length a.bytes ≡ 13) × (a.start ≤ 13) × (a.bytes ≡ replicate a.start 0 ++ drop a.start a.bytes) × IsTrue (is_base36 (drop a.start a.bytes)) };

    ghost inverse = { λ n. record { bytes = replicate (13 - length n) 0 ++ n; start = 13 - length n } };

    ghost inverse_ok = { λ a h. λ i. record { bytes = (inverse_of_view a.start a.bytes h.0 h.1 h.2 i).0; start = (inverse_of_view a.start a.bytes h.0 h.1 h.2 i).1 } };
}

impl Base36 {
    pub(crate) fn of(n: u64) -> Self
        ensures { result ≡ base36_of n }
    {
        let mut bytes = [0; 13];
        let mut start = 12u8;
        let mut rest = n;
        while rest >= 36 {
            bytes[start as usize] = digit((rest % 36) as u8);
            rest /= 36;
            start -= 1;
        }
        bytes[start as usize] = digit(rest as u8);
        Base36 { bytes, start }
    }

    pub fn as_slice(&self) -> &[u8]
        ensures bytes { result.now ≡ self.now }
        ensures kind { IsTrue (is_base36 self.now) }
    {
        &self.bytes[self.start as usize..]
    }
}

impl Copy for Base36 {}

impl Clone for Base36 {
    ghost is_clone = { λ x y. y ≡ x };

    fn clone(&self) -> Result<Self, NoMemory> {
        Ok(*self)
    }
}

/// The digits as they are.
impl fmt::Debug for Base36 {
    fn fmt<W: fmt::Write>(&self, f: &mut fmt::Formatter<W>) -> fmt::Result {
        for byte in self.as_slice() {
            write!(f, "{}", *byte as char)?;
        }
        Ok(())
    }
}

fn digit(value: u8) -> u8
    requires { value < 36 }
    ensures { result ≡ digit_of value }
{
    if value < 10 {
        b'0' + value
    } else {
        b'a' - 10 + value
    }
}
