//! The names of the files of the log, made and read.

ghost use Rattle.std.specs.Prelude.{◌≡◌, ◌++◌, ◌+◌, ◌<◌, ◌≤◌, ◌^◌, ℕ, [], length, IsTrue, IfSome, Some};
ghost use Rattle.file_names.specs.Names.{is_file_name};
ghost use Rattle.file_names.specs.Base36.{base36_of};
ghost use Rattle.trans_log.specs.Names.{IsRecordNumber, log_name_of, pending_log_name_of, IsLogName, IsPendingLogName};

use file_names::{FileName, base36, file_name, read_base36};
use std::marker::Model;

// A name that grows.
#[derive(Drop)]
struct Draft {
    bytes: [u8; 64],
    len: usize,
}

impl Model for Draft {
    ghost use Rattle.std.specs.Prelude.{◌≡◌, ℕ, ◌≤◌, List, length, take};

    ghost Value = { List ℕ };

    ghost view = { λ a. take a.len a.bytes };

    ghost invariant = { λ a. (length a.bytes ≡ 64) × (a.len ≤ 64) };
}

impl Draft {
    fn new() -> Self
        ensures { result ≡ [] }
    {
        Draft {
            bytes: [0; 64],
            len: 0,
        }
    }

    fn push(&mut self, piece: &[u8])
        requires { length self.old + length piece.now ≤ 64 }
        ensures { self.new ≡ self.old ++ piece.now }
    {
        let end = self.len + piece.len();
        self.bytes[self.len..end].copy_from_slice(piece);
        self.len = end;
    }
}

// The file's name that has these bytes.
fn named(bytes: &[u8]) -> FileName
    requires { IsTrue (is_file_name bytes.now) }
    ensures { result ≡ bytes.now }
{
    match file_name(bytes) {
        Ok(name) => name,
        Err(_) => unreachable!(),
    }
}

// The name that is these letters and the number.
fn numbered(letters: &[u8], number: u32) -> FileName
    requires short { length letters.now ≤ 40 }
    requires name { IsTrue (is_file_name (letters.now ++ base36_of number)) }
    ensures { result ≡ letters.now ++ base36_of number }
{
    let mut draft = Draft::new();
    draft.push(letters);
    draft.push(base36(u64::from(number)).as_slice());
    named(&draft.bytes[..draft.len])
}

/// The name of the file of the record with this number.
pub fn log_name(number: u32) -> FileName
    ensures { result ≡ log_name_of number }
{
    numbered(b"log_", number)
}

/// The name that the file of the record with this number has until it is renamed.
pub fn pending_log_name(number: u32) -> FileName
    ensures { result ≡ pending_log_name_of number }
{
    numbered(b"pending_log_", number)
}

// The number that the digits are the spelling of.
fn spelled(digits: &[u8]) -> Option<u64>
    ensures some { IfSome result (λ n. (n < 2 ^ 64) × (digits.now ≡ base36_of n)) }
    ensures all { (n : ℕ) → n < 2 ^ 64 → digits.now ≡ base36_of n → result ≡ Some n }
{
    match read_base36(digits) {
        Ok(n) => Some(n),
        Err(_) => None,
    }
}

// The number of a record that the digits spell.
fn number_in(digits: &[u8]) -> Option<u32>
    ensures some { IfSome result (λ n. IsRecordNumber n × (digits.now ≡ base36_of n)) }
    ensures all { (n : ℕ) → IsRecordNumber n → digits.now ≡ base36_of n → result ≡ Some n }
{
    let n = spelled(digits)?;
    if 0 < n && n <= u64::from(u32::MAX) {
        Some(n as u32)
    } else {
        None
    }
}

// The number of a record that stands behind these letters and ends the name.
fn number_behind(name: &[u8], letters: &[u8]) -> Option<u32>
    ensures some { IfSome result (λ n. IsRecordNumber n × (name.now ≡ letters.now ++ base36_of n)) }
    ensures all { (n : ℕ) → IsRecordNumber n → name.now ≡ letters.now ++ base36_of n
        → result ≡ Some n }
{
    number_in(name.strip_prefix(letters)?)
}

/// The number of the record whose file has this name.
pub fn log_of(name: &FileName) -> Option<u32>
    ensures some { IfSome result (λ n. IsLogName n name.now) }
    ensures all { (n : ℕ) → IsLogName n name.now → result ≡ Some n }
{
    number_behind(name.as_slice(), b"log_")
}

/// The number of the record whose file has this name until it is renamed.
pub fn pending_log_of(name: &FileName) -> Option<u32>
    ensures some { IfSome result (λ n. IsPendingLogName n name.now) }
    ensures all { (n : ℕ) → IsPendingLogName n name.now → result ≡ Some n }
{
    number_behind(name.as_slice(), b"pending_log_")
}
