//! A file's name, and why bytes are none.

ghost use Rattle.std.specs.Prelude.{◌≡◌, ◌+◌, ◌-◌, ◌≤◌, ◌<◌, ◌↔◌, ℕ, [], ◌++◌, length, take, drop, replicate, position, not, IfOk, IsErrOf, IsTrue, nat_eq};
ghost use Rattle.std.proofs.Common.{rules, refl, sym};
ghost use Rattle.std.specs.Cmp.{partial_equiv_from_equiv, partial_order_from_total, partial_order_from_own_ties};
ghost use Rattle.std.specs.Cmp.Lexicographic.{pointwise, slice_cmp, nat_list_eq_equiv, nat_list_cmp_total};
ghost use Rattle.std.specs.Cmp.Rules.{comparing, hashing};
ghost use Rattle.std.specs.Hash as fed;
ghost use Rattle.std.specs.Ordering.{nat_cmp, as_partial_cmp};
ghost use Rattle.std.proofs.lemmas.Map.Text.{is_eq-slice_cmp};
ghost use Rattle.file_names.specs.Names.{is_name_byte, is_file_name, IsTooLong, IsRefusedByte};
ghost use Rattle.file_names.specs.WordOrder.{word_of};

use nrt_base::{NoMemory, Share};
use std::alloc::Global;
use std::cmp::Ordering;
use std::fmt;
use std::hash::{Hash, Hasher};
use std::marker::Model;
use thiserror::Error;

const LONGEST: usize = 64;

/// A file's name, seen as its bytes: 1 to 64 small letters, digits, `_` and `.`, ordered by its bytes.
pub struct FileName {
    bytes: [u8; 64],
    len: u8,
}

impl Model for FileName {
    ghost use Rattle.std.specs.Prelude.{◌≡◌, ℕ, ◌-◌, ◌≤◌, List, ◌++◌, length, take, replicate, IsTrue};
    ghost use Rattle.file_names.specs.Names.{is_file_name};
    ghost use Rattle.file_names.specs.FileNames.{inverse_of_view};

    ghost Value = { List ℕ };

    ghost view = { λ a. take a.len a.bytes };

    ghost invariant = { λ a. (length a.bytes ≡ 64) × (a.len ≤ 64) × (a.bytes ≡ take a.len a.bytes ++ replicate (64 - a.len) 0) × IsTrue (is_file_name (take a.len a.bytes)) };

    ghost inverse = { λ n. record { bytes = n ++ replicate (64 - length n) 0; len = length n } };

    ghost inverse_ok = { λ a h. λ i. record { bytes = (inverse_of_view a.len a.bytes h.0 h.1 h.2 i).0; len = (inverse_of_view a.len a.bytes h.0 h.1 h.2 i).1 } };
}

/// Why bytes are no file's name.
#[derive(Clone, Copy, Debug, PartialEq, Eq, Error)]
pub enum NameFault {
    /// There are none.
    #[error("a name of a file is empty")]
    Empty,
    /// There are this many, more than 64.
    #[error("a name of a file has {0} bytes, at most 64")]
    Long(usize),
    /// The first byte that no name may have stands at this place, from 0.
    #[error("a name of a file has small letters, digits, `_` and `.` alone, not so at offset {0}")]
    Byte(usize),
}

fn is_name_byte(byte: u8) -> bool
    ensures { result ≡ is_name_byte byte }
{
    matches!(byte, b'a'..=b'z' | b'0'..=b'9' | b'_' | b'.')
}

/// The file's name that has these bytes.
pub fn file_name(bytes: &[u8]) -> Result<FileName, NameFault>
    ensures name { IfOk result (λ name. name ≡ bytes.now) }
    ensures empty { IsErrOf result NameFault.Empty ↔ (bytes.now ≡ []) }
    ensures long { (n : ℕ) → IsErrOf result (NameFault.Long n) ↔ IsTooLong n bytes.now }
    ensures byte { (at : ℕ) → IsErrOf result (NameFault.Byte at) ↔ IsRefusedByte at bytes.now }
{
    if bytes.is_empty() {
        return Err(NameFault::Empty);
    }
    if bytes.len() > LONGEST {
        return Err(NameFault::Long(bytes.len()));
    }
    match first_refused(bytes) {
        Some(at) => Err(NameFault::Byte(at)),
        None => Ok(padded(bytes)),
    }
}

fn first_refused(bytes: &[u8]) -> Option<usize>
    ensures { result ≡ position (λ b. not (is_name_byte b)) bytes.now }
{
    bytes.iter().position(|b| !is_name_byte(*b))
}

pub(crate) fn padded(bytes: &[u8]) -> FileName
    requires { IsTrue (is_file_name bytes.now) }
    ensures { result ≡ bytes.now }
{
    FileName {
        bytes: with_zeros(bytes),
        len: bytes.len() as u8,
    }
}

fn with_zeros(bytes: &[u8]) -> [u8; 64]
    requires { length bytes.now ≤ 64 }
    ensures { result ≡ bytes.now ++ replicate (64 - length bytes.now) 0 }
{
    let mut filled = [0; 64];
    filled[..bytes.len()].copy_from_slice(bytes);
    filled
}

// Eight bytes from a place on, as a number of which the first is the highest.
fn word(bytes: &[u8; 64], at: usize) -> u64
    requires { at + 8 ≤ 64 }
    ensures { result ≡ word_of (take 8 (drop at bytes.now)) }
{
    u64::from_be_bytes([
        bytes[at],
        bytes[at + 1],
        bytes[at + 2],
        bytes[at + 3],
        bytes[at + 4],
        bytes[at + 5],
        bytes[at + 6],
        bytes[at + 7],
    ])
}

// The order of 64 bytes, eight at a time.
fn order(a: &[u8; 64], b: &[u8; 64]) -> Ordering
    ensures { result ≡ slice_cmp nat_cmp a.now b.now }
{
    let mut at = 0;
    'words: while at < 64 {
        let first = word(a, at);
        let second = word(b, at);
        if first != second {
            return first.cmp(&second);
        }
        at += 8;
    }
    Ordering::Equal
}

impl FileName {
    pub fn as_slice(&self) -> &[u8]
        ensures bytes { result.now ≡ self.now }
        ensures kind { IsTrue (is_file_name self.now) }
    {
        &self.bytes[..self.len as usize]
    }

    // The name as text, which is tested for equality and hashed eight bytes at a time.
    fn as_str(&self) -> &str
        ensures { result.now ≡ self.now }
    {
        // Each of its bytes is one of ASCII.
        unsafe { str::from_utf8_unchecked(self.as_slice()) }
    }
}

/// The name as it is.
impl fmt::Display for FileName {
    fn fmt<W: fmt::Write>(&self, f: &mut fmt::Formatter<W>) -> fmt::Result {
        for byte in self.as_slice() {
            write!(f, "{}", *byte as char)?;
        }
        Ok(())
    }
}

/// The name as it is.
impl fmt::Debug for FileName {
    fn fmt<W: fmt::Write>(&self, f: &mut fmt::Formatter<W>) -> fmt::Result {
        write!(f, "{self}")
    }
}

impl Copy for FileName {}

impl Clone for FileName {
    ghost is_clone = { λ x y. y ≡ x };

    fn clone(&self) -> Result<Self, NoMemory> {
        Ok(*self)
    }
}

impl Share for FileName {
    fn share(&self, _alloc: Global) -> Result<Self, NoMemory> {
        Ok(*self)
    }
}

impl PartialEq for FileName {
    ghost eq = { pointwise nat_eq };

    ghost laws = { partial_equiv_from_equiv nat_list_eq_equiv };

    fn eq(&self, other: &FileName) -> bool {
        self.as_str() == other.as_str()
    }
}

impl Eq for FileName {
    ghost laws = { nat_list_eq_equiv };
}

impl Hash for FileName {
    ghost hash_input = { fed.str };

    ghost respects_eq = { Prim.search (hashing, rules) };

    fn hash<H: Hasher>(&self, state: &mut H) {
        self.as_str().hash(state);
    }
}

impl PartialOrd for FileName {
    ghost partial_cmp = { as_partial_cmp (slice_cmp nat_cmp) };

    ghost laws = { partial_order_from_own_ties (partial_order_from_total nat_list_cmp_total) (λ a b. sym (is_eq-slice_cmp a b)) };

    fn partial_cmp(&self, other: &FileName) -> Option<Ordering> {
        Some(self.cmp(other))
    }
}

impl Ord for FileName {
    ghost cmp = { slice_cmp nat_cmp };

    ghost total = { nat_list_cmp_total };

    ghost matches_partial_cmp = { λ a b. refl };

    ghost matches_eq = { λ a b. sym (is_eq-slice_cmp a b) };

    fn cmp(&self, other: &FileName) -> Ordering {
        order(&self.bytes, &other.bytes)
    }
}
