//! Words of a line that name causes, kinds of faults, files and segments.

ghost use Rattle.std.specs.Prelude.{◌≡◌, Some, None, if◌then◌else◌};
ghost use Rattle.file_names.specs.Base36.{base36_value};
ghost use Rattle.report_reading.specs.Cuts.{later_words};
ghost use Rattle.report_reading.specs.Readings.{name_read, is_base36_number, segment_named, node_cause as node_cause_lem, fault_cause as fault_cause_lem, cause_named as cause_named_lem, cause_with as cause_with_lem, cause_read, one_name as one_name_lem, kind_named as kind_named_lem, one_kind as one_kind_lem};

use crate::cuts::{is_last, next_word};
use crate::numbers::one_number;
use file_names::{FileName, file_name, read_base36};
use history_rules::{Cause, FaultKind};
use nrt_base::{SegNo, Version};
use script_text::is_word;

/// The file's name that a word is.
pub fn name(word: &[u8]) -> Option<FileName>
    ensures { result ≡ name_read word.now }
{
    match file_name(word) {
        Ok(name) => Some(name),
        Err(_) => None,
    }
}

/// The number of 64 bits that digits of base 36 are.
fn base36_number(digits: &[u8]) -> Option<u64>
    ensures { result
        ≡ (if is_base36_number digits.now then Some (base36_value digits.now) else None) }
{
    match read_base36(digits) {
        Ok(n) => Some(n),
        Err(_) => None,
    }
}

/// The segment whose name a word is.
pub fn segment(word: &[u8]) -> Option<SegNo>
    ensures { result ≡ segment_named word.now }
{
    let (first, digits) = word.split_first()?;
    if *first != b'_' {
        return None;
    }
    Some(SegNo(base36_number(digits)?))
}

fn node_cause(word: &[u8]) -> Option<Cause>
    ensures { result ≡ node_cause_lem word.now }
{
    if is_word(b"up", word) {
        Some(Cause::Up)
    } else if is_word(b"name-used", word) {
        Some(Cause::NameUsed)
    } else if is_word(b"names-spent", word) {
        Some(Cause::NamesSpent)
    } else if is_word(b"too-many-segments", word) {
        Some(Cause::TooManySegments)
    } else if is_word(b"force-high", word) {
        Some(Cause::ForceHigh)
    } else {
        None
    }
}

fn fault_cause(word: &[u8]) -> Option<Cause>
    ensures { result ≡ fault_cause_lem word.now }
{
    if is_word(b"no-ticket", word) {
        Some(Cause::NoTicket)
    } else if is_word(b"lost", word) {
        Some(Cause::Lost)
    } else if is_word(b"link-fault", word) {
        Some(Cause::LinkFault)
    } else if is_word(b"disk-fault", word) {
        Some(Cause::DiskFault)
    } else {
        node_cause(word)
    }
}

/// The cause that a word names.
fn cause_named(word: &[u8]) -> Option<Cause>
    ensures { result ≡ cause_named_lem word.now }
{
    if is_word(b"down", word) {
        Some(Cause::Down)
    } else if is_word(b"primary", word) {
        Some(Cause::Primary)
    } else if is_word(b"no-primary", word) {
        Some(Cause::NoPrimary)
    } else if is_word(b"primary-up", word) {
        Some(Cause::PrimaryUp)
    } else if is_word(b"none", word) {
        Some(Cause::Nothing)
    } else {
        fault_cause(word)
    }
}

/// The one file's name that is left.
fn one_name(text: &[u8]) -> Option<FileName>
    ensures { result ≡ one_name_lem (later_words text.now) }
{
    let (word, rest) = next_word(text)?;
    if is_last(rest) { name(word) } else { None }
}

/// The cause that a word names with the words that are left.
fn cause_with(word: &[u8], text: &[u8]) -> Option<Cause>
    ensures { result ≡ cause_with_lem word.now (later_words text.now) }
{
    if is_word(b"force-low", word) {
        Some(Cause::ForceLow(Version(one_number(text)?)))
    } else if is_word(b"cancelled", word) {
        Some(Cause::Cancelled(Version(one_number(text)?)))
    } else if is_word(b"damaged", word) {
        Some(Cause::Damaged(one_name(text)?))
    } else {
        None
    }
}

/// The cause that is left.
pub fn cause(text: &[u8]) -> Option<Cause>
    ensures { result ≡ cause_read (later_words text.now) }
{
    let (word, rest) = next_word(text)?;
    if is_last(rest) {
        cause_named(word)
    } else {
        cause_with(word, rest)
    }
}

fn kind_named(word: &[u8]) -> Option<FaultKind>
    ensures { result ≡ kind_named_lem word.now }
{
    if is_word(b"link", word) {
        Some(FaultKind::Link)
    } else if is_word(b"damage", word) {
        Some(FaultKind::Damage)
    } else if is_word(b"disk", word) {
        Some(FaultKind::Disk)
    } else if is_word(b"stop", word) {
        Some(FaultKind::Stop)
    } else {
        None
    }
}

/// The one kind of fault that is left.
pub fn one_kind(text: &[u8]) -> Option<FaultKind>
    ensures { result ≡ one_kind_lem (later_words text.now) }
{
    let (word, rest) = next_word(text)?;
    if is_last(rest) {
        kind_named(word)
    } else {
        None
    }
}
