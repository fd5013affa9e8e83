//! The parts of a record, lent from the bytes of its file.

ghost use Rattle.std.specs.Prelude.{◌≡◌, ◌^◌, ◌<◌, IsTrue, IfSome, length};
ghost use Rattle.std.specs.List.{list_all};
ghost use Rattle.std.specs.Option.{option_map};
ghost use Rattle.nrt_base.specs.Bytes.{is_key_byte, is_key, is_text_byte, is_text, is_word_byte, is_word};
ghost use Rattle.trans_log.specs.Reading.{op_of, op_at, op_of_kind, three_at, whole_read, record_of_three, record_of_fields};

use body_forms::{string_of, u32_of, u64_of};

const LONGEST_KEY: usize = 64;

const LONGEST_TEXT: usize = 4096;

/// The parts of an operation.
#[derive(Clone, Copy)]
pub enum OpParts<'a> {
    Put(&'a [u8], &'a [u8]),
    Delete(&'a [u8]),
    Drop(&'a [u8]),
}

/// The fields of a record.
#[derive(Clone, Copy)]
pub struct Fields<'a> {
    pub generation: u64,
    pub seq: u32,
    pub op: OpParts<'a>,
}

// Whether a key may have these bytes.
fn is_key(bytes: &[u8]) -> bool
    ensures { result ≡ is_key bytes.now }
{
    1 <= bytes.len() && bytes.len() <= LONGEST_KEY && are_key_bytes(bytes)
}

// Whether a key may have each of these bytes.
fn are_key_bytes(bytes: &[u8]) -> bool
    ensures { result ≡ list_all is_key_byte bytes.now }
{
    bytes.iter().all(|byte| b'!' <= *byte && *byte <= b'~')
}

// Whether a text may have these bytes.
fn is_text(bytes: &[u8]) -> bool
    ensures { result ≡ is_text bytes.now }
{
    bytes.len() <= LONGEST_TEXT && are_text_bytes(bytes)
}

// Whether a text may have each of these bytes.
fn are_text_bytes(bytes: &[u8]) -> bool
    ensures { result ≡ list_all is_text_byte bytes.now }
{
    bytes.iter().all(|byte| b' ' <= *byte && *byte <= b'~')
}

// Whether a word may have these bytes.
fn is_word(bytes: &[u8]) -> bool
    ensures { result ≡ is_word bytes.now }
{
    1 <= bytes.len() && are_word_bytes(bytes)
}

// Whether a word may have each of these bytes.
fn are_word_bytes(bytes: &[u8]) -> bool
    ensures { result ≡ list_all is_word_byte bytes.now }
{
    bytes.iter().all(|byte| (b'a' <= *byte && *byte <= b'z') || (b'0' <= *byte && *byte <= b'9'))
}

// A put: a key and a text, and the bytes after them.
fn put_of(bytes: &[u8]) -> Option<(OpParts, &[u8])>
    ensures { option_map (λ x. (op_of x.0, x.1.now)) result ≡ op_of_kind 1 bytes.now }
{
    let (key, rest) = string_of(bytes)?;
    let (text, rest) = string_of(rest)?;
    if is_key(key) && is_text(text) {
        Some((OpParts::Put(key, text), rest))
    } else {
        None
    }
}

// A delete: a key, and the bytes after it.
fn delete_of(bytes: &[u8]) -> Option<(OpParts, &[u8])>
    ensures { option_map (λ x. (op_of x.0, x.1.now)) result ≡ op_of_kind 2 bytes.now }
{
    let (key, rest) = string_of(bytes)?;
    if is_key(key) {
        Some((OpParts::Delete(key), rest))
    } else {
        None
    }
}

// A drop: a word, and the bytes after it.
fn drop_of(bytes: &[u8]) -> Option<(OpParts, &[u8])>
    ensures { option_map (λ x. (op_of x.0, x.1.now)) result ≡ op_of_kind 3 bytes.now }
{
    let (word, rest) = string_of(bytes)?;
    if is_word(word) {
        Some((OpParts::Drop(word), rest))
    } else {
        None
    }
}

// The operation at the front, and the bytes after it.
#[tactic(auto, unfolding(crate::specs::Reading::op_at))]
fn op_parts_of(bytes: &[u8]) -> Option<(OpParts, &[u8])>
    ensures { option_map (λ x. (op_of x.0, x.1.now)) result ≡ op_at bytes.now }
{
    let (kind, rest) = bytes.split_first()?;
    match *kind {
        1 => put_of(rest),
        2 => delete_of(rest),
        3 => drop_of(rest),
        _ => None,
    }
}

/// The fields that a body has.
#[tactic(auto, unfolding(crate::specs::Reading::three_at))]
pub fn fields_of(body: &[u8]) -> Option<Fields>
    ensures { option_map record_of_fields result
        ≡ option_map record_of_three (whole_read (three_at body.now)) }
{
    let (generation, rest) = u64_of(body)?;
    let (seq, rest) = u32_of(rest)?;
    let (op, rest) = op_parts_of(rest)?;
    if rest.is_empty() {
        Some(Fields {
            generation,
            seq,
            op,
        })
    } else {
        None
    }
}
