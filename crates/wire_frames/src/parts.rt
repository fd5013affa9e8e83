//! The next frame of a stream, lent from its bytes.

ghost use Rattle.std.specs.Prelude.{◌≡◌, IfOk, if◌then◌else◌};
ghost use Rattle.std.specs.Option.{option_map};
ghost use Rattle.wire_frames.specs.Wire.{HasParts};
ghost use Rattle.wire_frames.specs.Streams.{TellsFront};
ghost use Rattle.wire_frames.specs.Reading.{name_at, header_at, footer_at, notice_at, state_at, state_read, file_at, file_from, chunk_at, chunk_read, made_read, all_read, notice_from, message_in, message_of, front_seen, stream_front};
ghost use Rattle.file_names.specs.Names.{is_file_name};

use crate::encoding::{CHUNK, COMPLETED, FILE, NOTICE, STATE};
use crate::message::{Message, WireFault};
use body_forms::{string_of, u32_of, u64_of};
use bytes::Bytes;
use copy_state::FileMetaData;
use file_names::{FileName, file_name};
use nrt_base::{Gen, NameBytes, NoMemory, Version};
use std::alloc::Global;

/// The most bytes that follow the length of a frame.
const LONGEST_FRAME: u32 = 65_536;

/// The most bytes of a chunk.
pub(crate) const LONGEST_CHUNK: usize = 32_768;

/// The most bytes of the header of a file.
const LONGEST_HEADER: usize = 408;

/// The parts of a message.
#[derive(Clone, Copy)]
pub enum Parts<'a> {
    Notice(Gen, Version),
    State(Version, u64, Gen, u32, u32, &'a [u8]),
    File(FileName, &'a [u8], [u8; 16], u64, u64),
    Completed(FileName),
    Chunk(FileName, u64, &'a [u8]),
}

// The name of a file that has these bytes.
fn name_in(text: &[u8]) -> Option<FileName>
    ensures { result ≡ (if is_file_name text.now then Some text.now else None) }
{
    match file_name(text) {
        Ok(name) => Some(name),
        Err(_) => None,
    }
}

/// The name of a file at the front, and the bytes after it.
#[tactic(auto, unfolding(crate::specs::Reading::name_at))]
pub(crate) fn name_of(bytes: &[u8]) -> Option<(FileName, &[u8])>
    ensures { option_map (λ x. (x.0, x.1.now)) result ≡ name_at bytes.now }
{
    let (text, rest) = string_of(bytes)?;
    match name_in(text) {
        Some(name) => Some((name, rest)),
        None => None,
    }
}

// The header of a file at the front, and the bytes after it.
#[tactic(auto, unfolding(crate::specs::Reading::header_at))]
fn header_of(bytes: &[u8]) -> Option<(&[u8], &[u8])>
    ensures { option_map (λ x. (x.0.now, x.1.now)) result ≡ header_at bytes.now }
{
    let (header, rest) = string_of(bytes)?;
    if header.len() <= LONGEST_HEADER {
        Some((header, rest))
    } else {
        None
    }
}

// The footer at the front, and the bytes after it.
#[tactic(auto, unfolding(crate::specs::Reading::footer_at))]
fn footer_of(bytes: &[u8]) -> Option<([u8; 16], &[u8])>
    ensures { option_map (λ x. (x.0, x.1.now)) result ≡ footer_at bytes.now }
{
    match bytes.split_first_chunk::<16>() {
        Some((footer, rest)) => Some((*footer, rest)),
        None => None,
    }
}

// The notice that a body is.
#[tactic(auto, unfolding(crate::specs::Reading::notice_at))]
fn notice_of(body: &[u8]) -> Option<Parts>
    ensures { option_map message_of result ≡ all_read notice_from (notice_at body.now) }
{
    let (generation, rest) = u64_of(body)?;
    let (version, rest) = u64_of(rest)?;
    if rest.is_empty() {
        Some(Parts::Notice(Gen(generation), Version(version)))
    } else {
        None
    }
}

// The state that a body is.
#[tactic(auto, unfolding(crate::specs::Reading::state_at))]
fn state_of(body: &[u8]) -> Option<Parts>
    ensures { option_map message_of result ≡ state_read (state_at body.now) }
{
    let (version, rest) = u64_of(body)?;
    let (generation, rest) = u64_of(rest)?;
    let (primary_gen, rest) = u64_of(rest)?;
    let (files, rest) = u32_of(rest)?;
    let (completed, infos) = u32_of(rest)?;
    Some(Parts::State(
        Version(version),
        generation,
        Gen(primary_gen),
        files,
        completed,
        infos,
    ))
}

// The name and the metadata at the front, and the bytes after them.
#[tactic(auto, unfolding(crate::specs::Reading::file_at))]
fn fields_of(bytes: &[u8]) -> Option<(Parts, &[u8])>
    ensures { option_map (λ x. (message_of x.0, x.1.now)) result
        ≡ made_read file_from (file_at bytes.now) }
{
    let Some((name, rest)) = name_of(bytes) else {
        return None;
    };
    let (header, rest) = header_of(rest)?;
    let (footer, rest) = footer_of(rest)?;
    let (length, rest) = u64_of(rest)?;
    let (checksum, rest) = u64_of(rest)?;
    Some((Parts::File(name, header, footer, length, checksum), rest))
}

// The file that a body is.
fn file_of(body: &[u8]) -> Option<Parts>
    ensures { option_map message_of result ≡ all_read file_from (file_at body.now) }
{
    match fields_of(body) {
        Some((parts, [])) => Some(parts),
        _ => None,
    }
}

// The completed name that a body is.
fn completed_of(body: &[u8]) -> Option<Parts>
    ensures { option_map message_of result ≡ all_read Message.Completed (name_at body.now) }
{
    let Some((name, rest)) = name_of(body) else {
        return None;
    };
    if rest.is_empty() {
        Some(Parts::Completed(name))
    } else {
        None
    }
}

// The chunk that a body is.
#[tactic(auto, unfolding(crate::specs::Reading::chunk_at))]
fn chunk_of(body: &[u8]) -> Option<Parts>
    ensures { option_map message_of result ≡ chunk_read (chunk_at body.now) }
{
    let Some((name, rest)) = name_of(body) else {
        return None;
    };
    let (at, bytes) = u64_of(rest)?;
    if 0 < bytes.len() && bytes.len() <= LONGEST_CHUNK {
        Some(Parts::Chunk(name, at, bytes))
    } else {
        None
    }
}

// The message of a kind that a body is.
#[tactic(auto, unfolding(crate::specs::Reading::message_in))]
fn parts_of(kind: u8, body: &[u8]) -> Option<Parts>
    ensures { option_map message_of result ≡ message_in kind body.now }
{
    match kind {
        NOTICE => notice_of(body),
        STATE => state_of(body),
        FILE => file_of(body),
        COMPLETED => completed_of(body),
        CHUNK => chunk_of(body),
        _ => None,
    }
}

// The message at the front of a stream, and the bytes after it; nothing where its frame is not whole.
#[tactic(auto, unfolding(crate::specs::Reading::stream_front))]
fn front_parts(bytes: &[u8]) -> Result<Option<(Parts, &[u8])>, WireFault>
    ensures { front_seen (λ x. (message_of x.0, x.1.now)) result ≡ stream_front bytes.now }
{
    let Some((length, rest)) = u32_of(bytes) else {
        return Ok(None);
    };
    if length == 0 || length > LONGEST_FRAME {
        return Err(WireFault::Length(length));
    }
    let Some((frame, after)) = rest.split_at_checked(length as usize) else {
        return Ok(None);
    };
    let Some((kind, body)) = frame.split_first() else {
        return Ok(None);
    };
    match parts_of(*kind, body) {
        Some(parts) => Ok(Some((parts, after))),
        None if NOTICE <= *kind && *kind <= CHUNK => Err(WireFault::Body),
        None => Err(WireFault::Kind(*kind)),
    }
}

/// The message at the front of a stream, and the bytes after it; nothing where its frame is not whole.
pub fn next_parts(bytes: &[u8]) -> Result<Option<(Parts, &[u8])>, WireFault>
    ensures { TellsFront (λ x. (message_of x.0, x.1.now)) bytes.now result }
{
    front_parts(bytes)
}

/// The message that has these parts.
pub fn made(alloc: Global, parts: Parts) -> Result<Message, NoMemory>
    requires { HasParts (message_of parts) }
    ensures { IfOk result (λ m. m ≡ message_of parts.entry) }
{
    match parts {
        Parts::Notice(generation, version) => Ok(Message::Notice {
            generation,
            version,
        }),
        Parts::State(version, generation, primary_gen, files, completed, infos) => {
            let infos = Bytes::copy_from_slice(alloc, infos)?;
            Ok(Message::State {
                version,
                generation,
                primary_gen,
                files,
                completed,
                infos,
            })
        }
        Parts::File(name, header, footer, length, checksum) => {
            let header = NameBytes::new(alloc, header)?;
            let meta = FileMetaData {
                header,
                footer,
                length,
                checksum,
            };
            Ok(Message::File { name, meta })
        }
        Parts::Completed(name) => Ok(Message::Completed { name }),
        Parts::Chunk(name, at, bytes) => {
            let bytes = Bytes::copy_from_slice(alloc, bytes)?;
            Ok(Message::Chunk { name, at, bytes })
        }
    }
}
