//! Messages, put at the end of bytes.

ghost use Rattle.std.specs.Prelude.{◌≡◌, ◌++◌, ◌∷◌, ◌+◌, ◌≤◌, ◌<◌, ◌^◌, length, take, OnOk, OnErr, IfOk, codes};
ghost use Rattle.body_forms.specs.Numbers.{string, u32_bytes, u64_bytes};
ghost use Rattle.wire_frames.specs.declared.message.Message.TheVariants.{Chunk};
ghost use Rattle.wire_frames.specs.Wire.{message_kind, message_body, meta_bytes, state_numbers, wire_of, longest_chunk, HasParts, CanEncode, IsFramable};

use crate::message::Message;
use body_forms::{push_string, push_u32, push_u64, vint_len};
use bytes::Bytes;
use copy_state::FileMetaData;
use file_names::FileName;
use nrt_base::{Gen, NoMemory, Version};
use std::alloc::Global;

/// The kinds of messages.
pub(crate) const NOTICE: u8 = 1;

pub(crate) const STATE: u8 = 2;

pub(crate) const FILE: u8 = 3;

pub(crate) const COMPLETED: u8 = 4;

pub(crate) const CHUNK: u8 = 5;

/// How many bytes the frame of a chunk has at most beside those of the file.
const MARGIN: usize = 78;

// How many bytes a string has with its length.
#[tactic(auto, using(crate::proofs::MessageLaws::vint_short))]
fn string_len(text: &[u8]) -> usize
    requires { length text.now ≤ 408 }
    ensures size { result ≡ length (string text.now) }
    ensures most { result ≤ 413 }
{
    vint_len(text.len() as u32) + text.len()
}

// A footer has sixteen bytes.
fn is_footer(footer: &[u8; 16])
    ensures { length footer.now ≡ 16 }
{}

// How many bytes metadata has.
fn meta_len(meta: &FileMetaData) -> usize
    ensures size { result ≡ length (meta_bytes meta.now) }
    ensures most { result ≤ 445 }
{
    is_footer(&meta.footer);
    string_len(meta.header.as_slice()) + 32
}

// How many bytes the body of a message has.
#[tactic(auto, unfolding(crate::specs::Wire::message_body))]
fn body_len(m: &Message) -> usize
    requires { CanEncode m.now }
    ensures size { result ≡ length (message_body m.now) }
    ensures most { result < 65536 }
{
    match m {
        Message::Notice { .. } => 16,
        Message::State { infos, .. } => 32 + infos.len(),
        Message::File { name, meta } => string_len(name.as_slice()) + meta_len(meta),
        Message::Completed { name } => string_len(name.as_slice()),
        Message::Chunk { name, bytes, .. } => string_len(name.as_slice()) + 8 + bytes.len(),
    }
}

// A number of 64 bits.
fn is_u64(n: u64)
    ensures { n < 2 ^ 64 }
{}

// A number of 32 bits.
fn is_u32(n: u32)
    ensures { n < 2 ^ 32 }
{}

// That the parts of a message that can be put into a frame are right.
fn has_parts(m: &Message)
    requires { CanEncode m.now }
    ensures { HasParts m.now }
{
    match m {
        Message::Notice {
            generation,
            version,
        } => {
            is_u64(generation.0);
            is_u64(version.0);
        }
        Message::State {
            version,
            generation,
            primary_gen,
            files,
            completed,
            ..
        } => {
            is_u64(version.0);
            is_u64(*generation);
            is_u64(primary_gen.0);
            is_u32(*files);
            is_u32(*completed);
        }
        Message::File { name, meta } => {
            let _name = name.as_slice();
            let _header = meta.header.as_slice();
            is_footer(&meta.footer);
            is_u64(meta.length);
            is_u64(meta.checksum);
        }
        Message::Completed { name } => {
            let _name = name.as_slice();
        }
        Message::Chunk { name, at, .. } => {
            let _name = name.as_slice();
            is_u64(*at);
        }
    }
}

/// The kind of a message, in one byte.
pub(crate) fn kind_of(m: &Message) -> u8
    ensures { result ≡ message_kind m.now }
{
    match m {
        Message::Notice { .. } => NOTICE,
        Message::State { .. } => STATE,
        Message::File { .. } => FILE,
        Message::Completed { .. } => COMPLETED,
        Message::Chunk { .. } => CHUNK,
    }
}

// Puts metadata at the end.
#[tactic(auto, using(std::proofs::lemmas::List::append_assoc, crate::proofs::MessageLaws::take_front))]
fn push_meta(out: &mut Vec<u8>, meta: &FileMetaData) -> Result<(), NoMemory>
    ensures ok { OnOk result (out.new.items ≡ out.old.items ++ meta_bytes meta.now) }
    ensures front { take (length out.old.items) out.new.items ≡ out.old.items }
{
    push_string(out, meta.header.as_slice())?;
    out.extend_from_slice(&meta.footer)?;
    push_u64(out, meta.length)?;
    push_u64(out, meta.checksum)?;
    Ok(())
}

// Puts the numbers of a state at the end.
#[tactic(auto, using(std::proofs::lemmas::List::append_assoc, crate::proofs::MessageLaws::take_front))]
fn push_state(
    out: &mut Vec<u8>,
    version: Version,
    generation: u64,
    primary_gen: Gen,
    files: u32,
    completed: u32,
) -> Result<(), NoMemory>
    ensures ok { OnOk result (out.new.items ≡ out.old.items
        ++ state_numbers version generation primary_gen files completed) }
    ensures front { take (length out.old.items) out.new.items ≡ out.old.items }
{
    push_u64(out, version.0)?;
    push_u64(out, generation)?;
    push_u64(out, primary_gen.0)?;
    push_u32(out, files)?;
    push_u32(out, completed)?;
    Ok(())
}

// Puts the body of a message at the end.
#[tactic(auto, using(std::proofs::lemmas::List::append_assoc, crate::proofs::MessageLaws::take_front), unfolding(crate::specs::Wire::message_body))]
fn push_body(out: &mut Vec<u8>, m: &Message) -> Result<(), NoMemory>
    ensures ok { OnOk result (out.new.items ≡ out.old.items ++ message_body m.now) }
    ensures front { take (length out.old.items) out.new.items ≡ out.old.items }
{
    match m {
        Message::Notice {
            generation,
            version,
        } => {
            push_u64(out, generation.0)?;
            push_u64(out, version.0)?;
        }
        Message::State {
            version,
            generation,
            primary_gen,
            files,
            completed,
            infos,
        } => {
            push_state(out, *version, *generation, *primary_gen, *files, *completed)?;
            out.extend_from_slice(infos.as_slice())?;
        }
        Message::File { name, meta } => {
            push_string(out, name.as_slice())?;
            push_meta(out, meta)?;
        }
        Message::Completed { name } => push_string(out, name.as_slice())?,
        Message::Chunk { name, at, bytes } => {
            push_string(out, name.as_slice())?;
            push_u64(out, *at)?;
            out.extend_from_slice(bytes.as_slice())?;
        }
    }
    Ok(())
}

// Puts the frame of a message at the end.
#[tactic(auto, using(std::proofs::lemmas::List::append_assoc, crate::proofs::MessageLaws::take_front), unfolding(crate::specs::Wire::frame_of))]
fn push_frame(out: &mut Vec<u8>, m: &Message) -> Result<(), NoMemory>
    requires { CanEncode m.now }
    ensures ok { OnOk result (out.new.items ≡ out.old.items ++ wire_of m.now) }
    ensures front { take (length out.old.items) out.new.items ≡ out.old.items }
{
    push_u32(out, 1 + body_len(m) as u32)?;
    out.push(kind_of(m))?;
    push_body(out, m)?;
    Ok(())
}

/// Puts the bytes of a message at the end. Where memory runs out, nothing is put there.
pub fn encode(m: &Message, out: &mut Vec<u8>) -> Result<(), NoMemory>
    requires { CanEncode m.now }
    ensures ok { OnOk result (out.new.items ≡ out.old.items ++ wire_of m.now) }
    ensures err { OnErr result (out.new.items ≡ out.old.items) }
    ensures framable { IsFramable m.now }
{
    has_parts(m);
    let _short = body_len(m);
    let start = out.len();
    match push_frame(out, m) {
        Ok(()) => Ok(()),
        Err(no_memory) => {
            out.truncate(start);
            Err(no_memory)
        }
    }
}

// That the frame of a chunk has its parts, and is not too long.
#[tactic(auto, unfolding(crate::specs::Wire::message_body))]
fn is_framable(name: FileName, at: u64, bytes: &Bytes)
    requires some { 0 < length bytes.now }
    requires most { length bytes.now ≤ longest_chunk }
    ensures { IsFramable (Chunk name at bytes.now) }
{
    is_u64(at);
    let _short = string_len(name.as_slice());
}

/// The head of a chunk's frame: all of it but the bytes of the file, which follow it and so need not be copied. It fails when out
/// of memory.
pub fn chunk_head(
    alloc: Global,
    name: FileName,
    at: u64,
    bytes: &Bytes,
) -> Result<Vec<u8>, NoMemory>
    requires some { 0 < length bytes.now }
    requires most { length bytes.now ≤ longest_chunk }
    ensures whole { IfOk result (λ head. head.items ++ bytes.now ≡ wire_of (Chunk name at bytes.now)) }
    ensures framable { IsFramable (Chunk name at bytes.now) }
{
    is_framable(name, at, bytes);
    let text = name.as_slice();
    let size = string_len(text) + 8 + bytes.len();
    let mut head = Vec::with_capacity(alloc, MARGIN)?;
    push_u32(&mut head, 1 + size as u32)?;
    head.push(CHUNK)?;
    push_string(&mut head, text)?;
    push_u64(&mut head, at)?;
    Ok(head)
}
