//! A chunk, as it comes out of its frame: the frame's head and the bytes of the file are two pieces, which one decoder reads.

ghost use Rattle.std.specs.Prelude.{◌≡◌, ◌++◌, ◌∷◌, ◌<◌, ◌≤◌, ℕ, List, [], length, IfOk};
ghost use Rattle.wire_frames.specs.declared.message.Message.{Message};
ghost use Rattle.wire_frames.specs.declared.message.Message.TheVariants.{Chunk};
ghost use Rattle.wire_frames.specs.Wire.{longest_chunk};
ghost use Rattle.wire_frames.specs.Streams.{AreMessagesOf, BeginsWith, IsUnfinished, IsStreamFault};

use bytes::Bytes;
use file_names::FileName;
use nrt_base::{NoMemory, Share};
use std::alloc::{AllocError, Global};
use wire_frames::{Decoder, Message, WireFault, chunk_head};

// What a decoder answers to a stream that has no fault, where it answers no messages.
fn out_of_memory(fault: WireFault) -> NoMemory
    requires { fault ≡ WireFault.Memory }
{
    match fault {
        WireFault::Memory => AllocError,
        WireFault::Length(_) | WireFault::Kind(_) | WireFault::Body => unreachable!(),
    }
}

// Feeds a decoder the head of a frame.
fn feed_head(decoder: &mut Decoder, alloc: Global, head: &[u8]) -> Result<Vec<Message>, NoMemory>
    requires { (fault : WireFault) → IsStreamFault (decoder.old ++ head.now) fault → ⊥ }
    ensures messages { IfOk result (λ messages.
        AreMessagesOf (decoder.old ++ head.now) messages.items decoder.new) }
{
    match decoder.feed(alloc, head) {
        Ok(messages) => Ok(messages),
        Err(fault) => Err(out_of_memory(fault)),
    }
}

// Feeds a decoder the bytes behind the head of a frame.
fn feed_bytes(decoder: &mut Decoder, alloc: Global, bytes: &Bytes) -> Result<Vec<Message>, NoMemory>
    requires { (fault : WireFault) → IsStreamFault (decoder.old ++ bytes.now) fault → ⊥ }
    ensures messages { IfOk result (λ messages.
        AreMessagesOf (decoder.old ++ bytes.now) messages.items decoder.new) }
    ensures unfinished { IsUnfinished decoder.new }
{
    match decoder.feed_shared(alloc, bytes) {
        Ok(messages) => Ok(messages),
        Err(fault) => Err(out_of_memory(fault)),
    }
}

// The messages of a frame, whose head and bytes are two pieces.
fn messages_of(alloc: Global, head: &[u8], bytes: &Bytes) -> Result<Vec<Message>, NoMemory>
    requires { (messages : List Message) × BeginsWith (head.now ++ bytes.now) messages [] }
    ensures { IfOk result (λ read. (messages : List Message)
        → BeginsWith (head.now ++ bytes.now) messages [] → read.items ≡ messages) }
{
    let mut decoder = Decoder::new(alloc)?;
    let mut messages = feed_head(&mut decoder, alloc, head)?;
    let mut more = feed_bytes(&mut decoder, alloc, bytes)?;
    messages.append(&mut more)?;
    Ok(messages)
}

// The bytes of the only message, which is a chunk of this file at this place.
fn only_chunk(
    alloc: Global,
    name: FileName,
    at: u64,
    messages: &[Message],
) -> Result<Bytes, NoMemory>
    requires { (part : List ℕ) × (messages.now ≡ Chunk name at part ∷ []) }
    ensures { IfOk result (λ part. messages.now ≡ Chunk name at part ∷ []) }
{
    match messages {
        [
            Message::Chunk {
                name: of,
                at: place,
                bytes,
            },
        ] if *of == name && *place == at => bytes.share(alloc),
        _ => unreachable!(),
    }
}

/// The bytes of a chunk as they come out of its frame. It fails when out of memory.
pub fn brought(alloc: Global, name: FileName, at: u64, bytes: &Bytes) -> Result<Bytes, NoMemory>
    requires some { 0 < length bytes.now }
    requires most { length bytes.now ≤ longest_chunk }
    ensures { IfOk result (λ read. read ≡ bytes.now) }
{
    let head = chunk_head(alloc, name, at, bytes)?;
    let messages = messages_of(alloc, head.as_slice(), bytes)?;
    only_chunk(alloc, name, at, messages.as_slice())
}
