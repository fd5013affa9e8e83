//! The frames of a copy state, and of files in chunks.

ghost use Rattle.std.specs.Prelude.{◌≡◌, ◌<◌, ◌^◌, ◌∷◌, [], true, length, OnOk, IfOk};
ghost use Rattle.std.specs.List.{All, flat_map};
ghost use Rattle.copy_state.specs.States.{IsCopyState};
ghost use Rattle.wire_frames.specs.Wire.{CanEncode};
ghost use Rattle.wire_frames.specs.Streams.{AreMessagesOf};
ghost use Rattle.wire_link.specs.Copies.{AddsFrames, chunk_from, chunk_messages, messages_of_copy};

use bytes::Bytes;
use copy_state::CopyState;
use file_names::FileName;
use nrt_base::NoMemory;
use std::alloc::{AllocError, Global};
use wire_frames::{Message, encode, state_messages};

/// How many bytes a chunk has at most.
const CHUNK: usize = 32_768;

// Puts the frames of messages at the end.
fn push_messages(out: &mut Vec<u8>, messages: &[Message]) -> Result<(), NoMemory>
    requires { All CanEncode messages.now }
    ensures { OnOk result (AddsFrames messages.now out.old.items out.new.items) }
{
    for message in messages {
        encode(message, out)?;
    }
    Ok(())
}

// Puts the frame of the chunk of a file that begins at a place at the end.
fn push_chunk(out: &mut Vec<u8>, name: FileName, at: usize, bytes: &Bytes) -> Result<(), NoMemory>
    requires { at < length bytes.now }
    ensures { OnOk result (AddsFrames (chunk_from name at bytes.now ∷ []) out.old.items out.new.items) }
{
    let end = at + CHUNK.min(bytes.len() - at);
    let part = bytes.slice(at..end)?;
    let message = Message::Chunk {
        name,
        at: at as u64,
        bytes: part,
    };
    encode(&message, out)?;
    Ok(())
}

// Puts the frames of the chunks of a file at the end.
#[tactic(auto, using(crate::proofs::CopyLaws::chunks_whole))]
fn push_file(out: &mut Vec<u8>, name: FileName, bytes: &Bytes) -> Result<(), NoMemory>
    ensures { OnOk result (AddsFrames (chunk_messages (name, bytes.now)) out.old.items out.new.items) }
{
    let count = bytes.len().div_ceil(CHUNK);
    for k in 0..count {
        push_chunk(out, name, k * CHUNK, bytes)?;
    }
    Ok(())
}

// Puts the frames of the chunks of files at the end.
fn push_files(out: &mut Vec<u8>, files: &[(FileName, Bytes)]) -> Result<(), NoMemory>
    ensures { OnOk result (AddsFrames (flat_map chunk_messages files.now) out.old.items out.new.items) }
{
    for file in files {
        push_file(out, file.0, &file.1)?;
    }
    Ok(())
}

// Whether a state has so few files and completed names that a frame can say how many.
fn has_few(state: &CopyState) -> bool
    ensures files { result ≡ true → length state.now.files < 2 ^ 32 }
    ensures completed { result ≡ true → length state.now.completed < 2 ^ 32 }
{
    let files = state.files.as_slice();
    let completed = state.completed.as_slice();
    u32::try_from(files.len()).is_ok() && u32::try_from(completed.len()).is_ok()
}

/// The frames of a copy, one behind the other: those of the copy state, then each file in chunks. A state of 2^32 files or more is out
/// of memory.
pub fn frames_of(
    alloc: Global,
    state: &CopyState,
    files: &[(FileName, Bytes)],
) -> Result<Vec<u8>, NoMemory>
    requires { IsCopyState state.now }
    ensures { IfOk result (λ stream.
        AreMessagesOf stream.items (messages_of_copy state.now files.now) []) }
{
    if !has_few(state) {
        return Err(AllocError);
    }
    let messages = state_messages(alloc, state)?;
    let mut stream = Vec::new(alloc);
    push_messages(&mut stream, messages.as_slice())?;
    push_files(&mut stream, files)?;
    Ok(stream)
}
