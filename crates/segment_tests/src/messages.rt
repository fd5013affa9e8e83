//! A copy state in the messages that a peer would read, by bytes from outside.

ghost use Rattle.std.specs.Prelude.{IsTrue};
ghost use Rattle.wire_frames.specs.Wire.{CanEncode};

use bytes::Bytes;
use copy_state::{CopyState, FileMetaData};
use file_names::{FileName, file_name};
use nrt_base::{Gen, List, NameBytes, NoMemory, Version};
use std::alloc::{AllocError, Global};
use std::test::Fail;
use wire_frames::{Decoder, Message, encode, state_messages, state_of};

// One State, one File and one Completed.
const STREAM: &[u8] =
    b"\0\0\0\x26\x02\0\0\0\0\0\0\0\x05\0\0\0\0\0\0\0\x01\0\0\0\0\0\0\0\x02\0\0\0\x01\0\0\0\x01infos\0\0\0\x30\x03\x07_0.docs\x06header\x07\x07\x07\x07\x07\x07\x07\x07\x07\x07\x07\x07\x07\x07\x07\x07\0\0\0\0\0\0\0\x40\0\0\0\0\0\0\x01\x2c\0\0\0\x07\x04\x05_0.si";

// Whether a message can be put into a frame.
fn can_encode(m: &Message) -> bool
    ensures { IsTrue result → CanEncode m.now }
{
    match m {
        Message::State { infos, .. } => infos.len() <= 65_000,
        Message::Chunk { bytes, .. } => 1 <= bytes.len() && bytes.len() <= 32_768,
        _ => true,
    }
}

// Puts the bytes of a message at the end, if it has some.
fn push_one(out: &mut Vec<u8>, message: &Message) -> Result<(), NoMemory> {
    if can_encode(message) {
        encode(message, out)?;
    }
    Ok(())
}

// Puts the bytes of messages at the end, as far as each has some.
fn push_all(out: &mut Vec<u8>, messages: &[Message]) -> Result<(), NoMemory> {
    for message in messages {
        push_one(out, message)?;
    }
    Ok(())
}

// The name of a file.
fn name(text: &[u8]) -> Result<FileName, NoMemory> {
    file_name(text).map_err(|_| AllocError)
}

// The metadata of a file of this length.
fn meta(alloc: Global, length: u64) -> Result<FileMetaData, NoMemory> {
    let header = NameBytes::new(alloc, b"header")?;
    Ok(FileMetaData {
        header,
        footer: [7; 16],
        length,
        checksum: 300,
    })
}

// A state of one file and one completed name.
fn state(alloc: Global) -> Result<CopyState, NoMemory> {
    let mut files = List::new(alloc);
    files.push((name(b"_0.docs")?, meta(alloc, 64)?))?;
    let mut completed = List::new(alloc);
    completed.push(name(b"_0.si")?)?;
    Ok(CopyState {
        version: Version(5),
        generation: 1,
        primary_gen: Gen(2),
        infos: Bytes::copy_from_slice(alloc, b"infos")?,
        files,
        completed,
    })
}

// The messages of a small state.
fn messages_of(alloc: Global, state: &CopyState) -> Result<Vec<Message>, NoMemory> {
    if state.files.as_slice().len() > 9 || state.completed.as_slice().len() > 9 {
        return Err(AllocError);
    }
    state_messages(alloc, state)
}

#[test]
fn a_state_in_messages(rt: HostRuntime) -> Result<(), Fail> {
    let alloc = rt.alloc();
    let messages = messages_of(alloc, &state(alloc)?)?;
    let mut stream = Vec::new(alloc);
    push_all(&mut stream, messages.as_slice())?;
    assert_eq!(rt; stream.as_slice(), STREAM);
    let mut decoder = Decoder::new(alloc)?;
    let again = decoder.feed(alloc, STREAM).map_err(|_| AllocError)?;
    let state = state_of(alloc, again.as_slice()).map_err(|_| AllocError)?;
    assert_eq!(rt; (state.version, state.infos.len()), (Version(5), 5));
    Ok(())
}
