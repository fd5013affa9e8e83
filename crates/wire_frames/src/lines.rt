//! The lines of messages.

ghost use Rattle.std.specs.Prelude.{◌≡◌, ◌++◌, ◌∷◌, [], OnOk, codes};
ghost use Rattle.std.specs.Fmt.{decimal};
ghost use Rattle.std.specs.List.{flat_map};
ghost use Rattle.wire_frames.specs.Lines.{spaced, message_words, message_line};

use crate::message::Message;
use nrt_base::NoMemory;
use std::alloc::Global;

// Puts a number at the end, behind a space.
fn push_number(out: &mut Vec<u8>, alloc: Global, number: u64) -> Result<(), NoMemory>
    ensures { OnOk result (out.new.items ≡ out.old.items ++ spaced (decimal number)) }
{
    out.push(b' ')?;
    out.extend_from_slice(format!(in alloc; "{number}")?.as_bytes())
}

// Puts two numbers at the end, each behind a space.
fn push_two(out: &mut Vec<u8>, alloc: Global, first: u64, second: u64) -> Result<(), NoMemory>
    ensures { OnOk result (out.new.items ≡ out.old.items
        ++ (spaced (decimal first) ++ spaced (decimal second))) }
{
    push_number(out, alloc, first)?;
    push_number(out, alloc, second)
}

// Puts a name at the end, behind a word.
fn push_named(out: &mut Vec<u8>, word: &[u8], name: &[u8]) -> Result<(), NoMemory>
    ensures { OnOk result (out.new.items ≡ out.old.items ++ (word.now ++ spaced name.now)) }
{
    out.extend_from_slice(word)?;
    out.push(b' ')?;
    out.extend_from_slice(name)
}

// Puts what the line of a message has at the end, without the line feed.
fn push_words(out: &mut Vec<u8>, alloc: Global, m: &Message) -> Result<(), NoMemory>
    ensures { OnOk result (out.new.items ≡ out.old.items ++ message_words m.now) }
{
    match m {
        Message::Notice {
            generation,
            version,
        } => {
            out.extend_from_slice(b"notice")?;
            push_two(out, alloc, generation.0, version.0)
        }
        Message::State {
            version,
            generation,
            primary_gen,
            files,
            completed,
            ..
        } => {
            out.extend_from_slice(b"state")?;
            push_two(out, alloc, version.0, *generation)?;
            push_number(out, alloc, primary_gen.0)?;
            push_two(out, alloc, u64::from(*files), u64::from(*completed))
        }
        Message::File { name, meta } => {
            push_named(out, b"file", name.as_slice())?;
            push_number(out, alloc, meta.length)
        }
        Message::Completed { name } => push_named(out, b"completed", name.as_slice()),
        Message::Chunk { name, at, bytes } => {
            push_named(out, b"chunk", name.as_slice())?;
            push_two(out, alloc, *at, bytes.len() as u64)
        }
    }
}

/// Puts the lines of messages at the end.
pub fn push_lines(out: &mut Vec<u8>, alloc: Global, messages: &[Message]) -> Result<(), NoMemory>
    ensures { OnOk result (out.new.items ≡ out.old.items ++ flat_map message_line messages.now) }
{
    for message in messages {
        push_words(out, alloc, message)?;
        out.push(b'\n')?;
    }
    Ok(())
}
