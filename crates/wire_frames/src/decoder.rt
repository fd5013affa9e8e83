//! Messages, taken from a stream that comes in pieces.

ghost use Rattle.std.specs.Prelude.{◌≡◌, ◌⊎◌, ◌++◌, ◌≤◌, [], ◌∷◌, length, drop, Err, OnOk, OnErr, IfOk, IfErr, IfSome};
ghost use Rattle.wire_frames.specs.Streams.{BeginsWith, AreMessagesOf, IsUnfinished, IsStreamFault, IsCauseOf, TellsFront};

use crate::encoding::chunk_head;
use crate::message::{Message, WireFault};
use crate::parts::{LONGEST_CHUNK, made, name_of, next_parts};
use body_forms::{u32_of, u64_of};
use bytes::Bytes;
use nrt_base::{NoMemory, Share};
use std::alloc::Global;
use std::marker::Model;

// The message at the front of a stream, and the bytes after it; nothing where its frame is not whole.
fn next_message(alloc: Global, bytes: &[u8]) -> Result<Option<(Message, &[u8])>, WireFault>
    ensures { TellsFront (λ x. (x.0, x.1.now)) bytes.now result }
{
    match next_parts(bytes) {
        Ok(Some((parts, after))) => match made(alloc, parts) {
            Ok(message) => Ok(Some((message, after))),
            Err(_) => Err(WireFault::Memory),
        },
        Ok(None) => Ok(None),
        Err(fault) => Err(fault),
    }
}

// The messages whose frames are whole at the front of the bytes, and the bytes after them.
#[tactic(auto, using(crate::proofs::StreamLaws::begins_none, crate::proofs::StreamLaws::begins_more, crate::proofs::StreamLaws::cause_here))]
fn whole_messages(alloc: Global, bytes: &[u8]) -> Result<(Vec<Message>, &[u8]), WireFault>
    ensures read { IfOk result (λ x. BeginsWith bytes.now x.0.items x.1.now) }
    ensures ended { IfOk result (λ x. IsUnfinished x.1.now) }
    ensures cause { IfErr result (IsCauseOf bytes.now) }
{
    let mut messages = Vec::new(alloc);
    let mut rest = bytes;
    while let Some((message, after)) = next_message(alloc, rest)? {
        messages.push(message)?;
        rest = after;
    }
    Ok((messages, rest))
}

// Cuts the first bytes off. What is left goes into a new vector, since a `drain` moves it byte by byte.
fn cut_front(alloc: Global, held: &mut Vec<u8>, count: usize) -> Result<(), NoMemory>
    requires { count ≤ length held.old.items }
    ensures cut { OnOk result (held.new.items ≡ drop count held.old.items) }
    ensures same { OnErr result (held.new.items ≡ held.old.items) }
{
    if count == 0 {
        return Ok(());
    }
    let (_, left) = held.as_slice().split_at(count);
    let mut rest = Vec::with_capacity(alloc, left.len())?;
    rest.extend_from_slice(left)?;
    *held = rest;
    Ok(())
}

// Takes the messages out whose frames are whole at the front.
fn take_out(alloc: Global, held: &mut Vec<u8>) -> Result<Vec<Message>, WireFault>
    ensures read { IfOk result (λ messages.
        BeginsWith held.old.items messages.items held.new.items) }
    ensures ended { OnOk result (IsUnfinished held.new.items) }
    ensures cause { IfErr result (IsCauseOf held.old.items) }
    ensures same { OnErr result (held.new.items ≡ held.old.items) }
{
    match whole_messages(alloc, held.as_slice()) {
        Ok((messages, rest)) => {
            let whole = held.len() - rest.len();
            cut_front(alloc, held, whole)?;
            Ok(messages)
        }
        Err(fault) => Err(fault),
    }
}

// Takes a piece in behind the bytes that are held, and the messages out whose frames are whole.
fn take_in(alloc: Global, held: &mut Vec<u8>, piece: &[u8]) -> Result<Vec<Message>, WireFault>
    ensures read { IfOk result (λ messages.
        BeginsWith (held.old.items ++ piece.now) messages.items held.new.items) }
    ensures ended { IsUnfinished held.old.items → IsUnfinished held.new.items }
    ensures cause { IfErr result (IsCauseOf (held.old.items ++ piece.now)) }
    ensures same { OnErr result (held.new.items ≡ held.old.items) }
{
    let before = held.len();
    held.extend_from_slice(piece)?;
    match take_out(alloc, held) {
        Ok(messages) => Ok(messages),
        Err(fault) => {
            held.truncate(before);
            Err(fault)
        }
    }
}

// The chunk that ends with a piece: what is held is the head of its frame, and the piece just its bytes, which are shared.
fn ending_chunk(alloc: Global, held: &[u8], piece: &Bytes) -> Result<Option<Message>, NoMemory>
    ensures { IfOk result (λ found. IfSome found (λ chunk.
        BeginsWith (held.now ++ piece.now) (chunk ∷ []) [])) }
{
    let Some((_, rest)) = u32_of(held) else {
        return Ok(None);
    };
    let Some((_, rest)) = rest.split_first() else {
        return Ok(None);
    };
    let Some((name, rest)) = name_of(rest) else {
        return Ok(None);
    };
    let Some((at, _)) = u64_of(rest) else {
        return Ok(None);
    };
    if piece.is_empty() || piece.len() > LONGEST_CHUNK {
        return Ok(None);
    }
    let head = chunk_head(alloc, name, at, piece)?;
    if head.as_slice() != held {
        return Ok(None);
    }
    let bytes = piece.share(alloc)?;
    Ok(Some(Message::Chunk { name, at, bytes }))
}

// Takes a piece in as `take_in` does, and shares its bytes where a chunk ends with it.
fn take_shared(alloc: Global, held: &mut Vec<u8>, piece: &Bytes) -> Result<Vec<Message>, WireFault>
    ensures read { IfOk result (λ messages.
        BeginsWith (held.old.items ++ piece.now) messages.items held.new.items) }
    ensures ended { IsUnfinished held.old.items → IsUnfinished held.new.items }
    ensures cause { IfErr result (IsCauseOf (held.old.items ++ piece.now)) }
    ensures same { OnErr result (held.new.items ≡ held.old.items) }
{
    let Some(chunk) = ending_chunk(alloc, held.as_slice(), piece)? else {
        return take_in(alloc, held, piece.as_slice());
    };
    let mut messages = Vec::with_capacity(alloc, 1)?;
    messages.push(chunk)?;
    held.clear();
    Ok(messages)
}

/// What has come of a stream and is no whole frame yet, seen as these bytes.
#[derive(Debug, Drop)]
pub struct Decoder {
    held: Vec<u8>,
}

impl Model for Decoder {
    ghost use Rattle.std.specs.Prelude.{ℕ, List};
    ghost use Rattle.wire_frames.specs.Streams.{IsUnfinished};

    ghost Value = { List ℕ };

    ghost view = { λ d. d.held.items };

    ghost invariant = { λ d. IsUnfinished d.held.items };
}

impl Decoder {
    /// A decoder at the start of a stream.
    pub fn new(alloc: Global) -> Result<Decoder, NoMemory>
        ensures { IfOk result (λ decoder. decoder ≡ []) }
    {
        Ok(Decoder {
            held: Vec::new(alloc),
        })
    }

    /// Takes the next piece of the stream, and gives the messages whose frames are whole now. The bytes behind them are
    /// held. A refused call leaves the decoder as before.
    #[tactic(auto, using(crate::proofs::StreamLaws::are_messages, crate::proofs::StreamLaws::fault_answer))]
    pub fn feed(&mut self, alloc: Global, piece: &[u8]) -> Result<Vec<Message>, WireFault>
        ensures messages { IfOk result (λ messages.
            AreMessagesOf (self.old ++ piece.now) messages.items self.new) }
        ensures unfinished { IsUnfinished self.new }

        // Each refusal.
        ensures cause { IfErr result (IsCauseOf (self.old ++ piece.now)) }
        ensures fault { (fault : WireFault) → IsStreamFault (self.old ++ piece.now) fault
            → (result ≡ Err fault) ⊎ (result ≡ Err WireFault.Memory) }

        // What stays.
        ensures err { OnErr result (self.new ≡ self.old) }
    {
        take_in(alloc, &mut self.held, piece)
    }

    /// Takes the next piece of the stream as `feed` does. Where what is held is the head of a chunk's frame and the piece just its
    /// bytes, the message has the piece's own bytes, which are not copied.
    #[tactic(auto, using(crate::proofs::StreamLaws::are_messages))]
    pub fn feed_shared(&mut self, alloc: Global, piece: &Bytes) -> Result<Vec<Message>, WireFault>
        ensures messages { IfOk result (λ messages.
            AreMessagesOf (self.old ++ piece.now) messages.items self.new) }
        ensures unfinished { IsUnfinished self.new }
        ensures cause { IfErr result (IsCauseOf (self.old ++ piece.now)) }
        ensures err { OnErr result (self.new ≡ self.old) }
    {
        take_shared(alloc, &mut self.held, piece)
    }

    /// How many bytes are held of a frame that is not whole.
    pub fn rest(&self) -> usize
        ensures rest { result ≡ length self.now }
        ensures unfinished { IsUnfinished self.now }
    {
        self.held.len()
    }
}
