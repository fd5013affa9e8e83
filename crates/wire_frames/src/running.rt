//! A source, read to its end as a stream of frames.

ghost use Rattle.std.specs.Prelude.{◌≡◌, ◌≤◌, ◌<◌, ◌++◌, [], ℕ, List, length, Option, Err, IfOk, IfErr, OnOk};
ghost use Rattle.std.specs.Io.KnownBytes.{ReadConsumes};
ghost use Rattle.nrt_base.specs.Causes.{Rose, HasCause};
ghost use Rattle.wire_frames.specs.Streams.{IsCauseOf, IsUnfinished};
ghost use Rattle.wire_frames.specs.Runs.{HasRead, IsTextOf, SaysFrames, TellsTurn, end_of};

use crate::decoder::Decoder;
use crate::lines::push_lines;
use crate::message::WireFault;
use nrt_streams::{Failed, Source};
use std::alloc::Global;
use thiserror::Error;

/// Why there is no text of a stream.
#[derive(Clone, Copy, Debug, PartialEq, Eq, Error)]
pub enum FramesEnd {
    /// Out of memory.
    #[error("out of memory")]
    Memory,
    /// The source failed.
    #[error("the stream cannot be read")]
    Fault,
    /// The source has more bytes than are read of a stream.
    #[error("a stream has at most 16777216 bytes")]
    TooLarge,
    /// The first faulty frame has the fault with this number, 1 to 3; or, for 4, the stream ended in a frame.
    #[error("bad stream, cause {0}")]
    BadStream(u8),
}

/// The most bytes that are read of a stream.
pub const LONGEST_STREAM: usize = 16_777_216;

const PIECE: usize = 65_536;

// The answer to a fault.
fn end_of(fault: WireFault) -> FramesEnd
    ensures { result ≡ end_of fault }
{
    match fault {
        WireFault::Length(_) => FramesEnd::BadStream(1),
        WireFault::Kind(_) => FramesEnd::BadStream(2),
        WireFault::Body => FramesEnd::BadStream(3),
        WireFault::Memory => FramesEnd::Memory,
    }
}

// Feeds a piece, and puts the lines of its messages at the end of the text.
fn feed_piece(
    alloc: Global,
    decoder: &mut Decoder,
    piece: &[u8],
    text: &mut Vec<u8>,
) -> Result<(), WireFault>
    ensures read { OnOk result ((bytes : List ℕ) → HasRead bytes decoder.old text.old.items
        → HasRead (bytes ++ piece.now) decoder.new text.new.items) }
    ensures cause { IfErr result (λ fault. (bytes : List ℕ)
        → HasRead bytes decoder.old text.old.items → IsCauseOf (bytes ++ piece.now) fault) }
{
    let messages = decoder.feed(alloc, piece)?;
    push_lines(text, alloc, messages.as_slice())?;
    Ok(())
}

// Reads at most so many bytes into the front of the space.
fn read_within<S: Source>(source: &mut S, space: &mut [u8], room: usize) -> Result<usize, Failed>
    requires some { 1 ≤ room }
    requires within { room ≤ length space.old }
    ensures most { IfOk result (λ n. n ≤ room) }
    ensures bytes { ReadConsumes (S.left source.old) (S.left source.new) result space.new }
    ensures cause { HasCause (S.fault_count source.old) (S.fault_count source.new) result }
{
    source.read(&mut space[..room])
}

// Reads a piece and feeds it, where so many bytes were taken before: how many bytes came, or nothing at the source's end.
fn turn<S: Source>(
    alloc: Global,
    source: &mut S,
    space: &mut [u8],
    taken: usize,
    decoder: &mut Decoder,
    text: &mut Vec<u8>,
) -> Result<Option<usize>, FramesEnd>
    requires space { length space.old ≡ 65536 }
    requires within { taken ≤ 16777216 }
    ensures turn { (before : Option (List ℕ)) → TellsTurn before (S.left source.old)
        (S.left source.new) taken decoder.old text.old.items decoder.new text.new.items result }
    ensures later { S.fault_count source.old ≤ S.fault_count source.new }
    ensures fault { result ≡ Err FramesEnd.Fault → Rose (S.fault_count source.old)
        (S.fault_count source.new) }
{
    let room = PIECE.min(LONGEST_STREAM - taken).max(1);
    let count = match read_within(source, space, room) {
        Ok(count) => count,
        Err(_) => return Err(FramesEnd::Fault),
    };
    let _ = decoder.rest();
    if count == 0 {
        return Ok(None);
    }
    if taken == LONGEST_STREAM {
        return Err(FramesEnd::TooLarge);
    }
    match feed_piece(alloc, decoder, &space[..count], text) {
        Ok(()) => Ok(Some(count)),
        Err(fault) => Err(end_of(fault)),
    }
}

// The text at the end of a stream.
fn ended(decoder: &Decoder, text: Vec<u8>) -> Result<Vec<u8>, FramesEnd>
    ensures text { IfOk result (λ given. (given.items ≡ text.items) × (decoder.now ≡ [])) }
    ensures refusal { IfErr result (λ end. (end ≡ FramesEnd.BadStream 4) × (0 < length decoder.now)) }
    ensures unfinished { IsUnfinished decoder.now }
{
    if decoder.rest() == 0 {
        Ok(text)
    } else {
        Err(FramesEnd::BadStream(4))
    }
}

/// Reads a source to its end, and gives the lines of the messages of its bytes. Each piece is fed as it comes, and no more is
/// read behind a faulty frame.
pub fn run_frames<S: Source>(alloc: Global, source: &mut S) -> Result<Vec<u8>, FramesEnd>
    ensures text { IfOk result (λ text. IsTextOf (S.left source.old) (S.left source.new) text.items) }
    ensures refusal { IfErr result (SaysFrames (S.left source.old) (S.left source.new)) }
    ensures later { S.fault_count source.old ≤ S.fault_count source.new }
    ensures fault { result ≡ Err FramesEnd.Fault → Rose (S.fault_count source.old)
        (S.fault_count source.new) }
{
    let Ok(decoder) = Decoder::new(alloc) else {
        return Err(FramesEnd::Memory);
    };
    let Ok(mut space) = vec![in alloc; 0u8; PIECE] else {
        return Err(FramesEnd::Memory);
    };
    read_stream(alloc, source, space.as_mut_slice(), decoder)
}

// Reads a source to its end, into this space.
fn read_stream<S: Source>(
    alloc: Global,
    source: &mut S,
    space: &mut [u8],
    mut decoder: Decoder,
) -> Result<Vec<u8>, FramesEnd>
    requires space { length space.old ≡ 65536 }
    requires new { decoder ≡ [] }
    ensures text { IfOk result (λ text. IsTextOf (S.left source.old) (S.left source.new) text.items) }
    ensures refusal { IfErr result (SaysFrames (S.left source.old) (S.left source.new)) }
    ensures later { S.fault_count source.old ≤ S.fault_count source.new }
    ensures fault { result ≡ Err FramesEnd.Fault → Rose (S.fault_count source.old)
        (S.fault_count source.new) }
{
    let mut text = Vec::new(alloc);
    let mut taken = 0;
    for number in 0..LONGEST_STREAM + 1 {
        match turn(alloc, source, space, taken, &mut decoder, &mut text) {
            Ok(Some(count)) => taken += count,
            Ok(None) => return ended(&decoder, text),
            Err(end) => return Err(end),
        }
    }
    unreachable!()
}
