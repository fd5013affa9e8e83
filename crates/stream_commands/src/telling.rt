//! The command that tells the messages of a stream of frames.

ghost use Rattle.std.specs.Prelude.{◌≡◌, ◌≢◌, ◌<◌, ◌^◌, ◌-◌, ℕ};
ghost use Rattle.wire_frames.specs.Runs.{GaveBadStream, GaveMore};
ghost use Rattle.stream_commands.specs.Reads.{TakesWithin};
ghost use Rattle.stream_commands.specs.Frames.{RanFrames, RanFramesInPart, IsFramesAnswer};
ghost use Rattle.stream_commands.specs.Complete.{NoneFailed, OffersMessages, IsDoneOrMemory};

use crate::status::Status;
use crate::writing::write_all;
use nrt_base::LineNo;
use nrt_streams::{Sink, Source};
use script_text::LineFault;
use std::alloc::Global;
use wire_frames::{FramesEnd, run_frames};

/// Reads a stream of frames from the source, and writes the lines of its messages to the sink.
#[tactic(auto, using(crate::proofs::FrameAnswers::text_answer, crate::proofs::FrameAnswers::bad_answer, crate::proofs::Complete::all_done, crate::proofs::Complete::out_of_memory, crate::proofs::Complete::not_unread, crate::proofs::Complete::not_unwritten, crate::proofs::Complete::stream_not_more))]
pub fn frames_source<S: Source, K: Sink>(alloc: Global, source: &mut S, sink: &mut K) -> Status
    requires reads { S.fault_count source.old < 2 ^ 64 - 1 }
    requires writes { K.fault_count sink.old < 2 ^ 64 - 1 }
    ensures done { result ≡ Status.Done → RanFrames (S.left source.old) (S.left source.new)
        (K.held sink.old) (K.held sink.new) }
    ensures part { result ≡ Status.WriteFault → RanFramesInPart (S.left source.old)
        (S.left source.new) (K.held sink.old) (K.held sink.new) }
    ensures bad { (k : ℕ) → result ≡ Status.BadStream k → GaveBadStream (S.left source.old)
        (S.left source.new) k }
    ensures answers { result ≢ Status.ReadFault → result ≢ Status.TooLarge → result ≢ Status.Memory
        → IsFramesAnswer (S.left source.old) (S.left source.new) result }
    ensures read { result ≡ Status.ReadFault → S.fault_count source.old < S.fault_count source.new }
    ensures write { result ≡ Status.WriteFault → K.fault_count sink.old < K.fault_count sink.new }
    ensures large { result ≡ Status.TooLarge → GaveMore (S.left source.old) (S.left source.new) }
    ensures small { result ≢ Status.TooLarge → result ≢ Status.Memory
        → TakesWithin (S.left source.old) (S.left source.new) }
    ensures kept { result ≢ Status.Done → result ≢ Status.WriteFault → sink.new ≡ sink.old }
    ensures others { (result ≢ Status.Usage) × (result ≢ Status.BadIndex) ×
        (result ≢ Status.BadImage) × ((n : LineNo) (cause : LineFault)
        → result ≢ Status.BadScript n cause) }
    ensures complete { OffersMessages (S.left source.old)
        → NoneFailed (S.fault_count source.old) (S.fault_count source.new)
        (K.fault_count sink.old) (K.fault_count sink.new) → IsDoneOrMemory result }
{
    let text = match run_frames(alloc, source) {
        Ok(text) => text,
        Err(FramesEnd::Memory) => return Status::Memory,
        Err(FramesEnd::Fault) => return Status::ReadFault,
        Err(FramesEnd::TooLarge) => return Status::TooLarge,
        Err(FramesEnd::BadStream(k)) => return Status::BadStream(k),
    };
    match write_all(sink, text.as_slice()) {
        Ok(()) => Status::Done,
        Err(_) => Status::WriteFault,
    }
}
