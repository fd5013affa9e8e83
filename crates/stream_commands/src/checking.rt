//! The command that checks an image of a directory.

ghost use Rattle.std.specs.Prelude.{◌≡◌, ◌≢◌, ◌<◌, ◌^◌, ◌-◌, ℕ, List};
ghost use Rattle.nrt_base.specs.Causes.{Rose};
ghost use Rattle.index_check.specs.Images.{NamedFile, IsImageOf, IsNoImage};
ghost use Rattle.stream_commands.specs.Reads.{TakesWithin, TakesMore};
ghost use Rattle.stream_commands.specs.Complete.{NoneFailed, OffersImage, IsCheckedOrMemory};
ghost use Rattle.stream_commands.specs.Check.{TellsRight, TellsWrong, TellsInPart, IsCheckAnswer, RanCheck, FoundWrong, RanCheckInPart, GaveNoImage, AnswersCheck};

use crate::reading::{ReadEnd, read_all};
use crate::status::Status;
use crate::writing::write_all;
use index_check::{ImageFault, check_image};
use nrt_base::LineNo;
use nrt_streams::{Sink, Source};
use script_text::LineFault;
use std::alloc::Global;

/// Checks the directory of which the bytes are the image, and writes the line of its check.
#[tactic(auto, using(crate::proofs::CheckAnswers::bad_image, crate::proofs::CheckAnswers::checked_answer, crate::proofs::CheckAnswers::told_right, crate::proofs::CheckAnswers::told_wrong, crate::proofs::CheckAnswers::told_in_part, crate::proofs::Complete::checked_right, crate::proofs::Complete::checked_wrong, crate::proofs::Complete::unchecked, crate::proofs::Complete::check_not_unwritten, crate::proofs::Complete::is_an_image))]
fn check_bytes<K: Sink>(alloc: Global, bytes: &[u8], sink: &mut K) -> Status
    requires writes { K.fault_count sink.old < 2 ^ 64 - 1 }
    ensures done { result ≡ Status.Done → TellsRight bytes.now (K.held sink.old) (K.held sink.new) }
    ensures wrong { result ≡ Status.BadIndex → TellsWrong bytes.now (K.held sink.old)
        (K.held sink.new) }
    ensures part { result ≡ Status.WriteFault → TellsInPart bytes.now (K.held sink.old)
        (K.held sink.new) }
    ensures bad { result ≡ Status.BadImage → IsNoImage bytes.now }
    ensures answers { result ≢ Status.Memory → IsCheckAnswer bytes.now result }
    ensures write { result ≡ Status.WriteFault → Rose (K.fault_count sink.old)
        (K.fault_count sink.new) }
    ensures kept { result ≢ Status.Done → result ≢ Status.BadIndex → result ≢ Status.WriteFault
        → sink.new ≡ sink.old }
    ensures others { (result ≢ Status.Usage) × (result ≢ Status.ReadFault) ×
        (result ≢ Status.TooLarge) × ((n : LineNo) (cause : LineFault)
        → result ≢ Status.BadScript n cause) × ((k : ℕ) → result ≢ Status.BadStream k) }
    ensures complete { (files : List NamedFile) → IsImageOf bytes.now files
        → K.fault_count sink.new ≡ K.fault_count sink.old → IsCheckedOrMemory result }
{
    let checked = match check_image(alloc, bytes) {
        Ok(checked) => checked,
        Err(ImageFault::Memory) => return Status::Memory,
        Err(ImageFault::Body) => return Status::BadImage,
    };
    match write_all(sink, checked.line.as_slice()) {
        Ok(()) => match checked.fault {
            None => Status::Done,
            Some(_) => Status::BadIndex,
        },
        Err(_) => Status::WriteFault,
    }
}

/// Reads an image of a directory from the source, checks the directory, and writes the line of its check to the sink.
#[tactic(auto, using(crate::proofs::Complete::unchecked, crate::proofs::Complete::check_not_unread, crate::proofs::Complete::image_not_more, crate::proofs::Complete::image_checked))]
pub fn check_source<S: Source, K: Sink>(alloc: Global, source: &mut S, sink: &mut K) -> Status
    requires reads { S.fault_count source.old < 2 ^ 64 - 1 }
    requires writes { K.fault_count sink.old < 2 ^ 64 - 1 }
    ensures done { result ≡ Status.Done → RanCheck (S.left source.old) (S.left source.new)
        (K.held sink.old) (K.held sink.new) }
    ensures wrong { result ≡ Status.BadIndex → FoundWrong (S.left source.old) (S.left source.new)
        (K.held sink.old) (K.held sink.new) }
    ensures part { result ≡ Status.WriteFault → RanCheckInPart (S.left source.old)
        (S.left source.new) (K.held sink.old) (K.held sink.new) }
    ensures bad { result ≡ Status.BadImage → GaveNoImage (S.left source.old) (S.left source.new) }
    ensures answers { result ≢ Status.ReadFault → result ≢ Status.TooLarge → result ≢ Status.Memory
        → AnswersCheck (S.left source.old) (S.left source.new) result }
    ensures read { result ≡ Status.ReadFault → S.fault_count source.old < S.fault_count source.new }
    ensures write { result ≡ Status.WriteFault → K.fault_count sink.old < K.fault_count sink.new }
    ensures large { result ≡ Status.TooLarge → TakesMore (S.left source.old) (S.left source.new) }
    ensures small { result ≢ Status.TooLarge → result ≢ Status.Memory
        → TakesWithin (S.left source.old) (S.left source.new) }
    ensures kept { result ≢ Status.Done → result ≢ Status.BadIndex → result ≢ Status.WriteFault
        → sink.new ≡ sink.old }
    ensures others { (result ≢ Status.Usage) × ((n : LineNo) (cause : LineFault)
        → result ≢ Status.BadScript n cause) × ((k : ℕ) → result ≢ Status.BadStream k) }
    ensures complete { OffersImage (S.left source.old)
        → NoneFailed (S.fault_count source.old) (S.fault_count source.new)
        (K.fault_count sink.old) (K.fault_count sink.new) → IsCheckedOrMemory result }
{
    match read_all(alloc, source) {
        Ok(bytes) => check_bytes(alloc, bytes.as_slice(), sink),
        Err(ReadEnd::Memory) => Status::Memory,
        Err(ReadEnd::Fault) => Status::ReadFault,
        Err(ReadEnd::TooLarge) => Status::TooLarge,
    }
}
