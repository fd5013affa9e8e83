//! The whole program: what its arguments ask for, and the answer to it.

ghost use Rattle.std.specs.Prelude.{◌≡◌, ◌<◌, ◌-◌, ◌^◌, ◌↔◌, ◌≢◌, ℕ, None, IsSomeAnd};
ghost use Rattle.nrt_commands.specs.Headline.{Ran, RanInPart, IsRun, LeavesRun, LeavesRunInPart};
ghost use Rattle.stream_commands.specs.Scripts.{AnswersWhole, Refuses};
ghost use Rattle.stream_commands.specs.Reads.{TakesWithin, TakesMore};
ghost use Rattle.wire_frames.specs.Runs.{GaveBadStream, GaveMore};
ghost use Rattle.stream_commands.specs.Frames.{IsFrames, RanFrames, RanFramesInPart, IsFramesAnswer};
ghost use Rattle.stream_commands.specs.Check.{IsCheck, RanCheck, FoundWrong, RanCheckInPart, GaveNoImage, AnswersCheck};
ghost use Rattle.stream_commands.specs.Complete.{NoneFailed, OffersScript, OffersMessages, OffersImage, IsDoneOrMemory, IsCheckedOrMemory};
ghost use Rattle.stream_commands.specs.Judge.{IsJudge, RanJudge, FoundIllegal, RanJudgeInPart, RefusesJudge, AnswersJudge};
ghost use Rattle.nrt_commands.specs.Load.{IsLoad, IsLoadOf, LeavesSummary, LeavesSummaryInPart, IsLoadAnswer};
ghost use Rattle.run_picture.specs.Picture.{picture_of};
ghost use Rattle.run_drawing.specs.Drawing.{drawing_of};
ghost use Rattle.stream_commands.specs.Pictures.{IsPicture, IsDrawing, IsShowing, Showed, ShowedInPart, RefusesShown, AnswersShown, OffersShown};
ghost use Rattle.nrt_commands.specs.NodeTexts.{IsImageRow, IsSendRow, AnswersNode};
ghost use Rattle.nrt_commands.specs.Rows.{IsKnownRow};

use crate::loading::load;
use crate::nodes::{NodeText, node_source};
use crate::showing::show_source;
use cluster_run::{Cluster, Gate, let_go, run_script};
use disk_memory::MemDir;
use nrt_base::LineNo;
use nrt_streams::{Arg, Sink, Source};
use report_text::report_entries;
use script_text::LineFault;
use std::alloc::Global;
use std::sync::Wait;
use std::thread::Threads;
use stream_commands::{
    PictureKind, ReadEnd, Status, check_source, frames_source, is_pair, is_word, judge_source,
    number_asked, read_all, read_script, write_all,
};

/// Reads a script from the source, runs it, and writes its report to the sink.
#[tactic(auto, using(crate::proofs::Leaving::report_is, crate::proofs::Leaving::leaves_text, crate::proofs::Leaving::leaves_front, crate::proofs::Leaving::answers_text, crate::proofs::Leaving::answers_front, stream_commands::proofs::AnswerLaws::run_answer, stream_commands::proofs::AnswerLaws::refusal_answer))]
fn run_source<R: Threads + Wait + Sync, S: Source, K: Sink, G: Gate + Sync>(
    rt: &R,
    alloc: Global,
    gate: &G,
    source: &mut S,
    sink: &mut K,
    left: &mut Option<Cluster<MemDir>>,
) -> Status
    requires reads { S.fault_count source.old < 2 ^ 64 - 1 }
    requires writes { K.fault_count sink.old < 2 ^ 64 - 1 }
    requires empty { left.old ≡ None }
    ensures done { result ≡ Status.Done → Ran (S.left source.old) (S.left source.new)
        (K.held sink.old) (K.held sink.new) }
    ensures part { result ≡ Status.WriteFault → RanInPart (S.left source.old) (S.left source.new)
        (K.held sink.old) (K.held sink.new) }
    ensures bad { (n : LineNo) (cause : LineFault) → result ≡ Status.BadScript n cause → Refuses
        (S.left source.old) (S.left source.new) n.0 cause }
    ensures answers { result ≢ Status.ReadFault → result ≢ Status.TooLarge → result ≢ Status.Memory
        → AnswersWhole (S.left source.old) (S.left source.new) result }
    ensures read { result ≡ Status.ReadFault → S.fault_count source.old < S.fault_count source.new }
    ensures write { result ≡ Status.WriteFault → K.fault_count sink.old < K.fault_count sink.new }
    ensures large { result ≡ Status.TooLarge → TakesMore (S.left source.old) (S.left source.new) }
    ensures small { result ≢ Status.TooLarge → result ≢ Status.Memory
        → TakesWithin (S.left source.old) (S.left source.new) }
    ensures kept { result ≢ Status.Done → result ≢ Status.WriteFault → sink.new ≡ sink.old }
    ensures others { (result ≢ Status.Usage) × (result ≢ Status.BadIndex) ×
        (result ≢ Status.BadImage) × ((k : ℕ) → result ≢ Status.BadStream k) }

    // The cluster that is left.
    ensures whole { result ≡ Status.Done → IsSomeAnd left.new (LeavesRun (S.left source.old)
        (S.left source.new) (K.held sink.old) (K.held sink.new)) }
    ensures front { result ≡ Status.WriteFault → IsSomeAnd left.new (LeavesRunInPart
        (S.left source.old) (S.left source.new) (K.held sink.old) (K.held sink.new)) }
    ensures none { result ≢ Status.Done → result ≢ Status.WriteFault → left.new ≡ None }
{
    let bytes = match read_all(alloc, source) {
        Ok(bytes) => bytes,
        Err(ReadEnd::Memory) => return Status::Memory,
        Err(ReadEnd::Fault) => return Status::ReadFault,
        Err(ReadEnd::TooLarge) => return Status::TooLarge,
    };
    let script = match read_script(alloc, bytes.as_slice()) {
        Ok(script) => script,
        Err(status) => return status,
    };
    let Ok(cluster) = run_script(rt, alloc, gate, &script) else {
        return Status::Memory;
    };
    let Ok(text) = report_entries(alloc, cluster.entries()) else {
        let_go(Some(cluster));
        return Status::Memory;
    };
    let_go(left.replace(cluster));
    match write_all(sink, text.as_slice()) {
        Ok(()) => Status::Done,
        Err(_) => Status::WriteFault,
    }
}

/// The whole program.
///
/// `run`: it reads a script from the source, runs it, and writes its report to the sink. Where it is done, the source
/// was read to its end, its bytes are a script, and the sink gained the text of a legal history
/// that serves that script. Then, and where the sink failed, `kept` has the cluster that ran it: it has not ended, the text is that of
/// its history, and each printed entry tells what is so of inner work. `BadScript` names the first line that is refused,
/// and why.
///
/// `frames`: it reads a stream of frames from the source, and writes a line for each message to the sink. Where it is
/// done, the source was read to its end, and the sink gained the lines of the messages of its bytes, and nothing else.
/// `BadStream` tells the fault of the first faulty frame, or that the stream ends within a frame.
///
/// `check`: it reads an image of a directory from the source, checks the directory, and writes the line of its check to the
/// sink. Where it is done, the source was read to its end, and the directory has no commit, or stands for the documents of
/// the newest. `BadIndex` names the first thing that is wrong with it, and `BadImage` says that the bytes are no image.
///
/// `load N`: it runs the generated script of N documents, N from 1 to 10,000, and writes its summary to the sink; it reads nothing. Where
/// it is done, the totals that the sink gained are those of the scan over the documents that the script leaves, whatever the lanes'
/// threads did in between, and `kept` has the cluster that ran it. But for want of memory a load is done, or the sink failed.
///
/// `judge`: it reads a script, a line `report` and a report from the source, judges the report, and writes the line of the judgement to the
/// sink. Where it is done, the source was read to its end, and the report is the text of a legal history that serves the script. `BadReport`
/// says that it goes wrong, and the sink gained the line that says where and why.
///
/// `picture`: it runs a script as `run` does, and writes a row for each entry of its history to the sink, with what the entries up to it
/// show of each node. `picture svg` writes the drawing of that history. Behind a line `report` they read a report, which is judged and shown
/// in place of a run; where it goes wrong the sink gains the line that says where and why. Both leave no cluster in `kept`.
///
/// `image N`: it runs a script as `run` does, and writes the image of the directory that it leaves at node N, N from 1 to 16, to the sink;
/// `check` reads such an image. `NoSuchNode` says that the script has fewer nodes, and nothing was run. It leaves no cluster in `kept`.
///
/// `send N`: it runs a script in the same way, and writes the frames that a copy of the newest point to node N takes to the sink: the copy
/// state of the primary's point, and the files of it that the node lacks; `frames` reads them. `NoCopy` says that no primary runs, or that
/// the node is down or is the primary. It leaves no cluster in `kept`.
///
/// On every answer but `Done`, `WriteFault`, `BadIndex` and `BadReport` the sink is as before.
#[tactic(auto, using(stream_commands::proofs::Numbers::one_word, stream_commands::proofs::Numbers::no_word, crate::proofs::Loads::takes_none, stream_commands::proofs::Complete::script_done, stream_commands::proofs::Complete::shown_done, stream_commands::proofs::Complete::load_done))]
pub fn run_nrt<R: Threads + Wait + Sync, S: Source, K: Sink, G: Gate + Sync>(
    rt: &R,
    alloc: Global,
    words: &[Arg],
    source: &mut S,
    sink: &mut K,
    gate: &G,
    kept: &mut Option<Cluster<MemDir>>,
) -> Status
    requires reads { S.fault_count source.old < 2 ^ 64 - 1 }
    requires writes { K.fault_count sink.old < 2 ^ 64 - 1 }
    requires empty { kept.old ≡ None }

    // The words.
    ensures usage { result ≡ Status.Usage ↔ ¬ IsKnownRow words.now }
    ensures unread { result ≡ Status.Usage → source.new ≡ source.old }

    // `run`.
    ensures done { IsRun words.now → result ≡ Status.Done → Ran (S.left source.old)
        (S.left source.new) (K.held sink.old) (K.held sink.new) }
    ensures part { IsRun words.now → result ≡ Status.WriteFault → RanInPart (S.left source.old)
        (S.left source.new) (K.held sink.old) (K.held sink.new) }
    ensures bad { (n : LineNo) (cause : LineFault) → IsRun words.now
        → result ≡ Status.BadScript n cause
        → Refuses (S.left source.old) (S.left source.new) n.0 cause }
    ensures answers { IsRun words.now → result ≢ Status.ReadFault → result ≢ Status.TooLarge
        → result ≢ Status.Memory → AnswersWhole (S.left source.old) (S.left source.new) result }

    // The cluster that `run` leaves.
    ensures leaves { IsRun words.now → result ≡ Status.Done → IsSomeAnd kept.new (LeavesRun
        (S.left source.old) (S.left source.new) (K.held sink.old) (K.held sink.new)) }
    ensures leaves_part { IsRun words.now → result ≡ Status.WriteFault → IsSomeAnd kept.new
        (LeavesRunInPart (S.left source.old) (S.left source.new) (K.held sink.old) (K.held sink.new)) }
    ensures leaves_none { result ≢ Status.Done → result ≢ Status.WriteFault → kept.new ≡ None }
    ensures leaves_run { ¬ IsRun words.now → ¬ IsLoad words.now → kept.new ≡ None }

    // `frames`.
    ensures frames_done { IsFrames words.now → result ≡ Status.Done → RanFrames (S.left source.old)
        (S.left source.new) (K.held sink.old) (K.held sink.new) }
    ensures frames_part { IsFrames words.now → result ≡ Status.WriteFault → RanFramesInPart
        (S.left source.old) (S.left source.new) (K.held sink.old) (K.held sink.new) }
    ensures frames_bad { (k : ℕ) → result ≡ Status.BadStream k → GaveBadStream (S.left source.old)
        (S.left source.new) k }
    ensures frames_answers { IsFrames words.now → result ≢ Status.ReadFault
        → result ≢ Status.TooLarge → result ≢ Status.Memory
        → IsFramesAnswer (S.left source.old) (S.left source.new) result }
    ensures frames_large { IsFrames words.now → result ≡ Status.TooLarge
        → GaveMore (S.left source.old) (S.left source.new) }

    // `check`.
    ensures check_done { IsCheck words.now → result ≡ Status.Done → RanCheck (S.left source.old)
        (S.left source.new) (K.held sink.old) (K.held sink.new) }
    ensures check_wrong { result ≡ Status.BadIndex → FoundWrong (S.left source.old)
        (S.left source.new) (K.held sink.old) (K.held sink.new) }
    ensures check_part { IsCheck words.now → result ≡ Status.WriteFault → RanCheckInPart
        (S.left source.old) (S.left source.new) (K.held sink.old) (K.held sink.new) }
    ensures check_bad { result ≡ Status.BadImage → GaveNoImage (S.left source.old)
        (S.left source.new) }
    ensures check_answers { IsCheck words.now → result ≢ Status.ReadFault
        → result ≢ Status.TooLarge → result ≢ Status.Memory
        → AnswersCheck (S.left source.old) (S.left source.new) result }

    // `load`.
    ensures load_done { (n : ℕ) → IsLoadOf words.now n → result ≡ Status.Done
        → IsSomeAnd kept.new (LeavesSummary n (K.held sink.old) (K.held sink.new)) }
    ensures load_part { (n : ℕ) → IsLoadOf words.now n → result ≡ Status.WriteFault
        → IsSomeAnd kept.new (LeavesSummaryInPart n (K.held sink.old) (K.held sink.new)) }
    ensures load_answers { IsLoad words.now → result ≢ Status.Memory → IsLoadAnswer result }
    ensures load_unread { IsLoad words.now → source.new ≡ source.old }

    // `judge`.
    ensures judge_done { IsJudge words.now → result ≡ Status.Done → RanJudge (S.left source.old)
        (S.left source.new) (K.held sink.old) (K.held sink.new) }
    ensures judge_wrong { IsJudge words.now → result ≡ Status.BadReport → FoundIllegal
        (S.left source.old) (S.left source.new) (K.held sink.old) (K.held sink.new) }
    ensures judge_part { IsJudge words.now → result ≡ Status.WriteFault → RanJudgeInPart
        (S.left source.old) (S.left source.new) (K.held sink.old) (K.held sink.new) }
    ensures judge_bad { (n : LineNo) (cause : LineFault) → IsJudge words.now
        → result ≡ Status.BadScript n cause
        → RefusesJudge (S.left source.old) (S.left source.new) n.0 cause }
    ensures judge_answers { IsJudge words.now → result ≢ Status.ReadFault
        → result ≢ Status.TooLarge → result ≢ Status.Memory
        → AnswersJudge (S.left source.old) (S.left source.new) result }

    // `picture`, and `picture svg`.
    ensures picture_done { IsPicture words.now → result ≡ Status.Done → Showed picture_of
        (S.left source.old) (S.left source.new) (K.held sink.old) (K.held sink.new) }
    ensures picture_part { IsPicture words.now → result ≡ Status.WriteFault → ShowedInPart picture_of
        (S.left source.old) (S.left source.new) (K.held sink.old) (K.held sink.new) }
    ensures drawing_done { IsDrawing words.now → result ≡ Status.Done → Showed drawing_of
        (S.left source.old) (S.left source.new) (K.held sink.old) (K.held sink.new) }
    ensures drawing_part { IsDrawing words.now → result ≡ Status.WriteFault → ShowedInPart drawing_of
        (S.left source.old) (S.left source.new) (K.held sink.old) (K.held sink.new) }
    ensures shows_wrong { IsShowing words.now → result ≡ Status.BadReport → FoundIllegal
        (S.left source.old) (S.left source.new) (K.held sink.old) (K.held sink.new) }
    ensures shows_bad { (n : LineNo) (cause : LineFault) → IsShowing words.now
        → result ≡ Status.BadScript n cause
        → RefusesShown (S.left source.old) (S.left source.new) n.0 cause }
    ensures shows_answers { IsShowing words.now → result ≢ Status.ReadFault
        → result ≢ Status.TooLarge → result ≢ Status.Memory
        → AnswersShown (S.left source.old) (S.left source.new) result }

    // `image N`, and `send N`.
    ensures image { (n : ℕ) → IsImageRow words.now n → result ≢ Status.ReadFault
        → result ≢ Status.TooLarge → result ≢ Status.Memory
        → AnswersNode NodeText.Image n (S.left source.old) (S.left source.new) (K.held sink.old)
        (K.held sink.new) result }
    ensures send { (n : ℕ) → IsSendRow words.now n → result ≢ Status.ReadFault
        → result ≢ Status.TooLarge → result ≢ Status.Memory
        → AnswersNode NodeText.Frames n (S.left source.old) (S.left source.new) (K.held sink.old)
        (K.held sink.new) result }

    // Where no read and no write failed, and the source has left what is asked for, all is done, or memory ran out.
    ensures complete { IsRun words.now → OffersScript (S.left source.old)
        → NoneFailed (S.fault_count source.old) (S.fault_count source.new)
        (K.fault_count sink.old) (K.fault_count sink.new) → IsDoneOrMemory result }
    ensures frames_complete { IsFrames words.now → OffersMessages (S.left source.old)
        → NoneFailed (S.fault_count source.old) (S.fault_count source.new)
        (K.fault_count sink.old) (K.fault_count sink.new) → IsDoneOrMemory result }
    ensures check_complete { IsCheck words.now → OffersImage (S.left source.old)
        → NoneFailed (S.fault_count source.old) (S.fault_count source.new)
        (K.fault_count sink.old) (K.fault_count sink.new) → IsCheckedOrMemory result }
    ensures shows_complete { IsShowing words.now → OffersShown (S.left source.old)
        → NoneFailed (S.fault_count source.old) (S.fault_count source.new)
        (K.fault_count sink.old) (K.fault_count sink.new) → IsDoneOrMemory result }
    ensures load_complete { IsLoad words.now
        → K.fault_count sink.new ≡ K.fault_count sink.old → IsDoneOrMemory result }

    // All.
    ensures read { result ≡ Status.ReadFault → S.fault_count source.old < S.fault_count source.new }
    ensures write { result ≡ Status.WriteFault → K.fault_count sink.old < K.fault_count sink.new }
    ensures large { result ≡ Status.TooLarge → TakesMore (S.left source.old) (S.left source.new) }
    ensures small { result ≢ Status.TooLarge → result ≢ Status.Memory → result ≢ Status.Usage
        → TakesWithin (S.left source.old) (S.left source.new) }
    ensures kept { result ≢ Status.Done → result ≢ Status.WriteFault → result ≢ Status.BadIndex
        → result ≢ Status.BadReport → sink.new ≡ sink.old }
{
    if is_word(words, b"run") {
        run_source(rt, alloc, gate, source, sink, kept)
    } else if is_word(words, b"frames") {
        frames_source(alloc, source, sink)
    } else if is_word(words, b"check") {
        check_source(alloc, source, sink)
    } else if is_word(words, b"judge") {
        judge_source(alloc, source, sink)
    } else if is_word(words, b"picture") {
        show_source(rt, alloc, gate, PictureKind::Rows, source, sink)
    } else if is_pair(words, b"picture", b"svg") {
        show_source(rt, alloc, gate, PictureKind::Drawing, source, sink)
    } else {
        match number_asked(words, b"load", 10000) {
            Some(n) => load(rt, alloc, gate, words, n, sink, kept),
            None => match number_asked(words, b"image", 16) {
                Some(n) => node_source(rt, alloc, gate, NodeText::Image, words, n, source, sink),
                None => match number_asked(words, b"send", 16) {
                    Some(n) => {
                        node_source(rt, alloc, gate, NodeText::Frames, words, n, source, sink)
                    }
                    None => Status::Usage,
                },
            },
        }
    }
}
