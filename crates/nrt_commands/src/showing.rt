//! The commands that show a run of a script as a picture, or the report behind one.

ghost use Rattle.std.specs.Prelude.{◌≡◌, ◌≢◌, ◌≤◌, ◌<◌, ◌^◌, ◌-◌, ℕ, length, IfOk};
ghost use Rattle.nrt_base.specs.Causes.{Rose};
ghost use Rattle.script_serving.specs.Form.{IsInForm};
ghost use Rattle.script_text.specs.Refused.{IsFirstRefused};
ghost use Rattle.stream_commands.specs.Scripts.{IsAnswer};
ghost use Rattle.stream_commands.specs.Reads.{TakesWithin, TakesMore, longest};
ghost use Rattle.stream_commands.specs.Judge.{TellsIllegal, FoundIllegal};
ghost use Rattle.stream_commands.specs.Pictures.{picture_by, ShowsScript, Shows, ShowsInPart, ShowsSource, ShowsSourceInPart, RefusesSource, IsShowAnswer, Showed, ShowedInPart, RefusesShown, AnswersShown};

use cluster_run::{Gate, let_go, run_script};
use nrt_base::{LineNo, NoMemory};
use nrt_streams::{Sink, Source};
use script_serving::Script;
use script_text::LineFault;
use std::alloc::Global;
use std::sync::Wait;
use std::thread::Threads;
use stream_commands::{
    PictureKind, ReadEnd, Status, has_report, read_all, read_script, show, show_report, write_all,
};

/// What is shown of a run of the script.
fn show_run<R: Threads + Wait + Sync, G: Gate + Sync>(
    rt: &R,
    alloc: Global,
    gate: &G,
    kind: PictureKind,
    script: &Script,
) -> Result<Vec<u8>, NoMemory>
    requires form { IsInForm script.now }
    ensures { IfOk result (λ text. ShowsScript (picture_by kind) script.now text.items) }
{
    let cluster = run_script(rt, alloc, gate, script)?;
    let shown = show(alloc, kind, script.nodes, cluster.entries());
    let_go(Some(cluster));
    shown
}

/// Runs the script that the bytes are, and writes what is shown of its run.
#[tactic(auto, using(crate::proofs::Shown::shows_whole, crate::proofs::Shown::shows_front, stream_commands::proofs::AnswerLaws::run_answer, stream_commands::proofs::AnswerLaws::refusal_answer))]
fn show_script<R: Threads + Wait + Sync, K: Sink, G: Gate + Sync>(
    rt: &R,
    alloc: Global,
    gate: &G,
    kind: PictureKind,
    bytes: &[u8],
    sink: &mut K,
) -> Status
    requires long { length bytes.now ≤ longest }
    ensures done { result ≡ Status.Done
        → Shows (picture_by kind) bytes.now (K.held sink.old) (K.held sink.new) }
    ensures part { result ≡ Status.WriteFault
        → ShowsInPart (picture_by kind) bytes.now (K.held sink.old) (K.held sink.new) }
    ensures bad { (n : LineNo) (cause : LineFault) → result ≡ Status.BadScript n cause
        → IsFirstRefused bytes.now n.0 cause }
    ensures answers { result ≢ Status.Memory → IsAnswer bytes.now result }
    ensures write { result ≡ Status.WriteFault → Rose (K.fault_count sink.old)
        (K.fault_count sink.new) }
    ensures kept { result ≢ Status.Done → result ≢ Status.WriteFault → sink.new ≡ sink.old }
    ensures others { (result ≢ Status.Usage) × (result ≢ Status.ReadFault) ×
        (result ≢ Status.TooLarge) × (result ≢ Status.BadIndex) × (result ≢ Status.BadImage) ×
        (result ≢ Status.BadReport) × ((k : ℕ) → result ≢ Status.BadStream k) }
{
    let script = match read_script(alloc, bytes) {
        Ok(script) => script,
        Err(status) => return status,
    };
    let Ok(text) = show_run(rt, alloc, gate, kind, &script) else {
        return Status::Memory;
    };
    match write_all(sink, text.as_slice()) {
        Ok(()) => Status::Done,
        Err(_) => Status::WriteFault,
    }
}

/// Writes what is shown of the bytes: of a run of the script that they are, or, where they have a report, of that.
#[tactic(auto, using(crate::proofs::Shown::by_script, crate::proofs::Shown::by_report))]
fn show_bytes<R: Threads + Wait + Sync, K: Sink, G: Gate + Sync>(
    rt: &R,
    alloc: Global,
    gate: &G,
    kind: PictureKind,
    bytes: &[u8],
    sink: &mut K,
) -> Status
    requires long { length bytes.now ≤ longest }
    ensures done { result ≡ Status.Done
        → ShowsSource (picture_by kind) bytes.now (K.held sink.old) (K.held sink.new) }
    ensures wrong { result ≡ Status.BadReport → TellsIllegal bytes.now (K.held sink.old)
        (K.held sink.new) }
    ensures part { result ≡ Status.WriteFault
        → ShowsSourceInPart (picture_by kind) bytes.now (K.held sink.old) (K.held sink.new) }
    ensures bad { (n : LineNo) (cause : LineFault) → result ≡ Status.BadScript n cause
        → RefusesSource bytes.now n.0 cause }
    ensures answers { result ≢ Status.Memory → IsShowAnswer bytes.now result }
    ensures write { result ≡ Status.WriteFault → Rose (K.fault_count sink.old)
        (K.fault_count sink.new) }
    ensures kept { result ≢ Status.Done → result ≢ Status.BadReport → result ≢ Status.WriteFault
        → sink.new ≡ sink.old }
    ensures others { (result ≢ Status.Usage) × (result ≢ Status.ReadFault) ×
        (result ≢ Status.TooLarge) × (result ≢ Status.BadIndex) × (result ≢ Status.BadImage) ×
        ((k : ℕ) → result ≢ Status.BadStream k) }
{
    if has_report(bytes) {
        show_report(alloc, kind, bytes, sink)
    } else {
        show_script(rt, alloc, gate, kind, bytes, sink)
    }
}

/// Reads a script from the source, alone or with a report, and writes what is shown of its run or of the report to the sink.
pub fn show_source<R: Threads + Wait + Sync, S: Source, K: Sink, G: Gate + Sync>(
    rt: &R,
    alloc: Global,
    gate: &G,
    kind: PictureKind,
    source: &mut S,
    sink: &mut K,
) -> Status
    requires reads { S.fault_count source.old < 2 ^ 64 - 1 }
    requires writes { K.fault_count sink.old < 2 ^ 64 - 1 }
    ensures done { result ≡ Status.Done → Showed (picture_by kind) (S.left source.old)
        (S.left source.new) (K.held sink.old) (K.held sink.new) }
    ensures wrong { result ≡ Status.BadReport → FoundIllegal (S.left source.old)
        (S.left source.new) (K.held sink.old) (K.held sink.new) }
    ensures part { result ≡ Status.WriteFault → ShowedInPart (picture_by kind) (S.left source.old)
        (S.left source.new) (K.held sink.old) (K.held sink.new) }
    ensures bad { (n : LineNo) (cause : LineFault) → result ≡ Status.BadScript n cause
        → RefusesShown (S.left source.old) (S.left source.new) n.0 cause }
    ensures answers { result ≢ Status.ReadFault → result ≢ Status.TooLarge → result ≢ Status.Memory
        → AnswersShown (S.left source.old) (S.left source.new) result }
    ensures read { result ≡ Status.ReadFault → S.fault_count source.old < S.fault_count source.new }
    ensures write { result ≡ Status.WriteFault → K.fault_count sink.old < K.fault_count sink.new }
    ensures large { result ≡ Status.TooLarge → TakesMore (S.left source.old) (S.left source.new) }
    ensures small { result ≢ Status.TooLarge → result ≢ Status.Memory
        → TakesWithin (S.left source.old) (S.left source.new) }
    ensures kept { result ≢ Status.Done → result ≢ Status.BadReport → result ≢ Status.WriteFault
        → sink.new ≡ sink.old }
    ensures others { (result ≢ Status.Usage) × (result ≢ Status.BadIndex) ×
        (result ≢ Status.BadImage) × ((k : ℕ) → result ≢ Status.BadStream k) }
{
    match read_all(alloc, source) {
        Ok(bytes) => show_bytes(rt, alloc, gate, kind, bytes.as_slice(), sink),
        Err(ReadEnd::Memory) => Status::Memory,
        Err(ReadEnd::Fault) => Status::ReadFault,
        Err(ReadEnd::TooLarge) => Status::TooLarge,
    }
}
