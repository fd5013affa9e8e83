//! The command that judges a report.

ghost use Rattle.std.specs.Prelude.{◌≡◌, ◌≢◌, ◌≤◌, ◌<◌, ◌^◌, ◌-◌, ℕ, length, IfOk, IfErr};
ghost use Rattle.nrt_base.specs.Causes.{Rose};
ghost use Rattle.script_text.specs.Refused.{IsFirstRefused};
ghost use Rattle.report_judge.specs.Sources.{script_part};
ghost use Rattle.report_judge.specs.Verdicts.{verdict_text};
ghost use Rattle.stream_commands.specs.Reads.{TakesWithin, TakesMore, longest};
ghost use Rattle.stream_commands.specs.Judge.{IsJudged, TellsLegal, TellsIllegal, TellsJudgementInPart, IsJudgeAnswer, RanJudge, FoundIllegal, RanJudgeInPart, RefusesJudge, AnswersJudge};
ghost use Rattle.stream_commands.specs.Scripts.{IsRefusal};

use crate::reading::{ReadEnd, read_all, read_script};
use crate::status::Status;
use crate::writing::write_all;
use nrt_base::LineNo;
use nrt_streams::{Sink, Source};
use report_judge::{Judgement, cut_source, judge, verdict};
use script_text::LineFault;
use std::alloc::Global;

/// What the report of the bytes is, and the line that says it.
pub fn judged(alloc: Global, bytes: &[u8]) -> Result<(Judgement, Vec<u8>), Status>
    requires { length bytes.now ≤ longest }
    ensures judged { IfOk result (λ found. IsJudged bytes.now found.0
        × (found.1.items ≡ verdict_text found.0)) }
    ensures refusal { IfErr result (IsRefusal (script_part bytes.now)) }
{
    let source = cut_source(bytes);
    let script = match read_script(alloc, source.script) {
        Ok(script) => script,
        Err(status) => return Err(status),
    };
    let Ok(judgement) = judge(alloc, &script, source.report) else {
        return Err(Status::Memory);
    };
    let Ok(line) = verdict(alloc, &judgement) else {
        return Err(Status::Memory);
    };
    Ok((judgement, line))
}

/// Judges the report of the bytes, and writes the line of the judgement.
#[tactic(auto, using(crate::proofs::JudgeAnswers::told_answer, crate::proofs::JudgeAnswers::refused_answer))]
fn judge_bytes<K: Sink>(alloc: Global, bytes: &[u8], sink: &mut K) -> Status
    requires { length bytes.now ≤ longest }
    ensures done { result ≡ Status.Done → TellsLegal bytes.now (K.held sink.old) (K.held sink.new) }
    ensures wrong { result ≡ Status.BadReport → TellsIllegal bytes.now (K.held sink.old)
        (K.held sink.new) }
    ensures part { result ≡ Status.WriteFault → TellsJudgementInPart bytes.now (K.held sink.old)
        (K.held sink.new) }
    ensures bad { (n : LineNo) (cause : LineFault) → result ≡ Status.BadScript n cause
        → IsFirstRefused (script_part bytes.now) n.0 cause }
    ensures answers { result ≢ Status.Memory → IsJudgeAnswer bytes.now result }
    ensures write { result ≡ Status.WriteFault → Rose (K.fault_count sink.old)
        (K.fault_count sink.new) }
    ensures kept { result ≢ Status.Done → result ≢ Status.BadReport → result ≢ Status.WriteFault
        → sink.new ≡ sink.old }
    ensures others { (result ≢ Status.Usage) × (result ≢ Status.ReadFault) ×
        (result ≢ Status.TooLarge) × (result ≢ Status.BadIndex) × (result ≢ Status.BadImage) ×
        ((k : ℕ) → result ≢ Status.BadStream k) }
{
    let (judgement, line) = match judged(alloc, bytes) {
        Ok(found) => found,
        Err(status) => return status,
    };
    match write_all(sink, line.as_slice()) {
        Ok(()) => match judgement {
            Judgement::Legal(_) => Status::Done,
            _ => Status::BadReport,
        },
        Err(_) => Status::WriteFault,
    }
}

/// Reads a script and a report from the source, judges the report, and writes the line of the judgement to the sink.
pub fn judge_source<S: Source, K: Sink>(alloc: Global, source: &mut S, sink: &mut K) -> Status
    requires reads { S.fault_count source.old < 2 ^ 64 - 1 }
    requires writes { K.fault_count sink.old < 2 ^ 64 - 1 }
    ensures done { result ≡ Status.Done → RanJudge (S.left source.old) (S.left source.new)
        (K.held sink.old) (K.held sink.new) }
    ensures wrong { result ≡ Status.BadReport → FoundIllegal (S.left source.old)
        (S.left source.new) (K.held sink.old) (K.held sink.new) }
    ensures part { result ≡ Status.WriteFault → RanJudgeInPart (S.left source.old)
        (S.left source.new) (K.held sink.old) (K.held sink.new) }
    ensures bad { (n : LineNo) (cause : LineFault) → result ≡ Status.BadScript n cause
        → RefusesJudge (S.left source.old) (S.left source.new) n.0 cause }
    ensures answers { result ≢ Status.ReadFault → result ≢ Status.TooLarge → result ≢ Status.Memory
        → AnswersJudge (S.left source.old) (S.left source.new) result }
    ensures read { result ≡ Status.ReadFault → S.fault_count source.old < S.fault_count source.new }
    ensures write { result ≡ Status.WriteFault → K.fault_count sink.old < K.fault_count sink.new }
    ensures large { result ≡ Status.TooLarge → TakesMore (S.left source.old) (S.left source.new) }
    ensures small { result ≢ Status.TooLarge → result ≢ Status.Memory
        → TakesWithin (S.left source.old) (S.left source.new) }
    ensures kept { result ≢ Status.Done → result ≢ Status.BadReport → result ≢ Status.WriteFault
        → sink.new ≡ sink.old }
    ensures others { (result ≢ Status.Usage) × (result ≢ Status.BadIndex) ×
        (result ≢ Status.BadImage) × ((k : ℕ) → result ≢ Status.BadStream k) }
{
    match read_all(alloc, source) {
        Ok(bytes) => judge_bytes(alloc, bytes.as_slice(), sink),
        Err(ReadEnd::Memory) => Status::Memory,
        Err(ReadEnd::Fault) => Status::ReadFault,
        Err(ReadEnd::TooLarge) => Status::TooLarge,
    }
}
