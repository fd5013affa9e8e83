//! What is shown of a run, in rows of text or as a drawing; and of a report, once it is judged.

ghost use Rattle.std.specs.Prelude.{◌≡◌, ◌≢◌, ◌≤◌, ℕ, length, IfOk, IfErr};
ghost use Rattle.nrt_base.specs.Causes.{Rose};
ghost use Rattle.script_text.specs.Refused.{IsFirstRefused};
ghost use Rattle.report_judge.specs.Sources.{script_part};
ghost use Rattle.stream_commands.specs.Reads.{longest};
ghost use Rattle.stream_commands.specs.Judge.{TellsIllegal, IsJudgeAnswer};
ghost use Rattle.stream_commands.specs.Scripts.{IsRefusal};
ghost use Rattle.stream_commands.specs.Pictures.{picture_by, has_report as has_report_lem, ShowsJudged, WritesReport, WritesReportInPart};

use crate::judging::judged;
use crate::status::Status;
use crate::writing::write_all;
use history_rules::Entry;
use nrt_base::{LineNo, NoMemory};
use nrt_streams::Sink;
use report_judge::{Judgement, cut_source};
use run_drawing::drawing;
use run_picture::picture;
use script_text::LineFault;
use std::alloc::Global;

/// How a run is shown.
#[derive(Clone, Copy, Debug, PartialEq, Eq)]
pub enum PictureKind {
    /// A row of text for each entry.
    Rows,
    /// An SVG drawing.
    Drawing,
}

/// What is shown of the entries of a run of so many nodes.
pub fn show(
    alloc: Global,
    kind: PictureKind,
    nodes: u8,
    entries: &[Entry],
) -> Result<Vec<u8>, NoMemory>
    ensures { IfOk result (λ text. text.items ≡ picture_by kind nodes entries.now) }
{
    match kind {
        PictureKind::Rows => picture(alloc, nodes, entries),
        PictureKind::Drawing => drawing(alloc, nodes, entries),
    }
}

/// Whether the bytes have a line that is the word `report` alone.
pub fn has_report(bytes: &[u8]) -> bool
    ensures { result ≡ has_report_lem bytes.now }
{
    cut_source(bytes).script.len() < bytes.len()
}

/// What is shown of the report of the bytes, or the line that says where it goes wrong; and whether it is legal.
fn show_judged(alloc: Global, kind: PictureKind, bytes: &[u8]) -> Result<(Vec<u8>, bool), Status>
    requires { length bytes.now ≤ longest }
    ensures shown { IfOk result (λ found.
        ShowsJudged (picture_by kind) bytes.now found.1 found.0.items) }
    ensures refusal { IfErr result (IsRefusal (script_part bytes.now)) }
{
    let (judgement, line) = match judged(alloc, bytes) {
        Ok(found) => found,
        Err(status) => return Err(status),
    };
    match &judgement {
        Judgement::Legal(history) => {
            match show(alloc, kind, history.nodes, history.entries.as_slice()) {
                Ok(text) => Ok((text, true)),
                Err(_) => Err(Status::Memory),
            }
        }
        _ => Ok((line, false)),
    }
}

/// Writes what is shown of the report of the bytes, or the line that says where it goes wrong.
#[tactic(auto, using(crate::proofs::Shown::writes_report, crate::proofs::Shown::tells_wrong, crate::proofs::Shown::writes_front, crate::proofs::Shown::shown_answer, crate::proofs::JudgeAnswers::refused_answer))]
pub fn show_report<K: Sink>(alloc: Global, kind: PictureKind, bytes: &[u8], sink: &mut K) -> Status
    requires { length bytes.now ≤ longest }
    ensures done { result ≡ Status.Done → WritesReport (picture_by kind) bytes.now
        (K.held sink.old) (K.held sink.new) }
    ensures wrong { result ≡ Status.BadReport → TellsIllegal bytes.now (K.held sink.old)
        (K.held sink.new) }
    ensures part { result ≡ Status.WriteFault → WritesReportInPart (picture_by kind) bytes.now
        (K.held sink.old) (K.held sink.new) }
    ensures bad { (n : LineNo) (cause : LineFault) → result ≡ Status.BadScript n cause
        → IsFirstRefused (script_part bytes.now) n.0 cause }
    ensures answers { result ≢ Status.Memory → IsJudgeAnswer bytes.now result }
    ensures write { result ≡ Status.WriteFault → Rose (K.fault_count sink.old)
        (K.fault_count sink.new) }
    ensures kept { result ≢ Status.Done → result ≢ Status.BadReport → result ≢ Status.WriteFault
        → sink.new ≡ sink.old }
    ensures others { (result ≢ Status.Usage) × (result ≢ Status.ReadFault) ×
        (result ≢ Status.TooLarge) × (result ≢ Status.BadIndex) × (result ≢ Status.BadImage) ×
        ((k : ℕ) → result ≢ Status.BadStream k) }
{
    let (text, legal) = match show_judged(alloc, kind, bytes) {
        Ok(found) => found,
        Err(status) => return status,
    };
    match write_all(sink, text.as_slice()) {
        Ok(()) => if legal {
            Status::Done
        } else {
            Status::BadReport
        },
        Err(_) => Status::WriteFault,
    }
}
