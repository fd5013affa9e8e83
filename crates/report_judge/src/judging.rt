//! What a report is: it is read as far as its entries serve the script, and then these are judged.

ghost use Rattle.std.specs.Prelude.{◌≡◌, ◌≤◌, ◌<◌, ◌+◌, ◌^◌, ◌||◌, ◌∷◌, [], Some, reverse, length, IsTrue, IfOk, OnOk, ◌↔◌};
ghost use Rattle.script_serving.specs.Form.{IsInForm};
ghost use Rattle.known_past.specs.Known.{IsKnown};
ghost use Rattle.history_points.specs.AskedPoints.{IsAskedPoint};
ghost use Rattle.serving_rules.specs.Sizes.{CountsNewest};
ghost use Rattle.script_serving.specs.Lines.{lines_of, earlier_phases_answered};
ghost use Rattle.script_serving.specs.Serves.{ServesLanes, ServesPhases, is_merge_fault};
ghost use Rattle.script_serving.specs.Refusals.{put_publishes};
ghost use Rattle.report_judge.specs.CutNotes.{ShowsCuts};
ghost use Rattle.report_judge.specs.Judgements.{FitsNext, newest_at, IsLegalReport, IsJudgement};
ghost use Rattle.report_judge.specs.Replaying.{left_to_replay};
ghost use Rattle.report_judge.specs.Turns.{ArePhasesAnswered};
ghost use Rattle.report_judge.specs.Walks.{IsShown, IsEntryTold, IsWalk, IsStop};

use crate::cuts::{Cuts, had_put, note_cut};
use crate::judgement::Judgement;
use crate::lines::{all_places, first_unanswered};
use crate::reading::read_entry;
use crate::replay::Replay;
use crate::serving::{fits_replay, fits_turn, is_merge};
use crate::spots::{Spots, find_line, phase_of, spots_of};
use crate::turns::{Turns, is_phase, phases_passed};
use history_points::AskedPoint;
use history_rules::{Entry, Event, History, Verdict};
use known_past::{KnownPast, is_fault};
use nrt_base::{At, LineNo, List, NoMemory, Version};
use point_history::legal;
use report_reading::{entry_is_narrow, next_line};
use script_serving::{LineCommand, Script};
use std::alloc::Global;

/// What the entries before a place show.
#[derive(Drop)]
pub struct Shown {
    pub known: KnownPast,
    /// How many publishes made a segment.
    pub puts: usize,
    pub cuts: Cuts,
    pub turns: Turns,
    pub replay: Replay,
}

/// Why no more entries were read.
#[derive(Clone, Copy, Debug, PartialEq, Eq)]
pub enum WalkEnd {
    /// The report is at its end, and all is answered.
    Whole,
    /// The report is at its end, but this line of the script has no reply, or its replay is not done.
    Short(LineNo),
    /// The next line is that of an entry that its line does not ask for there.
    Unserved,
    /// The next line is that of no entry.
    Unread,
}

/// Whether an entry is a fault of a merge, or every line of the phases before its own has its reply.
fn is_in_phase(
    alloc: Global,
    spots: &Spots,
    script: &Script,
    passed: usize,
    command: &LineCommand,
    known: &KnownPast,
    entries: &[Entry],
    entry: &Entry,
) -> Result<bool, NoMemory>
    requires known { IsKnown (reverse entries.now) known.now }
    requires passed { ArePhasesAnswered script.now (reverse entries.now) passed }
    ensures { IfOk result (λ is. is ≡ (is_merge_fault (Some command.now) entry.now.event
        || earlier_phases_answered script.now.phases entry.now.at (reverse entries.now))) }
{
    if is_merge(command) && is_fault(&entry.event) {
        return Ok(true);
    }
    let phase = phase_of(spots, entry.at, script);
    is_phase(alloc, script, passed, phase, known, entry.at, entries)
}

/// Whether an entry is one that its line asks for behind these, in the turn of its line and its phase.
fn fits_next(
    alloc: Global,
    spots: &Spots,
    script: &Script,
    passed: usize,
    shown: &Shown,
    documents: usize,
    entries: &[Entry],
    entry: &Entry,
) -> Result<bool, NoMemory>
    requires form { IsInForm script.now }
    requires shown { IsShown script.now (reverse entries.now) shown.now }
    requires passed { ArePhasesAnswered script.now (reverse entries.now) passed }
    requires told { IsEntryTold script.now (left_to_replay shown.now.replay) entry.now }
    requires documents { CountsNewest (reverse entries.now) entry.now.event documents }
    ensures { IfOk result (λ fits. IsTrue fits ↔
        FitsNext script.now (reverse entries.now) entry.now) }
{
    let Some(line) = find_line(spots, entry.at.line.0, script) else {
        return Ok(false);
    };
    let command = &line.command;
    let known = &shown.known;
    if !is_in_phase(alloc, spots, script, passed, command, known, entries, entry)? {
        return Ok(false);
    }
    if !shown.replay.is_done() {
        return Ok(fits_replay(command, entry.at, entries, &entry.event));
    }
    let is_turn = shown
        .turns
        .is_turn(alloc, script, known, entry.at, entries)?;
    Ok(fits_turn(
        command,
        is_turn,
        entry.at,
        known,
        documents,
        shown.puts,
        entries,
        &entry.event,
    ))
}

/// How many documents the newest version has, where the entry refuses a line.
#[tactic(auto, using(crate::proofs::ServingLaws::none_counted))]
fn newest_count(
    alloc: Global,
    asked: &mut AskedPoint,
    known: &KnownPast,
    entries: &[Entry],
    entry: &Entry,
) -> Result<usize, NoMemory>
    requires known { IsKnown (reverse entries.now) known.now }
    requires asked { IsAskedPoint (reverse entries.now) asked.old }
    ensures count { IfOk result (λ count.
        CountsNewest (reverse entries.now) entry.now.event count) }
    ensures asked { OnOk result (IsAskedPoint (reverse entries.now) asked.new) }
{
    match &entry.event {
        Event::Refused { .. } => {
            let newest = Version(known.newest(entries));
            let count = asked.document_count(alloc, entries, newest)?;
            Ok(count)
        }
        _ => Ok(0),
    }
}

/// How many publishes made a segment, after one more entry.
fn puts_after(puts: usize, cuts: &Cuts, entries: &[Entry], entry: &Entry) -> usize
    requires cuts { ShowsCuts (reverse entries.now) cuts.now }
    requires puts { puts ≡ put_publishes (reverse entries.now) }
    requires few { length entries.now + 1 < 2 ^ 64 }
    requires low { puts ≤ length entries.now }
    ensures next { result ≡ put_publishes (entry.now ∷ reverse entries.now) }
    ensures low { result ≤ length entries.now + 1 }
{
    match &entry.event {
        Event::Published { .. } => {
            if had_put(cuts, entry.at) {
                puts + 1
            } else {
                puts
            }
        }
        _ => puts,
    }
}

impl Shown {
    /// Before any entry.
    fn new(alloc: Global, script: &Script) -> Result<Self, NoMemory>
        ensures { IfOk result (IsShown script.now []) }
    {
        let turns = Turns::new(alloc, script)?;
        Ok(Shown {
            known: KnownPast::new(alloc),
            puts: 0,
            cuts: Cuts::new(alloc),
            turns,
            replay: Replay::new(alloc, script.log),
        })
    }

    /// Takes one more entry in, behind these.
    fn take(
        self,
        alloc: Global,
        script: &Script,
        before: &[Entry],
        entry: &Entry,
    ) -> Result<Self, NoMemory>
        requires shown { IsShown script.now (reverse before.now) self }
        ensures { IfOk result (IsShown script.now (entry.now ∷ reverse before.now)) }
    {
        let Shown {
            known,
            puts,
            mut cuts,
            mut turns,
            mut replay,
        } = self;
        let puts = puts_after(puts, &cuts, before, entry);
        note_cut(&mut cuts, &known.generation(before), before, entry)?;
        replay.take(alloc, &known, before, entry)?;
        let known = known.after(before, entry)?;
        turns.take(&known, before, entry)?;
        Ok(Shown {
            known,
            puts,
            cuts,
            turns,
            replay,
        })
    }
}

/// The line of the newest entry.
fn newest_line(entries: &[Entry]) -> Option<At>
    ensures { result ≡ newest_at (reverse entries.now) }
{
    match entries.last() {
        Some(entry) => Some(entry.at),
        None => None,
    }
}

/// What a report has behind the entries that serve the script.
fn end(
    alloc: Global,
    script: &Script,
    shown: &Shown,
    entries: &[Entry],
) -> Result<WalkEnd, NoMemory>
    requires shown { IsShown script.now (reverse entries.now) shown.now }
    requires lanes { ServesLanes script.now (reverse entries.now) }
    requires phases { ServesPhases (lines_of script.now) script.now.phases (reverse entries.now) }
    ensures { IfOk result (IsStop script.now (reverse entries.now) []) }
{
    let places = all_places(alloc, script)?;
    if let Some(at) = first_unanswered(places.as_slice(), &shown.known, entries) {
        return Ok(WalkEnd::Short(at.line));
    }
    if shown.replay.is_done() {
        return Ok(WalkEnd::Whole);
    }
    match newest_line(entries) {
        Some(at) => Ok(WalkEnd::Short(at.line)),
        None => Ok(WalkEnd::Whole),
    }
}

fn history_of(script: &Script, entries: Vec<Entry>) -> History
    ensures nodes { result.nodes ≡ script.now.nodes }
    ensures entries { result.entries ≡ entries.items }
{
    let nodes = script.nodes;
    let entries = List::from_vec(entries);
    History { nodes, entries }
}

/// Reads a report as far as its entries serve the script, over what is kept of the documents that were counted.
fn walk_over(
    alloc: Global,
    script: &Script,
    report: &[u8],
    asked: &mut AskedPoint,
) -> Result<(History, WalkEnd), NoMemory>
    requires form { IsInForm script.now }
    requires asked { IsAskedPoint [] asked.old }
    ensures { IfOk result (λ walk. IsWalk script.now report.now walk.0 walk.1) }
{
    let spots = spots_of(alloc, script)?;
    let first = Shown::new(alloc, script)?;
    let mut shown = first;
    let mut passed = 0;
    let mut entries = Vec::new(alloc);
    let mut left = report;
    while let Some((line, rest)) = next_line(left) {
        let Some(entry) = read_entry(alloc, &spots, script, shown.replay.due(), line)? else {
            return Ok((history_of(script, entries), WalkEnd::Unread));
        };
        let before = entries.as_slice();
        let phase = phase_of(&spots, entry.at, script).unwrap_or(0);
        passed = phases_passed(alloc, script, passed, phase, &shown.known, before)?;
        let documents = newest_count(alloc, asked, &shown.known, before, &entry)?;
        if !fits_next(
            alloc, &spots, script, passed, &shown, documents, before, &entry,
        )? {
            return Ok((history_of(script, entries), WalkEnd::Unserved));
        }
        asked.take(&shown.known, before, &entry)?;
        shown = shown.take(alloc, script, before, &entry)?;
        entries.push(entry)?;
        left = rest;
    }
    let stop = end(alloc, script, &shown, entries.as_slice())?;
    Ok((history_of(script, entries), stop))
}

/// Reads a report as far as its entries serve the script.
pub fn walk(alloc: Global, script: &Script, report: &[u8]) -> Result<(History, WalkEnd), NoMemory>
    requires form { IsInForm script.now }
    ensures { IfOk result (λ walk. IsWalk script.now report.now walk.0 walk.1) }
{
    let mut asked = AskedPoint::new(alloc);
    walk_over(alloc, script, report, &mut asked)
}

/// What a report is.
#[tactic(auto, using(crate::proofs::WalkLaws::legal_whole, crate::proofs::WalkLaws::legal_short, crate::proofs::WalkLaws::legal_unserved, crate::proofs::WalkLaws::legal_unread))]
fn judgement_of(alloc: Global, script: &Script, report: &[u8]) -> Result<Judgement, NoMemory>
    requires form { IsInForm script.now }
    ensures { IfOk result (IsJudgement script.now report.now) }
{
    let (history, stop) = walk(alloc, script, report)?;
    if let Verdict::Broken { at, rule } = legal(alloc, &history)? {
        entry_is_narrow(&history.entries.as_slice()[at]);
        let line = at + 1;
        return Ok(Judgement::Broken { line, rule });
    }
    let next = history.entries.as_slice().len() + 1;
    Ok(match stop {
        WalkEnd::Whole => Judgement::Legal(history),
        WalkEnd::Short(line) => Judgement::Unanswered(line),
        WalkEnd::Unserved => Judgement::Unserved(next),
        WalkEnd::Unread => Judgement::Unread(next),
    })
}

/// What a report is: the text of a legal history that serves the script; or which of its lines is the first with which no such history
/// goes on, and why; or which line of the script has no reply in it. Of a report that is the text of such a history nothing else is said.
#[tactic(auto, using(crate::proofs::OneLaws::judged_legal))]
pub fn judge(alloc: Global, script: &Script, report: &[u8]) -> Result<Judgement, NoMemory>
    requires form { IsInForm script.now }
    ensures judged { IfOk result (IsJudgement script.now report.now) }
    ensures every { IfOk result (λ judgement. (h : History)
        → IsLegalReport script.now report.now h → judgement ≡ Judgement.Legal h) }
{
    let judgement = judgement_of(alloc, script, report)?;
    Ok(judgement)
}
