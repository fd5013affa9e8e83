//! Whether an entry is one that its line asks for, in its turn.

ghost use Rattle.std.specs.Prelude.{◌≡◌, List, [], ◌∷◌, reverse, Some, None, IsTrue, ◌↔◌};
ghost use Rattle.script_serving.specs.Refusals.{put_publishes, refusal as refusal_lem};
ghost use Rattle.script_serving.specs.Serves.{First, Suits, SuitsFault, FitsTurn, FitsReplay, is_newest_at as is_newest_at_lem};
ghost use Rattle.script_serving.specs.Lines.{earlier_answered};
ghost use Rattle.history_rules.specs.Lines.{last_of_line as last_of_line_lem};
ghost use Rattle.known_past.specs.Known.{IsKnown};
ghost use Rattle.script_serving.specs.declared.script.Line.{Line};
ghost use Rattle.documents.specs.declared.operation.Op.{Op};
ghost use Rattle.report_reading.specs.Readings.{as_told};
ghost use Rattle.serving_rules.specs.Sizes.{CountsNewest};
ghost use Rattle.report_judge.specs.Serving.{is_merge as is_merge_lem, is_acceptance as is_acceptance_lem};

use history_facts::same_at;
use history_rules::{Cause, Entry, Event};
use known_past::{KnownPast, is_fault};
use nrt_base::At;
use script_serving::LineCommand;
use serving_rules::{begins, follows, may_be_refused, refusal};

/// Whether the two are one cause for which a line is refused before it has started.
fn is_same_cause(cause: &Cause, wanted: &Cause) -> bool
    ensures { IsTrue result ↔ (cause.now ≡ wanted.now) }
{
    match wanted {
        Cause::Down => matches!(cause, Cause::Down),
        Cause::Primary => matches!(cause, Cause::Primary),
        Cause::NoPrimary => matches!(cause, Cause::NoPrimary),
        Cause::PrimaryUp => matches!(cause, Cause::PrimaryUp),
        Cause::NoTicket => matches!(cause, Cause::NoTicket),
        Cause::Lost => matches!(cause, Cause::Lost),
        Cause::LinkFault => matches!(cause, Cause::LinkFault),
        Cause::DiskFault => matches!(cause, Cause::DiskFault),
        Cause::Nothing => matches!(cause, Cause::Nothing),
        Cause::Up => matches!(cause, Cause::Up),
        Cause::NameUsed => matches!(cause, Cause::NameUsed),
        Cause::NamesSpent => matches!(cause, Cause::NamesSpent),
        Cause::TooManySegments => matches!(cause, Cause::TooManySegments),
        Cause::ForceHigh => matches!(cause, Cause::ForceHigh),
        Cause::ForceLow(v) => match cause {
            Cause::ForceLow(w) => v.0 == w.0,
            _ => false,
        },
        Cause::Cancelled(v) => match cause {
            Cause::Cancelled(w) => v.0 == w.0,
            _ => false,
        },
        Cause::Damaged(name) => match cause {
            Cause::Damaged(other) => other.as_slice() == name.as_slice(),
            _ => false,
        },
    }
}

/// Whether the entry refuses a line for this cause.
fn is_refused_for(event: &Event, wanted: &Cause) -> bool
    ensures { IsTrue result ↔ (event.now ≡ Event.Refused wanted.now) }
{
    match event {
        Event::Refused { cause } => is_same_cause(cause, wanted),
        _ => false,
    }
}

/// Whether an entry that may be a refusal begins a line for which no cause holds.
#[tactic(auto, using(crate::proofs::ServingLaws::first_begins))]
fn is_first_unrefused(
    command: &LineCommand,
    at: At,
    known: &KnownPast,
    documents: usize,
    puts: usize,
    entries: &[Entry],
    event: &Event,
) -> bool
    requires told { as_told [] command.now event.now ≡ event.now }
    requires known { IsKnown (reverse entries.now) known.now }
    requires puts { puts ≡ put_publishes (reverse entries.now) }
    requires documents { CountsNewest (reverse entries.now) event.now documents }
    ensures { IsTrue result ↔
        First command.now at (reverse entries.now) None event.now }
{
    match event {
        Event::Refused { cause } => {
            may_be_refused(command, at, documents, puts, known, entries, cause)
        }
        _ => begins(command, puts, known, entries, event),
    }
}

/// Whether the first entry of a line that is no fault is the refusal that holds, or one that may hold, or the line's beginning.
fn is_first(
    command: &LineCommand,
    at: At,
    known: &KnownPast,
    documents: usize,
    puts: usize,
    entries: &[Entry],
    event: &Event,
) -> bool
    requires told { as_told [] command.now event.now ≡ event.now }
    requires puts { puts ≡ put_publishes (reverse entries.now) }
    requires documents { CountsNewest (reverse entries.now) event.now documents }
    requires known { IsKnown (reverse entries.now) known.now }
    ensures { IsTrue result ↔ First command.now at (reverse entries.now)
        (refusal_lem command.now at.lane.0 (reverse entries.now)) event.now }
{
    match refusal(command, at.lane, known, entries) {
        Some(cause) => is_refused_for(event, &cause),
        None => is_first_unrefused(command, at, known, documents, puts, entries, event),
    }
}

/// Whether an entry is one that its line asks for, behind the line's newest one.
fn suits(
    command: &LineCommand,
    at: At,
    known: &KnownPast,
    documents: usize,
    puts: usize,
    entries: &[Entry],
    event: &Event,
) -> bool
    requires told { as_told [] command.now event.now ≡ event.now }
    requires puts { puts ≡ put_publishes (reverse entries.now) }
    requires documents { CountsNewest (reverse entries.now) event.now documents }
    requires known { IsKnown (reverse entries.now) known.now }
    ensures { IsTrue result ↔ Suits command.now at (reverse entries.now)
        (last_of_line_lem at (reverse entries.now)) event.now }
{
    match known.last_of_line(at, entries) {
        None => is_first(command, at, known, documents, puts, entries, event),
        Some(last) => !known.is_answered(at, entries) && follows(command, last, event),
    }
}

fn is_acceptance(event: &Event) -> bool
    ensures { result ≡ is_acceptance_lem event.now }
{
    match event {
        Event::Accepted { .. } => true,
        _ => false,
    }
}

/// Whether the line starts a merge.
pub fn is_merge(command: &LineCommand) -> bool
    ensures { result ≡ is_merge_lem command.now }
{
    match command {
        LineCommand::Merge(_) => true,
        _ => false,
    }
}

/// Whether a fault comes before its line's reply and in its turn, or is one of a merge.
fn fits_fault(
    command: &LineCommand,
    is_turn: bool,
    at: At,
    known: &KnownPast,
    entries: &[Entry],
) -> bool
    requires { IsKnown (reverse entries.now) known.now }
    ensures { (lines : List Line) → is_turn ≡ earlier_answered lines at (reverse entries.now)
        → IsTrue result ↔ SuitsFault command.now lines at (reverse entries.now) }
{
    if is_merge(command) {
        return true;
    }
    if known.is_answered(at, entries) {
        return false;
    }
    is_turn
}

/// Whether an entry is one that its line asks for, where it is the line's turn in its lane, or is not.
pub fn fits_turn(
    command: &LineCommand,
    is_turn: bool,
    at: At,
    known: &KnownPast,
    documents: usize,
    puts: usize,
    entries: &[Entry],
    event: &Event,
) -> bool
    requires told { as_told [] command.now event.now ≡ event.now }
    requires puts { puts ≡ put_publishes (reverse entries.now) }
    requires documents { CountsNewest (reverse entries.now) event.now documents }
    requires known { IsKnown (reverse entries.now) known.now }
    ensures { (lines : List Line) → is_turn ≡ earlier_answered lines at (reverse entries.now)
        → IsTrue result ↔ FitsTurn lines (reverse entries.now) at (Some command.now) event.now }
{
    if is_fault(event) {
        return fits_fault(command, is_turn, at, known, entries);
    }
    if !is_turn {
        return false;
    }
    suits(command, at, known, documents, puts, entries, event)
}

fn is_newest_at(at: At, entries: &[Entry]) -> bool
    ensures { result ≡ is_newest_at_lem at (reverse entries.now) }
{
    match entries.last() {
        Some(entry) => same_at(entry.at, at),
        None => false,
    }
}

/// Whether an entry goes on with a replay, where an operation is due to be accepted again.
pub fn fits_replay(command: &LineCommand, at: At, entries: &[Entry], event: &Event) -> bool
    ensures { (op : Op) (ops : List Op) → as_told (op ∷ ops) command.now event.now ≡ event.now
        → IsTrue result ↔ FitsReplay op (reverse entries.now) at (Some command.now) event.now }
{
    match command {
        LineCommand::Promote(_, _) => is_acceptance(event) && is_newest_at(at, entries),
        _ => false,
    }
}
