//! Why a line is refused before it has started, and what it may be refused for.

ghost use Rattle.std.specs.Prelude.{◌≡◌, ◌==◌, ℕ, length, reverse};
ghost use Rattle.history_rules.specs.Nodes.{Past, primary_of, newest_version};
ghost use Rattle.history_rules.specs.Faults.{has_fault, is_of_disk};
ghost use Rattle.history_rules.specs.Points.{cut_of, cut_has_put, documents_at};
ghost use Rattle.history_rules.specs.Started.{is_loss as is_loss_lem};
ghost use Rattle.history_facts.specs.Generations.{ShowsGeneration};
ghost use Rattle.known_past.specs.Known.{IsKnown};
ghost use Rattle.script_serving.specs.Refusals.{when as when_lem, without_primary as without_primary_lem, without_node as without_node_lem, forced_version as forced_version_lem, names_are_spent as names_are_spent_lem, refusal as refusal_lem, put_publishes, may_be_full as may_be_full_lem, may_be_refused as may_be_refused_lem, is_copy_cause as is_copy_cause_lem};
ghost use Rattle.serving_rules.specs.Sizes.{CountsNewest};

use history_facts::{Generation, is_at, is_of_disk, same_at};
use history_rules::{Cause, Entry, Event};
use known_past::KnownPast;
use nrt_base::{At, LaneNo, NodeNo, SegNo, Version};
use script_serving::{Force, LineCommand};

/// The cause, where it holds.
fn when(holds: bool, cause: Cause) -> Option<Cause>
    ensures { result ≡ when_lem holds cause }
{
    if holds { Some(cause) } else { None }
}

fn without_primary(primary: Option<NodeNo>) -> Option<Cause>
    ensures { (past : Past) → primary ≡ primary_of past → result ≡ without_primary_lem past }
{
    when(primary.is_none(), Cause::NoPrimary)
}

fn without_node(n: NodeNo, known: &KnownPast, entries: &[Entry]) -> Option<Cause>
    requires known { IsKnown (reverse entries.now) known.now }
    ensures { result ≡ without_node_lem n.0 (reverse entries.now) }
{
    when(!known.is_running(n, entries), Cause::Down)
}

/// The forced version: the newest, or the one that is named.
pub fn forced_version(force: Force, known: &KnownPast, entries: &[Entry]) -> u64
    requires known { IsKnown (reverse entries.now) known.now }
    ensures { result ≡ forced_version_lem force (reverse entries.now) }
{
    match force {
        Force::Auto => known.newest(entries),
        Force::Exactly(version) => version,
    }
}

fn names_are_spent(generation: &Generation, entries: &[Entry]) -> bool
    requires shown { ShowsGeneration (reverse entries.now) generation.now }
    ensures { result ≡ names_are_spent_lem (reverse entries.now) }
{
    generation.names as u64 == SegNo::OF_GENERATION
}

/// Whether the cut has a put.
pub fn cut_has_put(generation: &Generation, entries: &[Entry]) -> bool
    requires shown { ShowsGeneration (reverse entries.now) generation.now }
    ensures { result ≡ cut_has_put (reverse entries.now) }
{
    generation.published < generation.last_put
}

/// Whether the cut has no operation.
fn cut_is_empty(generation: &Generation, entries: &[Entry]) -> bool
    requires shown { ShowsGeneration (reverse entries.now) generation.now }
    ensures { result ≡ (length (cut_of (reverse entries.now)) == 0) }
{
    generation.accepted <= generation.published
}

fn publish_refusal(
    primary: Option<NodeNo>,
    generation: &Generation,
    entries: &[Entry],
) -> Option<Cause>
    requires primary { primary ≡ primary_of (reverse entries.now) }
    requires shown { ShowsGeneration (reverse entries.now) generation.now }
    ensures { result ≡ refusal_lem LineCommand.Publish 0 (reverse entries.now) }
{
    without_primary(primary).or(when(
        cut_has_put(generation, entries) && names_are_spent(generation, entries),
        Cause::NamesSpent,
    ))
}

fn promote_refusal(n: NodeNo, force: Force, known: &KnownPast, entries: &[Entry]) -> Option<Cause>
    requires known { IsKnown (reverse entries.now) known.now }
    ensures { result ≡ refusal_lem (LineCommand.Promote n force) 0 (reverse entries.now) }
{
    let forced = forced_version(force, known, entries);
    let newest = known.newest(entries);
    let low = when(forced < newest, Cause::ForceLow(Version(newest)));
    let high = when(1 << 62 <= forced, Cause::ForceHigh);
    let up = when(known.primary(entries).is_some(), Cause::PrimaryUp);
    without_node(n, known, entries).or(up.or(high.or(low)))
}

/// Why a line is refused before it has started.
pub fn refusal(
    command: &LineCommand,
    lane: LaneNo,
    known: &KnownPast,
    entries: &[Entry],
) -> Option<Cause>
    requires known { IsKnown (reverse entries.now) known.now }
    ensures { result ≡ refusal_lem command.now lane.0 (reverse entries.now) }
{
    let primary = known.primary(entries);
    match command {
        LineCommand::Put(_) | LineCommand::Delete(_) | LineCommand::Drop(_) => {
            without_primary(primary)
        }
        LineCommand::Settle | LineCommand::Merge(_) => without_primary(primary),
        LineCommand::Publish => publish_refusal(primary, &known.generation(entries), entries),
        LineCommand::Copy(n) => {
            let is_source = when(is_at(primary, *n), Cause::Primary);
            without_node(*n, known, entries).or(without_primary(primary).or(is_source))
        }
        LineCommand::Search(n, _) | LineCommand::Commit(n) => without_node(*n, known, entries),
        LineCommand::Crash(n, _) | LineCommand::Files(n) => without_node(*n, known, entries),
        LineCommand::Open(n, t) => {
            when(known.has_ticket(lane, *t, entries), Cause::NameUsed).or(without_node(
                *n, known, entries,
            ))
        }
        LineCommand::Ask(t, _) | LineCommand::Close(t) => {
            when(!known.has_ticket(lane, *t, entries), Cause::NoTicket)
        }
        LineCommand::Reopen(n) => when(known.is_running(*n, entries), Cause::Up),
        LineCommand::Promote(n, force) => promote_refusal(*n, *force, known, entries),
        LineCommand::Drain(_) | LineCommand::Fault(_, _) => None,
    }
}

/// Whether there may be 256 segments, where so many publishes made one and the newest version has so many documents.
fn may_be_full(documents: usize, puts: usize, known: &KnownPast, entries: &[Entry]) -> bool
    requires known { IsKnown (reverse entries.now) known.now }
    requires puts { puts ≡ put_publishes (reverse entries.now) }
    requires documents { documents
        ≡ length (documents_at (reverse entries.now) (newest_version (reverse entries.now))) }
    ensures { result ≡ may_be_full_lem (reverse entries.now) }
{
    if puts < 256 {
        return false;
    }
    if known.merge_count(entries) > 0 {
        return true;
    }
    documents >= 256
}

/// Whether a line has met a fault of the disk at a node.
fn has_disk_fault(n: NodeNo, at: At, entries: &[Entry]) -> bool
    ensures { result ≡ has_fault (λ m. m == n.0) is_of_disk at (reverse entries.now) }
{
    let mut met = false;
    for entry in entries {
        if let Event::Fault { n: m, kind } = &entry.event {
            if m.0 == n.0 && is_of_disk(*kind) && same_at(entry.at, at) {
                met = true;
            }
        }
    }
    met
}

fn may_refuse_publish(
    documents: usize,
    puts: usize,
    known: &KnownPast,
    entries: &[Entry],
    cause: &Cause,
) -> bool
    requires known { IsKnown (reverse entries.now) known.now }
    requires puts { puts ≡ put_publishes (reverse entries.now) }
    requires documents { CountsNewest (reverse entries.now) (Event.Refused cause.now) documents }
    ensures { (at : At) → result
        ≡ may_be_refused_lem LineCommand.Publish at (reverse entries.now) cause.now }
{
    let generation = known.generation(entries);
    match cause {
        Cause::Nothing => cut_is_empty(&generation, entries),
        Cause::TooManySegments => {
            let is_full = may_be_full(documents, puts, known, entries);
            cut_has_put(&generation, entries) && is_full
        }
        _ => false,
    }
}

fn may_refuse_merge(known: &KnownPast, entries: &[Entry], cause: &Cause) -> bool
    requires known { IsKnown (reverse entries.now) known.now }
    ensures { (factor : ℕ) (at : At) → result
        ≡ may_be_refused_lem (LineCommand.Merge factor) at (reverse entries.now) cause.now }
{
    match cause {
        Cause::Nothing => true,
        Cause::NamesSpent => names_are_spent(&known.generation(entries), entries),
        _ => false,
    }
}

fn may_refuse_reopening(n: NodeNo, at: At, entries: &[Entry], cause: &Cause) -> bool
    ensures { result
        ≡ may_be_refused_lem (LineCommand.Reopen n) at (reverse entries.now) cause.now }
{
    match cause {
        Cause::DiskFault => has_disk_fault(n, at, entries),
        _ => false,
    }
}

/// Whether a line may be refused for a cause that the history does not decide. The newest version has so many documents, where that is
/// asked.
pub fn may_be_refused(
    command: &LineCommand,
    at: At,
    documents: usize,
    puts: usize,
    known: &KnownPast,
    entries: &[Entry],
    cause: &Cause,
) -> bool
    requires known { IsKnown (reverse entries.now) known.now }
    requires puts { puts ≡ put_publishes (reverse entries.now) }
    requires documents { CountsNewest (reverse entries.now) (Event.Refused cause.now) documents }
    ensures { result ≡ may_be_refused_lem command.now at (reverse entries.now) cause.now }
{
    match command {
        LineCommand::Publish => may_refuse_publish(documents, puts, known, entries, cause),
        LineCommand::Merge(_) => may_refuse_merge(known, entries, cause),
        LineCommand::Reopen(n) => may_refuse_reopening(*n, at, entries, cause),
        _ => false,
    }
}

/// Whether a copy or a settle may be refused for this cause after it has started.
pub fn is_copy_cause(cause: &Cause) -> bool
    ensures { result ≡ is_copy_cause_lem cause.now }
{
    match cause {
        Cause::Lost | Cause::Cancelled(_) | Cause::LinkFault => true,
        Cause::Damaged(_) | Cause::DiskFault => true,
        _ => false,
    }
}

/// Whether the cause is that the line is lost.
pub fn is_loss(cause: &Cause) -> bool
    ensures { result ≡ is_loss_lem cause.now }
{
    match cause {
        Cause::Lost => true,
        _ => false,
    }
}
