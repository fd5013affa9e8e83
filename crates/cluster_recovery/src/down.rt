//! A line that would reopen a node, and is refused as the node's disk failed.

ghost use Rattle.std.specs.Prelude.{◌≡◌, ◌≤◌, ◌+◌, ◌||◌, ◌∷◌, None, true, false, nat_lt};
ghost use Rattle.history_rules.specs.Nodes.{IsNode};
ghost use Rattle.history_rules.specs.Lines.{last_of_line, is_answered};
ghost use Rattle.history_rules.specs.Faults.{is_of_disk, is_planned};
ghost use Rattle.history_rules.specs.Legal.{KeepsRule, IsLegalPast};
ghost use Rattle.history_book.specs.Laws.{IsFresh};
ghost use Rattle.history_book.specs.Log.{printed, shown};
ghost use Rattle.history_book.specs.Turns.{InTurn, AreInTurn};
ghost use Rattle.cluster_state.specs.Met.{fault_if};
ghost use Rattle.cluster_state.specs.Lives.{met_at};

use history_book::Book;
use history_rules::{Cause, Event, FaultKind};
use merge_tasks::Ledger;
use nrt_base::{At, NodeNo};

/// Whether the node's disk has failed meanwhile.
pub fn has_failed(before: (u64, u64), now: (u64, u64)) -> bool
    ensures { result ≡ (nat_lt before.0 now.0 || nat_lt before.1 now.1) }
{
    before.0 < now.0 || before.1 < now.1
}

/// Whether each fault of the node's disk that rose is planned.
pub fn is_planned_at(book: &Book, n: NodeNo, before: (u64, u64), now: (u64, u64)) -> bool
    requires { IsNode book.now.nodes n.0 }
    ensures disk { result ≡ true → nat_lt before.0 now.0 ≡ true
        → is_planned n.0 FaultKind.Disk (printed book.now.log) ≡ true }
    ensures stop { result ≡ true → nat_lt before.1 now.1 ≡ true
        → is_planned n.0 FaultKind.Stop (printed book.now.log) ≡ true }
{
    let plans = book.plans(n);
    let disk = plans.disk || before.0 >= now.0;
    let stop = plans.stop || before.1 >= now.1;
    disk && stop
}

// Appends a fault of the node's disk that is planned, where the number rose, of a line of which nothing stands there but faults.
fn show_first(ledger: &mut Ledger, at: At, n: NodeNo, kind: FaultKind, before: u64, now: u64)
    requires room { 1 ≤ ledger.old.room }
    requires node { IsNode ledger.old.nodes n.0 }
    requires disk { is_of_disk kind ≡ true }
    requires planned { nat_lt before now ≡ true
        → is_planned n.0 kind (printed ledger.old.log) ≡ true }
    requires unanswered { is_answered at (printed ledger.old.log) ≡ false }
    requires unbegun { last_of_line at (printed ledger.old.log) ≡ None }
    ensures log { ledger.new.log ≡ fault_if false at n.0 kind before now ledger.old.log }
    ensures nodes { ledger.new.nodes ≡ ledger.old.nodes }
    ensures cut { ledger.new.cut ≡ ledger.old.cut }
    ensures room { ledger.old.room ≤ ledger.new.room + 1 }
{
    if before < now {
        ledger.show(at, Event::Fault { n, kind });
    }
}

/// Appends the faults of the node's disk that were met, and that the line is refused for them, of which no entry stands there.
pub fn note_down(ledger: &mut Ledger, at: At, n: NodeNo, before: (u64, u64), now: (u64, u64))
    requires room { 3 ≤ ledger.old.room }
    requires node { IsNode ledger.old.nodes n.0 }
    requires fresh { IsFresh at (printed ledger.old.log) }
    requires disk { nat_lt before.0 now.0 ≡ true
        → is_planned n.0 FaultKind.Disk (printed ledger.old.log) ≡ true }
    requires stop { nat_lt before.1 now.1 ≡ true
        → is_planned n.0 FaultKind.Stop (printed ledger.old.log) ≡ true }
    requires rose { (nat_lt before.0 now.0 || nat_lt before.1 now.1) ≡ true }
    ensures log { ledger.new.log ≡ shown at (Event.Refused Cause.DiskFault)
        ∷ met_at at n.0 before now ledger.old.log }
    ensures nodes { ledger.new.nodes ≡ ledger.old.nodes }
    ensures cut { ledger.new.cut ≡ ledger.old.cut }
    ensures legal { IsLegalPast ledger.old.nodes
        (printed (met_at at n.0 before now ledger.old.log)) }
    ensures turns { AreInTurn (printed (met_at at n.0 before now ledger.old.log)) }
    ensures rule { KeepsRule ledger.old.nodes (printed (met_at at n.0 before now ledger.old.log)) at
        (Event.Refused Cause.DiskFault) }
    ensures turn { InTurn (printed (met_at at n.0 before now ledger.old.log)) at
        (Event.Refused Cause.DiskFault) }
{
    show_first(ledger, at, n, FaultKind::Disk, before.0, now.0);
    show_first(ledger, at, n, FaultKind::Stop, before.1, now.1);
    let cause = Cause::DiskFault;
    ledger.show(at, Event::Refused { cause });
}
