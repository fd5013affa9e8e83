//! The faults that a file meets as it is handed out.

ghost use Rattle.std.specs.Prelude.{◌≡◌, ◌≢◌, ◌≤◌, ◌+◌, true, false};
ghost use Rattle.history_rules.specs.Nodes.{IsNode, is_running};
ghost use Rattle.history_rules.specs.Rules.{MayFault, fetches_at};
ghost use Rattle.history_book.specs.Jobs.{FollowsFault};
ghost use Rattle.history_book.specs.Log.{printed};
ghost use Rattle.merge_tasks.specs.Fates.{fate_due};
ghost use Rattle.cluster_state.specs.DueFaults.{with_due};
ghost use Rattle.cluster_state.specs.Met.{MayMeet, fault_on};

use crate::met::show_fault;
use history_book::Fate;
use history_rules::FaultKind;
use merge_tasks::Ledger;
use nrt_base::{At, NodeNo};

// Appends a fault where it is due.
#[tactic(auto, using(crate::proofs::AtWork::follows))]
fn show_where(ledger: &mut Ledger, task: bool, at: At, n: NodeNo, kind: FaultKind, due: bool)
    requires room { 1 ≤ ledger.old.room }
    requires rule { due ≡ true → MayFault ledger.old.nodes (printed ledger.old.log) at n kind }
    requires works { MayMeet task at (printed ledger.old.log) }
    ensures log { ledger.new.log ≡ fault_on due task at n.0 kind ledger.old.log }
    ensures nodes { ledger.new.nodes ≡ ledger.old.nodes }
    ensures cut { ledger.new.cut ≡ ledger.old.cut }
    ensures room { ledger.old.room ≤ ledger.new.room + 1 }
{
    if due {
        show_fault(ledger, task, at, n, kind);
    }
}

/// Whether no fault is due in the next file that is handed out to a node.
pub fn comes_whole(ledger: &Ledger, n: NodeNo) -> bool
    requires { IsNode ledger.now.nodes n.0 }
    ensures whole { result ≡ true → fate_due n.0 ledger.now.log ≡ Fate.Whole }
    ensures broken { result ≡ false → fate_due n.0 ledger.now.log ≢ Fate.Whole }
{
    match ledger.file_plans(n).fate() {
        Fate::Whole => true,
        Fate::Fail => false,
        Fate::Damage(_) => false,
    }
}

/// Appends the faults that the next file handed out to a node meets, of a line or of a task of its merge, and tells what becomes of the file.
pub fn show_due(ledger: &mut Ledger, task: bool, at: At, n: NodeNo) -> Fate
    requires room { 2 ≤ ledger.old.room }
    requires node { IsNode ledger.old.nodes n.0 }
    requires works { MayMeet task at (printed ledger.old.log) }
    requires fetched { fetches_at ledger.old.nodes at (printed ledger.old.log) n.0 ≡ true }
    requires alive { is_running n.0 (printed ledger.old.log) ≡ true }
    ensures fate { result ≡ fate_due n.0 ledger.old.log }
    ensures log { ledger.new.log ≡ with_due task at n.0 ledger.old.log }
    ensures follows { FollowsFault result at n.0 (printed ledger.new.log) }
    ensures nodes { ledger.new.nodes ≡ ledger.old.nodes }
    ensures cut { ledger.new.cut ≡ ledger.old.cut }
    ensures room { ledger.old.room ≤ ledger.new.room + 2 }
{
    let plans = ledger.file_plans(n);
    show_where(ledger, task, at, n, FaultKind::Link, plans.link == 1);
    show_where(ledger, task, at, n, FaultKind::Damage, plans.damage == 1);
    plans.fate()
}
