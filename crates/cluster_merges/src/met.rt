//! The faults that a task of a merge met, and the merge that ends behind them.

ghost use Rattle.std.specs.Prelude.{◌≡◌, ◌≢◌, ◌≤◌, ◌+◌, ◌*◌, ◌⊎◌, true, None, OnOk, OnErr, length};
ghost use Rattle.history_rules.specs.Nodes.{IsNode, IsReplica};
ghost use Rattle.history_rules.specs.Lines.{last_of_line, publish_in_flight};
ghost use Rattle.history_rules.specs.Rules.{is_merging};
ghost use Rattle.history_book.specs.Log.{printed};
ghost use Rattle.merge_tasks.specs.Fates.{fate_due};
ghost use Rattle.merge_tasks.specs.Merging.{merge_on};
ghost use Rattle.cluster_state.specs.DueFaults.{with_due};
ghost use Rattle.cluster_merges.specs.TaskMet.{mets, EndsBehind};

use cluster_nodes::NodePlace;
use cluster_state::{comes_whole, is_merge_line, show_due, show_task_met};
use disk_model::FaultDir;
use history_book::{Fate, Inner, Step};
use merge_tasks::Ledger;
use nrt_base::{At, LineNo, NoMemory, NodeNo, SegNo};
use std::alloc::AllocError;

/// Ends a merge, cut over or not, and its task, behind the faults that the task met. Where one is not planned it fails, as out of memory, and the
/// ledger is as before.
pub(crate) fn end_behind<D: FaultDir + Drop>(
    ledger: &mut Ledger,
    at: At,
    line: LineNo,
    seg: SegNo,
    by: Option<At>,
    step: Step,
    cut: bool,
    before: &[(u64, u64)],
    places: &Vec<Option<NodePlace<D>>>,
) -> Result<(), NoMemory>
    requires room { 2 * length before.now + 2 ≤ ledger.old.room }
    requires count { length before.now ≡ ledger.old.nodes }
    requires places { length places.now.items ≡ ledger.old.nodes }
    requires on { merge_on seg.0 ledger.old.log ≢ None }
    requires calm { cut ≡ true → publish_in_flight (printed ledger.old.log) ≡ None }
    ensures ok { OnOk result (EndsBehind at line seg by step cut before.now
        (mets D.planned places.now.items) ledger.old ledger.new) }
    ensures err { OnErr result (ledger.new ≡ ledger.old) }
{
    show_task_met(ledger, at, before, places)?;
    ledger.end_merge(seg, cut);
    ledger.keep(Inner::TaskEnd {
        line,
        seg,
        by,
        step,
        counts: true,
    });
    Ok(())
}

/// A line is a merge where a fault is due in the next file for a node. It is, as the file is of a merge of the line.
pub(crate) fn must_merge(ledger: &Ledger, at: At, n: NodeNo) -> Result<(), NoMemory>
    requires { IsNode ledger.now.nodes n.0 }
    ensures { OnOk result ((fate_due n.0 ledger.now.log ≡ Fate.Whole)
        ⊎ (is_merging (last_of_line at (printed ledger.now.log)) ≡ true)) }
{
    if comes_whole(ledger, n) {
        return Ok(());
    }
    if is_merge_line(ledger.book(), at) {
        Ok(())
    } else {
        Err(AllocError)
    }
}

/// Appends the faults that the next file for a node meets, of the line of its merge, and tells what becomes of the file.
pub(crate) fn show_task_due(ledger: &mut Ledger, at: At, n: NodeNo) -> Fate
    requires room { 2 ≤ ledger.old.room }
    requires node { IsNode ledger.old.nodes n.0 }
    requires replica { IsReplica (printed ledger.old.log) n.0 }
    requires merges { (fate_due n.0 ledger.old.log ≡ Fate.Whole)
        ⊎ (is_merging (last_of_line at (printed ledger.old.log)) ≡ true) }
    ensures fate { result ≡ fate_due n.0 ledger.old.log }
    ensures log { ledger.new.log ≡ with_due true at n.0 ledger.old.log }
    ensures nodes { ledger.new.nodes ≡ ledger.old.nodes }
    ensures cut { ledger.new.cut ≡ ledger.old.cut }
    ensures room { ledger.old.room ≤ ledger.new.room + 2 }
{
    if comes_whole(ledger, n) {
        return Fate::Whole;
    }
    show_due(ledger, true, at, n)
}
