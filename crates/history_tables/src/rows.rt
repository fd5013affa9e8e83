//! A row for each node.

ghost use Rattle.std.specs.Prelude.{◌≡◌, ◌≤◌, ◌<◌, ◌+◌, ◌^◌, ◌∷◌, [], List, ℕ, length, IfOk};
ghost use Rattle.history_rules.specs.Nodes.{Past};
ghost use Rattle.history_tables.specs.NodeRows.{NodeTells, KnowsPlace, RowsTell, AreRowsLow};

use crate::plans::Plans;
use crate::states::NodeState;
use crate::work::Work;
use history_rules::Event;
use nrt_base::{At, NodeNo};
use std::alloc::{AllocError, Global};

/// What is remembered of a node.
#[derive(Clone, Copy, Debug, PartialEq, Eq)]
pub struct NodeRow {
    pub state: NodeState,
    pub work: Work,
    pub plans: Plans,
}

impl NodeRow {
    /// Before any entry.
    pub fn first() -> Self
        ensures { (n : ℕ) → NodeTells [] n result }
    {
        let state = NodeState::first();
        let work = Work::first();
        let plans = Plans::first();
        NodeRow { state, work, plans }
    }

    /// After one more entry, where so many stood before it. Where it refuses a commit, `line` is the node of that.
    pub fn after(
        self,
        n: u8,
        at: At,
        event: &Event,
        size: usize,
        primary: Option<NodeNo>,
        line: Option<NodeNo>,
    ) -> Self
        requires few { size + 1 < 2 ^ 64 }
        requires low { self.state.crashes ≤ size }
        ensures { (past : Past) → KnowsPlace past at event.now size primary line
            → NodeTells past n self
            → NodeTells (record { at = at; event = event.now } ∷ past) n result }
    {
        let state = self.state.after(n, at, event, primary, size);
        let work = self.work.after(n, at, event, primary, line);
        let plans = self.plans.after(n, at, event);
        NodeRow { state, work, plans }
    }
}

/// Every row after one more entry.
pub fn step_rows(
    rows: &mut Vec<NodeRow>,
    at: At,
    event: &Event,
    size: usize,
    primary: Option<NodeNo>,
    line: Option<NodeNo>,
)
    requires few { size + 1 < 2 ^ 64 }
    requires nodes { length rows.old.items ≤ 255 }
    requires low { AreRowsLow size rows.old.items }
    ensures count { length rows.new.items ≡ length rows.old.items }
    ensures rows { (past : Past) → KnowsPlace past at event.now size primary line
        → RowsTell past rows.old.items
        → RowsTell (record { at = at; event = event.now } ∷ past) rows.new.items }
{
    for i in 0..rows.len() {
        let row = rows[i];
        rows[i] = row.after(i as u8 + 1, at, event, size, primary, line);
    }
}

/// A row for each of so many nodes.
pub fn first_rows(alloc: Global, nodes: u8) -> Result<Vec<NodeRow>, AllocError>
    ensures count { IfOk result (λ rows. length rows.items ≡ nodes) }
    ensures rows { IfOk result (λ rows. RowsTell [] rows.items) }
{
    let mut rows = Vec::new(alloc);
    for next in 0..nodes {
        rows.push(NodeRow::first())?;
        prove!(next < nodes);
    }
    Ok(rows)
}
