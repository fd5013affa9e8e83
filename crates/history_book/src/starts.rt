//! What a line started as.

ghost use Rattle.std.specs.Prelude.{ℕ, ◌≡◌, Some};
ghost use Rattle.history_rules.specs.Nodes.{is_at};
ghost use Rattle.history_rules.specs.Commits.{starts_commit};
ghost use Rattle.history_tables.specs.Begins.{event_of};

use history_tables::Start;
use nrt_base::NodeNo;

/// The node whose commit a line started as.
pub fn commit_node(start: Start) -> Option<NodeNo>
    ensures { (k : ℕ) → starts_commit k (Some (event_of start)) ≡ is_at result k }
{
    match start {
        Start::Committing { n, .. } => Some(n),
        Start::Publishing => None,
        Start::Copying { .. } => None,
        Start::Settling { .. } => None,
        Start::Searching { .. } => None,
        Start::Asking { .. } => None,
    }
}
