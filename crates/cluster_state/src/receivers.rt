//! The replicas that run, which copies are sent to.

ghost use Rattle.std.specs.Prelude.{◌≡◌, IfOk};
ghost use Rattle.history_rules.specs.Nodes.{is_at};
ghost use Rattle.history_book.specs.Log.{printed};
ghost use Rattle.cluster_state.specs.Settles.{AreReplicas};

use history_book::Book;
use nrt_base::{NoMemory, NodeNo};
use std::alloc::Global;

// Whether the node is the one.
fn is_node(primary: Option<NodeNo>, n: NodeNo) -> bool
    ensures { result ≡ is_at primary n.0 }
{
    match primary {
        Some(p) => p.0 == n.0,
        None => false,
    }
}

/// The replicas that run, ascending.
pub fn replicas(alloc: Global, book: &Book) -> Result<Vec<NodeNo>, NoMemory>
    ensures { IfOk result (λ left. AreReplicas book.now.nodes (printed book.now.log) left.items) }
{
    let primary = book.primary();
    let mut left = Vec::new(alloc);
    for k in 0..book.node_count() {
        let n = NodeNo(k + 1);
        if book.runs(n) && !is_node(primary, n) {
            left.push(n)?;
        }
    }
    Ok(left)
}
