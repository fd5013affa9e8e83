//! Whether a line is whole: it met no fault in a file for a node that has not crashed since its start.

ghost use Rattle.std.specs.Prelude.{◌≡◌, ◌≤◌, drop, length};

use crate::book::Book;
use history_facts::{has_file_fault, has_met_fault};
use history_rules::Entry;
use nrt_base::{At, NodeNo};

// The entries from a place on.
fn entries_from(entries: &[Entry], place: usize) -> &[Entry]
    requires { place ≤ length entries.now }
    ensures { result.now ≡ drop place entries.now }
{
    &entries[place..]
}

impl Book {
    ghost use Rattle.std.specs.Prelude.{ℕ, ◌≡◌, ◌≢◌, false, None, IsTrue, ◌↔◌, reverse};
    ghost use Rattle.history_rules.specs.Nodes.{IsNode};
    ghost use Rattle.history_rules.specs.Lines.{NodeSurvives};
    ghost use Rattle.history_rules.specs.Faults.{has_file_fault};
    ghost use Rattle.history_rules.specs.Rules.{IsLineWhole};
    ghost use Rattle.history_tables.specs.Begins.{open_line};
    ghost use Rattle.history_book.specs.Log.{printed};

    // The entries since the start of a line, among which are all faults that it met in files.
    fn since(&self, at: At) -> &[Entry]
        requires { open_line at (printed self.now.log) ≢ None }
        ensures { (n : ℕ) → has_file_fault n at (reverse result.now)
            ≡ has_file_fault n at (printed self.now.log) }
    {
        self.is_legal();
        let before = self.before(at);
        entries_from(self.entries(), before)
    }

    // Whether a node has crashed since the start of a line, or the line met no fault in a file for it.
    fn is_spared(&self, at: At, n: NodeNo) -> bool
        requires line { open_line at (printed self.now.log) ≢ None }
        requires node { IsNode self.now.nodes n.0 }
        ensures { IsTrue result ↔ (NodeSurvives (printed self.now.log) at n.0
            → has_file_fault n.0 at (printed self.now.log) ≡ false) }
    {
        !self.node_survives(at, n) || !has_file_fault(n, at, self.since(at))
    }

    /// Whether an open line is whole.
    pub fn is_whole(&self, at: At) -> bool
        requires { open_line at (printed self.now.log) ≢ None }
        ensures { IsTrue result ↔ IsLineWhole self.now.nodes (printed self.now.log) at }
    {
        if !has_met_fault(at, self.since(at)) {
            return true;
        }
        for below in 0..self.node_count() {
            if !self.is_spared(at, NodeNo(below + 1)) {
                return false;
            }
        }
        true
    }
}
