//! A law of the generated script. What a law ensures is what it says; its call changes nothing.

ghost use Rattle.std.specs.Prelude.{◌≡◌, ◌≤◌, reverse};
ghost use Rattle.history_rules.specs.Legal.{IsLegal};
ghost use Rattle.script_serving.specs.Serves.{Serves};
ghost use Rattle.load_script.specs.Generated.{generated_script};
ghost use Rattle.load_script.specs.Totals.{totals_in, totals_of};

use history_rules::History;

/// In a legal history that serves the script of n documents each search behind the join finds as many documents as the
/// scan of what the script leaves.
pub fn totals_are_the_scans(n: u32, h: &History)
    requires few { n ≤ 10000 }
    requires legal { IsLegal h.now }
    requires serves { Serves (generated_script n) h.now }
    ensures { totals_in n (reverse h.now.entries) ≡ totals_of n }
{}
