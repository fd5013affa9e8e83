//! What lanes share.

ghost use Rattle.std.specs.Prelude.{◌≡◌, Bool, false, reverse};
ghost use Rattle.history_book.specs.Log.{Log, name_of};
ghost use Rattle.lane_threads.specs.Owes.{FaultsFit, IsSettledLog};
ghost use Rattle.lane_threads.specs.declared.run.Setup.{Setup};

use hist_lock::Grows;
use history_book::Mark;

/// How a run was set up: how many nodes it has, and whether accepted operations are logged.
#[derive(Debug, Clone, Copy, PartialEq, Eq)]
pub struct Setup {
    pub nodes: u8,
    pub log: bool,
}

/// A value that lanes share under a lock. Its history is the one list of the entries of a run.
pub trait LaneRun: Grows<Entry = Mark> {
    /// All entries, newest first.
    ghost log: { Self → Log };

    /// Whether it has ended.
    ghost ended: { Self → Bool };

    /// How it was set up.
    ghost set_up: { Self → Setup };

    /// Whether it has ended, as one that was out of memory has.
    ///
    /// The faults of merges are in order also then; and where it has not ended, nothing is due to be accepted again.
    fn has_ended(&self) -> bool
        ensures ended { result ≡ ended self.now }
        ensures faults { FaultsFit (set_up self.now).log (log self.now) }
        ensures settled { result ≡ false → IsSettledLog (set_up self.now).log (log self.now) };

    /// How it was set up.
    fn setup(&self) -> Setup
        ensures { result ≡ set_up self.now };

    /// Its history is the list of its entries, the oldest first.
    ghost in_order: { (run : Self) → Self.history run ≡ reverse (log run) };

    /// Each entry names the seat of its lane, or none.
    ghost named: { Self.names ≡ name_of };
}
