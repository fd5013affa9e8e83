//! What a log has, and what a replay has left of it.

ghost use Rattle.std.specs.Prelude.{◌≡◌, ◌↔◌, [], ◌∷◌, reverse, drop, IsTrue, OnOk, IfOk};
ghost use Rattle.known_past.specs.Known.{IsKnown};
ghost use Rattle.report_judge.specs.Replaying.{ShowsReplay, left_to_replay};

use documents::Op;
use history_facts::operation_count;
use history_rules::{Entry, Event};
use known_past::KnownPast;
use nrt_base::{NoMemory, Share, Version};
use std::alloc::Global;

/// What a log has, and what is left of it to be accepted again. Without a log there is nothing of both.
#[derive(Drop)]
pub struct Replay {
    pub log: bool,
    /// The operations that the log has.
    pub logged: Vec<Op>,
    /// The operations that the last promotion had to accept again.
    pub lacking: Vec<Op>,
    /// How many of them were accepted again.
    pub accepted: usize,
}

fn share_all(alloc: Global, ops: &[Op]) -> Result<Vec<Op>, NoMemory>
    ensures { IfOk result (λ copies. copies.items ≡ ops.now) }
{
    let mut copies = Vec::with_capacity(alloc, ops.len())?;
    for op in ops {
        copies.push(op.share(alloc)?)?;
    }
    Ok(copies)
}

impl Replay {
    /// Before any entry.
    pub fn new(alloc: Global, log: bool) -> Self
        ensures shown { ShowsReplay log [] result }
    {
        Replay {
            log,
            logged: Vec::new(alloc),
            lacking: Vec::new(alloc),
            accepted: 0,
        }
    }

    /// The operations that are due to be accepted again.
    pub fn due(&self) -> &[Op]
        ensures { result.now ≡ left_to_replay self.now }
    {
        if self.accepted < self.lacking.len() {
            &self.lacking[self.accepted..]
        } else {
            &self.lacking[self.lacking.len()..]
        }
    }

    fn promote(&mut self, alloc: Global, has: usize) -> Result<(), NoMemory>
        ensures log { self.new.log ≡ self.old.log }
        ensures logged { self.new.logged ≡ self.old.logged }
        ensures due { OnOk result (left_to_replay self.new ≡ drop has self.old.logged.items) }
    {
        let first = has.min(self.logged.len());
        self.lacking = share_all(alloc, &self.logged[first..])?;
        self.accepted = 0;
        Ok(())
    }

    /// Counts one more operation that was accepted again, where one was due.
    #[tactic(auto, using(crate::proofs::ReplayLaws::drop_next))]
    fn count_again(&mut self)
        ensures log { self.new.log ≡ self.old.log }
        ensures logged { self.new.logged ≡ self.old.logged }
        ensures due { left_to_replay self.new ≡ drop 1 (left_to_replay self.old) }
    {
        if self.accepted < self.lacking.len() {
            self.accepted += 1;
        }
    }

    /// Whether nothing is due.
    pub fn is_done(&self) -> bool
        ensures { IsTrue result ↔ (left_to_replay self.now ≡ []) }
    {
        self.due().is_empty()
    }

    /// Takes one more entry in, behind these.
    #[tactic(auto, using(crate::proofs::ReplayLaws::promoted_has))]
    pub fn take(
        &mut self,
        alloc: Global,
        known: &KnownPast,
        before: &[Entry],
        entry: &Entry,
    ) -> Result<(), NoMemory>
        requires known { IsKnown (reverse before.now) known.now }
        requires shown { ShowsReplay self.old.log (reverse before.now) self.old }
        ensures log { self.new.log ≡ self.old.log }
        ensures shown { OnOk result
            (ShowsReplay self.old.log (entry.now ∷ reverse before.now) self.new) }
    {
        if !self.log {
            return Ok(());
        }
        match &entry.event {
            Event::Accepted { op, .. } => {
                if !known.is_answered(entry.at, before) {
                    self.logged.push(op.share(alloc)?)?;
                }
                self.count_again();
                Ok(())
            }
            Event::Promoted { n, .. } => {
                let searched = Version(known.version_of(*n, before));
                self.promote(alloc, operation_count(before, searched))
            }
            _ => Ok(()),
        }
    }
}
