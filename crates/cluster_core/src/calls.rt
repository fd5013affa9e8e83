//! The calls of lines that write and publish.

ghost use Rattle.std.specs.Prelude.{◌≡◌, ◌+◌, ◌<◌, ◌^◌};

use crate::cluster::Cluster;
use cluster_documents::{accept, accept_again, publish_end, publish_start};
use cluster_state::Turn;
use disk_model::FaultDir;
use documents::Op;
use history_rules::Event;
use nrt_base::{At, Gen, NoMemory};
use segment_steps::{FlushTask, FlushWork};
use std::alloc::Global;

// The number behind so many, where it is below 2^32.
fn number_behind(count: usize) -> u32
    ensures { count + 1 < 2 ^ 32 → result ≡ count + 1 }
{
    if count < u32::MAX as usize {
        count as u32 + 1
    } else {
        u32::MAX
    }
}

impl<D: FaultDir + Drop> Cluster<D> {
    ghost use Rattle.std.specs.Prelude.{◌≡◌, ◌≢◌, ◌+◌, ◌<◌, ◌^◌, ◌∷◌, [], true, false, None, Some, is_some, OnOk, OnErr, IfOk, IfSome};
    ghost use Rattle.history_rules.specs.Nodes.{accepted_count, generation_of, primary_of};
    ghost use Rattle.history_rules.specs.Lines.{entries_of_line, start_entry, is_answered, last_of_line};
    ghost use Rattle.history_book.specs.Log.{printed, shown};
    ghost use Rattle.script_serving.specs.declared.script.LineCommand.TheVariants.{Publish};
    ghost use Rattle.script_serving.specs.Refusals.{without_primary};
    ghost use Rattle.lane_threads.specs.Idle.{TellsNone};
    ghost use Rattle.cluster_state.specs.Run.{IsNow, KeepsRest, IsEnded};
    ghost use Rattle.cluster_state.specs.Keeping.{KeepsButPoint};
    ghost use Rattle.cluster_state.specs.Writes.{IsFlushed};
    ghost use Rattle.cluster_core.specs.Doing.{Does, IsReplied, IsRepliedAtDone, IsBegunAtWork, writing_command};
    ghost use Rattle.cluster_state.specs.Calls.{by_refusal, PublishStarts};
    ghost use Rattle.cluster_state.specs.GivesUp.{EndsPublish};

    /// Accepts an operation: a put, a delete or a drop.
    pub fn accept(&mut self, alloc: Global, at: At, op: Op) -> Result<(), NoMemory>
        requires running { self.old.ended ≡ false }
        requires fresh { entries_of_line at (printed self.old.log) ≡ [] }
        ensures ok { OnOk result (IsNow self.old self.new (shown at
            (by_refusal (without_primary (printed self.old.log))
            (Event.Accepted (accepted_count (printed self.old.log) + 1) op)) ∷ self.old.log)) }
        ensures plans { OnOk result (self.new.rest.plans ≡ self.old.rest.plans) }
        ensures names { OnOk result (self.new.rest.names ≡ self.old.rest.names) }
        ensures rest { OnOk result (KeepsRest self.old self.new) }
        ensures err { OnErr result (IsEnded self.old self.new) }

        // what the line is owed
        ensures does { OnOk result (Does (writing_command op) at self.old self.new) }
        ensures replied { OnOk result (IsReplied at self.new) }
    {
        accept(&mut self.state, alloc, at, op)
    }

    /// Accepts an operation again, for a line that has its reply, while a primary runs.
    pub fn accept_again(&mut self, alloc: Global, at: At, op: Op) -> Result<(), NoMemory>
        requires running { self.old.ended ≡ false }
        requires begun { start_entry at (printed self.old.log) ≡ None }
        requires replied { is_answered at (printed self.old.log) ≡ true }
        requires primary { primary_of (printed self.old.log) ≢ None }
        ensures ok { OnOk result (IsNow self.old self.new (shown at
            (Event.Accepted (accepted_count (printed self.old.log) + 1) op) ∷ self.old.log)) }
        ensures plans { OnOk result (self.new.rest.plans ≡ self.old.rest.plans) }
        ensures names { OnOk result (self.new.rest.names ≡ self.old.rest.names) }
        ensures rest { OnOk result (KeepsRest self.old self.new) }
        ensures err { OnErr result (IsEnded self.old self.new) }
    {
        accept_again(&mut self.state, alloc, at, op)
    }

    /// The generation and the number of the next operation that is accepted. None comes exactly where no primary runs.
    pub fn next_accept(&self) -> Option<(Gen, u32)>
        ensures primary { is_some result ≡ is_some (primary_of (printed self.now.log)) }
        ensures generation { IfSome result (λ next.
            next.0.0 ≡ generation_of (printed self.now.log)) }
        ensures number { IfSome result (λ next.
            accepted_count (printed self.now.log) + 1 < 2 ^ 32
            → next.1 ≡ accepted_count (printed self.now.log) + 1) }
    {
        let book = self.state.book();
        match book.primary() {
            None => None,
            Some(_) => Some((Gen(book.generation()), number_behind(book.accepted()))),
        }
    }

    /// Starts a publish. Busy comes exactly where a primary runs and a publish is in flight.
    pub fn publish_start(&mut self, alloc: Global, at: At) -> Result<Turn<FlushTask>, NoMemory>
        requires running { self.old.ended ≡ false }
        requires fresh { entries_of_line at (printed self.old.log) ≡ [] }
        ensures ok { IfOk result (PublishStarts at self.old self.new) }
        ensures rest { OnOk result (KeepsRest self.old self.new) }
        ensures err { OnErr result (IsEnded self.old self.new) }

        // what the line is owed
        ensures does { OnOk result (Does Publish at self.old self.new) }
        ensures none { OnOk result (TellsNone Publish self.old.log self.new.log) }
        ensures replied { IfOk result (IsRepliedAtDone at self.new) }
        ensures begun { IfOk result (IsBegunAtWork at (λ task. Event.Publishing) self.new) }
    {
        self.state.has_cut_over();
        publish_start(&mut self.state, alloc, at)
    }

    /// Ends a publish with the work that was made for it: its point is there, or it is given up where a disk failed by a plan that the
    /// history shows. Exactly where the primary has crashed since, the line is refused as lost.
    pub fn publish_end(&mut self, alloc: Global, at: At, work: FlushWork) -> Result<(), NoMemory>
        requires running { self.old.ended ≡ false }
        requires started { last_of_line at (printed self.old.log) ≡ Some Event.Publishing }
        requires work { IsFlushed at self.old.log work }
        ensures ok { OnOk result (EndsPublish at self.old self.new) }
        ensures rest { OnOk result (KeepsButPoint self.old self.new) }
        ensures err { OnErr result (IsEnded self.old self.new) }

        // what the line is owed
        ensures does { OnOk result (Does Publish at self.old self.new) }
        ensures none { OnOk result (TellsNone Publish self.old.log self.new.log) }
        ensures replied { OnOk result (IsReplied at self.new) }
    {
        self.state.book().is_legal();
        publish_end(&mut self.state, alloc, at, work)
    }
}
