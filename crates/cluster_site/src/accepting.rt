//! At a cluster that may have a log: the call of lines that write.

ghost use Rattle.std.specs.Prelude.{◌≡◌, ◌++◌, ◌∷◌, [], is_some, OnOk};
ghost use Rattle.cluster_site.specs.Sites.{LogGoesOn, LogStands, records_of, with_record};

use crate::site::Site;
use disk_model::{Dir, FaultDir};
use documents::Op;
use history_rules::Event;
use nrt_base::{At, NoMemory};
use std::alloc::{AllocError, Global};
use trans_log::{LogFault, LogOp, TransLog};

// Out of memory, as a log answers nothing else for whose directory no fault is planned.
pub(crate) fn memory_alone(fault: LogFault) -> NoMemory
    requires { fault ≡ LogFault.Memory }
{
    match fault {
        LogFault::Memory => AllocError,
        LogFault::Failed | LogFault::Broken(..) | LogFault::Gap(_) => unreachable!(),
    }
}

// Appends a record to a log that goes on. It fails when out of memory.
fn append<D: Dir>(log: &mut TransLog<D>, entry: &LogOp) -> Result<(), NoMemory>
    requires { LogGoesOn D.cells D.plans log.old }
    ensures records { OnOk result (log.new.records.items ≡ log.old.records.items ++ entry.now ∷ []) }
    ensures goes_on { OnOk result (LogGoesOn D.cells D.plans log.new) }
{
    if log.len() == u32::MAX {
        return Err(AllocError);
    }
    match log.append(entry) {
        Ok(()) => Ok(()),
        Err(fault) => Err(memory_alone(fault)),
    }
}

// Appends a record to the log, where there is one.
fn note<D: Dir>(log: &mut Option<TransLog<D>>, entry: &LogOp) -> Result<(), NoMemory>
    requires { LogStands D.cells D.plans log.old }
    ensures records { OnOk result
        (records_of log.new ≡ with_record entry.now (records_of log.old)) }
    ensures same { is_some (records_of log.new) ≡ is_some (records_of log.old) }
    ensures stands { OnOk result (LogStands D.cells D.plans log.new) }
{
    match log {
        None => Ok(()),
        Some(log) => append(log, entry),
    }
}

impl<D: FaultDir + Drop> Site<D> {
    ghost use Rattle.std.specs.Prelude.{◌≡◌, ◌+◌, ◌<◌, ◌^◌, ◌∷◌, [], false, OnOk, OnErr};
    ghost use Rattle.history_rules.specs.Nodes.{accepted_count};
    ghost use Rattle.history_rules.specs.Lines.{entries_of_line};
    ghost use Rattle.history_book.specs.Log.{printed, shown};
    ghost use Rattle.script_serving.specs.Refusals.{without_primary};
    ghost use Rattle.cluster_state.specs.Run.{IsNow, KeepsRest, IsEnded};
    ghost use Rattle.cluster_state.specs.Calls.{by_refusal};
    ghost use Rattle.cluster_core.specs.Doing.{IsReplied, writing_command};
    ghost use Rattle.cluster_site.specs.Sites.{DoesAtSite, with_next};

    /// Accepts an operation: a put, a delete or a drop. Where a primary runs, the log has it before.
    pub fn accept(&mut self, alloc: Global, at: At, op: Op) -> Result<(), NoMemory>
        requires running { self.old.run.ended ≡ false }
        requires fresh { entries_of_line at (printed self.old.run.log) ≡ [] }
        ensures ok { OnOk result (IsNow self.old.run self.new.run (shown at
            (by_refusal (without_primary (printed self.old.run.log))
            (Event.Accepted (accepted_count (printed self.old.run.log) + 1) op)) ∷ self.old.run.log)) }
        ensures plans { OnOk result (self.new.run.rest.plans ≡ self.old.run.rest.plans) }
        ensures names { OnOk result (self.new.run.rest.names ≡ self.old.run.rest.names) }
        ensures rest { OnOk result (KeepsRest self.old.run self.new.run) }
        ensures err { OnErr result (IsEnded self.old.run self.new.run) }
        ensures kept { accepted_count (printed self.old.run.log) + 1 < 2 ^ 32 → OnOk result
            (self.new.kept ≡ with_next op (printed self.old.run.log) self.old.kept) }

        // what the line is owed
        ensures does { OnOk result (DoesAtSite (writing_command op) at self.old self.new) }
        ensures replied { OnOk result (IsReplied at self.new.run) }
    {
        let Some((generation, seq)) = self.cluster.next_accept() else {
            return self.cluster.accept(alloc, at, op);
        };
        let entry = LogOp {
            generation,
            seq,
            op,
        };
        match note(&mut self.log, &entry) {
            Ok(()) => {
                let LogOp { op, .. } = entry;
                self.cluster.accept(alloc, at, op)
            }
            Err(fault) => {
                drop(entry);
                self.cluster.end();
                Err(fault)
            }
        }
    }
}
