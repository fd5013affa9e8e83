//! The log of a cluster that starts.

ghost use Rattle.std.specs.Prelude.{◌≡◌, [], IfOk};
ghost use Rattle.trans_log.specs.Logs.{SameLogs, IsCalm};
ghost use Rattle.cluster_state.specs.Starting.{IsEmptyDir};
ghost use Rattle.cluster_site.specs.Sites.{LogGoesOn};

use crate::accepting::memory_alone;
use disk_model::FaultDir;
use nrt_base::NoMemory;
use std::alloc::Global;
use trans_log::TransLog;

/// The log of an empty directory for which no fault is planned. It has no record.
pub(crate) fn empty_log<D: FaultDir + Drop>(alloc: Global, dir: D) -> Result<TransLog<D>, NoMemory>
    requires empty { IsEmptyDir (D.cells dir) }
    requires same { SameLogs (D.cells dir) }
    requires calm { IsCalm (D.plans dir) }
    ensures records { IfOk result (λ log. log.records.items ≡ []) }
    ensures goes_on { IfOk result (LogGoesOn D.cells D.plans) }
{
    match TransLog::start(alloc, dir) {
        Ok(log) => Ok(log),
        Err(refused) => Err(memory_alone(refused.fault)),
    }
}
