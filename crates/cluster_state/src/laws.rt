//! What holds of a cluster between two calls, for the calls of lines.

ghost use Rattle.codec_frame.specs.Bytes.{AreBytes};

use crate::cluster::ClusterState;
use disk_model::FaultDir;
use nrt_base::NodeNo;

/// Each is a byte. A law.
pub fn are_bytes(bytes: &[u8])
    ensures { AreBytes bytes.now }
{
    let _bytes = bytes;
}

impl<D: FaultDir + Drop> ClusterState<D> {
    ghost use Rattle.std.specs.Prelude.{◌≡◌, ◌≤◌, false, IfSome};
    ghost use Rattle.history_rules.specs.Nodes.{IsNode, IsReplica, newest_version};
    ghost use Rattle.history_book.specs.Log.{printed};
    ghost use Rattle.history_book.specs.Jobs.{job_at};

    /// The job that runs at a replica is for no version above the newest. A law.
    pub fn job_low(&self, n: NodeNo)
        requires running { self.now.ended ≡ false }
        requires node { IsNode self.now.nodes n.0 }
        requires replica { IsReplica (printed self.now.log) n.0 }
        ensures { IfSome (job_at n.0 self.now.log)
            (λ job. job.version.0 ≤ newest_version (printed self.now.log)) }
    {
        let _ledger = &self.ledger;
    }
}
