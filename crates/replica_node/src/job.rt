//! The job of a newer point.

ghost use Rattle.copy_job.specs.Jobs.{IsJob};

use copy_job::CopyJob;
use segment_infos::Infos;

/// A copy of a newer point, and the infos of that point. A stopped one does not go on: it keeps its parts and what it
/// reuses for the next job.
#[derive(Drop)]
pub struct PointJob {
    pub copy: CopyJob,
    pub infos: Infos,
    pub stopped: bool,
}

/// A job is one.
pub fn told(copy: &CopyJob)
    ensures { IsJob copy.now }
{
    let _ = copy.missing();
}
