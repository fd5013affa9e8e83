//! Where a job stands.

use history_rules::Cause;

/// Where a job stands that has not ended.
#[derive(Debug, Drop)]
pub enum Standing {
    /// It runs.
    Runs,
    /// Its node has crashed, which a settle passes.
    Passed,
    /// Its line is refused.
    Ends(Cause),
}
