//! Which rows of a merged segment are live now.

ghost use Rattle.std.specs.Prelude.{◌≡◌, IfOk, length};
ghost use Rattle.std.specs.List.{AllZip};
ghost use Rattle.seg_merge.specs.Merging.{origins, carried, AreAsLong};

use crate::task::Merged;
use nrt_base::NoMemory;
use seg_build::LiveBits;
use std::alloc::Global;

/// The rows of a merged segment that are live now: those that are live where they come from. `task_live` are the rows of the
/// inputs that were live when the merge started, and `live_now` those that are live now.
pub fn carry(
    alloc: Global,
    task_live: &[LiveBits],
    live_now: &[LiveBits],
    merged: &Merged,
) -> Result<LiveBits, NoMemory>
    requires from { merged.now.from ≡ origins 0 task_live.now }
    requires rows { length merged.now.files.live ≡ length merged.now.from }
    requires now { AllZip AreAsLong live_now.now task_live.now }
    ensures { IfOk result (λ live. live ≡ carried merged.now.from live_now.now) }
{
    let (rows, _) = merged.files.live.counts();
    let mut live = LiveBits::all(alloc, rows)?;
    for (at, from) in merged.from.as_slice().iter().enumerate() {
        if !live_now[from.input as usize].is_live(from.row) {
            live.kill(at as u32);
        }
    }
    Ok(live)
}
