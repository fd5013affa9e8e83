//! A commit that is stopped at each call of the disk in turn, and what is found after the crash.

ghost use Rattle.std.specs.Prelude.{◌<◌};
ghost use Rattle.commit_steps.specs.Commits.{ImagesShowNothing};

use crate::site::{Site, empty_dir};
use commit_steps::{CommitFault, recover};
use disk_model::FaultDir;
use std::alloc::Global;
use std::test::Fail;

// A commit at version 2 is made, and one at version 3 is stopped at its k-th call. How many steps made that one, or 0; and
// the version that is found after a crash.
fn found_after<D: FaultDir + Drop>(
    alloc: Global,
    dir: D,
    k: u64,
    pick: u64,
) -> Result<(u32, Option<u64>), Fail>
    requires some { 0 < k }
    requires none { ImagesShowNothing (D.cells dir) }
{
    let mut site = Site::new(alloc, dir)?;
    site.begin(alloc, 2)?;
    if site.commit(alloc)? != 6 {
        return Err(Fail::new("the first commit is not made"));
    }
    site.begin(alloc, 3)?;
    site.stop_at(k);
    let steps = match site.commit(alloc) {
        Ok(steps) => steps,
        Err(CommitFault::Failed) => 0,
        Err(fault) => return Err(Fail::from(fault)),
    };
    site.dir.crash(pick)?;
    let found = recover(alloc, &mut site.dir)?;
    Ok((steps, found.map(|(_, infos)| infos.version.0)))
}

// The seventh call removes the file of the first commit: the second is made by then.
#[test]
fn versions_found_after_a_stop(rt: HostRuntime) -> Result<(), Fail> {
    let table = [
        (1, 0, 2, 2),
        (2, 0, 2, 2),
        (3, 0, 2, 2),
        (4, 0, 2, 2),
        (5, 0, 2, 3),
        (6, 0, 3, 2),
        (7, 6, 3, 3),
    ];
    for (k, steps, last, first) in table {
        assert!(rt; k > 0);
        assert_eq!(rt;
            found_after(rt.alloc(), empty_dir(rt.alloc())?, k, 0)?,
            (steps, Some(last)),
            "call {k}, pick 0"
        );
        assert_eq!(rt;
            found_after(rt.alloc(), empty_dir(rt.alloc())?, k, 1)?,
            (steps, Some(first)),
            "call {k}, pick 1"
        );
    }
    Ok(())
}
