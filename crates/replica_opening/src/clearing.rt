//! Removing what nobody holds.

ghost use Rattle.std.specs.Prelude.{◌≡◌, ◌≤◌, ℕ, [], take, OnOk, OnErr, IfErr};
ghost use Rattle.nrt_base.specs.Causes.{Rose};
ghost use Rattle.file_deleter.specs.Holdings.{AreCounted};
ghost use Rattle.file_deleter.specs.Moves.{LetsGo};

use crate::fault::StartFault;
use disk_model::Dir;
use file_deleter::FileDeleter;
use file_names::FileName;

/// Gives names back, one after the other, and stops at the first removal that fails.
pub fn clear<D: Dir>(
    names: &[FileName],
    files: &mut FileDeleter,
    dir: &mut D,
) -> Result<(), StartFault>
    requires counted { AreCounted names.now files.old }
    requires none { files.old.due ≡ [] }
    ensures lets_go { OnOk result (LetsGo names.now files.old files.new
        (D.cells dir.old) (D.cells dir.new)) }
    ensures some { OnErr result ((i : ℕ) × LetsGo (take i names.now) files.old files.new
        (D.cells dir.old) (D.cells dir.new)) }
    ensures none { OnOk result (files.new.due ≡ []) }
    ensures err { IfErr result (λ fault. fault ≡ StartFault.Failed) }
    ensures failed { OnErr result (Rose (D.faults dir.old) (D.faults dir.new)) }
    ensures later { D.faults dir.old ≤ D.faults dir.new }
{
    for name in names {
        if files.release(&[*name], dir) > 0 {
            return Err(StartFault::Failed);
        }
    }
    Ok(())
}
