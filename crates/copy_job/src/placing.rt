//! Giving parts their own names.

ghost use Rattle.std.specs.Prelude.{◌≡◌, ◌≤◌, ◌<◌, ℕ, List, length, Some, ◌++◌, OnOk, OnErr, IsErrOf, IfErr};
ghost use Rattle.std.specs.Vec.{vec_capacity};
ghost use Rattle.nrt_base.specs.Causes.{Rose};
ghost use Rattle.disk_model.specs.Disk.{Name};
ghost use Rattle.file_deleter.specs.Holdings.{IsWhole};
ghost use Rattle.copy_job.specs.Parts.{present_names, ArePlaceable};
ghost use Rattle.copy_job.specs.Placing.{PlacesOne, PlacesNone, Places, IsPlacingFault, KeepsNames};

use crate::fault::JobFault;
use crate::part::{JobPart, at, set_name, settle};
use disk_model::{Dir, DirFault};
use file_deleter::FileDeleter;
use file_names::FileName;

// Gives the part at a place its own name, in the names too, which end in those of the parts.
fn place_one<D: Dir>(
    parts: &mut Vec<JobPart>,
    names: &mut Vec<FileName>,
    place: usize,
    files: &mut FileDeleter,
    dir: &mut D,
) -> Result<(), JobFault>
    requires within { place < length parts.old.items }
    requires names { length parts.old.items ≤ length names.old.items }
    requires placeable { ArePlaceable files.old parts.old.items }
    requires whole { IsWhole (D.cells dir.old) files.old }
    ensures places { OnOk result (PlacesOne place parts.old.items parts.new.items files.old files.new
        (D.cells dir.old) (D.cells dir.new)) }
    ensures refused { OnErr result (PlacesNone place parts.old.items parts.new.items files.old files.new
        (D.cells dir.old) (D.cells dir.new)) }
    ensures names { KeepsNames parts.old.items names.old.items parts.new.items names.new.items }
    ensures long { length names.new.items ≡ length names.old.items }
    ensures parts_capacity { vec_capacity parts.new ≡ vec_capacity parts.old }
    ensures names_capacity { vec_capacity names.new ≡ vec_capacity names.old }
    ensures fault { IfErr result IsPlacingFault }
    ensures failed { IsErrOf result JobFault.DirFailed → Rose (D.faults dir.old) (D.faults dir.new) }
    ensures later { D.faults dir.old ≤ D.faults dir.new }
{
    let part = at(parts, place);
    if part.now == part.own {
        return Ok(());
    }
    match files.rename(&part.now, &part.own, dir) {
        Ok(()) => {
            settle(parts, place);
            let first = names.as_slice().len() - parts.as_slice().len();
            set_name(names, first + place, part.own);
            Ok(())
        }
        Err(DirFault::Memory) => Err(JobFault::Memory),
        Err(DirFault::Failed) => Err(JobFault::DirFailed),
        Err(DirFault::Missing | DirFault::Exists) => unreachable!(),
    }
}

/// Gives each part its own name, in order, and ends at the first rename that is refused. The names end
/// in those of the parts, and so they do afterwards.
pub(crate) fn place<D: Dir>(
    parts: &mut Vec<JobPart>,
    names: &mut Vec<FileName>,
    files: &mut FileDeleter,
    dir: &mut D,
) -> Result<(), JobFault>
    requires names { length parts.old.items ≤ length names.old.items }
    requires placeable { ArePlaceable files.old parts.old.items }
    requires whole { IsWhole (D.cells dir.old) files.old }
    ensures ok { OnOk result (Places (length parts.old.items) parts.old.items parts.new.items
        files.old files.new (D.cells dir.old) (D.cells dir.new)) }
    ensures err { OnErr result ((count : ℕ) × Places count parts.old.items parts.new.items
        files.old files.new (D.cells dir.old) (D.cells dir.new)) }
    ensures names { KeepsNames parts.old.items names.old.items parts.new.items names.new.items }
    ensures long { length names.new.items ≡ length names.old.items }
    ensures parts_capacity { vec_capacity parts.new ≡ vec_capacity parts.old }
    ensures names_capacity { vec_capacity names.new ≡ vec_capacity names.old }
    ensures able { ArePlaceable files.new parts.new.items }
    ensures fault { IfErr result IsPlacingFault }
    ensures failed { IsErrOf result JobFault.DirFailed → Rose (D.faults dir.old) (D.faults dir.new) }
    ensures later { D.faults dir.old ≤ D.faults dir.new }
{
    for at in 0..parts.as_slice().len() {
        if let Err(fault) = place_one(parts, names, at, files, dir) {
            return Err(fault);
        }
    }
    Ok(())
}
