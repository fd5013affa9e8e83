//! Tries of removals.

ghost use Rattle.std.specs.Prelude.{◌≡◌, ◌⊎◌, ◌+◌, ◌≤◌, ◌++◌, ℕ, List, [], length, not, filter, is_some, Ok, Err, MatchBool, vec_len};
ghost use Rattle.std.specs.Map.{lookup};
ghost use Rattle.std.specs.Vec.{vec_capacity};
ghost use Rattle.std.specs.Cmp.Lexicographic.{slice_cmp};
ghost use Rattle.std.specs.Ordering.{nat_cmp};
ghost use Rattle.std.specs.List.Sorted.{IsSorted};
ghost use Rattle.disk_model.specs.Disk.{same};
ghost use Rattle.file_deleter.specs.Holdings.{times};
ghost use Rattle.file_deleter.specs.Removals.{directory_of, Removes, RemovesOrLacks, Removals};

use crate::counts::Counts;
use disk_model::{Dir, DirFault, FileName};

/// Removes a file, and answers whether that failed. A file that is not there is gone too.
pub(crate) fn stays<D: Dir>(name: &FileName, dir: &mut D) -> bool
    ensures { MatchBool result
        (Removes name.now (Err DirFault.Failed)
        (directory_of D.cells D.plans D.faults dir.old)
        (directory_of D.cells D.plans D.faults dir.new))
        (RemovesOrLacks name.now
        (directory_of D.cells D.plans D.faults dir.old)
        (directory_of D.cells D.plans D.faults dir.new)) }
{
    match dir.remove(name) {
        Err(DirFault::Failed) => true,
        _ => false,
    }
}

/// Removes files in this order, and leaves in the list those that failed.
pub(crate) fn try_each<D: Dir>(names: &mut Vec<FileName>, dir: &mut D)
    ensures removals { Removals names.old.items names.new.items
        (directory_of D.cells D.plans D.faults dir.old)
        (directory_of D.cells D.plans D.faults dir.new) }
    ensures len { vec_len names.new ≤ vec_len names.old }
    ensures capacity { vec_capacity names.new ≡ vec_capacity names.old }
{
    let mut kept = 0;
    for index in 0..names.len() {
        let name = names[index];
        if stays(&name, dir) {
            names[kept] = name;
            kept += 1;
        }
    }
    names.truncate(kept);
}

// Puts names behind those that are due. There is room.
fn extend(due: &mut Vec<FileName>, more: &[FileName])
    requires { vec_len due.old + length more.now ≤ vec_capacity due.old }
    ensures items { due.new.items ≡ due.old.items ++ more.now }
    ensures len { vec_len due.new ≡ vec_len due.old + length more.now }
    ensures capacity { vec_capacity due.old ≤ vec_capacity due.new }
{
    // This takes no memory.
    let _ = due.extend_from_slice(more);
}

/// MovesCounts the names whose removal failed to those that are due, and puts these in order. There is room.
pub(crate) fn merge(due: &mut Vec<FileName>, fallen: &mut Vec<FileName>)
    requires { vec_len due.old + vec_len fallen.old ≤ vec_capacity due.old }
    ensures times { (q : List ℕ) → times due.new.items q
        ≡ times due.old.items q + times fallen.old.items q }
    ensures sorted { IsSorted (slice_cmp nat_cmp) due.new.items }
    ensures empty { fallen.new.items ≡ [] }
    ensures len { vec_len due.new ≡ vec_len due.old + vec_len fallen.old }
    ensures capacity { vec_capacity due.old ≤ vec_capacity due.new }
    ensures fallen_capacity { vec_capacity fallen.new ≡ vec_capacity fallen.old }
{
    extend(due, fallen.as_slice());
    fallen.clear();
    due.sort_unstable();
}

/// Takes out the names that are counted.
pub(crate) fn drop_counted(due: &mut Vec<FileName>, counts: &Counts)
    ensures items { due.new.items
        ≡ filter (λ q. not (is_some (lookup (same q) counts.now.entries))) due.old.items }
    ensures len { vec_len due.new ≤ vec_len due.old }
    ensures capacity { vec_capacity due.new ≡ vec_capacity due.old }
{
    due.retain(|name| !counts.contains_key(name));
}
