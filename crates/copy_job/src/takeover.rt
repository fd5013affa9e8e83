//! Parts that a job takes over from an older one.

ghost use Rattle.std.specs.Prelude.{◌≡◌, ◌<◌, ◌≤◌, ◌+◌, ◌-◌, true, [], ◌++◌, filter, not, length, take};
ghost use Rattle.std.specs.List.Sorted.{IsStrictlySortedBy};
ghost use Rattle.std.specs.Ordering.{nat_cmp};
ghost use Rattle.std.specs.Cmp.Lexicographic.{slice_cmp};
ghost use Rattle.std.specs.Vec.{vec_capacity};
ghost use Rattle.disk_model.specs.Disk.{Name, is_among};
ghost use Rattle.file_deleter.specs.Holdings.{times};
ghost use Rattle.copy_state.specs.States.{meta_names, meta_in};
ghost use Rattle.copy_job.specs.Parts.{present_names, own_names};
ghost use Rattle.copy_job.specs.Jobs.{is_same_meta, is_still_wanted};
ghost use Rattle.copy_job.specs.Taking.{DoAscend, PartGoes};

use crate::lookup::meta_of;
use crate::part::{JobPart, push_part, set_name};
use copy_state::{FileMetaData, same};
use file_names::FileName;

/// The files that a job lacks, and those that an older job and it want, with their metadata. All three ascend.
#[derive(Clone, Copy)]
pub(crate) struct Wants<'a> {
    pub(crate) missing: &'a [FileName],
    pub(crate) had: &'a [(FileName, FileMetaData)],
    pub(crate) wanted: &'a [(FileName, FileMetaData)],
}

// Whether a file is listed in both, with the same metadata.
fn is_same_in(
    had: &[(FileName, FileMetaData)],
    wanted: &[(FileName, FileMetaData)],
    name: &FileName,
) -> bool
    requires had { IsStrictlySortedBy (slice_cmp nat_cmp) (meta_names had.now) }
    requires wanted { IsStrictlySortedBy (slice_cmp nat_cmp) (meta_names wanted.now) }
    ensures { result ≡ is_same_meta (meta_in had.now name.now) (meta_in wanted.now name.now) }
{
    let Some(ours) = meta_of(had, name) else {
        return false;
    };
    let Some(theirs) = meta_of(wanted, name) else {
        return false;
    };
    same(ours, theirs)
}

// Whether the name is among the names.
fn is_named(names: &[FileName], name: &FileName) -> bool
    requires { IsStrictlySortedBy (slice_cmp nat_cmp) names.now }
    ensures { result ≡ is_among names.now name.now }
{
    names.binary_search(name).is_ok()
}

// Whether a part is of a file that is missing, and is wanted with the same metadata.
fn is_wanted(wants: Wants, part: &JobPart) -> bool
    requires { DoAscend wants }
    ensures { result ≡ is_still_wanted wants.entry.missing.now wants.entry.had.now
        wants.entry.wanted.now part.entry.now }
{
    if !is_named(wants.missing, &part.own) {
        return false;
    }
    is_same_in(wants.had, wants.wanted, &part.own)
}

// Takes a part over, or puts its name to those that are given back.
fn take_or_leave(
    part: JobPart,
    wanted: bool,
    parts: &mut Vec<JobPart>,
    names: &mut Vec<FileName>,
    others: &mut Vec<FileName>,
    kept: usize,
) -> usize
    requires parts_room { wanted ≡ true → length parts.old.items < vec_capacity parts.old }
    requires names_room { wanted ≡ true → length names.old.items < vec_capacity names.old }
    requires within { kept < length others.old.items }
    ensures goes { PartGoes wanted part parts.old.items parts.new.items
        names.old.items names.new.items others.old.items others.new.items kept result }
    ensures long { length others.new.items ≡ length others.old.items }
    ensures parts_capacity { vec_capacity parts.old ≤ vec_capacity parts.new }
    ensures names_capacity { vec_capacity names.old ≤ vec_capacity names.new }
{
    if wanted {
        push_part(parts, names, part);
        return kept;
    }
    set_name(others, kept, part.now);
    kept + 1
}

/// Takes the parts of an older job over that are of missing files, and wanted with the same metadata. The
/// names of the older job end in those of its parts; the answered number of them are to be given back.
pub(crate) fn take_parts(
    wants: Wants,
    older: &[JobPart],
    parts: &mut Vec<JobPart>,
    names: &mut Vec<FileName>,
    others: &mut Vec<FileName>,
) -> usize
    requires ascend { DoAscend wants }
    requires none { parts.old.items ≡ [] }
    requires parts_room { length wants.missing.now ≤ vec_capacity parts.old }
    requires names_room { length names.old.items + length wants.missing.now ≤ vec_capacity names.old }
    requires once { (q : Name) → times (own_names older.now) q ≤ 1 }
    requires long { length older.now ≤ length others.old.items }
    ensures parts { parts.new.items ≡ filter (is_still_wanted wants.entry.missing.now
        wants.entry.had.now wants.entry.wanted.now) older.now }
    ensures names { names.new.items ≡ names.old.items ++ present_names parts.new.items }
    ensures others { take result others.new.items
        ≡ take (length others.old.items - length older.now) others.old.items
        ++ present_names (filter (λ p. not (is_still_wanted wants.entry.missing.now
        wants.entry.had.now wants.entry.wanted.now p)) older.now) }
    ensures parts_capacity { vec_capacity parts.old ≤ vec_capacity parts.new }
    ensures names_capacity { vec_capacity names.old ≤ vec_capacity names.new }
{
    let mut kept = others.as_slice().len() - older.len();
    for part in older {
        let wanted = is_wanted(wants, part);
        kept = take_or_leave(*part, wanted, parts, names, others, kept);
    }
    kept
}

// Whether a part has this own name, where the parts ascend.
fn is_own(parts: &[JobPart], name: &FileName) -> bool
    ensures { IsStrictlySortedBy (slice_cmp nat_cmp) (own_names parts.now)
        → result ≡ is_among (own_names parts.now) name.now }
{
    parts.binary_search_by_key(name, |part| part.own).is_ok()
}

/// Takes the own names of parts out. The parts ascend.
pub(crate) fn strike_own(names: &mut Vec<FileName>, parts: &[JobPart])
    requires { IsStrictlySortedBy (slice_cmp nat_cmp) (own_names parts.now) }
    ensures { names.new.items
        ≡ filter (λ q. not (is_among (own_names parts.now) q)) names.old.items }
{
    names.retain(|name| !is_own(parts, name));
}
