//! The kinds of jobs, and their finished parts.

ghost use Rattle.std.specs.Prelude.{◌≡◌, ◌<◌, ◌≤◌, ◌++◌, ◌∷◌, [], length, slice_set, slice_get, Some, IfSome};
ghost use Rattle.std.specs.Vec.{vec_capacity};
ghost use Rattle.std.specs.Ordering.{nat_cmp};
ghost use Rattle.std.specs.Cmp.Lexicographic.{slice_cmp};
ghost use Rattle.file_names.specs.Names.{is_less};
ghost use Rattle.copy_job.specs.Parts.{placed, parts_below, insert_part};
ghost use Rattle.copy_job.specs.Placing.{KeepsNames};

use file_names::FileName;
use std::cmp::Ordering;

/// What a job copies: a point, or a merged segment.
#[derive(Clone, Copy, Debug, PartialEq, Eq)]
pub enum JobKind {
    Point,
    Merge,
}

/// A finished part of a job: its own name, and the name that it has now.
#[derive(Clone, Copy, Debug, PartialEq, Eq)]
pub struct JobPart {
    pub own: FileName,
    pub now: FileName,
}

// The part at a place.
pub(crate) fn at(parts: &Vec<JobPart>, place: usize) -> JobPart
    requires { place < length parts.now.items }
    ensures { Some result ≡ slice_get parts.now.items place }
{
    parts.as_slice()[place]
}

// Puts a part in the place of another.
fn set_part(parts: &mut Vec<JobPart>, place: usize, part: JobPart)
    requires { place < length parts.old.items }
    ensures parts { parts.new.items ≡ slice_set parts.old.items place part }
    ensures capacity { vec_capacity parts.new ≡ vec_capacity parts.old }
{
    parts[place] = part;
}

// Puts a name in the place of another.
pub(crate) fn set_name(names: &mut Vec<FileName>, place: usize, name: FileName)
    requires { place < length names.old.items }
    ensures names { names.new.items ≡ slice_set names.old.items place name }
    ensures capacity { vec_capacity names.new ≡ vec_capacity names.old }
{
    names[place] = name;
}

// The part at a place has its own name now.
pub(crate) fn settle(parts: &mut Vec<JobPart>, place: usize)
    requires { place < length parts.old.items }
    ensures parts { IfSome (slice_get parts.old.items place) (λ part.
        parts.new.items ≡ slice_set parts.old.items place (placed part)) }
    ensures capacity { vec_capacity parts.new ≡ vec_capacity parts.old }
{
    let own = at(parts, place).own;
    set_part(parts, place, JobPart { own, now: own });
}

// Whether the own name of a part is below a name.
fn is_below(part: &JobPart, own: &FileName) -> bool
    ensures { result ≡ is_less (slice_cmp nat_cmp part.entry.now.own own.now) }
{
    match part.own.cmp(own) {
        Ordering::Less => true,
        _ => false,
    }
}

// How many of the first parts have own names below this one.
fn parts_below(parts: &[JobPart], own: &FileName) -> usize
    ensures { result ≡ parts_below own.now parts.now }
{
    parts.iter().take_while(|part| is_below(part, own)).count()
}

// Puts a part in by its own name, and its name at the same place among those of the parts, in which
// the names end. There is room, so this takes no memory.
pub(crate) fn put_part(parts: &mut Vec<JobPart>, names: &mut Vec<FileName>, part: JobPart)
    requires parts_room { length parts.old.items < vec_capacity parts.old }
    requires names_room { length names.old.items < vec_capacity names.old }
    requires long { length parts.old.items ≤ length names.old.items }
    ensures parts { parts.new.items ≡ insert_part part parts.old.items }
    ensures names { KeepsNames parts.old.items names.old.items parts.new.items names.new.items }
    ensures parts_capacity { vec_capacity parts.old ≤ vec_capacity parts.new }
    ensures names_capacity { vec_capacity names.old ≤ vec_capacity names.new }
{
    let place = parts_below(parts.as_slice(), &part.own);
    let first = names.as_slice().len() - parts.as_slice().len();
    let _ = names.insert(first + place, part.now);
    let _ = parts.insert(place, part);
}

// Puts a part at the end of the parts, and its name at the end of the names. There is room, so this
// takes no memory.
pub(crate) fn push_part(parts: &mut Vec<JobPart>, names: &mut Vec<FileName>, part: JobPart)
    requires parts_room { length parts.old.items < vec_capacity parts.old }
    requires names_room { length names.old.items < vec_capacity names.old }
    ensures parts { parts.new.items ≡ parts.old.items ++ part ∷ [] }
    ensures names { names.new.items ≡ names.old.items ++ part.now ∷ [] }
    ensures parts_capacity { vec_capacity parts.old ≤ vec_capacity parts.new }
    ensures names_capacity { vec_capacity names.old ≤ vec_capacity names.new }
{
    let _ = names.push(part.now);
    let _ = parts.push(part);
}
