//! Steps on the table of counts.

ghost use Rattle.std.specs.Prelude.{◌≡◌, ◌+◌, ◌-◌, ◌<◌, ◌≤◌, ◌^◌, ◌&&◌, ℕ, List, [], ◌∷◌, ◌++◌, true, false, All, is_some, if◌then◌else◌, length, nat_eq, None, Some, vec_len, IfOk};
ghost use Rattle.std.specs.Bool.{OnTrue};
ghost use Rattle.std.specs.Map.{lookup};
ghost use Rattle.std.specs.Vec.{vec_capacity};
ghost use Rattle.indexmap.specs.IndexMap.{spare, index_map_len, keys};
ghost use Rattle.disk_model.specs.Disk.{same, is_among};
ghost use Rattle.file_deleter.specs.Holdings.{count_in, times};
ghost use Rattle.file_deleter.specs.Tally.{IsPositive, CountsMore, CountsFewer};

use disk_model::{FileName, NoMemory};
use indexmap::IndexMap;
use std::alloc::Global;

pub(crate) type Counts = IndexMap<FileName, u64>;

/// How often the name is counted.
pub(crate) fn count(counts: &Counts, name: &FileName) -> u64
    ensures { result ≡ count_in counts.now.entries name.now }
{
    match counts.get(name) {
        Some(count) => *count,
        None => 0,
    }
}

/// Whether each name can be counted as often as the list is long without passing the end of its type.
pub(crate) fn fit(counts: &Counts, names: &[FileName]) -> bool
    ensures { OnTrue result
        (All (λ q. count_in counts.now.entries q + length names.now < 2 ^ 64) names.now) }
{
    let most = u64::MAX - names.len() as u64;
    for name in names {
        if count(counts, name) > most {
            return false;
        }
    }
    true
}

/// One count more of the name.
pub(crate) fn add_one(counts: &mut Counts, name: FileName)
    requires room { 0 < spare counts.old }
    requires fits { count_in counts.old.entries name + 1 < 2 ^ 64 }
    requires positive { IsPositive counts.old.entries }
    ensures counts { (q : List ℕ) → count_in counts.new.entries q
        ≡ count_in counts.old.entries q + (if same name q then 1 else 0) }
    ensures positive { IsPositive counts.new.entries }
    ensures spare { spare counts.old ≤ spare counts.new + 1 }
    ensures len { index_map_len counts.new ≤ index_map_len counts.old + 1 }
{
    let count = count(counts, &name);
    // There is room, so this takes no memory.
    let _ = counts.insert(name, count + 1);
}

/// One count more of each name in the list.
pub(crate) fn add_all(counts: &mut Counts, names: &[FileName])
    requires room { length names.now ≤ spare counts.old }
    requires fits { All (λ q. count_in counts.old.entries q + length names.now < 2 ^ 64) names.now }
    requires positive { IsPositive counts.old.entries }
    ensures counts { CountsMore names.now counts.old.entries counts.new.entries }
    ensures positive { IsPositive counts.new.entries }
    ensures spare { spare counts.old ≤ spare counts.new + length names.now }
    ensures len { index_map_len counts.new ≤ index_map_len counts.old + length names.now }
{
    for name in names {
        add_one(counts, *name);
    }
}

/// Takes a name out.
pub(crate) fn forget(counts: &mut Counts, name: &FileName)
    ensures counts { (q : List ℕ) → lookup (same q) counts.new.entries
        ≡ (if same name.now q then None else lookup (same q) counts.old.entries) }
    ensures len { index_map_len counts.new
        + (if is_some (lookup (same name.now) counts.old.entries) then 1 else 0)
        ≡ index_map_len counts.old }
    ensures spare { spare counts.old ≤ spare counts.new }
{
    let _ = counts.swap_remove(name);
}

/// One count less of a name that is counted more than once.
fn lower(counts: &mut Counts, name: &FileName)
    requires { 1 < count_in counts.old.entries name.now }
    ensures counts { (q : List ℕ) → lookup (same q) counts.new.entries
        ≡ (if same name.now q then Some (count_in counts.old.entries name.now - 1)
        else lookup (same q) counts.old.entries) }
    ensures len { index_map_len counts.new ≡ index_map_len counts.old }
    ensures spare { spare counts.new ≡ spare counts.old }
{
    if let Some(count) = counts.get_mut(name) {
        *count -= 1;
    }
}

/// One count less of a name. If it is counted no more, it goes to the fallen ones, for which there is room.
fn take_one(counts: &mut Counts, name: &FileName, fallen: &mut Vec<FileName>)
    requires counted { 0 < count_in counts.old.entries name.now }
    requires positive { IsPositive counts.old.entries }
    requires space { index_map_len counts.old + vec_len fallen.old ≤ vec_capacity fallen.old }
    ensures counts { (q : List ℕ)
        → count_in counts.new.entries q + (if same name.now q then 1 else 0)
        ≡ count_in counts.old.entries q }
    ensures positive { IsPositive counts.new.entries }
    ensures fallen { fallen.new.items ≡ fallen.old.items
        ++ (if nat_eq (count_in counts.new.entries name.now) 0 then name.now ∷ [] else []) }
    ensures len { index_map_len counts.new + vec_len fallen.new
        ≡ index_map_len counts.old + vec_len fallen.old }
    ensures capacity { vec_capacity fallen.old ≤ vec_capacity fallen.new }
    ensures spare { spare counts.old ≤ spare counts.new }
{
    if count(counts, name) == 1 {
        forget(counts, name);
        // There is room, so this takes no memory.
        let _ = fallen.push(*name);
    } else {
        lower(counts, name);
    }
}

/// One count less of each name in the list. Those that are counted no more go to the fallen ones, for which there is room.
pub(crate) fn take_all(counts: &mut Counts, names: &[FileName], fallen: &mut Vec<FileName>)
    requires counted { (q : List ℕ) → times names.now q ≤ count_in counts.old.entries q }
    requires positive { IsPositive counts.old.entries }
    requires empty { fallen.old.items ≡ [] }
    requires space { index_map_len counts.old ≤ vec_capacity fallen.old }
    ensures counts { CountsFewer names.now counts.old.entries counts.new.entries }
    ensures positive { IsPositive counts.new.entries }
    ensures fallen { (q : List ℕ) → times fallen.new.items q
        ≡ (if is_among names.now q && nat_eq (count_in counts.new.entries q) 0 then 1 else 0) }
    ensures len { index_map_len counts.new + vec_len fallen.new ≡ index_map_len counts.old }
    ensures capacity { vec_capacity fallen.old ≤ vec_capacity fallen.new }
    ensures spare { spare counts.old ≤ spare counts.new }
{
    for name in names {
        take_one(counts, name, fallen);
    }
}

/// The names that are counted.
pub(crate) fn names(counts: &Counts, alloc: Global) -> Result<Vec<FileName>, NoMemory>
    ensures { IfOk result (λ names. names.items ≡ keys counts.now) }
{
    counts.keys().copied().collect(alloc)
}
