//! The names of the disk, each with its slot. Each function makes one change of what is held under the names.

ghost use Rattle.std.specs.Prelude.{◌≡◌, true, Some, None, ◌↔◌, ◌⊎◌, OnOk, OnErr, IfOk, IsErrOf, Err, is_some, All, Any, ℕ, List, if◌then◌else◌};
ghost use Rattle.std.specs.Bool.{OnTrue, OnFalse};
ghost use Rattle.disk_model.specs.Disk.{put, is_among};
ghost use Rattle.disk_memory.specs.Held.{untouched, has_file, outcome_of, set_to, with_outcome, held_flushed, held_settled};
ghost use Rattle.disk_memory.specs.Table.{held_in, names_in, reads_in, HasFile, ChangesAt, IsUnchanged, renamed_table, half_renamed_table, flushed_table, settled_table};
ghost use Rattle.disk_memory.specs.Crash.{started, left_at, number_at, held_after_crash};
ghost use Rattle.std.specs.BTreeMap.{get_by, keys};
ghost use Rattle.std.specs.List.Sorted.{IsStrictlySortedBy};
ghost use Rattle.std.specs.Cmp.Lexicographic.{slice_cmp};
ghost use Rattle.std.specs.Ordering.{nat_cmp};

use crate::slot::Slot;
use crate::state::{Outcome, State, next_number};
use bytes::Bytes;
use disk_model::{DirFault, FileName, NoMemory};
use std::alloc::Global;
use std::collections::BTreeMap;

/// Whether a file of this name exists.
pub fn has(slots: &BTreeMap<FileName, Slot>, name: &FileName) -> bool
    ensures { result ≡ is_some (reads_in slots.now.entries name.now) }
{
    match slots.get(name) {
        Some(slot) => !slot.state().is_absent(),
        None => false,
    }
}

/// Removes a file that is there.
pub fn remove(slots: &mut BTreeMap<FileName, Slot>, name: &FileName)
    requires { HasFile slots.old.entries name.now }
    ensures { ChangesAt slots.old.entries slots.new.entries name.now (set_to State.Absent) }
{
    if let Some(slot) = slots.get_mut(name) {
        slot.remove();
    }
}

/// Fails to remove a file that is there.
pub fn half_remove(slots: &mut BTreeMap<FileName, Slot>, name: &FileName)
    requires { HasFile slots.old.entries name.now }
    ensures { ChangesAt slots.old.entries slots.new.entries name.now (with_outcome Outcome.Gone) }
{
    if let Some(slot) = slots.get_mut(name) {
        slot.half_remove();
    }
}

// The same, where the name has a slot.
fn set_in_slot(
    slots: &mut BTreeMap<FileName, Slot>,
    name: &FileName,
    state: State,
) -> Result<(), NoMemory>
    requires there { is_some (get_by (slice_cmp nat_cmp name.now) slots.old) ≡ true }
    requires absent { reads_in slots.old.entries name.now ≡ None }
    ensures ok { OnOk result (ChangesAt slots.old.entries slots.new.entries name.now (set_to state)) }
    ensures err { OnErr result (IsUnchanged slots.old.entries slots.new.entries) }
{
    match slots.get_mut(name) {
        Some(slot) => {
            slot.set(state)?;
            Ok(())
        }
        None => unreachable!(),
    }
}

// A slot for a new name.
fn set_slot(alloc: Global, state: State) -> Result<Slot, NoMemory>
    ensures { IfOk result (λ slot. slot ≡ set_to state untouched) }
{
    let mut slot = Slot::new(alloc)?;
    slot.set(state)?;
    Ok(slot)
}

// Gives a name this slot.
fn insert(slots: &mut BTreeMap<FileName, Slot>, name: FileName, slot: Slot) -> Result<(), NoMemory>
    ensures ok { OnOk result (held_in slots.new.entries ≡ put (held_in slots.old.entries) name slot) }
    ensures err { OnErr result (IsUnchanged slots.old.entries slots.new.entries) }
{
    slots.insert(name, slot)?;
    Ok(())
}

/// Puts a file, in this state, under a name that has none. The caller says whether the name has a slot.
pub fn set(
    alloc: Global,
    slots: &mut BTreeMap<FileName, Slot>,
    name: &FileName,
    has_slot: bool,
    state: State,
) -> Result<(), NoMemory>
    requires free { reads_in slots.old.entries name.now ≡ None }
    requires slot { has_slot ≡ is_some (get_by (slice_cmp nat_cmp name.now) slots.old) }
    ensures ok { OnOk result (ChangesAt slots.old.entries slots.new.entries name.now (set_to state)) }
    ensures err { OnErr result (IsUnchanged slots.old.entries slots.new.entries) }
{
    if has_slot {
        return set_in_slot(slots, name, state);
    }
    let slot = set_slot(alloc, state)?;
    insert(slots, *name, slot)
}

// A file may have come under a name that has a slot.
fn half_set_in_slot(
    slots: &mut BTreeMap<FileName, Slot>,
    name: &FileName,
    state: State,
) -> Result<(), NoMemory>
    requires there { is_some (get_by (slice_cmp nat_cmp name.now) slots.old) ≡ true }
    requires absent { reads_in slots.old.entries name.now ≡ None }
    ensures ok { OnOk result (ChangesAt slots.old.entries slots.new.entries name.now
        (with_outcome (outcome_of state))) }
    ensures err { OnErr result (IsUnchanged slots.old.entries slots.new.entries) }
{
    match slots.get_mut(name) {
        Some(slot) => {
            slot.half_set(state)?;
            Ok(())
        }
        None => unreachable!(),
    }
}

// A slot for a new name under which a file may have come.
fn half_set_slot(alloc: Global, state: State) -> Result<Slot, NoMemory>
    ensures { IfOk result (λ slot. slot ≡ with_outcome (outcome_of state) untouched) }
{
    let mut slot = Slot::new(alloc)?;
    slot.half_set(state)?;
    Ok(slot)
}

/// Fails to put a file, in this state, under a name that has none. The caller says whether the name has a slot.
pub fn half_set(
    alloc: Global,
    slots: &mut BTreeMap<FileName, Slot>,
    name: &FileName,
    has_slot: bool,
    state: State,
) -> Result<(), NoMemory>
    requires free { reads_in slots.old.entries name.now ≡ None }
    requires slot { has_slot ≡ is_some (get_by (slice_cmp nat_cmp name.now) slots.old) }
    ensures ok { OnOk result (ChangesAt slots.old.entries slots.new.entries name.now
        (with_outcome (outcome_of state))) }
    ensures err { OnErr result (IsUnchanged slots.old.entries slots.new.entries) }
{
    if has_slot {
        return half_set_in_slot(slots, name, state);
    }
    let slot = half_set_slot(alloc, state)?;
    insert(slots, *name, slot)
}

// The state under a name, which shares its bytes.
fn state_of(slots: &BTreeMap<FileName, Slot>, name: &FileName) -> Result<State, NoMemory>
    ensures { IfOk result (λ state. state ≡ (held_in slots.now.entries name.now).state) }
{
    match slots.get(name) {
        Some(slot) => slot.state().share(),
        None => Ok(State::Absent),
    }
}

/// Gives a file another name. The caller says whether that has a slot.
pub fn rename(
    alloc: Global,
    slots: &mut BTreeMap<FileName, Slot>,
    from: &FileName,
    to: &FileName,
    has_slot: bool,
) -> Result<(), NoMemory>
    requires there { HasFile slots.old.entries from.now }
    requires free { reads_in slots.old.entries to.now ≡ None }
    requires slot { has_slot ≡ is_some (get_by (slice_cmp nat_cmp to.now) slots.old) }
    ensures ok { OnOk result (held_in slots.new.entries
        ≡ renamed_table (held_in slots.old.entries) from.now to.now) }
    ensures err { OnErr result (IsUnchanged slots.old.entries slots.new.entries) }
{
    let state = state_of(slots, from)?;
    set(alloc, slots, to, has_slot, state)?;
    remove(slots, from);
    Ok(())
}

/// Fails to give a file another name, of which the caller says whether it has a slot. A crash may show it under either.
pub fn half_rename(
    alloc: Global,
    slots: &mut BTreeMap<FileName, Slot>,
    from: &FileName,
    to: &FileName,
    has_slot: bool,
) -> Result<(), NoMemory>
    requires there { HasFile slots.old.entries from.now }
    requires free { reads_in slots.old.entries to.now ≡ None }
    requires slot { has_slot ≡ is_some (get_by (slice_cmp nat_cmp to.now) slots.old) }
    ensures ok { OnOk result (held_in slots.new.entries
        ≡ half_renamed_table (held_in slots.old.entries) from.now to.now) }
    ensures err { OnErr result (IsUnchanged slots.old.entries slots.new.entries) }
{
    let state = state_of(slots, from)?;
    half_set(alloc, slots, to, has_slot, state)?;
    half_remove(slots, from);
    Ok(())
}

/// The bytes of a file, shared.
pub fn load(slots: &BTreeMap<FileName, Slot>, name: &FileName) -> Result<Bytes, DirFault>
    ensures bytes { IfOk result (λ bytes. reads_in slots.now.entries name.now ≡ Some bytes) }
    ensures missing { IsErrOf result DirFault.Missing ↔ (reads_in slots.now.entries name.now ≡ None) }
    ensures others { OnErr result
        ((result ≡ Err DirFault.Missing) ⊎ (result ≡ Err DirFault.Memory)) }
{
    let Some(slot) = slots.get(name) else {
        return Err(DirFault::Missing);
    };
    match slot.state() {
        State::Absent => Err(DirFault::Missing),
        State::Loose(bytes) => bytes.clone().map_err(|_| DirFault::Memory),
        State::Synced(bytes) => bytes.clone().map_err(|_| DirFault::Memory),
    }
}

/// Whether each of the names has a file.
pub fn has_all(slots: &BTreeMap<FileName, Slot>, names: &[FileName]) -> bool
    ensures yes { OnTrue result (All (λ q. HasFile slots.now.entries q) names.now) }
    ensures no { OnFalse result (Any (λ q. reads_in slots.now.entries q ≡ None) names.now) }
{
    for name in names {
        if !has(slots, name) {
            return false;
        }
    }
    true
}

// Marks a file as synced.
fn flush(slots: &mut BTreeMap<FileName, Slot>, name: &FileName)
    requires { HasFile slots.old.entries name.now }
    ensures { ChangesAt slots.old.entries slots.new.entries name.now held_flushed }
{
    if let Some(slot) = slots.get_mut(name) {
        slot.flush();
    }
}

/// Marks files as synced.
pub fn flush_all(slots: &mut BTreeMap<FileName, Slot>, names: &[FileName])
    requires { All (λ q. HasFile slots.old.entries q) names.now }
    ensures { (q : List ℕ) → held_in slots.new.entries q
        ≡ flushed_table (held_in slots.old.entries) names.now q }
{
    for name in names {
        flush(slots, name);
    }
}

/// The names ascend. It changes nothing.
pub fn is_ordered(slots: &BTreeMap<FileName, Slot>)
    ensures { IsStrictlySortedBy (slice_cmp nat_cmp) (keys slots.now) }
{
    let _names = slots.keys();
}

/// The names under which a file exists, in ascending order.
pub fn names(alloc: Global, slots: &BTreeMap<FileName, Slot>) -> Result<Vec<FileName>, NoMemory>
    ensures names { IfOk result (λ names. names.items ≡ names_in slots.now.entries) }
    ensures ordered { IsStrictlySortedBy (slice_cmp nat_cmp) (keys slots.now) }
{
    let mut names = Vec::new(alloc);
    for (name, slot) in slots {
        if !slot.state().is_absent() {
            names.push(*name)?;
        }
    }
    Ok(names)
}

// Forgets the past outcomes of a name. Whether a file exists under it.
fn settle_slot(slots: &mut BTreeMap<FileName, Slot>, name: &FileName) -> bool
    ensures held { ChangesAt slots.old.entries slots.new.entries name.now held_settled }
    ensures there { result ≡ is_some (reads_in slots.new.entries name.now) }
{
    match slots.get_mut(name) {
        Some(slot) => {
            slot.settle();
            !slot.state().is_absent()
        }
        None => false,
    }
}

// Forgets a name.
fn forget(slots: &mut BTreeMap<FileName, Slot>, name: &FileName)
    ensures { held_in slots.new.entries ≡ put (held_in slots.old.entries) name.now untouched }
{
    let _ = slots.remove(name);
}

// Forgets the past outcomes of a name, and the name where no file exists under it.
fn settle(slots: &mut BTreeMap<FileName, Slot>, name: &FileName)
    ensures { ChangesAt slots.old.entries slots.new.entries name.now held_settled }
{
    if !settle_slot(slots, name) {
        forget(slots, name);
    }
}

/// Forgets the past outcomes of these names, and those of them under which no file exists.
pub fn settle_these(slots: &mut BTreeMap<FileName, Slot>, names: &[FileName])
    ensures { (q : List ℕ) → held_in slots.new.entries q
        ≡ (if is_among names.now q then held_settled (held_in slots.old.entries q)
        else held_in slots.old.entries q) }
{
    for name in names {
        settle(slots, name);
    }
}

/// Forgets the past outcomes of every name, and the names under which no file exists.
pub fn settle_all(slots: &mut BTreeMap<FileName, Slot>)
    ensures { (q : List ℕ) → held_in slots.new.entries q
        ≡ settled_table (held_in slots.old.entries) q }
{
    slots.retain(
        |_name: &FileName, slot: &mut Slot| -> bool
            ensures slot { slot.new ≡ held_settled slot.old }
            ensures there { result ≡ has_file slot.new }
        {
            slot.settle();
            !slot.state().is_absent()
        },
    );
}

// A crash leaves one content here. The number after it.
fn crash_slot(slot: &mut Slot, pick: u64, number: u64) -> u64
    ensures slot { slot.new ≡ started (left_at pick number slot.old) }
    ensures number { result ≡ number_at number slot.old }
{
    if !slot.is_picked() {
        return number;
    }
    let number = next_number(number);
    slot.crash(pick, number);
    number
}

/// A crash leaves the image that the pick says.
pub fn crash_all(slots: &mut BTreeMap<FileName, Slot>, pick: u64)
    ensures { (q : List ℕ) → held_in slots.new.entries q ≡ held_after_crash pick slots.old.entries q }
{
    let mut number = pick;
    slots.retain(
        move |_name: &FileName, slot: &mut Slot| -> bool
            ensures slot { slot.new ≡ started (left_at pick number.entry slot.old) }
            ensures there { result ≡ has_file slot.new }
            ensures number { number.exit ≡ number_at number.entry slot.old }
        {
            number = crash_slot(slot, pick, number);
            !slot.state().is_absent()
        },
    );
}
