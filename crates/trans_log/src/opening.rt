//! The log that a directory holds.

ghost use Rattle.std.specs.Prelude.{◌≡◌, ◌≢◌, ◌⊎◌, ◌++◌, ◌∷◌, [], ◌<◌, ◌≤◌, ◌^◌, ℕ, List, length, true, false, None, Some, IsSome, is_some, OnOk, IfOk, IfErr, IsErrOf, IsErrAnd, MatchResult};
ghost use Rattle.nrt_base.specs.Causes.{Rose};
ghost use Rattle.disk_model.specs.Disk.{is_among, reads_of, after_remove};
ghost use Rattle.trans_log.specs.Names.{IsRecordNumber, log_name_of, pending_log_name_of, IsLogName, IsPendingLogName};
ghost use Rattle.trans_log.specs.Logs.{HasRecord, Numbered, ReadsRecords, IsOpenLog, IsLogSafe, SameLogs, IsClear, IsCalm, dir_answer_of};
ghost use Rattle.trans_log.specs.Opening.{IsLastNumber, IsFirstGap, HasEach, IsLogCutOff, IsFaultOrCutOff, IsRefusedAt, IsBrokenRecord, IsBrokenLog, IsGap, SaysRecord, SaysRecords, SaysLog, KeepsButPending};

use crate::log::{LogFault, TransLog, refusal};
use crate::names::{log_name, log_of, pending_log_of};
use crate::record::{LogOp, decode};
use body_forms::ReadFault;
use codec_frame::FileFault;
use disk_model::Dir;
use file_names::FileName;
use std::alloc::Global;

/// Why no log is opened, and its directory.
#[derive(Drop)]
pub struct LogRefused<D> {
    pub dir: D,
    pub fault: LogFault,
}

// The number, or that of the record that has the name, if it is greater.
fn greater(last: u32, name: &FileName) -> u32
    ensures one { (result ≡ last) ⊎ IsLogName result name.now }
    ensures most { (n : ℕ) → IsLogName n name.now → n ≤ result }
    ensures more { last ≤ result }
{
    let Some(number) = log_of(name) else {
        return last;
    };
    if last < number { number } else { last }
}

// The greatest number of a record that has one of the names, or 0.
fn last_number(names: &[FileName]) -> u32
    ensures { IsLastNumber names.now result }
{
    let mut last = 0;
    for name in names {
        last = greater(last, name);
    }
    last
}

// The first of the numbers up to this one that has no file.
fn first_gap<D: Dir>(last: u32, dir: &D) -> Option<u32>
    ensures { IsFirstGap (reads_of (D.cells dir.now)) last result }
{
    for index in 0..last {
        if !dir.has(&log_name(index + 1)) {
            return Some(index + 1);
        }
    }
    None
}

// The record of this number, which has a file.
#[tactic(auto, using(crate::proofs::Calm::calm_stays, crate::proofs::Calm::never_told))]
fn read_record<D: Dir>(alloc: Global, number: u32, dir: &mut D) -> Result<LogOp, LogFault>
    requires { IsSome (D.cells dir.old (log_name_of number)).now }
    ensures ok { IfOk result (HasRecord (reads_of (D.cells dir.old)) number) }
    ensures err { IfErr result (SaysRecord (reads_of (D.cells dir.old)) number) }
    ensures whole { (r : LogOp) → HasRecord (reads_of (D.cells dir.old)) number r
        → IfErr result IsLogCutOff }
    ensures refused { (name : List ℕ) (fault : FileFault)
        → IsRefusedAt (reads_of (D.cells dir.old)) number name fault
        → IsErrAnd result (IsFaultOrCutOff (LogFault.Broken name fault)) }
    ensures cells { D.cells dir.new ≡ D.cells dir.old }
    ensures failed { IsErrOf result LogFault.Failed → Rose (D.faults dir.old) (D.faults dir.new) }
    ensures later { D.faults dir.old ≤ D.faults dir.new }
    ensures calm { IsCalm (D.plans dir.old) → IsCalm (D.plans dir.new) }
    ensures unfailed { IsCalm (D.plans dir.old) → IsErrOf result LogFault.Failed → ⊥ }
{
    let name = log_name(number);
    match dir.load(&name) {
        Ok(bytes) => match decode(alloc, number, &bytes) {
            Ok(entry) => Ok(entry),
            Err(ReadFault::File(fault)) => Err(LogFault::Broken(name, fault)),
            Err(ReadFault::Memory) => Err(LogFault::Memory),
        },
        Err(fault) => Err(refusal(fault)),
    }
}

// Puts a record behind the others.
fn put(records: &mut Vec<LogOp>, entry: LogOp) -> Result<(), LogFault>
    ensures ok { OnOk result (records.new.items ≡ records.old.items ++ entry ∷ []) }
    ensures err { IfErr result (λ fault. fault ≡ LogFault.Memory) }
{
    match records.push(entry) {
        Ok(()) => Ok(()),
        Err(_) => Err(LogFault::Memory),
    }
}

// The records up to this number, each of which has a file.
fn read_records<D: Dir>(alloc: Global, last: u32, dir: &mut D) -> Result<Vec<LogOp>, LogFault>
    requires { HasEach (reads_of (D.cells dir.old)) last }
    ensures len { IfOk result (λ records. length records.items ≡ last) }
    ensures ok { IfOk result (λ records.
        Numbered (HasRecord (reads_of (D.cells dir.old))) 0 records.items) }
    ensures err { IfErr result (SaysRecords (reads_of (D.cells dir.old))) }
    ensures whole { (rs : List LogOp) → last ≤ length rs
        → Numbered (HasRecord (reads_of (D.cells dir.old))) 0 rs → IfErr result IsLogCutOff }
    ensures broken { (name : List ℕ) (fault : FileFault)
        (b : IsBrokenRecord (reads_of (D.cells dir.old)) name fault) → length b.before < last
        → IsErrAnd result (IsFaultOrCutOff (LogFault.Broken name fault)) }
    ensures cells { D.cells dir.new ≡ D.cells dir.old }
    ensures failed { IsErrOf result LogFault.Failed → Rose (D.faults dir.old) (D.faults dir.new) }
    ensures later { D.faults dir.old ≤ D.faults dir.new }
    ensures calm { IsCalm (D.plans dir.old) → IsCalm (D.plans dir.new) }
    ensures unfailed { IsCalm (D.plans dir.old) → IsErrOf result LogFault.Failed → ⊥ }
{
    let mut records = Vec::new(alloc);
    for index in 0..last {
        let entry = read_record(alloc, index + 1, dir)?;
        put(&mut records, entry)?;
    }
    Ok(records)
}

// The names of the files.
fn list<D: Dir>(dir: &mut D) -> Result<Vec<FileName>, LogFault>
    ensures names { IfOk result (λ names. (q : List ℕ)
        → is_among names.items q ≡ is_some (D.cells dir.old q).now) }
    ensures err { IfErr result IsLogCutOff }
    ensures cells { D.cells dir.new ≡ D.cells dir.old }
    ensures failed { IsErrOf result LogFault.Failed → Rose (D.faults dir.old) (D.faults dir.new) }
    ensures later { D.faults dir.old ≤ D.faults dir.new }
    ensures calm { IsCalm (D.plans dir.old) → IsCalm (D.plans dir.new) }
    ensures unfailed { IsCalm (D.plans dir.old) → IsErrOf result LogFault.Failed → ⊥ }
{
    match dir.list() {
        Ok(names) => Ok(names),
        Err(fault) => Err(refusal(fault)),
    }
}

// The records of the files that have these names.
fn find<D: Dir>(alloc: Global, names: &[FileName], dir: &mut D) -> Result<Vec<LogOp>, LogFault>
    requires { (q : List ℕ) → is_among names.now q ≡ is_some (D.cells dir.old q).now }
    ensures few { IfOk result (λ records. length records.items < 2 ^ 32) }
    ensures ok { IfOk result (λ records. ReadsRecords (reads_of (D.cells dir.old)) records.items) }
    ensures err { IfErr result (SaysLog (reads_of (D.cells dir.old))) }
    ensures whole { (rs : List LogOp) → ReadsRecords (reads_of (D.cells dir.old)) rs
        → IfErr result IsLogCutOff }
    ensures broken { (name : List ℕ) (fault : FileFault)
        → IsBrokenLog (reads_of (D.cells dir.old)) name fault
        → IsErrAnd result (IsFaultOrCutOff (LogFault.Broken name fault)) }
    ensures cells { D.cells dir.new ≡ D.cells dir.old }
    ensures failed { IsErrOf result LogFault.Failed → Rose (D.faults dir.old) (D.faults dir.new) }
    ensures later { D.faults dir.old ≤ D.faults dir.new }
    ensures calm { IsCalm (D.plans dir.old) → IsCalm (D.plans dir.new) }
    ensures unfailed { IsCalm (D.plans dir.old) → IsErrOf result LogFault.Failed → ⊥ }
{
    let last = last_number(names);
    match first_gap(last, dir) {
        Some(number) => Err(LogFault::Gap(number)),
        None => read_records(alloc, last, dir),
    }
}

// Removes a file, which must exist.
fn remove_file<D: Dir>(name: &FileName, dir: &mut D) -> Result<(), LogFault>
    requires { IsSome (D.cells dir.old name.now).now }
    ensures cells { D.cells dir.new ≡ after_remove (D.cells dir.old) name.now (dir_answer_of result) }
    ensures err { IfErr result IsLogCutOff }
    ensures failed { IsErrOf result LogFault.Failed → Rose (D.faults dir.old) (D.faults dir.new) }
    ensures later { D.faults dir.old ≤ D.faults dir.new }
    ensures calm { IsCalm (D.plans dir.old) → IsCalm (D.plans dir.new) }
    ensures unfailed { IsCalm (D.plans dir.old) → IsErrOf result LogFault.Failed → ⊥ }
{
    match dir.remove(name) {
        Ok(()) => Ok(()),
        Err(fault) => Err(refusal(fault)),
    }
}

// Removes a file that has the pending name of a record, and leaves another.
fn remove_pending<D: Dir>(name: &FileName, dir: &mut D) -> Result<(), LogFault>
    ensures here { OnOk result ((m : ℕ) → IsPendingLogName m name.now
        → (D.cells dir.new name.now).now ≡ None) }
    ensures none { (q : List ℕ) → (D.cells dir.old q).now ≡ None
        → (D.cells dir.new q).now ≡ None }
    ensures others { KeepsButPending (D.cells dir.old) (D.cells dir.new) }
    ensures err { IfErr result IsLogCutOff }
    ensures failed { IsErrOf result LogFault.Failed → Rose (D.faults dir.old) (D.faults dir.new) }
    ensures later { D.faults dir.old ≤ D.faults dir.new }
    ensures calm { IsCalm (D.plans dir.old) → IsCalm (D.plans dir.new) }
    ensures unfailed { IsCalm (D.plans dir.old) → IsErrOf result LogFault.Failed → ⊥ }
{
    let Some(_) = pending_log_of(name) else {
        return Ok(());
    };
    if !dir.has(name) {
        return Ok(());
    }
    remove_file(name, dir)
}

// Removes the files that have the pending name of a record.
fn sweep<D: Dir>(names: &[FileName], dir: &mut D) -> Result<(), LogFault>
    ensures gone { OnOk result ((m : ℕ) → IsRecordNumber m
        → is_among names.now (pending_log_name_of m) ≡ true
        → (D.cells dir.new (pending_log_name_of m)).now ≡ None) }
    ensures none { (q : List ℕ) → (D.cells dir.old q).now ≡ None
        → (D.cells dir.new q).now ≡ None }
    ensures others { KeepsButPending (D.cells dir.old) (D.cells dir.new) }
    ensures err { IfErr result IsLogCutOff }
    ensures failed { IsErrOf result LogFault.Failed → Rose (D.faults dir.old) (D.faults dir.new) }
    ensures later { D.faults dir.old ≤ D.faults dir.new }
    ensures calm { IsCalm (D.plans dir.old) → IsCalm (D.plans dir.new) }
    ensures unfailed { IsCalm (D.plans dir.old) → IsErrOf result LogFault.Failed → ⊥ }
{
    for name in names {
        remove_pending(name, dir)?;
    }
    Ok(())
}

// The records of the log of a directory, whose pending files are removed.
fn read_log<D: Dir>(alloc: Global, dir: &mut D) -> Result<Vec<LogOp>, LogFault>
    ensures few { IfOk result (λ records. length records.items < 2 ^ 32) }
    ensures ok { IfOk result (λ records. ReadsRecords (reads_of (D.cells dir.old)) records.items) }
    ensures err { IfErr result (SaysLog (reads_of (D.cells dir.old))) }
    ensures whole { (rs : List LogOp) → ReadsRecords (reads_of (D.cells dir.old)) rs
        → IfErr result IsLogCutOff }
    ensures broken { (name : List ℕ) (fault : FileFault)
        → IsBrokenLog (reads_of (D.cells dir.old)) name fault
        → IsErrAnd result (IsFaultOrCutOff (LogFault.Broken name fault)) }
    ensures clear { OnOk result (IsClear (D.cells dir.new) 0) }
    ensures others { KeepsButPending (D.cells dir.old) (D.cells dir.new) }
    ensures failed { IsErrOf result LogFault.Failed → Rose (D.faults dir.old) (D.faults dir.new) }
    ensures later { D.faults dir.old ≤ D.faults dir.new }
    ensures calm { IsCalm (D.plans dir.old) → IsCalm (D.plans dir.new) }
    ensures unfailed { IsCalm (D.plans dir.old) → IsErrOf result LogFault.Failed → ⊥ }
{
    let names = list(dir)?;
    let records = find(alloc, &names, dir)?;
    sweep(&names, dir)?;
    Ok(records)
}

impl<D: Dir> TransLog<D> {
    /// Opens the log of a directory: it reads its records, and removes the files that have the pending name of a record.
    ///
    /// A gap is looked at before a broken file. All other files stay as they are.
    pub fn start(alloc: Global, mut dir: D) -> Result<TransLog<D>, LogRefused<D>>
        // What is opened, or what refuses it.
        ensures ok { IfOk result (λ log. ReadsRecords (reads_of (D.cells dir)) log.records.items) }
        ensures err { IfErr result (λ refused. SaysLog (reads_of (D.cells dir)) refused.fault) }
        ensures failed { IfErr result (λ refused. refused.fault ≡ LogFault.Failed
            → Rose (D.faults dir) (D.faults refused.dir)) }

        // Each of these is answered, unless the call is out of memory or the disk fails.
        ensures whole { (rs : List LogOp) → length rs < 2 ^ 32
            → ReadsRecords (reads_of (D.cells dir)) rs
            → MatchResult result (λ log. log.records.items ≡ rs) (λ refused. IsLogCutOff refused.fault) }
        ensures gap { (n : ℕ) → IsGap (reads_of (D.cells dir)) n
            → IsErrAnd result (λ refused. IsFaultOrCutOff (LogFault.Gap n) refused.fault) }
        ensures broken { (name : List ℕ) (fault : FileFault)
            → IsBrokenLog (reads_of (D.cells dir)) name fault
            → IsErrAnd result (λ refused. IsFaultOrCutOff (LogFault.Broken name fault) refused.fault) }

        // What stays.
        ensures others { MatchResult result (λ log. KeepsButPending (D.cells dir) (D.cells log.dir))
            (λ refused. KeepsButPending (D.cells dir) (D.cells refused.dir)) }
        ensures later { MatchResult result (λ log. D.faults dir ≤ D.faults log.dir)
            (λ refused. D.faults dir ≤ D.faults refused.dir) }

        // Where no fault is planned for the directory, none is after, and the disk does not fail.
        ensures calm { IsCalm (D.plans dir) → MatchResult result (λ log. IsCalm (D.plans log.dir))
            (λ refused. IsCalm (D.plans refused.dir)) }
        ensures unfailed { IsCalm (D.plans dir)
            → IfErr result (λ refused. refused.fault ≡ LogFault.Failed → ⊥) }

        // The log that is opened.
        ensures ended { IfOk result (λ log. log.ended ≡ false) }
        ensures log { IfOk result (λ log. IsOpenLog (D.cells log.dir) log.records.items) }
        ensures safe { SameLogs (D.cells dir)
            → IfOk result (λ log. IsLogSafe (D.cells log.dir) log.records.items None) }
    {
        match read_log(alloc, &mut dir) {
            Ok(records) => Ok(TransLog {
                alloc,
                dir,
                records,
                ended: false,
            }),
            Err(fault) => Err(LogRefused { dir, fault }),
        }
    }
}
