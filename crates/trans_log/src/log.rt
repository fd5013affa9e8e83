//! The log: its records, appended by four calls of the directory each.

ghost use Rattle.std.specs.Prelude.{◌≡◌, ◌≢◌, ◌+◌, ◌-◌, ◌<◌, ◌≤◌, ◌^◌, ◌↔◌, ◌++◌, ◌∷◌, [], ℕ, suc, List, length, true, false, None, Some, IsSome, Ok, Err, OnOk, OnErr, IfOk, IsErr, IsErrOf, IsTrue, drop};
ghost use Rattle.nrt_base.specs.Causes.{Rose};
ghost use Rattle.disk_model.specs.Disk.{after_rename};
ghost use Rattle.disk_model.specs.Faults.{IsMemoryOrFailed, CountsFaults};
ghost use Rattle.trans_log.specs.Names.{log_name_of, pending_log_name_of, IsRecordNumber};
ghost use Rattle.trans_log.specs.Opening.{IsLogCutOff};
ghost use Rattle.trans_log.specs.Logs.{dir_answer_of, in_flight, IsFileContent, IsWritten, IsPublished, MayShow, KeepsOthers, Appends, IsOpenLog, IsLogSafe, ImagesRead, IsCalm};

use crate::names::{log_name, pending_log_name};
use crate::record::{LogOp, encode};
use codec_frame::FileFault;
use disk_model::{Dir, DirFault};
use file_names::FileName;
use nrt_base::{NoMemory, Share};
use std::alloc::Global;
use thiserror::Error;

/// Why a call of the log is refused.
#[derive(Clone, Copy, Debug, PartialEq, Eq, Error)]
pub enum LogFault {
    /// Out of memory.
    #[error("out of memory")]
    Memory,
    /// The disk failed.
    #[error("the disk failed")]
    Failed,
    /// The file with this name, the first such, is refused.
    #[error("a record of the log cannot be read: {0}: {1}")]
    Broken(FileName, FileFault),
    /// The file of this number, the least such, is missing, and one with a greater number is there.
    #[error("record {0} of the log does not exist, and a later one does")]
    Gap(u32),
}

impl From<NoMemory> for LogFault {
    ghost use Rattle.trans_log.specs.declared.log.LogFault.TheVariants.{Memory};

    ghost from_gives = { λ _ e. e ≡ Memory };

    fn from(_: NoMemory) -> Self {
        LogFault::Memory
    }
}

/// The log of a directory: its records, and whether it has ended.
#[derive(Drop)]
pub struct TransLog<D> {
    pub(crate) alloc: Global,
    pub(crate) dir: D,
    pub(crate) records: Vec<LogOp>,
    pub(crate) ended: bool,
    ghost few: { length records.items < 2 ^ 32 },
}

// A fault of the directory.
pub(crate) fn refusal(fault: DirFault) -> LogFault
    requires { IsMemoryOrFailed fault }
    ensures answer { dir_answer_of (Err result) ≡ Err fault }
    ensures failed { result ≡ LogFault.Failed → fault ≡ DirFault.Failed }
    ensures memory { (fault ≡ DirFault.Failed → ⊥) → result ≡ LogFault.Memory }
    ensures cut { IsLogCutOff result }
{
    match fault {
        DirFault::Memory => LogFault::Memory,
        DirFault::Failed => LogFault::Failed,
        DirFault::Missing | DirFault::Exists => unreachable!(),
    }
}

// Writes the file of a record under its pending name.
fn write_record<D: Dir>(
    alloc: Global,
    number: u32,
    entry: &LogOp,
    dir: &mut D,
) -> Result<(), LogFault>
    requires { (D.cells dir.old (pending_log_name_of number)).now ≡ None }
    ensures ok { OnOk result (IsFileContent number entry.now
        (D.cells dir.new (pending_log_name_of number)).now) }
    ensures others { (q : List ℕ) → pending_log_name_of number ≢ q
        → D.cells dir.new q ≡ D.cells dir.old q }
    ensures failed { IsErrOf result LogFault.Failed → Rose (D.faults dir.old) (D.faults dir.new) }
    ensures later { D.faults dir.old ≤ D.faults dir.new }
    ensures calm { IsCalm (D.plans dir.old) → IsCalm (D.plans dir.new) }
    ensures only { IsCalm (D.plans dir.old) → OnErr result (IsErrOf result LogFault.Memory) }
{
    let bytes = encode(alloc, number, entry)?;
    match dir.write_new(&pending_log_name(number), bytes) {
        Ok(()) => Ok(()),
        Err(fault) => Err(refusal(fault)),
    }
}

// Syncs one file, which must exist.
fn sync_one<D: Dir>(dir: &mut D, name: &FileName) -> Result<(), LogFault>
    requires { IsSome (D.cells dir.old name.now).now }
    ensures now { (D.cells dir.new name.now).now ≡ (D.cells dir.old name.now).now }
    ensures synced { OnOk result ((D.cells dir.new name.now).synced ≡ true) }
    ensures others { (q : List ℕ) → name.now ≢ q → D.cells dir.new q ≡ D.cells dir.old q }
    ensures failed { IsErrOf result LogFault.Failed → Rose (D.faults dir.old) (D.faults dir.new) }
    ensures later { D.faults dir.old ≤ D.faults dir.new }
    ensures calm { IsCalm (D.plans dir.old) → IsCalm (D.plans dir.new) }
    ensures only { IsCalm (D.plans dir.old) → OnErr result (IsErrOf result LogFault.Memory) }
{
    match dir.sync(&[*name]) {
        Ok(()) => Ok(()),
        Err(fault) => Err(refusal(fault)),
    }
}

// Gives the file of a record its own name.
fn rename_record<D: Dir>(number: u32, dir: &mut D) -> Result<(), LogFault>
    requires there { IsSome (D.cells dir.old (pending_log_name_of number)).now }
    requires free { (D.cells dir.old (log_name_of number)).now ≡ None }
    ensures cells { D.cells dir.new ≡ after_rename (D.cells dir.old) (pending_log_name_of number)
        (log_name_of number) (dir_answer_of result) }
    ensures failed { IsErrOf result LogFault.Failed → Rose (D.faults dir.old) (D.faults dir.new) }
    ensures later { D.faults dir.old ≤ D.faults dir.new }
    ensures calm { IsCalm (D.plans dir.old) → IsCalm (D.plans dir.new) }
    ensures only { IsCalm (D.plans dir.old) → OnErr result (IsErrOf result LogFault.Memory) }
{
    match dir.rename(&pending_log_name(number), &log_name(number)) {
        Ok(()) => Ok(()),
        Err(fault) => Err(refusal(fault)),
    }
}

// Writes the file of a record under its pending name, and syncs it.
fn write_pending<D: Dir>(
    alloc: Global,
    number: u32,
    entry: &LogOp,
    dir: &mut D,
) -> Result<(), LogFault>
    requires { (D.cells dir.old (pending_log_name_of number)).now ≡ None }
    ensures ok { OnOk result (IsWritten number entry.now
        (D.cells dir.new (pending_log_name_of number))) }
    ensures others { (q : List ℕ) → pending_log_name_of number ≢ q
        → D.cells dir.new q ≡ D.cells dir.old q }
    ensures failed { IsErrOf result LogFault.Failed → Rose (D.faults dir.old) (D.faults dir.new) }
    ensures later { D.faults dir.old ≤ D.faults dir.new }
    ensures calm { IsCalm (D.plans dir.old) → IsCalm (D.plans dir.new) }
    ensures only { IsCalm (D.plans dir.old) → OnErr result (IsErrOf result LogFault.Memory) }
{
    write_record(alloc, number, entry, dir)?;
    sync_one(dir, &pending_log_name(number))
}

// Gives the file of a record its own name, and syncs the names.
fn publish<D: Dir>(number: u32, dir: &mut D) -> Result<(), LogFault>
    requires there { IsSome (D.cells dir.old (pending_log_name_of number)).now }
    requires free { (D.cells dir.old (log_name_of number)).now ≡ None }
    ensures appends { (r : LogOp) → IsWritten number r (D.cells dir.old (pending_log_name_of number))
        → Appends number r (D.cells dir.old) (D.cells dir.new) result }
    ensures failed { IsErrOf result LogFault.Failed → Rose (D.faults dir.old) (D.faults dir.new) }
    ensures later { D.faults dir.old ≤ D.faults dir.new }
    ensures calm { IsCalm (D.plans dir.old) → IsCalm (D.plans dir.new) }
    ensures only { IsCalm (D.plans dir.old) → OnErr result (IsErrOf result LogFault.Memory) }
{
    rename_record(number, dir)?;
    match dir.sync_names() {
        Ok(()) => Ok(()),
        Err(fault) => Err(refusal(fault)),
    }
}

// Appends the file of a record: four calls of the directory.
fn append_file<D: Dir>(
    alloc: Global,
    number: u32,
    entry: &LogOp,
    dir: &mut D,
) -> Result<(), LogFault>
    requires clear { (D.cells dir.old (pending_log_name_of number)).now ≡ None }
    requires free { (D.cells dir.old (log_name_of number)).now ≡ None }
    ensures appends { Appends number entry.now (D.cells dir.old) (D.cells dir.new) result }
    ensures failed { IsErrOf result LogFault.Failed → Rose (D.faults dir.old) (D.faults dir.new) }
    ensures later { D.faults dir.old ≤ D.faults dir.new }
    ensures calm { IsCalm (D.plans dir.old) → IsCalm (D.plans dir.new) }
    ensures only { IsCalm (D.plans dir.old) → OnErr result (IsErrOf result LogFault.Memory) }
{
    write_pending(alloc, number, entry, dir)?;
    publish(number, dir)
}

// The records again.
fn copies(alloc: Global, records: &[LogOp]) -> Result<Vec<LogOp>, NoMemory>
    ensures { IfOk result (λ copies. copies.items ≡ records.now) }
{
    let mut copies = Vec::new(alloc);
    for entry in records {
        copies.push(entry.share(alloc)?)?;
    }
    Ok(copies)
}

impl<D: Dir> TransLog<D> {
    /// How many records the log has.
    pub fn len(&self) -> u32
        ensures { result ≡ length self.now.records.items }
    {
        self.records.len() as u32
    }

    /// Whether the log has ended, since an append was refused.
    pub fn ended(&self) -> bool
        ensures { result ≡ self.now.ended }
    {
        self.ended
    }

    /// The directory of the log.
    pub fn into_dir(self) -> D
        ensures { result ≡ self.dir }
    {
        let TransLog { dir, .. } = self;
        dir
    }

    /// Appends a record by four calls of the directory. After a refusal the log has ended.
    ///
    /// At each answer each image of the directory reads as the log's records, in order, followed at most by the one whose
    /// append was refused.
    #[tactic(auto, using(crate::proofs::Appending::images_of_safe))]
    pub fn append(&mut self, entry: &LogOp) -> Result<(), LogFault>
        requires open { self.old.ended ≡ false }
        requires few { length self.old.records.items < 2 ^ 32 - 1 }
        requires log { IsOpenLog (D.cells self.old.dir) self.old.records.items }

        // What is answered.
        ensures ok { OnOk result (self.new.records.items ≡ self.old.records.items ++ entry.now ∷ []) }
        ensures err { OnErr result (self.new.records.items ≡ self.old.records.items) }
        ensures ended { IsTrue self.new.ended ↔ IsErr result }
        ensures failed { IsErrOf result LogFault.Failed
            → Rose (D.faults self.old.dir) (D.faults self.new.dir) }
        ensures later { D.faults self.old.dir ≤ D.faults self.new.dir }

        // Where no fault is planned for the directory, none is after, and memory alone is wanting.
        ensures calm { IsCalm (D.plans self.old.dir) → IsCalm (D.plans self.new.dir) }
        ensures only { IsCalm (D.plans self.old.dir)
            → OnErr result (IsErrOf result LogFault.Memory) }

        // What the directory has.
        ensures others { KeepsOthers (suc (length self.old.records.items)) (D.cells self.old.dir)
            (D.cells self.new.dir) }
        ensures log { OnOk result (IsOpenLog (D.cells self.new.dir) self.new.records.items) }
        ensures safe { IsLogSafe (D.cells self.old.dir) self.old.records.items None
            → IsLogSafe (D.cells self.new.dir) self.new.records.items (in_flight result entry.now) }
        ensures images { IsLogSafe (D.cells self.old.dir) self.old.records.items None
            → ImagesRead (D.cells self.new.dir) self.new.records.items (in_flight result entry.now) }
    {
        let number = self.records.len() as u32 + 1;
        self.ended = true;
        let copy = entry.share(self.alloc)?;
        self.records.reserve(1)?;
        append_file(self.alloc, number, entry, &mut self.dir)?;
        self.records.push_reserved(copy);
        self.ended = false;
        Ok(())
    }

    /// The records of the log, in order.
    pub fn read_all(&mut self) -> Result<Vec<LogOp>, LogFault>
        requires { self.old.ended ≡ false }
        ensures records { IfOk result (λ records. records.items ≡ self.old.records.items) }
        ensures only { OnErr result (IsErrOf result LogFault.Memory) }
        ensures same { self.new ≡ self.old }
    {
        self.suffix(0)
    }

    /// The records after the first `from`, in order.
    pub fn suffix(&mut self, from: u32) -> Result<Vec<LogOp>, LogFault>
        requires open { self.old.ended ≡ false }
        requires within { from ≤ length self.old.records.items }
        ensures records { IfOk result (λ records. records.items ≡ drop from self.old.records.items) }
        ensures only { OnErr result (IsErrOf result LogFault.Memory) }
        ensures same { self.new ≡ self.old }
    {
        Ok(copies(self.alloc, &self.records[from as usize..])?)
    }
}
