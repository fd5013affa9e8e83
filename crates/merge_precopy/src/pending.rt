//! The table of pending files.

ghost use Rattle.std.specs.Prelude.{◌≡◌, ◌==◌, ◌++◌, ◌∷◌, [], filter, not, true, IfOk, OnOk, OnErr};
ghost use Rattle.copy_state.specs.States.{meta_names};
ghost use Rattle.merge_precopy.specs.Pending.{is_expected, files_named, files_not_named, with_files};

use crate::table::{Table, joined, part};
use copy_state::FileMetaData;
use file_names::FileName;
use nrt_base::{List, NoMemory, SegNo, Share};
use std::alloc::Global;
use std::marker::Model;
use std::mem;

/// The files of merges that were copied before the cut-over and belong to no point yet, with their
/// metadata, and the segments whose files are still to come.
#[derive(Drop)]
pub struct Precopies {
    alloc: Global,
    expected: Vec<SegNo>,
    table: Table,
}

impl Model for Precopies {
    ghost use Rattle.merge_precopy.specs.Pending.{Pending};
    ghost use Rattle.merge_precopy.specs.Tables.{HasFiles};

    ghost Value = { Pending };

    ghost view = { λ p. record { expected = p.expected.items; files = p.table.files } };

    ghost invariant = { λ p. HasFiles p.table.files p.table };
}

// Takes a segment out, wherever it stands.
fn strike(segs: &mut Vec<SegNo>, seg: SegNo)
    ensures { segs.new.items ≡ filter (λ s. not (s.0 == seg.0)) segs.old.items }
{
    segs.retain(|s| s.0 != seg.0);
}

impl Share for Precopies {
    fn share(&self, alloc: Global) -> Result<Self, NoMemory> {
        let mut expected = Vec::new(alloc);
        expected.extend_from_slice(self.expected.as_slice())?;
        let table = joined(alloc, self.table.files.as_slice(), &[])?;
        Ok(Precopies {
            alloc: self.alloc,
            expected,
            table,
        })
    }
}

impl Precopies {
    /// No file is pending, and none is expected. Takes no memory.
    pub fn none(alloc: Global) -> Self
        ensures { result ≡ record { expected = []; files = [] } }
    {
        Precopies {
            alloc,
            expected: Vec::new(alloc),
            table: Table::new(alloc),
        }
    }

    /// No file is pending, and none is expected.
    pub fn new(alloc: Global) -> Result<Self, NoMemory>
        ensures { IfOk result (λ p. p ≡ record { expected = []; files = [] }) }
    {
        Ok(Precopies::none(alloc))
    }

    /// Expects the files of a merged segment.
    pub fn expect(&mut self, seg: SegNo) -> Result<(), NoMemory>
        ensures ok { OnOk result (self.new
            ≡ record self.old { expected = self.old.expected ++ seg ∷ [] }) }
        ensures err { OnErr result (self.new ≡ self.old) }
    {
        self.expected.push(seg)?;
        Ok(())
    }

    /// Expects the files of a merged segment no more. Takes no memory.
    pub fn forget(&mut self, seg: SegNo)
        ensures { self.new ≡ record self.old {
          expected = filter (λ s. not (s.0 == seg.0)) self.old.expected;
        } }
    {
        strike(&mut self.expected, seg);
    }

    /// The files of a segment that was expected have come, and are pending from now on.
    pub fn done(&mut self, seg: SegNo, parts: Vec<(FileName, FileMetaData)>) -> Result<(), NoMemory>
        requires { is_expected self.old.expected seg ≡ true }
        ensures ok { OnOk result (self.new ≡ with_files self.old seg parts.items) }
        ensures err { OnErr result (self.new ≡ self.old) }
    {
        let table = joined(self.alloc, self.table.files.as_slice(), parts.as_slice())?;
        self.table = table;
        strike(&mut self.expected, seg);
        Ok(())
    }

    /// The pending files, with their metadata.
    pub fn held(&self) -> Result<Vec<(FileName, FileMetaData)>, NoMemory>
        ensures { IfOk result (λ files. files.items ≡ self.now.files) }
    {
        let files = joined(self.alloc, self.table.files.as_slice(), &[])?;
        Ok(files.files.into_vec())
    }

    /// Takes the files that a point names out, and answers their names.
    pub fn taken_by(&mut self, point: &[FileName]) -> Result<Vec<FileName>, NoMemory>
        ensures names { IfOk result (λ names. names.items
            ≡ meta_names (files_named point.now self.old.files)) }
        ensures ok { OnOk result (self.new
            ≡ record self.old { files = files_not_named point.now self.old.files }) }
        ensures err { OnErr result (self.new ≡ self.old) }
    {
        let (kept, taken) = part(self.alloc, point, self.table.files.as_slice())?;
        self.table = kept;
        Ok(taken.into_vec())
    }

    /// Takes the files that are listed as completed out, and answers their names.
    pub fn completed(&mut self, names: &[FileName]) -> Result<Vec<FileName>, NoMemory>
        ensures names { IfOk result (λ taken. taken.items
            ≡ meta_names (files_named names.now self.old.files)) }
        ensures ok { OnOk result (self.new
            ≡ record self.old { files = files_not_named names.now self.old.files }) }
        ensures err { OnErr result (self.new ≡ self.old) }
    {
        self.taken_by(names)
    }

    /// Takes all files out, and answers their names. None is expected any more. Takes no memory.
    pub fn discard_all(&mut self) -> Vec<FileName>
        ensures names { result.items ≡ meta_names self.old.files }
        ensures none { self.new ≡ record { expected = []; files = [] } }
    {
        self.expected.clear();
        let Table { names, .. } = mem::replace(&mut self.table, Table::new(self.alloc));
        names.into_vec()
    }
}
