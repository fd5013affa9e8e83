//! The metadata of the files that a node holds.

ghost use Rattle.std.specs.Prelude.{◌≡◌, ◌<◌, ℕ, nat_lt, List, IfOk, OnOk, OnErr};
ghost use Rattle.std.specs.Option.{option_map};
ghost use Rattle.disk_model.specs.Disk.{Name, Content};
ghost use Rattle.file_deleter.specs.Holdings.{count_of};
ghost use Rattle.segment_infos.specs.Files.{files_of_segment};
ghost use Rattle.seg_reader.specs.Shown.{Shown};
ghost use Rattle.seg_reader.specs.Files.{IsSegmentOf};
ghost use Rattle.seg_reader.specs.Stands.{ArePartsIn};
ghost use Rattle.segment_infos.specs.Infos.{RecordFits};
ghost use Rattle.copy_state.specs.Meta.{IsMetaOf};
ghost use Rattle.copy_state.specs.States.{meta_in};
ghost use Rattle.replica_opening.specs.Known.{TellsMeta, LearnsMeta, LearnsFile, LearnsFiles};

use copy_state::{FileMetaData, MetaFault, read_meta};
use file_deleter::FileDeleter;
use file_names::{FileName, SegPart, live_name, part_name};
use indexmap::IndexMap;
use nrt_base::NoMemory;
use seg_reader::SegParts;
use segment_infos::SegRecord;
use std::alloc::{AllocError, Global};
use std::marker::Model;

/// What is known of files, by their names, seen as a list of names with metadata.
#[derive(Drop)]
pub struct Known {
    metas: IndexMap<FileName, FileMetaData>,
}

impl Model for Known {
    ghost use Rattle.std.specs.Prelude.{List, ℕ};
    ghost use Rattle.copy_state.specs.declared.meta.FileMetaData.{FileMetaData};

    ghost Value = { List (List ℕ × FileMetaData) };

    ghost view = { λ k. k.metas.entries };
}

impl Known {
    /// Nothing is known.
    pub fn new(alloc: Global) -> Self {
        Known {
            metas: IndexMap::new(alloc),
        }
    }

    /// What is known of a file.
    pub fn meta(&self, name: &FileName) -> Option<&FileMetaData>
        ensures { option_map (λ m. m.now) result ≡ meta_in self.now name.now }
    {
        self.metas.get(name)
    }

    /// Notes the metadata of a file, in the place of what was known of it.
    pub fn note(&mut self, name: FileName, meta: FileMetaData) -> Result<(), NoMemory>
        ensures ok { OnOk result (LearnsMeta name meta self.old self.new) }
        ensures err { OnErr result ((q : Name) → meta_in self.new q ≡ meta_in self.old q) }
    {
        self.metas.insert(name, meta)?;
        Ok(())
    }

    /// Forgets what is not held any more. Takes no memory.
    pub fn keep_held(&mut self, files: &FileDeleter)
        ensures { (q : Name) → 0 < count_of files.now q → meta_in self.new q ≡ meta_in self.old q }
    {
        self.metas.retain(
            |name: &FileName, meta: &mut FileMetaData| -> bool
                ensures same { meta.new ≡ meta.old }
                ensures held { result ≡ nat_lt 0 (count_of files.entry.now name.now) }
                ensures kept { files.exit ≡ files.entry }
            { files.count(name) > 0 },
        );
    }
}

// The metadata of bytes that tell it.
fn meta_told(alloc: Global, bytes: &[u8]) -> Result<FileMetaData, NoMemory>
    requires { TellsMeta bytes.now }
    ensures { IfOk result (IsMetaOf bytes.now) }
{
    match read_meta(alloc, bytes) {
        Ok(meta) => Ok(meta),
        Err(MetaFault::Memory) => Err(AllocError),
        Err(MetaFault::Frame(_)) => unreachable!(),
    }
}

// Notes the metadata of a file's bytes.
fn note_file(alloc: Global, name: FileName, bytes: &[u8], known: &mut Known) -> Result<(), NoMemory>
    requires { TellsMeta bytes.now }
    ensures { OnOk result (LearnsFile name bytes.now known.old known.new) }
{
    let meta = meta_told(alloc, bytes)?;
    match known.note(name, meta) {
        Ok(()) => Ok(()),
        Err(fault) => Err(fault),
    }
}

/// Notes the metadata of a segment's files, by their bytes.
pub fn note_parts(
    alloc: Global,
    record: &SegRecord,
    parts: &SegParts,
    known: &mut Known,
) -> Result<(), NoMemory>
    requires fits { RecordFits record.now }
    requires segment { (shown : Shown) × IsSegmentOf parts.now record.now shown }
    ensures { OnOk result ((reads : Name → Content) → ArePartsIn reads record.now parts.now
        → LearnsFiles reads (files_of_segment record.now) known.old known.new) }
{
    let SegRecord { seg, live_gen, .. } = *record;
    note_file(
        alloc,
        part_name(seg, SegPart::Docs),
        parts.docs.as_slice(),
        known,
    )?;
    note_file(
        alloc,
        part_name(seg, SegPart::Post),
        parts.post.as_slice(),
        known,
    )?;
    note_file(
        alloc,
        part_name(seg, SegPart::Info),
        parts.info.as_slice(),
        known,
    )?;
    let Some(live) = &parts.live else {
        return Ok(());
    };
    match note_file(alloc, live_name(seg, live_gen), live.as_slice(), known) {
        Ok(()) => Ok(()),
        Err(fault) => Err(fault),
    }
}
