//! Files with their names apart.

ghost use Rattle.std.specs.Prelude.{◌≡◌, List, [], ◌∷◌, ◌++◌, IfOk, OnOk};
ghost use Rattle.disk_model.specs.Disk.{Name, is_among};
ghost use Rattle.copy_state.specs.declared.meta.FileMetaData.{FileMetaData};
ghost use Rattle.merge_precopy.specs.Tables.{HasFiles, AreParted};

use copy_state::FileMetaData;
use file_names::FileName;
use nrt_base::{List, NoMemory, Share};
use std::alloc::Global;

/// Files, and their names apart, so that these can be given up without memory.
#[derive(Drop)]
pub(crate) struct Table {
    pub(crate) files: List<(FileName, FileMetaData)>,
    pub(crate) names: List<FileName>,
}

impl Table {
    pub(crate) fn new(alloc: Global) -> Self
        ensures { HasFiles [] result }
    {
        Table {
            files: List::new(alloc),
            names: List::new(alloc),
        }
    }

    // Puts a file at the end. After a refusal the table is no good.
    fn push(&mut self, alloc: Global, file: &(FileName, FileMetaData)) -> Result<(), NoMemory>
        ensures { (front : List (Name × FileMetaData)) → HasFiles front self.old
            → OnOk result (HasFiles (front ++ file.now ∷ []) self.new) }
    {
        let meta = file.1.share(alloc)?;
        self.files.push((file.0, meta))?;
        self.names.push(file.0)?;
        Ok(())
    }
}

// Whether the name is among the names.
fn is_named(names: &[FileName], name: &FileName) -> bool
    ensures { result ≡ is_among names.now name.now }
{
    names.contains(name)
}

// Puts a file on its side.
fn part_one(
    alloc: Global,
    names: &[FileName],
    file: &(FileName, FileMetaData),
    kept: &mut Table,
    taken: &mut List<FileName>,
) -> Result<(), NoMemory>
    ensures { (front : List (Name × FileMetaData)) → AreParted names.now front kept.old taken.old
        → OnOk result (AreParted names.now (front ++ file.now ∷ []) kept.new taken.new) }
{
    if is_named(names, &file.0) {
        taken.push(file.0)?;
        return Ok(());
    }
    kept.push(alloc, file)?;
    Ok(())
}

/// The files of other names, and the names of those that are named.
pub(crate) fn part(
    alloc: Global,
    names: &[FileName],
    files: &[(FileName, FileMetaData)],
) -> Result<(Table, List<FileName>), NoMemory>
    ensures { IfOk result (λ parts. AreParted names.now files.now parts.0 parts.1) }
{
    let mut kept = Table::new(alloc);
    let mut taken = List::new(alloc);
    for file in files {
        part_one(alloc, names, file, &mut kept, &mut taken)?;
    }
    Ok((kept, taken))
}

/// The files of both lists, one after the other.
pub(crate) fn joined(
    alloc: Global,
    files: &[(FileName, FileMetaData)],
    more: &[(FileName, FileMetaData)],
) -> Result<Table, NoMemory>
    ensures { IfOk result (HasFiles (files.now ++ more.now)) }
{
    let mut table = Table::new(alloc);
    for file in files {
        table.push(alloc, file)?;
    }
    for added in more {
        table.push(alloc, added)?;
    }
    Ok(table)
}
