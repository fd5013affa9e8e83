//! What is known of the files of a state.

ghost use Rattle.std.specs.Prelude.{◌≡◌, ◌++◌, ℕ, List, [], ◌∷◌, IfOk, OnOk, OnErr};
ghost use Rattle.copy_state.specs.States.{meta_names, meta_in};
ghost use Rattle.replica_opening.specs.Known.{LearnsMeta};
ghost use Rattle.replica_node.specs.Held.{held_metas, LearnsSome, LearnsAll};

use copy_state::FileMetaData;
use file_deleter::FileDeleter;
use file_names::FileName;
use nrt_base::{List, NoMemory, Share};
use replica_opening::Known;
use std::alloc::Global;

// Adds what is known of a file, where it is held.
fn add_held(
    alloc: Global,
    name: &FileName,
    known: &Known,
    files: &FileDeleter,
    metas: &mut List<(FileName, FileMetaData)>,
) -> Result<(), NoMemory>
    ensures { OnOk result (metas.new
        ≡ metas.old ++ held_metas known.now files.now (name.now ∷ [])) }
{
    if files.count(name) == 0 {
        return Ok(());
    }
    let Some(meta) = known.meta(name) else {
        return Ok(());
    };
    let copy = meta.share(alloc)?;
    match metas.push((*name, copy)) {
        Ok(()) => Ok(()),
        Err(fault) => Err(fault),
    }
}

/// The files of a state that are held, each with what is known of it.
pub fn held_of(
    alloc: Global,
    wanted: &[(FileName, FileMetaData)],
    known: &Known,
    files: &FileDeleter,
) -> Result<List<(FileName, FileMetaData)>, NoMemory>
    ensures { IfOk result (λ metas. metas
        ≡ held_metas known.now files.now (meta_names wanted.now)) }
{
    let mut metas = List::new(alloc);
    for file in wanted {
        if let Err(fault) = add_held(alloc, &file.0, known, files, &mut metas) {
            return Err(fault);
        }
    }
    Ok(metas)
}

// Notes what is wanted of a file.
fn note_one(
    alloc: Global,
    file: &(FileName, FileMetaData),
    known: &mut Known,
) -> Result<(), NoMemory>
    ensures ok { OnOk result (LearnsMeta file.now.0 file.now.1 known.old known.new) }
    ensures err { OnErr result ((q : List ℕ) → meta_in known.new q ≡ meta_in known.old q) }
{
    let meta = file.1.share(alloc)?;
    match known.note(file.0, meta) {
        Ok(()) => Ok(()),
        Err(fault) => Err(fault),
    }
}

/// Notes what is wanted of the files of a state, in the place of what was known of them. After a refusal it is noted of
/// some.
pub fn note_wanted(
    alloc: Global,
    wanted: &[(FileName, FileMetaData)],
    known: &mut Known,
) -> Result<(), NoMemory>
    ensures some { LearnsSome wanted.now known.old known.new }
    ensures all { OnOk result (LearnsAll wanted.now known.new) }
{
    for file in wanted {
        if let Err(fault) = note_one(alloc, file, known) {
            return Err(fault);
        }
    }
    Ok(())
}
