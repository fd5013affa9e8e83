//! What a crash leaves of a name, by its pick.

use bytes::Bytes;
use disk_memory::MemDir;
use disk_model::{Dir, DirFault, FaultDir};
use file_names::{FileName, file_name};
use std::alloc::Global;
use std::test::Fail;

fn named(text: &[u8]) -> Result<FileName, Fail> {
    file_name(text).map_err(|_| Fail::from("no name"))
}

fn bytes(alloc: Global, contents: &[u8]) -> Result<Bytes, Fail> {
    Ok(Bytes::copy_from_slice(alloc, contents)?)
}

// What reads under a name, and after a crash.
fn left(dir: &mut MemDir, name: &FileName, pick: u64) -> Result<Option<Bytes>, Fail> {
    dir.crash(pick)?;
    match dir.load(name) {
        Ok(bytes) => Ok(Some(bytes)),
        Err(DirFault::Missing) => Ok(None),
        Err(fault) => Err(Fail::from(fault)),
    }
}

fn is_left(
    dir: &mut MemDir,
    name: &FileName,
    pick: u64,
    contents: Option<&[u8]>,
) -> Result<bool, Fail> {
    Ok(match (left(dir, name, pick)?, contents) {
        (Some(bytes), Some(contents)) => bytes.as_slice() == contents,
        (None, None) => true,
        _ => false,
    })
}

#[test]
fn crashes_leave_what_the_picks_say(rt: HostRuntime) -> Result<(), Fail> {
    let alloc = rt.alloc();
    let name = named(b"a")?;
    let whole: Option<&[u8]> = Some(&[1, 2]);
    let (empty, first): (Option<&[u8]>, Option<&[u8]>) = (Some(&[]), Some(&[1]));
    for (pick, synced, loose, alone) in [
        (0, whole, whole, whole),
        (1, None, empty, None),
        (2, None, first, None),
    ] {
        let mut dir = MemDir::new(alloc)?;
        dir.write_new(&name, bytes(alloc, &[1, 2])?)?;
        dir.sync(&[name])?;
        assert!(rt; is_left(&mut dir, &name, pick, synced)?, "synced, {pick}");

        let mut dir = MemDir::new(alloc)?;
        dir.write_new(&name, bytes(alloc, &[1, 2])?)?;
        dir.sync(&[name])?;
        dir.sync_names()?;
        assert!(rt; is_left(&mut dir, &name, pick, whole)?, "both, {pick}");

        let mut dir = MemDir::new(alloc)?;
        dir.write_new(&name, bytes(alloc, &[1, 2])?)?;
        dir.sync_names()?;
        assert!(rt; is_left(&mut dir, &name, pick, loose)?, "names, {pick}");

        let mut dir = MemDir::new(alloc)?;
        dir.write_new(&name, bytes(alloc, &[1, 2])?)?;
        assert!(rt; is_left(&mut dir, &name, pick, alone)?, "alone, {pick}");
    }
    Ok(())
}
