//! A directory in memory that never fails.

ghost use Rattle.std.specs.Prelude.{◌≡◌, [], None, IfOk};
ghost use Rattle.disk_model.specs.Disk.{reads_of};
ghost use Rattle.disk_memory.specs.Memory.{cells_in};
ghost use Rattle.index_check.specs.Directory.{directory_with};

use bytes::Bytes;
use disk_memory::MemDir;
use disk_model::{Dir, DirFault};
use file_names::FileName;
use nrt_base::NoMemory;
use std::alloc::Global;
use std::marker::Model;

/// A directory in memory that never fails, since no fault is planned for it.
#[derive(Drop)]
pub struct CalmDir {
    dir: MemDir,
}

impl Model for CalmDir {
    ghost use Rattle.std.specs.Prelude.{◌≡◌};
    ghost use Rattle.disk_memory.specs.declared.memory.MemDir.{MemDir};
    ghost use Rattle.disk_memory.specs.Memory.{plans_of};

    ghost Value = { MemDir };

    ghost view = { λ d. d.dir };

    ghost invariant = { λ d. plans_of d.dir ≡
        record { once = 0; stop = 0; met_once = 0; met_stop = 0 } };
}

impl CalmDir {
    /// The empty directory.
    pub fn new(alloc: Global) -> Result<CalmDir, NoMemory>
        ensures { IfOk result (λ dir. reads_of (cells_in dir) ≡ directory_with []) }
    {
        let dir = MemDir::new(alloc)?;
        Ok(CalmDir { dir })
    }
}

impl Dir for CalmDir {
    ghost cells = { cells_in };

    ghost faults = { λ _. 0 };

    ghost plans = { λ _. None };

    fn has(&self, name: &FileName) -> bool {
        self.dir.has(name)
    }

    fn list(&mut self) -> Result<Vec<FileName>, DirFault> {
        self.dir.list()
    }

    fn load(&mut self, name: &FileName) -> Result<Bytes, DirFault> {
        self.dir.load(name)
    }

    fn write_new(&mut self, name: &FileName, bytes: Bytes) -> Result<(), DirFault> {
        self.dir.write_new(name, bytes)
    }

    fn sync(&mut self, names: &[FileName]) -> Result<(), DirFault> {
        self.dir.sync(names)
    }

    fn sync_names(&mut self) -> Result<(), DirFault> {
        self.dir.sync_names()
    }

    fn rename(&mut self, from: &FileName, to: &FileName) -> Result<(), DirFault> {
        self.dir.rename(from, to)
    }

    fn remove(&mut self, name: &FileName) -> Result<(), DirFault> {
        self.dir.remove(name)
    }

    fn faults(&self) -> u64 {
        0
    }
}
