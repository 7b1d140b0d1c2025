//! The disks, between two lines with no write open.
ghost use Rattle.std.specs.Prelude.{◌≡◌, None};
ghost use Rattle.page_disk.specs.Memory.{open_in};

use crate::{folder, memory};
use case_lines::{memory_disk, word};
use page_disk::{FolderDisk, MemoryDisk, PageDisk};

/// A disk of each kind, as the lines before left it.
#[derive(Drop)]
pub struct Disks {
    memory: MemoryDisk,
    folder: FolderDisk<HostRuntime>,
    ghost memory_closed: { open_in memory ≡ None },
    ghost folder_closed: { ⟦<FolderDisk<HostRuntime> as PageDisk>⟧.writing folder ≡ None },
}

impl Disks {
    /// New disks.
    pub fn new(rt: &HostRuntime) -> anyhow::Result<Disks> {
        let memory = memory_disk(rt.alloc(), "-", "-")?;
        let folder = FolderDisk::new(rt.clone()?, rt.alloc(), "pages")?;
        Ok(Disks { memory, folder })
    }

    /// Makes the call of a line, and shows its answer.
    pub fn call(&mut self, rt: &HostRuntime, line: &str) -> anyhow::Result<()> {
        match word(line, 0) {
            "memory" => memory::call(rt, &mut self.memory, line),
            _ => folder::call(rt, &mut self.folder, line),
        }
    }
}
