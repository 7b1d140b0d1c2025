ghost use Rattle.std.specs.Prelude.{◌≡◌, ◌≤◌, None, IfOk, OnErr, OnOk};
ghost use Rattle.blob_source.specs.Faults.{next_count};

use crate::volume::Volume;
use blob_words::{Failed, NoMemory, PageNo};
use page_disk::{FolderDisk, PageDisk, PutFault};
use std::alloc::Global;
use std::rt::Files;

/// A volume over a folder, as a `FolderDisk` keeps it. It tells nothing of its files, and counts
/// each call that failed.
#[derive(Drop)]
pub struct FolderVolume<R: Files + Clone + Drop> {
    disk: FolderDisk<R>,
    faults: u64,
}

impl<R: Files + Clone + Drop> FolderVolume<R> {
    /// A volume over a folder, which needn't be there yet.
    pub fn new(rt: R, alloc: Global, folder: &str) -> Result<FolderVolume<R>, NoMemory>
        ensures { IfOk result (λ volume. ⟦<FolderVolume<R> as Volume>⟧.seen volume
            ≡ record { write = None; told = None; faults = 0 }) }
    {
        let disk = FolderDisk::new(rt, alloc, folder)?;
        Ok(FolderVolume { disk, faults: 0 })
    }
}

// Counts a call that failed.
fn count(answer: Result<(), Failed>, faults: &mut u64) -> Result<(), Failed>
    ensures same { result ≡ answer }
    ensures good { OnOk answer (faults.new ≡ faults.old) }
    ensures failed { OnErr answer (faults.new ≡ next_count faults.old) }
    ensures later { faults.old ≤ faults.new }
{
    if answer.is_err() {
        *faults = faults.saturating_add(1);
    }
    answer
}

impl<R: Files + Clone + Drop> Volume for FolderVolume<R> {
    ghost use Rattle.std.specs.Prelude.{None};

    ghost seen = { λ volume. record {
      write = ⟦<FolderDisk<R> as PageDisk>⟧.writing volume.disk;
      told = None;
      faults = volume.faults;
    } };

    fn faults(&self) -> u64 {
        self.faults
    }

    fn begin(&mut self, page: PageNo, len: u64) -> Result<(), PutFault> {
        match self.disk.begin(page, len) {
            Ok(()) => Ok(()),
            Err(PutFault::NoMemory) => Err(PutFault::NoMemory),
            Err(PutFault::Failed) => {
                self.faults = self.faults.saturating_add(1);
                Err(PutFault::Failed)
            }
        }
    }

    fn append(&mut self, bytes: &[u8]) -> Result<(), Failed> {
        count(self.disk.append(bytes), &mut self.faults)
    }

    fn seal(&mut self) -> Result<(), Failed> {
        count(self.disk.seal(), &mut self.faults)
    }

    fn get(&mut self, page: PageNo, off: u64, out: &mut [u8]) -> Result<(), Failed> {
        count(self.disk.get(page, off, out), &mut self.faults)
    }

    fn remove(&mut self, page: PageNo) -> Result<(), Failed> {
        count(self.disk.remove(page), &mut self.faults)
    }
}
