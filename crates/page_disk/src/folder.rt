ghost use Rattle.std.specs.Prelude.{◌≡◌, None, IfOk};

use crate::disk::PageDisk;
use crate::fault::PutFault;
use crate::place::Place;
use blob_source::counted;
use blob_words::{Failed, NoMemory, PageNo};
use std::alloc::Global;
use std::io::{Read, Seek, SeekFrom, Write};
use std::rt::Files;
use std::{fs, io};

// The open write of a page.
#[derive(Drop)]
struct PageWrite<R: Files> {
    file: R::File,
    page: PageNo,
    len: u64,
    came: u64,
}

/// A disk over a folder: page F is the file there whose name is F in decimal. The folder is made at
/// the first `begin`, and a file that is there from an earlier run is replaced. It tells nothing of
/// its bytes, and counts each `Err` of a file.
#[derive(Drop)]
pub struct FolderDisk<R: Files + Clone + Drop> {
    rt: R,
    place: Place,
    write: Option<PageWrite<R>>,
    faults: u64,
    meter: u64,
}

fn create<R: Files>(rt: &R, place: &mut Place, page: PageNo) -> io::Result<R::File> {
    if !place.is_made {
        fs::create_dir_all(rt, place.folder.as_str())?;
        place.is_made = true;
    }
    fs::create(rt, place.path_of(page))
}

fn read_at<R: Files>(
    rt: &R,
    place: &mut Place,
    page: PageNo,
    off: u64,
    out: &mut [u8],
) -> io::Result<()> {
    let mut file = fs::open(rt, place.path_of(page))?;
    file.seek(SeekFrom::Start(off))?;
    file.read_exact(out)
}

fn remove<R: Files>(rt: &R, place: &mut Place, page: PageNo) -> io::Result<()> {
    fs::remove_file(rt, place.path_of(page))
}

impl<R: Files + Clone + Drop> FolderDisk<R> {
    /// A disk over a folder, which needn't be there yet. It takes the room for its longest path.
    pub fn new(rt: R, alloc: Global, folder: &str) -> Result<FolderDisk<R>, NoMemory>
        ensures { IfOk result (λ disk. (⟦<FolderDisk<R> as PageDisk>⟧.writing disk ≡ None)
            × (⟦<FolderDisk<R> as PageDisk>⟧.changes disk ≡ None)
            × (⟦<FolderDisk<R> as PageDisk>⟧.faults disk ≡ 0)
            × (⟦<FolderDisk<R> as PageDisk>⟧.meter disk ≡ 0)) }
    {
        let place = Place::new(alloc, folder)?;
        Ok(FolderDisk {
            rt,
            place,
            write: None,
            faults: 0,
            meter: 0,
        })
    }
}

impl<R: Files + Clone + Drop> PageDisk for FolderDisk<R> {
    ghost use Rattle.std.specs.Prelude.{[], None};
    ghost use Rattle.std.specs.Option.{option_map};

    ghost changes = { λ _. None };

    ghost writing = { λ disk. option_map (λ write. record {
      page = write.page;
      len = write.len;
      came = write.came;
    }) disk.write };

    ghost came = { λ _. [] };

    ghost faults = { λ disk. disk.faults };

    ghost meter = { λ disk. disk.meter };

    fn begin(&mut self, page: PageNo, len: u64) -> Result<(), PutFault> {
        match create(&self.rt, &mut self.place, page) {
            Ok(file) => {
                self.write = Some(PageWrite {
                    file,
                    page,
                    len,
                    came: 0,
                });
                Ok(())
            }
            Err(error) => {
                if error.kind() == io::ErrorKind::OutOfMemory {
                    return Err(PutFault::NoMemory);
                }
                self.faults = self.faults.saturating_add(1);
                Err(PutFault::Failed)
            }
        }
    }

    fn append(&mut self, bytes: &[u8]) -> Result<(), Failed> {
        if let Some(write) = &mut self.write {
            let _len = write.len; // its range
            if write.file.write_all(bytes).is_ok() {
                write.came += bytes.len() as u64;
                return Ok(());
            }
        }
        self.write = None;
        self.faults = self.faults.saturating_add(1);
        Err(Failed)
    }

    fn seal(&mut self) -> Result<(), Failed> {
        if let Some(mut write) = self.write.take() {
            if write.file.flush().is_ok() {
                return Ok(());
            }
        }
        self.faults = self.faults.saturating_add(1);
        Err(Failed)
    }

    fn get(&mut self, page: PageNo, off: u64, out: &mut [u8]) -> Result<(), Failed> {
        let len = out.len() as u64;
        let answer = read_at(&self.rt, &mut self.place, page, off, out);
        counted(answer, &mut self.faults)?;
        self.meter = self.meter.saturating_add(len);
        Ok(())
    }

    fn remove(&mut self, page: PageNo) -> Result<(), Failed> {
        counted(remove(&self.rt, &mut self.place, page), &mut self.faults)
    }
}
