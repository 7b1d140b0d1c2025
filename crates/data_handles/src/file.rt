ghost use Rattle.std.specs.Prelude.{◌≡◌, IfOk};

use crate::fault::OpenFault;
use crate::handle::DataHandle;
use blob_source::counted;
use blob_words::Failed;
use std::fs::File;
use std::os::unix::fs::FileExt;
use std::rt::Files;
use std::{fs, io};

/// A file that is open for reading, read where it is asked for and not loaded. It tells nothing of
/// its bytes, and counts each `Err` of the file.
#[derive(Drop)]
pub struct FileHandle {
    file: File,
    size: u64,
    faults: u64,
}

fn open_sized<R: Files<File = File>>(rt: &R, path: &str) -> io::Result<(File, u64)> {
    let file = fs::open(rt, path)?;
    let size = file.metadata()?.len();
    Ok((file, size))
}

impl FileHandle {
    /// Opens a file. Its size is the length that it has now.
    pub fn open<R: Files<File = File>>(rt: &R, path: &str) -> Result<FileHandle, OpenFault>
        ensures { IfOk result (λ handle. (⟦<FileHandle as DataHandle>⟧.seen handle).faults ≡ 0) }
    {
        match open_sized(rt, path) {
            Ok((file, size)) => Ok(FileHandle {
                file,
                size,
                faults: 0,
            }),
            Err(error) => {
                if error.kind() == io::ErrorKind::OutOfMemory {
                    return Err(OpenFault::NoMemory);
                }
                Err(OpenFault::Missing)
            }
        }
    }
}

impl DataHandle for FileHandle {
    ghost use Rattle.std.specs.Prelude.{None};

    ghost seen = { λ handle. record {
      size = handle.size;
      told = None;
      faults = handle.faults;
    } };

    fn size(&self) -> u64 {
        self.size
    }

    fn faults(&self) -> u64 {
        self.faults
    }

    fn read(&mut self, off: u64, out: &mut [u8]) -> Result<(), Failed> {
        counted(self.file.read_exact_at(out, off), &mut self.faults)
    }
}
