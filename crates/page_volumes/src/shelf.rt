ghost use Rattle.std.specs.Prelude.{◌≡◌, ◌+◌, ◌-◌, ◌<◌, ◌≤◌, ◌++◌, [], ◌∷◌, drop, length, map, option_and_then, take, vec_capacity, vec_len, IsSomeAnd, OnErr, OnOk};
ghost use Rattle.std.specs.Option.{option_copied};
ghost use Rattle.page_volumes.specs.Seen.{file_of, without};
ghost use Rattle.page_volumes.specs.Shelf.{page_file};

use crate::stored::Stored;
use blob_words::{NoMemory, Octets, PageNo};
use std::alloc::Global;
use std::marker::Model;

// Page files in memory, with room for some more.
#[derive(Debug, Drop)]
pub struct Shelf {
    files: Vec<Stored>,
    spare: usize,
}

impl Model for Shelf {
    ghost use Rattle.std.specs.Prelude.{◌+◌, ◌≤◌, map, vec_len};
    ghost use Rattle.std.specs.Vec.{vec_capacity};
    ghost use Rattle.page_volumes.specs.Shelf.{page_file, Shelved};

    ghost Value = { Shelved };

    ghost view = { λ shelf. record {
      files = map page_file shelf.files.items;
      spare = shelf.spare;
    } };

    ghost invariant = { λ shelf. vec_len shelf.files + shelf.spare ≤ vec_capacity shelf.files };
}

fn remove_from(files: &mut Vec<Stored>, page: PageNo)
    ensures items { map page_file files.new.items ≡ without page.0 (map page_file files.old.items) }
    ensures fewer { vec_len files.new ≤ vec_len files.old }
    ensures capacity { vec_capacity files.new ≡ vec_capacity files.old }
{
    files.retain(|file| page.0 != file.page.0);
}

// The bytes of a file, where it has some.
fn slice_of(bytes: &Option<Octets>) -> Option<&[u8]>
    ensures { option_copied result ≡ bytes.now }
{
    match bytes {
        Some(bytes) => Some(bytes.as_slice()),
        None => None,
    }
}

// The bytes of a page's file, where it has some.
fn bytes_of(files: &[Stored], page: PageNo) -> Option<&[u8]>
    ensures { option_copied result
        ≡ option_and_then (λ whole. whole) (file_of page.0 (map page_file files.now)) }
{
    for file in files {
        if page.0 == file.page.0 {
            return slice_of(&file.bytes);
        }
    }
    None
}

// Fills `out` with the bytes from `off` on.
fn fill_from(bytes: &[u8], off: u64, out: &mut [u8])
    requires { off + length out.old ≤ length bytes.now }
    ensures { out.new ≡ take (length out.old) (drop off bytes.now) }
{
    let start = off as usize;
    out.copy_from_slice(&bytes[start..start + out.len()]);
}

impl Shelf {
    pub fn new(alloc: Global) -> Shelf
        ensures { result ≡ record { files = []; spare = 0 } }
    {
        Shelf {
            files: Vec::new(alloc),
            spare: 0,
        }
    }

    // Takes the room for one file.
    pub fn prepare(&mut self) -> Result<(), NoMemory>
        ensures ok { OnOk result (self.new ≡ record self.old { spare = 1 }) }
        ensures err { OnErr result (self.new ≡ self.old) }
    {
        self.files.reserve(1)?;
        self.spare = 1;
        Ok(())
    }

    // Puts a file into the room that is there.
    pub fn push(&mut self, page: PageNo, bytes: Option<Octets>)
        requires { 0 < self.old.spare }
        ensures { self.new ≡ record {
          files = self.old.files ++ record { page = page.0; bytes = bytes } ∷ [];
          spare = self.old.spare - 1;
        } }
    {
        self.files.push(Stored { page, bytes }).unwrap();
        self.spare -= 1;
    }

    pub fn remove(&mut self, page: PageNo)
        ensures { self.new ≡ record self.old { files = without page.0 self.old.files } }
    {
        remove_from(&mut self.files, page);
    }

    // Fills `out` with the bytes of a page's file from `off` on.
    pub fn fill(&self, page: PageNo, off: u64, out: &mut [u8])
        requires { IsSomeAnd (file_of page.0 self.now.files)
            (λ whole. IsSomeAnd whole (λ bytes. off + length out.old ≤ length bytes)) }
        ensures { IsSomeAnd (file_of page.0 self.now.files)
            (λ whole. IsSomeAnd whole (λ bytes. out.new ≡ take (length out.old) (drop off bytes))) }
    {
        let bytes = bytes_of(self.files.as_slice(), page).unwrap();
        fill_from(bytes, off, out);
    }
}
