ghost use Rattle.std.specs.Prelude.{◌≡◌, ◌+◌, ◌-◌, ◌<◌, ◌≤◌, ◌++◌, [], ◌∷◌, length, vec_capacity, vec_len, OnErr, OnOk};
ghost use Rattle.page_volumes.specs.Group.{has_files, home_of, is_at, unfiled};

use crate::filed::Filed;
use blob_words::{NoMemory, PageNo};
use std::alloc::Global;
use std::marker::Model;

// Where the file of each page is, with room for some more.
#[derive(Debug, Drop)]
pub struct Files {
    filed: Vec<Filed>,
    spare: usize,
}

impl Model for Files {
    ghost use Rattle.std.specs.Prelude.{◌+◌, ◌≤◌, vec_len};
    ghost use Rattle.std.specs.Vec.{vec_capacity};
    ghost use Rattle.page_volumes.specs.Kept.{Book};

    ghost Value = { Book };

    ghost view = { λ files. record {
      filed = files.filed.items;
      spare = files.spare;
    } };

    ghost invariant = { λ files. vec_len files.filed + files.spare ≤ vec_capacity files.filed };
}

// Whether a file stands on the volume at a place.
fn is_at(file: &Filed, k: u32) -> bool
    ensures { result ≡ is_at k file.now }
{
    match file.home {
        Some(home) => k == home,
        None => false,
    }
}

fn remove_from(filed: &mut Vec<Filed>, page: PageNo)
    ensures items { filed.new.items ≡ unfiled page.0 filed.old.items }
    ensures fewer { vec_len filed.new ≤ vec_len filed.old }
    ensures capacity { vec_capacity filed.new ≡ vec_capacity filed.old }
{
    filed.retain(|file| page.0 != file.page.0);
}

impl Files {
    pub fn new(alloc: Global) -> Files
        ensures { result ≡ record { filed = []; spare = 0 } }
    {
        Files {
            filed: Vec::new(alloc),
            spare: 0,
        }
    }

    // Takes the room for one page.
    pub fn prepare(&mut self) -> Result<(), NoMemory>
        ensures ok { OnOk result (self.new ≡ record self.old { spare = 1 }) }
        ensures err { OnErr result (self.new ≡ self.old) }
    {
        self.filed.reserve(1)?;
        self.spare = 1;
        Ok(())
    }

    // Files a page into the room that is there.
    pub fn push(&mut self, page: PageNo, home: Option<u32>)
        requires { 0 < self.old.spare }
        ensures { self.new ≡ record {
          filed = self.old.filed ++ record { page = page; home = home } ∷ [];
          spare = self.old.spare - 1;
        } }
    {
        self.filed.push(Filed { page, home }).unwrap();
        self.spare -= 1;
    }

    // Forgets a page.
    pub fn remove(&mut self, page: PageNo)
        ensures rest { self.new ≡ record self.old { filed = unfiled page.0 self.old.filed } }
        ensures fewer { length self.new.filed ≤ length self.old.filed }
    {
        remove_from(&mut self.filed, page);
    }

    // Where the file of a page is.
    pub fn home(&self, page: PageNo) -> Option<Option<u32>>
        ensures { result ≡ home_of page.0 self.now.filed }
    {
        for file in self.filed.as_slice() {
            if page.0 == file.page.0 {
                return Some(file.home);
            }
        }
        None
    }

    // Whether a file stands on the volume at a place.
    pub fn is_home(&self, k: u32) -> bool
        ensures { result ≡ has_files k self.now.filed }
    {
        for file in self.filed.as_slice() {
            if is_at(file, k) {
                return true;
            }
        }
        false
    }

    // How many changes the end of a write and the removal of each file make.
    pub fn changes_ahead(&self) -> usize
        ensures { result ≡ length self.now.filed + 2 }
    {
        self.filed.len() + 2
    }
}
