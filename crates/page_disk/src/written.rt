ghost use Rattle.std.specs.Prelude.{◌≡◌, ◌+◌, ◌≤◌, ◌++◌, [], length, IfOk};
ghost use Rattle.page_disk.specs.declared.change.Change.TheVariants.{Put};

use crate::change::Change;
use blob_words::{NoMemory, Octets, PageNo};
use std::alloc::Global;
use std::marker::Model;

// An open write, with room for all its bytes.
#[derive(Debug, Drop)]
pub struct Written {
    page: PageNo,
    len: u64,
    bytes: Vec<u8>,
}

impl Model for Written {
    ghost use Rattle.std.specs.Prelude.{◌≤◌};
    ghost use Rattle.std.specs.Vec.{vec_capacity};
    ghost use Rattle.page_disk.specs.Memory.{Write};

    ghost Value = { Write };

    ghost view = { λ write. record {
      page = write.page;
      len = write.len;
      bytes = write.bytes.items;
    } };

    ghost invariant = { λ write. write.len ≤ vec_capacity write.bytes };
}

impl Written {
    pub fn new(alloc: Global, page: PageNo, len: u64) -> Result<Written, NoMemory>
        ensures { IfOk result (λ write. write ≡ record { page = page; len = len; bytes = [] }) }
    {
        let bytes = Vec::with_capacity(alloc, len as usize)?;
        Ok(Written { page, len, bytes })
    }

    pub fn append(&mut self, bytes: &[u8])
        requires { length self.old.bytes + length bytes.now ≤ self.old.len }
        ensures { self.new ≡ record self.old { bytes = self.old.bytes ++ bytes.now } }
    {
        self.bytes.extend_from_slice(bytes).unwrap();
    }

    pub fn page(&self) -> PageNo
        ensures { result ≡ self.now.page }
    {
        self.page
    }

    // The page with the bytes that came.
    pub fn into_put(self) -> Change
        ensures { result ≡ Put self.page self.bytes }
    {
        Change::Put(self.page, Octets::from_vec(self.bytes))
    }
}
