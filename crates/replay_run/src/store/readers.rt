ghost use Rattle.std.specs.Prelude.{◌≡◌, [], ◌∷◌, ◌++◌, length, map, OnOk, OnErr};
ghost use Rattle.std.specs.Option.{option_copied};
ghost use Rattle.replay_run.specs.Open.{reader_at, some_reads, placed, closed};

use crate::store::reader::Reader;
use blob_words::{BlobName, NoMemory, ReaderId};
use std::alloc::Global;
use std::marker::Model;

/// The open readers, in the order in which they were opened. Contracts see the list.
#[derive(Drop)]
pub struct Readers {
    open: Vec<Reader>,
}

impl Model for Readers {
    ghost use Rattle.std.specs.Prelude.{List};
    ghost use Rattle.replay_run.specs.declared.store.reader.Reader.{Reader};

    ghost Value = { List Reader };

    ghost view = { λ readers. readers.open.items };
}

/// Where the reader stands once that of this number was put to a place.
fn place_after(reader: &Reader, number: ReaderId, place: u64) -> u64
    ensures { record reader.now { place = result } ≡ placed number place reader.now }
{
    if number == reader.number {
        place
    } else {
        reader.place
    }
}

fn place_in(open: &mut Vec<Reader>, number: ReaderId, place: u64)
    ensures { open.new.items ≡ map (placed number place) open.old.items }
{
    for reader in open.iter_mut() {
        reader.place = place_after(reader, number, place);
    }
}

fn close_in(open: &mut Vec<Reader>, number: ReaderId)
    ensures { open.new.items ≡ closed number open.old.items }
{
    open.retain(|reader| number != reader.number);
}

impl Readers {
    pub fn new(alloc: Global) -> Readers
        ensures { result ≡ [] }
    {
        Readers {
            open: Vec::new(alloc),
        }
    }

    pub fn len(&self) -> usize
        ensures { result ≡ length self.now }
    {
        self.open.len()
    }

    pub fn find(&self, number: ReaderId) -> Option<&Reader>
        ensures { option_copied result ≡ reader_at self.now number }
    {
        self.open.iter().find(|reader| number == reader.number)
    }

    /// Whether a reader reads the blob of this name.
    pub fn reads(&self, name: BlobName) -> bool
        ensures { result ≡ some_reads self.now name }
    {
        self.open.iter().any(|reader| name == reader.blob)
    }

    /// Puts a reader at the end.
    pub fn push(&mut self, reader: Reader) -> Result<(), NoMemory>
        ensures ok { OnOk result (self.new ≡ self.old ++ reader ∷ []) }
        ensures err { OnErr result (self.new ≡ self.old) }
    {
        self.open.push(reader)?;
        Ok(())
    }

    /// Puts the reader of this number to a place.
    pub fn place(&mut self, number: ReaderId, place: u64)
        ensures { self.new ≡ map (placed number place) self.old }
    {
        place_in(&mut self.open, number, place);
    }

    /// Lets the reader of this number go.
    pub fn close(&mut self, number: ReaderId)
        ensures { self.new ≡ closed number self.old }
    {
        close_in(&mut self.open, number);
    }

    /// Lets all readers go.
    pub fn clear(&mut self)
        ensures { self.new ≡ [] }
    {
        self.open.clear();
    }
}
