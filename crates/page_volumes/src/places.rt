ghost use Rattle.std.specs.Prelude.{◌≡◌, ◌+◌, ◌<◌, ◌≤◌, false, true, is_some, length, map, option_and_then, vec_len, None, IfOk, IfSome, IsSomeAnd};
ghost use Rattle.blob_words.specs.declared.bounds.TheConstants.{LONGEST_APPEND};
ghost use Rattle.page_volumes.specs.declared.bounds.TheConstants.{MOST_VOLUMES};
ghost use Rattle.page_volumes.specs.Seen.{Appends, Begins, Gets, HasBytes, HasFile, HasNone, Removes, Seals};

use crate::bounds::MOST_VOLUMES;
use crate::files::Files;
use crate::place::Place;
use crate::volume::Volume;
use blob_words::{Failed, NoMemory, PageNo};
use page_disk::PutFault;
use std::alloc::Global;

// The volumes in their order.
#[derive(Drop)]
pub struct Places<V> {
    pub items: Vec<Place<V>>,
    ghost few: { vec_len items ≤ MOST_VOLUMES },
}

impl<V: Volume> Places<V> {
    ghost use Rattle.page_volumes.specs.Group.{changed_at, is_one_of_several, is_retired_at, let_go, new_slots, object_at, retired, settled, slot_count, takes_writes, writer_of, writer_retired};
    ghost use Rattle.page_volumes.specs.Acts.{Acts, CanRemoveAt, SweepsAt};
    ghost use Rattle.page_volumes.specs.Plain.{of_places};
    ghost use Rattle.std.specs.Prelude.{sum_by};

    // The volumes in their order, none of them retired.
    pub fn new(alloc: Global, volumes: Vec<V>) -> Result<Places<V>, NoMemory>
        requires some { 0 < vec_len volumes }
        requires most { vec_len volumes ≤ MOST_VOLUMES }
        ensures { IfOk result
            (λ places. of_places V.seen places ≡ new_slots (map V.seen volumes.items)) }
    {
        let mut items = Vec::with_capacity(alloc, volumes.len())?;
        for volume in volumes {
            items.push(Place::new(volume))?;
        }
        Ok(Places { items })
    }

    // The place of the least volume that isn't retired.
    pub fn writer(&self) -> usize
        requires { takes_writes (of_places V.seen self.now) ≡ true }
        ensures value { result ≡ writer_of (of_places V.seen self.now) }
        ensures within { result < vec_len self.now.items }
        ensures free { is_retired_at (of_places V.seen self.now) result ≡ false }
    {
        for k in 0..self.items.len() {
            if !self.items[k].is_retired {
                return k;
            }
        }
        0
    }

    // Whether more than one volume isn't retired.
    pub fn is_one_of_several(&self) -> bool
        ensures { result ≡ is_one_of_several (of_places V.seen self.now) }
    {
        let mut writers = 0usize;
        for place in self.items.as_slice() {
            if !place.is_retired {
                writers += 1;
            }
        }
        1 < writers
    }

    pub fn begin(&mut self, k: usize, page: PageNo, len: u64) -> Result<(), PutFault>
        requires closed { IsSomeAnd (object_at (of_places V.seen self.old) k)
            (λ seen. (seen.write ≡ None) × HasNone page.0 seen) }
        requires some { 0 < len }
        ensures act { Acts k (of_places V.seen self.old) (of_places V.seen self.new)
            (λ old new. Begins page len old result new) }
    {
        self.items[k].begin(page, len)
    }

    pub fn append(&mut self, k: usize, bytes: &[u8]) -> Result<(), Failed>
        requires fits { IsSomeAnd (object_at (of_places V.seen self.old) k)
            (λ seen. IsSomeAnd seen.write (λ write. write.came + length bytes.now ≤ write.len)) }
        requires some { 0 < length bytes.now }
        requires most { length bytes.now ≤ LONGEST_APPEND }
        ensures act { Acts k (of_places V.seen self.old) (of_places V.seen self.new)
            (λ old new. Appends bytes.now old result new) }
    {
        self.items[k].append(bytes)
    }

    pub fn seal(&mut self, k: usize) -> Result<(), Failed>
        requires whole { IsSomeAnd (object_at (of_places V.seen self.old) k)
            (λ seen. IsSomeAnd seen.write (λ write. write.came ≡ write.len)) }
        ensures act { Acts k (of_places V.seen self.old) (of_places V.seen self.new)
            (λ old new. Seals old result new) }
    {
        self.items[k].seal()
    }

    pub fn get(&mut self, k: usize, page: PageNo, off: u64, out: &mut [u8]) -> Result<(), Failed>
        requires there { IsSomeAnd (object_at (of_places V.seen self.old) k)
            (λ seen. (seen.write ≡ None) × HasBytes page.0 off (length out.old) seen) }
        ensures act { Acts k (of_places V.seen self.old) (of_places V.seen self.new)
            (λ old new. Gets page.0 off old result out.new new) }
        ensures len { length out.new ≡ length out.old }
    {
        self.items[k].get(page, off, out)
    }

    pub fn remove(&mut self, k: usize, page: PageNo) -> Result<(), Failed>
        requires there { IsSomeAnd (object_at (of_places V.seen self.old) k)
            (λ seen. (seen.write ≡ None) × HasFile page.0 seen) }
        ensures act { Acts k (of_places V.seen self.old) (of_places V.seen self.new)
            (λ old new. Removes page.0 old result new) }
    {
        self.items[k].remove(page)
    }

    // The volume at a place takes no writes any more.
    pub fn retire(&mut self, k: usize)
        requires within { k < vec_len self.old.items }
        ensures { of_places V.seen self.new ≡ changed_at retired k (of_places V.seen self.old) }
    {
        self.items[k].retire();
    }

    // Drops the volume at a place, where it is retired and no file stands on it.
    pub fn settle(&mut self, k: usize, is_home: bool)
        requires within { k < vec_len self.old.items }
        ensures { of_places V.seen self.new
            ≡ changed_at (settled is_home) k (of_places V.seen self.old) }
    {
        self.items[k].settle(is_home);
    }

    // Drops the volume that had the file of a page, where it is due.
    pub fn let_go(&mut self, home: Option<Option<u32>>, files: &Files)
        requires { IfSome (option_and_then (λ home. home) home) (λ k. k < vec_len self.old.items) }
        ensures { of_places V.seen self.new
            ≡ let_go files.now.filed (option_and_then (λ home. home) home)
            (of_places V.seen self.old) }
    {
        if let Some(Some(k)) = home {
            self.settle(k as usize, files.is_home(k));
        }
    }

    // Asks the volume at a place to remove a torn file, and answers where the file is then.
    pub fn sweep(&mut self, k: usize, page: PageNo) -> Option<u32>
        requires within { k < vec_len self.old.items }
        requires there { CanRemoveAt page.0 (of_places V.seen self.old) k }
        ensures { SweepsAt page.0 k (of_places V.seen self.old) (of_places V.seen self.new) result }
    {
        match self.remove(k, page) {
            Ok(()) => None,
            Err(Failed) => Some(k as u32),
        }
    }

    // The writer takes no writes any more where another volume does, and is dropped where it is
    // due.
    pub fn retire_writer(&mut self, files: &Files)
        requires { takes_writes (of_places V.seen self.old) ≡ true }
        ensures { of_places V.seen self.new
            ≡ writer_retired files.now.filed (of_places V.seen self.old) }
    {
        let k = self.writer();
        if self.is_one_of_several() {
            self.retire(k);
            self.settle(k, files.is_home(k as u32));
        }
    }

    // The count of all places.
    pub fn faults(&self) -> u128
        ensures { result ≡ sum_by slot_count (of_places V.seen self.now) }
    {
        let mut count = 0u128;
        for place in self.items.as_slice() {
            count += u128::from(place.faults());
        }
        count
    }

    // Whether a volume is held at a place.
    pub fn held(&self, k: u32) -> bool
        ensures { result ≡ is_some (object_at (of_places V.seen self.now) k) }
    {
        match self.items.get(k as usize) {
            Some(place) => place.volume.is_some(),
            None => false,
        }
    }

    // Whether the volume of a place is retired.
    pub fn retired(&self, k: u32) -> bool
        ensures { result ≡ is_retired_at (of_places V.seen self.now) k }
    {
        match self.items.get(k as usize) {
            Some(place) => place.is_retired,
            None => false,
        }
    }
}
