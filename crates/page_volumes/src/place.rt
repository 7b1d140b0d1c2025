ghost use Rattle.std.specs.Prelude.{◌≡◌, ◌+◌, ◌<◌, ◌≤◌, false, length, Some, None, IsSomeAnd};
ghost use Rattle.blob_words.specs.declared.bounds.TheConstants.{LONGEST_APPEND};
ghost use Rattle.page_volumes.specs.Seen.{Appends, Begins, Gets, HasBytes, HasFile, HasNone, Removes, Seals};

use crate::volume::Volume;
use blob_words::{Failed, PageNo};
use page_disk::PutFault;

// A place in the list of volumes.
#[derive(Drop)]
pub struct Place<V> {
    pub volume: Option<V>,
    // The count of the volume that was dropped.
    pub past: u64,
    pub is_retired: bool,
}

impl<V: Volume> Place<V> {
    ghost use Rattle.page_volumes.specs.Group.{retired, settled, slot_count};
    ghost use Rattle.page_volumes.specs.Acts.{ActsAt};
    ghost use Rattle.page_volumes.specs.Plain.{slot_of};

    // A volume that takes writes.
    pub fn new(volume: V) -> Place<V>
        ensures { slot_of V.seen result
            ≡ record { object = Some (V.seen volume); past = 0; is_retired = false } }
    {
        Place {
            volume: Some(volume),
            past: 0,
            is_retired: false,
        }
    }

    pub fn begin(&mut self, page: PageNo, len: u64) -> Result<(), PutFault>
        requires closed { IsSomeAnd (slot_of V.seen self.old).object
            (λ seen. (seen.write ≡ None) × HasNone page.0 seen) }
        requires some { 0 < len }
        ensures act { ActsAt (slot_of V.seen self.old) (slot_of V.seen self.new)
            (λ old new. Begins page len old result new) }
    {
        match &mut self.volume {
            Some(volume) => volume.begin(page, len),
            None => Ok(()),
        }
    }

    pub fn append(&mut self, bytes: &[u8]) -> Result<(), Failed>
        requires fits { IsSomeAnd (slot_of V.seen self.old).object
            (λ seen. IsSomeAnd seen.write (λ write. write.came + length bytes.now ≤ write.len)) }
        requires some { 0 < length bytes.now }
        requires most { length bytes.now ≤ LONGEST_APPEND }
        ensures act { ActsAt (slot_of V.seen self.old) (slot_of V.seen self.new)
            (λ old new. Appends bytes.now old result new) }
    {
        match &mut self.volume {
            Some(volume) => volume.append(bytes),
            None => Ok(()),
        }
    }

    pub fn seal(&mut self) -> Result<(), Failed>
        requires whole { IsSomeAnd (slot_of V.seen self.old).object
            (λ seen. IsSomeAnd seen.write (λ write. write.came ≡ write.len)) }
        ensures act { ActsAt (slot_of V.seen self.old) (slot_of V.seen self.new)
            (λ old new. Seals old result new) }
    {
        match &mut self.volume {
            Some(volume) => volume.seal(),
            None => Ok(()),
        }
    }

    pub fn get(&mut self, page: PageNo, off: u64, out: &mut [u8]) -> Result<(), Failed>
        requires there { IsSomeAnd (slot_of V.seen self.old).object
            (λ seen. (seen.write ≡ None) × HasBytes page.0 off (length out.old) seen) }
        ensures act { ActsAt (slot_of V.seen self.old) (slot_of V.seen self.new)
            (λ old new. Gets page.0 off old result out.new new) }
        ensures len { length out.new ≡ length out.old }
    {
        match &mut self.volume {
            Some(volume) => volume.get(page, off, out),
            None => Ok(()),
        }
    }

    pub fn remove(&mut self, page: PageNo) -> Result<(), Failed>
        requires there { IsSomeAnd (slot_of V.seen self.old).object
            (λ seen. (seen.write ≡ None) × HasFile page.0 seen) }
        ensures act { ActsAt (slot_of V.seen self.old) (slot_of V.seen self.new)
            (λ old new. Removes page.0 old result new) }
    {
        match &mut self.volume {
            Some(volume) => volume.remove(page),
            None => Ok(()),
        }
    }

    // The volume takes no writes any more.
    pub fn retire(&mut self)
        ensures { slot_of V.seen self.new ≡ retired (slot_of V.seen self.old) }
    {
        self.is_retired = true;
    }

    // Drops a retired volume on which no file stands.
    pub fn settle(&mut self, is_home: bool)
        ensures { slot_of V.seen self.new ≡ settled is_home (slot_of V.seen self.old) }
    {
        if self.is_retired && !is_home {
            self.past = self.faults();
            self.volume = None;
        }
    }

    pub fn faults(&self) -> u64
        ensures { result ≡ slot_count (slot_of V.seen self.now) }
    {
        match &self.volume {
            Some(volume) => volume.faults(),
            None => self.past,
        }
    }
}
