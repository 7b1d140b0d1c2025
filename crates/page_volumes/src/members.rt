ghost use Rattle.std.specs.Prelude.{◌≡◌, ◌+◌, ◌<◌, ◌≤◌, true, length, Some, None, Ok, IfSome, IsSomeAnd, OnOk};
ghost use Rattle.std.specs.Option.{option_map};
ghost use Rattle.blob_words.specs.declared.bounds.TheConstants.{LONGEST_APPEND};
ghost use Rattle.page_volumes.specs.Seen.{HasBytes, HasNone};
ghost use Rattle.page_volumes.specs.Plain.{log_of, open_of};
ghost use Rattle.page_volumes.specs.Kept.{CanFile, CanRemove, HasRoom};

use crate::files::Files;
use crate::log::{self, Log};
use crate::places::Places;
use crate::volume::Volume;
use crate::writing::Writing;
use blob_words::{Failed, NoMemory, PageNo};
use page_disk::{Change, PutFault};

// The volumes, where the file of each page is, the open write, what was done, where that is told,
// and how many bytes were read.
#[derive(Drop)]
pub struct Members<V> {
    pub places: Places<V>,
    pub files: Files,
    pub write: Option<Writing>,
    pub log: Option<Log>,
    pub meter: u64,
}

// Takes the memory for a write of `len` bytes and for what follows it.
fn prepare(files: &mut Files, log: &mut Option<Log>, len: u64) -> Result<(), NoMemory>
    requires { CanRemove files.old log.old }
    ensures files { files.new.filed ≡ files.old.filed }
    ensures log { option_map log_of log.new ≡ option_map log_of log.old }
    ensures room { CanRemove files.new log.new }
    ensures ok { OnOk result (CanFile len files.new log.new) }
{
    files.prepare()?;
    if let Some(log) = log {
        return log.prepare(files.changes_ahead(), len);
    }
    Ok(())
}

impl<V: Volume> Members<V> {
    ghost use Rattle.page_volumes.specs.Acts.{CanRemoveAt, CanRemoveFrom};
    ghost use Rattle.page_volumes.specs.Group.{asked_at, forgotten, home_of, object_at, place_of, settled_at, takes_writes, unfiled, writer_of, Appends, Begins, Gets, Removes, RemovesFrom, Seals, Sweeps};
    ghost use Rattle.page_volumes.specs.Plain.{of_members, of_places};

    // Nothing is known any more of the file of a page.
    fn forget(&mut self, page: PageNo)
        requires { IfSome (place_of page.0 self.old.files.filed)
            (λ k. k < length (of_places V.seen self.old.places)) }
        ensures act { of_members V.seen self.new ≡ forgotten page.0 (of_members V.seen self.old) }
        ensures spare { self.new.files.spare ≡ self.old.files.spare }
        ensures fewer { length self.new.files.filed ≤ length self.old.files.filed }
        ensures write { self.new.write ≡ self.old.write }
        ensures log { self.new.log ≡ self.old.log }
    {
        let home = self.files.home(page);
        self.files.remove(page);
        self.places.let_go(home, &self.files);
    }

    // The write of a page failed: its torn file is to be removed, and its volume to be retired.
    fn tear(&mut self, page: PageNo)
        requires writes { takes_writes (of_places V.seen self.old.places) ≡ true }
        requires there { CanRemoveAt page.0
            (of_places V.seen self.old.places) (writer_of (of_places V.seen self.old.places)) }
        requires room { CanFile 0 self.old.files self.old.log }
        ensures act { Sweeps page (of_members V.seen self.old) (of_members V.seen self.new) }
        ensures write { self.new.write ≡ self.old.write }
        ensures room { CanRemove self.new.files self.new.log }
    {
        let k = self.places.writer();
        let home = self.places.sweep(k, page);
        self.files.push(page, home);
        log::push(&mut self.log, Change::Torn(page));
        self.places.retire_writer(&self.files);
    }

    // Begins a write on the least volume that isn't retired.
    pub fn begin(&mut self, page: PageNo, len: u64) -> Result<(), PutFault>
        requires writes { takes_writes (of_places V.seen self.old.places) ≡ true }
        requires ready { IsSomeAnd (object_at
            (of_places V.seen self.old.places) (writer_of (of_places V.seen self.old.places)))
            (λ seen. (seen.write ≡ None) × HasNone page.0 seen) }
        requires some { 0 < len }
        requires homes { IfSome (place_of page.0 self.old.files.filed)
            (λ k. k < length (of_places V.seen self.old.places)) }
        requires closed { self.old.write ≡ None }
        requires room { CanRemove self.old.files self.old.log }
        ensures act { Begins page len (of_members V.seen self.old) result
            (of_members V.seen self.new) }
        ensures room { HasRoom self.new.files self.new.write self.new.log }
    {
        if prepare(&mut self.files, &mut self.log, len).is_err() {
            return Err(PutFault::NoMemory);
        }
        let k = self.places.writer();
        match self.places.begin(k, page, len) {
            Ok(()) => {
                self.forget(page);
                log::start(&mut self.log);
                self.write = Some(Writing { page, len, came: 0 });
                Ok(())
            }
            Err(PutFault::NoMemory) => Err(PutFault::NoMemory),
            Err(PutFault::Failed) => {
                self.forget(page);
                self.tear(page);
                Err(PutFault::Failed)
            }
        }
    }

    // Writes the next bytes of the open write.
    pub fn append(&mut self, bytes: &[u8]) -> Result<(), Failed>
        requires writes { takes_writes (of_places V.seen self.old.places) ≡ true }
        requires ready { IsSomeAnd (object_at
            (of_places V.seen self.old.places) (writer_of (of_places V.seen self.old.places)))
            (λ seen. seen.write ≡ option_map open_of self.old.write) }
        requires fits { IsSomeAnd self.old.write
            (λ write. write.came + length bytes.now ≤ write.len) }
        requires some { 0 < length bytes.now }
        requires most { length bytes.now ≤ LONGEST_APPEND }
        requires room { HasRoom self.old.files self.old.write self.old.log }
        ensures act { Appends bytes.now (of_members V.seen self.old) result
            (of_members V.seen self.new) }
        ensures room { HasRoom self.new.files self.new.write self.new.log }
    {
        let write = self.write.unwrap();
        let k = self.places.writer();
        match self.places.append(k, bytes) {
            Ok(()) => {
                log::take_in(&mut self.log, bytes);
                self.write = Some(Writing {
                    came: write.came + bytes.len() as u64,
                    ..write
                });
                Ok(())
            }
            Err(Failed) => {
                self.write = None;
                self.tear(write.page);
                Err(Failed)
            }
        }
    }

    // Ends the open write.
    pub fn seal(&mut self) -> Result<(), Failed>
        requires writes { takes_writes (of_places V.seen self.old.places) ≡ true }
        requires ready { IsSomeAnd (object_at
            (of_places V.seen self.old.places) (writer_of (of_places V.seen self.old.places)))
            (λ seen. seen.write ≡ option_map open_of self.old.write) }
        requires whole { IsSomeAnd self.old.write (λ write. write.came ≡ write.len) }
        requires room { HasRoom self.old.files self.old.write self.old.log }
        ensures act { Seals (of_members V.seen self.old) result (of_members V.seen self.new) }
        ensures room { HasRoom self.new.files self.new.write self.new.log }
    {
        let write = self.write.unwrap();
        let k = self.places.writer();
        self.write = None;
        match self.places.seal(k) {
            Ok(()) => {
                log::put(&mut self.log, write.page);
                self.files.push(write.page, Some(k as u32));
                Ok(())
            }
            Err(Failed) => {
                self.tear(write.page);
                Err(Failed)
            }
        }
    }

    // The place that is asked for the bytes of a page.
    fn asked(&self, page: PageNo) -> usize
        requires { takes_writes (of_places V.seen self.now.places) ≡ true }
        ensures { result ≡ asked_at page.0 (of_members V.seen self.now) }
    {
        match self.files.home(page) {
            Some(Some(k)) => k as usize,
            _ => self.places.writer(),
        }
    }

    // Fills `out` with the bytes of a page from `off` on.
    pub fn get(&mut self, page: PageNo, off: u64, out: &mut [u8]) -> Result<(), Failed>
        requires writes { takes_writes (of_places V.seen self.old.places) ≡ true }
        requires there { IsSomeAnd (object_at
            (of_places V.seen self.old.places) (asked_at page.0 (of_members V.seen self.old)))
            (λ seen. (seen.write ≡ None) × HasBytes page.0 off (length out.old) seen) }
        ensures act { Gets page.0 off (of_members V.seen self.old) result out.new
            (of_members V.seen self.new) }
        ensures len { length out.new ≡ length out.old }
        ensures files { self.new.files ≡ self.old.files }
        ensures write { self.new.write ≡ self.old.write }
        ensures log { self.new.log ≡ self.old.log }
    {
        let k = self.asked(page);
        match self.places.get(k, page, off, out) {
            Ok(()) => {
                self.meter = self.meter.saturating_add(out.len() as u64);
                Ok(())
            }
            Err(Failed) => Err(Failed),
        }
    }

    // The file of a page stands no longer at a place.
    fn let_off(&mut self, k: u32, page: PageNo)
        requires { k < length (of_places V.seen self.old.places) }
        ensures slots { of_places V.seen self.new.places
            ≡ settled_at (unfiled page.0 self.old.files.filed) k
            (of_places V.seen self.old.places) }
        ensures files { self.new.files.filed ≡ unfiled page.0 self.old.files.filed }
        ensures write { self.new.write ≡ self.old.write }
        ensures log { self.new.log ≡ self.old.log }
        ensures meter { self.new.meter ≡ self.old.meter }
    {
        self.files.remove(page);
        self.places.settle(k as usize, self.files.is_home(k));
    }

    // Removes a file that stands at a place.
    fn remove_at(&mut self, k: u32, page: PageNo) -> Result<(), Failed>
        requires there { CanRemoveAt page.0 (of_places V.seen self.old.places) k }
        requires filed { home_of page.0 self.old.files.filed ≡ Some (Some k) }
        requires room { CanRemove self.old.files self.old.log }
        ensures act { RemovesFrom page (of_members V.seen self.old) (Some (Some k)) result
            (of_members V.seen self.new) }
        ensures write { self.new.write ≡ self.old.write }
        ensures room { CanRemove self.new.files self.new.log }
    {
        match self.places.remove(k as usize, page) {
            Ok(()) => {
                self.let_off(k, page);
                log::push(&mut self.log, Change::Remove(page));
                Ok(())
            }
            Err(Failed) => {
                self.let_off(k, page);
                log::push(&mut self.log, Change::Left(page));
                Err(Failed)
            }
        }
    }

    // A torn file that is gone already is removed.
    fn strike(&mut self, page: PageNo)
        requires filed { home_of page.0 self.old.files.filed ≡ Some None }
        requires room { CanRemove self.old.files self.old.log }
        ensures act { RemovesFrom page (of_members V.seen self.old) (Some None) (Ok tt)
            (of_members V.seen self.new) }
        ensures write { self.new.write ≡ self.old.write }
        ensures room { CanRemove self.new.files self.new.log }
    {
        self.files.remove(page);
        log::push(&mut self.log, Change::Remove(page));
    }

    // Removes the file of a page.
    pub fn remove(&mut self, page: PageNo) -> Result<(), Failed>
        requires writes { takes_writes (of_places V.seen self.old.places) ≡ true }
        requires there { CanRemoveFrom page.0
            (of_places V.seen self.old.places) (home_of page.0 self.old.files.filed) }
        requires room { CanRemove self.old.files self.old.log }
        ensures act { Removes page (of_members V.seen self.old) result
            (of_members V.seen self.new) }
        ensures write { self.new.write ≡ self.old.write }
        ensures room { CanRemove self.new.files self.new.log }
    {
        match self.files.home(page) {
            Some(Some(k)) => self.remove_at(k, page),
            Some(None) => {
                self.strike(page);
                Ok(())
            }
            None => {
                let k = self.places.writer();
                self.places.remove(k, page)
            }
        }
    }
}
