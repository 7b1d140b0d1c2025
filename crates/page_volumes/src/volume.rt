ghost use Rattle.std.specs.Prelude.{◌≡◌, ◌+◌, ◌<◌, ◌≤◌, None, length, IsSomeAnd};
ghost use Rattle.blob_words.specs.declared.bounds.TheConstants.{LONGEST_APPEND};
ghost use Rattle.page_volumes.specs.Seen.{Appends, Begins, Gets, HasBytes, HasFile, HasNone, Removes, Seals, Seen};

use blob_words::{Failed, PageNo};
use page_disk::PutFault;

/// Where some page files are kept, as one of several such places. A page is written by `begin`,
/// some `append`s and a `seal`; one write is open at a time. Each `Failed` raises the count of
/// faults, and nothing else does.
pub trait Volume: Drop {
    // Its open write, its files, where it tells them, and its count of faults.
    ghost seen: { Self → Seen };

    /// How many calls failed, as far as a `u64` counts.
    fn faults(&self) -> u64
        ensures { result ≡ (seen self.now).faults };

    /// Begins the write of `len` bytes to a page of which no file stands. After a fault no write is
    /// open, and a torn file of the page stands.
    fn begin(&mut self, page: PageNo, len: u64) -> Result<(), PutFault>
        requires closed { (seen self.old).write ≡ None }
        requires some { 0 < len }
        requires no_file { HasNone page.0 (seen self.old) }
        ensures act { Begins page len (seen self.old) result (seen self.new) }
        ensures later { (seen self.old).faults ≤ (seen self.new).faults };

    /// Writes the next 1 to 65,536 bytes of the open write. After `Failed` it is closed, and the
    /// file is torn.
    fn append(&mut self, bytes: &[u8]) -> Result<(), Failed>
        requires fits { IsSomeAnd (seen self.old).write
            (λ write. write.came + length bytes.now ≤ write.len) }
        requires some { 0 < length bytes.now }
        requires most { length bytes.now ≤ LONGEST_APPEND }
        ensures act { Appends bytes.now (seen self.old) result (seen self.new) }
        ensures later { (seen self.old).faults ≤ (seen self.new).faults };

    /// Ends the open write, all of whose bytes came. After `Failed` the file is torn.
    fn seal(&mut self) -> Result<(), Failed>
        requires whole { IsSomeAnd (seen self.old).write (λ write. write.came ≡ write.len) }
        ensures act { Seals (seen self.old) result (seen self.new) }
        ensures later { (seen self.old).faults ≤ (seen self.new).faults };

    /// Fills `out` with the bytes of a page's file from `off` on.
    fn get(&mut self, page: PageNo, off: u64, out: &mut [u8]) -> Result<(), Failed>
        requires closed { (seen self.old).write ≡ None }
        requires there { HasBytes page.0 off (length out.old) (seen self.old) }
        ensures act { Gets page.0 off (seen self.old) result out.new (seen self.new) }
        ensures len { length out.new ≡ length out.old }
        ensures later { (seen self.old).faults ≤ (seen self.new).faults };

    /// Removes the file of a page, whole or torn. After `Failed` it stands where it was.
    fn remove(&mut self, page: PageNo) -> Result<(), Failed>
        requires closed { (seen self.old).write ≡ None }
        requires there { HasFile page.0 (seen self.old) }
        ensures act { Removes page.0 (seen self.old) result (seen self.new) }
        ensures later { (seen self.old).faults ≤ (seen self.new).faults };
}
