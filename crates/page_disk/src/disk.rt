ghost use Rattle.std.specs.Prelude.{◌≡◌, ◌+◌, ◌-◌, ◌^◌, ◌<◌, ◌≤◌, ◌++◌, [], Some, None, drop, length, min, take, IfSome, IsErrOf, IsSomeAnd, MatchResult, OnErr, OnOk};
ghost use Rattle.blob_words.specs.declared.bounds.TheConstants.{LONGEST_APPEND};
ghost use Rattle.blob_source.specs.Faults.{Rose};
ghost use Rattle.page_disk.specs.declared.change.Change.TheVariants.{Torn, Remove, Left};
ghost use Rattle.page_disk.specs.Changes.{with_change, with_more, with_put, with_torn, last_put, HasRange, IsNew, Stands};

use crate::fault::PutFault;
use blob_words::{Failed, PageNo};

/// Where page files are kept. A page is written by `begin`, some `append`s and a `seal`; one write
/// is open at a time. Each `Failed` raises the count of faults, and nothing else does.
pub trait PageDisk {
    ghost use Rattle.std.specs.Prelude.{ℕ, List, Option};
    ghost use Rattle.page_disk.specs.declared.change.Change.{Change};
    ghost use Rattle.page_disk.specs.Changes.{OpenWrite};

    // What was done, where the disk tells it, the last thing last.
    ghost changes: { Self → Option (List Change) };

    // The write that is open.
    ghost writing: { Self → Option OpenWrite };

    // The bytes that came to it; something is said of them only where the changes are told.
    ghost came: { Self → List ℕ };

    // How many calls failed, as far as a `u64` counts.
    ghost faults: { Self → ℕ };

    // How many bytes were read, as far as a `u64` counts.
    ghost meter: { Self → ℕ };

    /// Begins the write of `len` bytes to a page that was never written. After a fault no write is
    /// open.
    fn begin(&mut self, page: PageNo, len: u64) -> Result<(), PutFault>
        requires closed { writing self.old ≡ None }
        requires some { 0 < len }
        requires new_page { IfSome (changes self.old) (IsNew page.0) }
        ensures ok { OnOk result
            ((writing self.new ≡ Some (record { page = page; len = len; came = 0 }))
            × (changes self.new ≡ changes self.old)
            × IfSome (changes self.new) (λ _. came self.new ≡ [])) }
        ensures failed { IsErrOf result PutFault.Failed → (writing self.new ≡ None)
            × (changes self.new ≡ with_change (Torn page) (changes self.old))
            × Rose (faults self.old) (faults self.new) }
        ensures memory { IsErrOf result PutFault.NoMemory → (writing self.new ≡ None)
            × (changes self.new ≡ changes self.old) × (faults self.new ≡ faults self.old) }
        ensures good { OnOk result (faults self.new ≡ faults self.old) }
        ensures later { faults self.old ≤ faults self.new }
        ensures meter { meter self.new ≡ meter self.old };

    /// Writes the next bytes of the open write, 1 to `LONGEST_APPEND`. After `Failed` it is closed,
    /// and the page is torn.
    fn append(&mut self, bytes: &[u8]) -> Result<(), Failed>
        requires fits { IsSomeAnd (writing self.old)
            (λ write. write.came + length bytes.now ≤ write.len) }
        requires some { 0 < length bytes.now }
        requires most { length bytes.now ≤ LONGEST_APPEND }
        ensures ok { OnOk result
            ((writing self.new ≡ with_more (length bytes.now) (writing self.old))
            × (changes self.new ≡ changes self.old)
            × IfSome (changes self.new) (λ _. came self.new ≡ came self.old ++ bytes.now)) }
        ensures failed { OnErr result ((writing self.new ≡ None)
            × (changes self.new ≡ with_torn (writing self.old) (changes self.old))
            × Rose (faults self.old) (faults self.new)) }
        ensures good { OnOk result (faults self.new ≡ faults self.old) }
        ensures later { faults self.old ≤ faults self.new }
        ensures meter { meter self.new ≡ meter self.old };

    /// Ends the open write, all of whose bytes came. After `Failed` the page is torn.
    fn seal(&mut self) -> Result<(), Failed>
        requires whole { IsSomeAnd (writing self.old) (λ write. write.came ≡ write.len) }
        ensures closed { writing self.new ≡ None }
        ensures ok { OnOk result
            (changes self.new ≡ with_put (writing self.old) (came self.old) (changes self.old)) }
        ensures failed { OnErr result
            ((changes self.new ≡ with_torn (writing self.old) (changes self.old))
            × Rose (faults self.old) (faults self.new)) }
        ensures good { OnOk result (faults self.new ≡ faults self.old) }
        ensures later { faults self.old ≤ faults self.new }
        ensures meter { meter self.new ≡ meter self.old };

    /// Fills `out` with the bytes of a page from `off` on.
    fn get(&mut self, page: PageNo, off: u64, out: &mut [u8]) -> Result<(), Failed>
        requires closed { writing self.old ≡ None }
        requires there { IfSome (changes self.old) (HasRange page.0 off (length out.old)) }
        ensures closed { writing self.new ≡ None }
        ensures same { changes self.new ≡ changes self.old }
        ensures bytes { OnOk result (IfSome (changes self.old)
            (λ changes. IsSomeAnd (last_put page.0 changes)
            (λ bytes. out.new ≡ take (length out.old) (drop off bytes)))) }
        ensures failed { OnErr result (Rose (faults self.old) (faults self.new)) }
        ensures good { OnOk result (faults self.new ≡ faults self.old) }
        ensures later { faults self.old ≤ faults self.new }
        ensures meter { MatchResult result
            (λ _. meter self.new ≡ min (meter self.old + length out.old) (2 ^ 64 - 1))
            (λ _. meter self.new ≡ meter self.old) };

    /// Removes a page that was written, whole or in part, and was not asked for before. After
    /// `Failed` it is left where it is.
    fn remove(&mut self, page: PageNo) -> Result<(), Failed>
        requires closed { writing self.old ≡ None }
        requires there { IfSome (changes self.old) (Stands page.0) }
        ensures closed { writing self.new ≡ None }
        ensures ok { OnOk result (changes self.new ≡ with_change (Remove page) (changes self.old)) }
        ensures failed { OnErr result
            ((changes self.new ≡ with_change (Left page) (changes self.old))
            × Rose (faults self.old) (faults self.new)) }
        ensures good { OnOk result (faults self.new ≡ faults self.old) }
        ensures later { faults self.old ≤ faults self.new }
        ensures meter { meter self.new ≡ meter self.old };
}
