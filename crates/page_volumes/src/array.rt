ghost use Rattle.std.specs.Prelude.{◌≡◌, ◌+◌, ◌-◌, ◌^◌, ◌<◌, ◌≤◌, ◌++◌, [], true, Some, None, drop, if◌then◌else◌, is_some, length, map, min, take, vec_len, IfOk, IfSome, IsErrOf, IsSomeAnd, MatchResult, OnErr, OnOk};
ghost use Rattle.std.specs.List.{list_all};
ghost use Rattle.blob_source.specs.Faults.{Rose};
ghost use Rattle.page_disk.specs.declared.change.Change.TheVariants.{Torn, Remove, Left};
ghost use Rattle.page_disk.specs.Changes.{with_change, with_more, with_put, with_torn, last_put, HasRange, IsNew, Stands};
ghost use Rattle.page_volumes.specs.declared.bounds.TheConstants.{MOST_VOLUMES};
ghost use Rattle.page_volumes.specs.Group.{count_of, is_retired_at, new_group, object_at, place_of, Appends, Begins, Gets, IsHeldRight, Removes, Seals};
ghost use Rattle.page_volumes.specs.Kept.{new_log, HasRoom};
ghost use Rattle.page_volumes.specs.Invariants.{Keeps};
ghost use Rattle.page_volumes.specs.Plain.{plain};
ghost use Rattle.std.proofs.Props.{props};
ghost use Rattle.blob_words.specs.declared.bounds.TheConstants.{LONGEST_APPEND};
ghost use Rattle.page_volumes.specs.Seen.{is_fresh};
ghost use Rattle.page_volumes.specs.Sound.{came_of, changes_of, faults_of, writing_of};

use crate::bounds::MOST_VOLUMES;
use crate::files::Files;
use crate::log::Log;
use crate::members::Members;
use crate::places::Places;
use crate::volume::Volume;
use blob_words::{Failed, NoMemory, PageNo};
use page_disk::{Change, PutFault};
use std::alloc::Global;

// The volumes with what is noted of them, which agrees.
#[derive(Drop)]
pub struct Array<V> {
    pub members: Members<V>,
    ghost keeps: { Keeps (plain members) } by { Prim.hlevel props },
    ghost room: { HasRoom members.files members.write members.log } by { Prim.hlevel props },
}

// What was done, where it is to be told.
fn log_for(alloc: Global, is_recording: bool) -> Option<Log>
    ensures { result ≡ (if is_recording then Some new_log else None) }
{
    if is_recording {
        return Some(Log::new(alloc));
    }
    None
}

impl<V: Volume> Array<V> {
    ghost use Rattle.page_volumes.specs.Arrays.{of_array};

    // An array of these volumes, on which no file stands.
    pub fn new(alloc: Global, volumes: Vec<V>, is_recording: bool) -> Result<Array<V>, NoMemory>
        requires some { 0 < vec_len volumes }
        requires most { vec_len volumes ≤ MOST_VOLUMES }
        requires fresh { list_all (is_fresh is_recording) (map V.seen volumes.items) ≡ true }
        ensures group { IfOk result (λ array. of_array V.seen array
            ≡ new_group (map V.seen volumes.items) (if is_recording then Some [] else None)) }
        ensures closed { IfOk result (λ array. writing_of (of_array V.seen array) ≡ None) }
    {
        let places = Places::new(alloc, volumes)?;
        let log = log_for(alloc, is_recording);
        let members = Members {
            places,
            files: Files::new(alloc),
            write: None,
            log,
            meter: 0,
        };
        Ok(Array { members })
    }

    // Begins the write of a page on the least volume that isn't retired.
    pub fn begin(&mut self, page: PageNo, len: u64) -> Result<(), PutFault>
        requires closed { writing_of (of_array V.seen self.old) ≡ None }
        requires some { 0 < len }
        requires new_page { IfSome (changes_of (of_array V.seen self.old)) (IsNew page.0) }
        ensures act { Begins page len (of_array V.seen self.old) result (of_array V.seen self.new) }
        ensures ok { OnOk result ((writing_of (of_array V.seen self.new)
            ≡ Some (record { page = page; len = len; came = 0 }))
            × (changes_of (of_array V.seen self.new) ≡ changes_of (of_array V.seen self.old))
            × IfSome (changes_of (of_array V.seen self.new))
            (λ _. came_of (of_array V.seen self.new) ≡ [])) }
        ensures failed { IsErrOf result PutFault.Failed
            → (writing_of (of_array V.seen self.new) ≡ None)
            × (changes_of (of_array V.seen self.new)
            ≡ with_change (Torn page) (changes_of (of_array V.seen self.old)))
            × Rose (faults_of (of_array V.seen self.old)) (faults_of (of_array V.seen self.new)) }
        ensures memory { IsErrOf result PutFault.NoMemory
            → (writing_of (of_array V.seen self.new) ≡ None)
            × (changes_of (of_array V.seen self.new) ≡ changes_of (of_array V.seen self.old))
            × (faults_of (of_array V.seen self.new) ≡ faults_of (of_array V.seen self.old)) }
        ensures good { OnOk result
            (faults_of (of_array V.seen self.new) ≡ faults_of (of_array V.seen self.old)) }
        ensures later { faults_of (of_array V.seen self.old)
            ≤ faults_of (of_array V.seen self.new) }
        ensures meter { (of_array V.seen self.new).meter ≡ (of_array V.seen self.old).meter }
    {
        self.members.begin(page, len)
    }

    // Writes the next bytes of the open write.
    pub fn append(&mut self, bytes: &[u8]) -> Result<(), Failed>
        requires fits { IsSomeAnd (writing_of (of_array V.seen self.old))
            (λ write. write.came + length bytes.now ≤ write.len) }
        requires some { 0 < length bytes.now }
        requires most { length bytes.now ≤ LONGEST_APPEND }
        ensures act { Appends bytes.now (of_array V.seen self.old) result
            (of_array V.seen self.new) }
        ensures ok { OnOk result ((writing_of (of_array V.seen self.new)
            ≡ with_more (length bytes.now) (writing_of (of_array V.seen self.old)))
            × (changes_of (of_array V.seen self.new) ≡ changes_of (of_array V.seen self.old))
            × IfSome (changes_of (of_array V.seen self.new))
            (λ _. came_of (of_array V.seen self.new)
            ≡ came_of (of_array V.seen self.old) ++ bytes.now)) }
        ensures failed { OnErr result ((writing_of (of_array V.seen self.new) ≡ None)
            × (changes_of (of_array V.seen self.new)
            ≡ with_torn (writing_of (of_array V.seen self.old))
            (changes_of (of_array V.seen self.old)))
            × Rose (faults_of (of_array V.seen self.old)) (faults_of (of_array V.seen self.new))) }
        ensures good { OnOk result
            (faults_of (of_array V.seen self.new) ≡ faults_of (of_array V.seen self.old)) }
        ensures later { faults_of (of_array V.seen self.old)
            ≤ faults_of (of_array V.seen self.new) }
        ensures meter { (of_array V.seen self.new).meter ≡ (of_array V.seen self.old).meter }
    {
        self.members.append(bytes)
    }

    // Ends the open write.
    pub fn seal(&mut self) -> Result<(), Failed>
        requires whole { IsSomeAnd (writing_of (of_array V.seen self.old))
            (λ write. write.came ≡ write.len) }
        ensures act { Seals (of_array V.seen self.old) result (of_array V.seen self.new) }
        ensures closed { writing_of (of_array V.seen self.new) ≡ None }
        ensures ok { OnOk result
            (changes_of (of_array V.seen self.new)
            ≡ with_put (writing_of (of_array V.seen self.old))
            (came_of (of_array V.seen self.old)) (changes_of (of_array V.seen self.old))) }
        ensures failed { OnErr result ((changes_of (of_array V.seen self.new)
            ≡ with_torn (writing_of (of_array V.seen self.old))
            (changes_of (of_array V.seen self.old)))
            × Rose (faults_of (of_array V.seen self.old)) (faults_of (of_array V.seen self.new))) }
        ensures good { OnOk result
            (faults_of (of_array V.seen self.new) ≡ faults_of (of_array V.seen self.old)) }
        ensures later { faults_of (of_array V.seen self.old)
            ≤ faults_of (of_array V.seen self.new) }
        ensures meter { (of_array V.seen self.new).meter ≡ (of_array V.seen self.old).meter }
    {
        self.members.seal()
    }

    // Fills `out` with the bytes of a page from `off` on.
    pub fn get(&mut self, page: PageNo, off: u64, out: &mut [u8]) -> Result<(), Failed>
        requires closed { writing_of (of_array V.seen self.old) ≡ None }
        requires there { IfSome (changes_of (of_array V.seen self.old))
            (HasRange page.0 off (length out.old)) }
        ensures act { Gets page.0 off (of_array V.seen self.old) result out.new
            (of_array V.seen self.new) }
        ensures closed { writing_of (of_array V.seen self.new) ≡ None }
        ensures same { changes_of (of_array V.seen self.new)
            ≡ changes_of (of_array V.seen self.old) }
        ensures bytes { OnOk result (IfSome (changes_of (of_array V.seen self.old))
            (λ changes. IsSomeAnd (last_put page.0 changes)
            (λ bytes. out.new ≡ take (length out.old) (drop off bytes)))) }
        ensures failed { OnErr result (Rose (faults_of (of_array V.seen self.old))
            (faults_of (of_array V.seen self.new))) }
        ensures good { OnOk result
            (faults_of (of_array V.seen self.new) ≡ faults_of (of_array V.seen self.old)) }
        ensures later { faults_of (of_array V.seen self.old)
            ≤ faults_of (of_array V.seen self.new) }
        ensures meter { MatchResult result
            (λ _. (of_array V.seen self.new).meter
            ≡ min ((of_array V.seen self.old).meter + length out.old) (2 ^ 64 - 1))
            (λ _. (of_array V.seen self.new).meter ≡ (of_array V.seen self.old).meter) }
        ensures len { length out.new ≡ length out.old }
    {
        self.members.get(page, off, out)
    }

    // Removes the file of a page.
    pub fn remove(&mut self, page: PageNo) -> Result<(), Failed>
        requires closed { writing_of (of_array V.seen self.old) ≡ None }
        requires there { IfSome (changes_of (of_array V.seen self.old)) (Stands page.0) }
        ensures act { Removes page (of_array V.seen self.old) result (of_array V.seen self.new) }
        ensures closed { writing_of (of_array V.seen self.new) ≡ None }
        ensures ok { OnOk result
            (changes_of (of_array V.seen self.new)
            ≡ with_change (Remove page) (changes_of (of_array V.seen self.old))) }
        ensures failed { OnErr result ((changes_of (of_array V.seen self.new)
            ≡ with_change (Left page) (changes_of (of_array V.seen self.old)))
            × Rose (faults_of (of_array V.seen self.old)) (faults_of (of_array V.seen self.new))) }
        ensures good { OnOk result
            (faults_of (of_array V.seen self.new) ≡ faults_of (of_array V.seen self.old)) }
        ensures later { faults_of (of_array V.seen self.old)
            ≤ faults_of (of_array V.seen self.new) }
        ensures meter { (of_array V.seen self.new).meter ≡ (of_array V.seen self.old).meter }
    {
        self.members.remove(page)
    }

    // Where the file of a page stands.
    pub fn volume_of(&self, page: PageNo) -> Option<u32>
        ensures { result ≡ place_of page.0 (of_array V.seen self.now).files }
    {
        self.members.files.home(page)?
    }

    // Whether a volume is held at a place.
    pub fn held(&self, k: u32) -> bool
        ensures value { result ≡ is_some (object_at (of_array V.seen self.now).slots k) }
        ensures right { IsHeldRight (of_array V.seen self.now) }
    {
        self.members.places.held(k)
    }

    // Whether the volume at a place is retired.
    pub fn retired(&self, k: u32) -> bool
        ensures { result ≡ is_retired_at (of_array V.seen self.now).slots k }
    {
        self.members.places.retired(k)
    }

    // The counts of all volumes, of those that were dropped too.
    pub fn faults(&self) -> u128
        ensures { result ≡ count_of (of_array V.seen self.now) }
    {
        self.members.places.faults()
    }

    // What was done, where it is told.
    pub fn changes(&self) -> &[Change]
        ensures { IfSome (changes_of (of_array V.seen self.now)) (λ changes. result.now ≡ changes) }
    {
        match &self.members.log {
            Some(log) => log.as_slice(),
            None => &[],
        }
    }
}
