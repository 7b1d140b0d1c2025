ghost use Rattle.std.specs.Prelude.{◌≡◌, ◌+◌, ◌-◌, ◌^◌, ◌<◌, ◌≤◌, ◌++◌, [], true, false, Some, None, drop, is_some, length, map, min, take, vec_len, IfOk, IfSome, IsErrOf, IsSomeAnd, MatchResult, OnErr, OnOk};
ghost use Rattle.std.specs.List.{list_all};
ghost use Rattle.blob_words.specs.declared.bounds.TheConstants.{LONGEST_APPEND};
ghost use Rattle.blob_source.specs.Faults.{Rose};
ghost use Rattle.page_disk.specs.declared.change.Change.TheVariants.{Torn, Remove, Left};
ghost use Rattle.page_disk.specs.Changes.{with_change, with_more, with_put, with_torn, last_put, HasRange, IsNew, Stands};
ghost use Rattle.page_volumes.specs.declared.bounds.TheConstants.{MOST_VOLUMES};
ghost use Rattle.page_volumes.specs.Group.{count_of, is_retired_at, new_group, object_at, place_of, Appends, Begins, Gets, IsHeldRight, Removes, Seals};
ghost use Rattle.page_volumes.specs.Seen.{is_fresh};
ghost use Rattle.page_volumes.specs.Sound.{came_of, changes_of, faults_of, writing_of};

use crate::array::Array;
use crate::bounds::MOST_VOLUMES;
use crate::boxed::BoxedVolume;
use crate::volume::Volume;
use blob_words::{Failed, NoMemory, PageNo};
use page_disk::{Change, PageDisk, PutFault};
use std::alloc::Global;

/// Several volumes as one disk of pages. Contracts see the volumes with what each is seen as, where
/// the file of each page is, the open write, what was done, where that is told, and the meter.
#[derive(Drop)]
pub struct Volumes {
    array: Array<BoxedVolume>,
}

// Each volume in the form of a group.
fn boxed(alloc: Global, volumes: Vec<Box<dyn Volume>>) -> Result<Vec<BoxedVolume>, NoMemory>
    ensures { IfOk result (λ boxes. map ⟦<BoxedVolume as Volume>⟧.seen boxes.items
        ≡ map (λ object. seen object) volumes.items) }
{
    let mut boxes = Vec::with_capacity(alloc, volumes.len())?;
    for volume in volumes {
        boxes.push(BoxedVolume::new(volume))?;
    }
    Ok(boxes)
}

impl Volumes {
    ghost use Rattle.page_volumes.specs.Boxes.{of_volumes};

    /// 1 to 16 volumes that tell nothing, as a disk that tells nothing of its changes.
    pub fn new(alloc: Global, volumes: Vec<Box<dyn Volume>>) -> Result<Volumes, NoMemory>
        requires some { 0 < vec_len volumes }
        requires most { vec_len volumes ≤ MOST_VOLUMES }
        requires fresh { list_all (is_fresh false) (map (λ object. seen object) volumes.items)
            ≡ true }
        ensures group { IfOk result (λ made. of_volumes ⟦<BoxedVolume as Volume>⟧.seen made
            ≡ new_group (map (λ object. seen object) volumes.items) None) }
        ensures closed { IfOk result
            (λ made. writing_of (of_volumes ⟦<BoxedVolume as Volume>⟧.seen made) ≡ None) }
    {
        let boxes = boxed(alloc, volumes)?;
        let array = Array::new(alloc, boxes, false)?;
        Ok(Volumes { array })
    }

    /// 1 to 16 volumes without files that tell their files, as a disk that tells all its changes.
    pub fn recording(alloc: Global, volumes: Vec<Box<dyn Volume>>) -> Result<Volumes, NoMemory>
        requires some { 0 < vec_len volumes }
        requires most { vec_len volumes ≤ MOST_VOLUMES }
        requires fresh { list_all (is_fresh true) (map (λ object. seen object) volumes.items)
            ≡ true }
        ensures group { IfOk result (λ made. of_volumes ⟦<BoxedVolume as Volume>⟧.seen made
            ≡ new_group (map (λ object. seen object) volumes.items) (Some [])) }
        ensures closed { IfOk result
            (λ made. writing_of (of_volumes ⟦<BoxedVolume as Volume>⟧.seen made) ≡ None) }
    {
        let boxes = boxed(alloc, volumes)?;
        let array = Array::new(alloc, boxes, true)?;
        Ok(Volumes { array })
    }

    /// The place in the list of the volume with the file of a page; none where no file stands for
    /// it.
    pub fn volume_of(&self, page: PageNo) -> Option<u32>
        ensures { result ≡ place_of page.0
            (of_volumes ⟦<BoxedVolume as Volume>⟧.seen self.now).files }
    {
        self.array.volume_of(page)
    }

    /// Whether the volume at a place is held: it is until it is retired and its last file has gone.
    pub fn held(&self, k: u32) -> bool
        ensures value { result
            ≡ is_some (object_at (of_volumes ⟦<BoxedVolume as Volume>⟧.seen self.now).slots k) }
        ensures right { IsHeldRight (of_volumes ⟦<BoxedVolume as Volume>⟧.seen self.now) }
    {
        self.array.held(k)
    }

    /// Whether the volume at a place is retired, as a write on it failed while another took writes.
    pub fn retired(&self, k: u32) -> bool
        ensures { result ≡ is_retired_at
            (of_volumes ⟦<BoxedVolume as Volume>⟧.seen self.now).slots k }
    {
        self.array.retired(k)
    }

    /// How many calls failed, of the volumes that are held and of those that were dropped.
    pub fn faults(&self) -> u128
        ensures { result ≡ count_of (of_volumes ⟦<BoxedVolume as Volume>⟧.seen self.now) }
    {
        self.array.faults()
    }

    /// What was done, the last thing last, where it is told, and else nothing.
    pub fn changes(&self) -> &[Change]
        ensures { IfSome (changes_of (of_volumes ⟦<BoxedVolume as Volume>⟧.seen self.now))
            (λ changes. result.now ≡ changes) }
    {
        self.array.changes()
    }
}

impl PageDisk for Volumes {
    ghost use Rattle.page_volumes.specs.Boxes.{of_volumes};

    ghost changes = { λ volumes. changes_of
        (of_volumes (λ boxed. (Volume-box boxed.object).seen boxed.object.value) volumes) };

    ghost writing = { λ volumes. writing_of
        (of_volumes (λ boxed. (Volume-box boxed.object).seen boxed.object.value) volumes) };

    ghost came = { λ volumes. came_of
        (of_volumes (λ boxed. (Volume-box boxed.object).seen boxed.object.value) volumes) };

    ghost faults = { λ volumes. faults_of
        (of_volumes (λ boxed. (Volume-box boxed.object).seen boxed.object.value) volumes) };

    ghost meter = { λ volumes.
        (of_volumes (λ boxed. (Volume-box boxed.object).seen boxed.object.value) volumes).meter };

    // Begins the write of a page on the least volume that isn't retired.
    fn begin(&mut self, page: PageNo, len: u64) -> Result<(), PutFault>
        requires closed { writing_of (of_volumes ⟦<BoxedVolume as Volume>⟧.seen self.old) ≡ None }
        requires some { 0 < len }
        requires new_page { IfSome (changes_of (of_volumes ⟦<BoxedVolume as Volume>⟧.seen self.old))
            (IsNew page.0) }
        ensures act { Begins page len (of_volumes ⟦<BoxedVolume as Volume>⟧.seen self.old) result
            (of_volumes ⟦<BoxedVolume as Volume>⟧.seen self.new) }
        ensures ok { OnOk result ((writing_of (of_volumes ⟦<BoxedVolume as Volume>⟧.seen self.new)
            ≡ Some (record { page = page; len = len; came = 0 }))
            × (changes_of (of_volumes ⟦<BoxedVolume as Volume>⟧.seen self.new)
            ≡ changes_of (of_volumes ⟦<BoxedVolume as Volume>⟧.seen self.old))
            × IfSome (changes_of (of_volumes ⟦<BoxedVolume as Volume>⟧.seen self.new))
            (λ _. came_of (of_volumes ⟦<BoxedVolume as Volume>⟧.seen self.new) ≡ [])) }
        ensures failed { IsErrOf result PutFault.Failed
            → (writing_of (of_volumes ⟦<BoxedVolume as Volume>⟧.seen self.new) ≡ None)
            × (changes_of (of_volumes ⟦<BoxedVolume as Volume>⟧.seen self.new)
            ≡ with_change (Torn page)
            (changes_of (of_volumes ⟦<BoxedVolume as Volume>⟧.seen self.old)))
            × Rose (faults_of (of_volumes ⟦<BoxedVolume as Volume>⟧.seen self.old))
            (faults_of (of_volumes ⟦<BoxedVolume as Volume>⟧.seen self.new)) }
        ensures memory { IsErrOf result PutFault.NoMemory
            → (writing_of (of_volumes ⟦<BoxedVolume as Volume>⟧.seen self.new) ≡ None)
            × (changes_of (of_volumes ⟦<BoxedVolume as Volume>⟧.seen self.new)
            ≡ changes_of (of_volumes ⟦<BoxedVolume as Volume>⟧.seen self.old))
            × (faults_of (of_volumes ⟦<BoxedVolume as Volume>⟧.seen self.new)
            ≡ faults_of (of_volumes ⟦<BoxedVolume as Volume>⟧.seen self.old)) }
        ensures good { OnOk result
            (faults_of (of_volumes ⟦<BoxedVolume as Volume>⟧.seen self.new)
            ≡ faults_of (of_volumes ⟦<BoxedVolume as Volume>⟧.seen self.old)) }
        ensures later { faults_of (of_volumes ⟦<BoxedVolume as Volume>⟧.seen self.old)
            ≤ faults_of (of_volumes ⟦<BoxedVolume as Volume>⟧.seen self.new) }
        ensures meter { (of_volumes ⟦<BoxedVolume as Volume>⟧.seen self.new).meter
            ≡ (of_volumes ⟦<BoxedVolume as Volume>⟧.seen self.old).meter }
    {
        self.array.begin(page, len)
    }

    // Writes the next bytes of the open write.
    fn append(&mut self, bytes: &[u8]) -> Result<(), Failed>
        requires fits { IsSomeAnd (writing_of (of_volumes ⟦<BoxedVolume as Volume>⟧.seen self.old))
            (λ write. write.came + length bytes.now ≤ write.len) }
        requires some { 0 < length bytes.now }
        requires most { length bytes.now ≤ LONGEST_APPEND }
        ensures act { Appends bytes.now (of_volumes ⟦<BoxedVolume as Volume>⟧.seen self.old) result
            (of_volumes ⟦<BoxedVolume as Volume>⟧.seen self.new) }
        ensures ok { OnOk result ((writing_of (of_volumes ⟦<BoxedVolume as Volume>⟧.seen self.new)
            ≡ with_more (length bytes.now)
            (writing_of (of_volumes ⟦<BoxedVolume as Volume>⟧.seen self.old)))
            × (changes_of (of_volumes ⟦<BoxedVolume as Volume>⟧.seen self.new)
            ≡ changes_of (of_volumes ⟦<BoxedVolume as Volume>⟧.seen self.old))
            × IfSome (changes_of (of_volumes ⟦<BoxedVolume as Volume>⟧.seen self.new))
            (λ _. came_of (of_volumes ⟦<BoxedVolume as Volume>⟧.seen self.new)
            ≡ came_of (of_volumes ⟦<BoxedVolume as Volume>⟧.seen self.old) ++ bytes.now)) }
        ensures failed { OnErr result ((writing_of
            (of_volumes ⟦<BoxedVolume as Volume>⟧.seen self.new) ≡ None)
            × (changes_of (of_volumes ⟦<BoxedVolume as Volume>⟧.seen self.new)
            ≡ with_torn (writing_of (of_volumes ⟦<BoxedVolume as Volume>⟧.seen self.old))
            (changes_of (of_volumes ⟦<BoxedVolume as Volume>⟧.seen self.old)))
            × Rose (faults_of (of_volumes ⟦<BoxedVolume as Volume>⟧.seen self.old))
            (faults_of (of_volumes ⟦<BoxedVolume as Volume>⟧.seen self.new))) }
        ensures good { OnOk result
            (faults_of (of_volumes ⟦<BoxedVolume as Volume>⟧.seen self.new)
            ≡ faults_of (of_volumes ⟦<BoxedVolume as Volume>⟧.seen self.old)) }
        ensures later { faults_of (of_volumes ⟦<BoxedVolume as Volume>⟧.seen self.old)
            ≤ faults_of (of_volumes ⟦<BoxedVolume as Volume>⟧.seen self.new) }
        ensures meter { (of_volumes ⟦<BoxedVolume as Volume>⟧.seen self.new).meter
            ≡ (of_volumes ⟦<BoxedVolume as Volume>⟧.seen self.old).meter }
    {
        self.array.append(bytes)
    }

    // Ends the open write.
    fn seal(&mut self) -> Result<(), Failed>
        requires whole { IsSomeAnd (writing_of (of_volumes ⟦<BoxedVolume as Volume>⟧.seen self.old))
            (λ write. write.came ≡ write.len) }
        ensures act { Seals (of_volumes ⟦<BoxedVolume as Volume>⟧.seen self.old) result
            (of_volumes ⟦<BoxedVolume as Volume>⟧.seen self.new) }
        ensures closed { writing_of (of_volumes ⟦<BoxedVolume as Volume>⟧.seen self.new) ≡ None }
        ensures ok { OnOk result
            (changes_of (of_volumes ⟦<BoxedVolume as Volume>⟧.seen self.new)
            ≡ with_put (writing_of (of_volumes ⟦<BoxedVolume as Volume>⟧.seen self.old))
            (came_of (of_volumes ⟦<BoxedVolume as Volume>⟧.seen self.old))
            (changes_of (of_volumes ⟦<BoxedVolume as Volume>⟧.seen self.old))) }
        ensures failed { OnErr result ((changes_of
            (of_volumes ⟦<BoxedVolume as Volume>⟧.seen self.new)
            ≡ with_torn (writing_of (of_volumes ⟦<BoxedVolume as Volume>⟧.seen self.old))
            (changes_of (of_volumes ⟦<BoxedVolume as Volume>⟧.seen self.old)))
            × Rose (faults_of (of_volumes ⟦<BoxedVolume as Volume>⟧.seen self.old))
            (faults_of (of_volumes ⟦<BoxedVolume as Volume>⟧.seen self.new))) }
        ensures good { OnOk result
            (faults_of (of_volumes ⟦<BoxedVolume as Volume>⟧.seen self.new)
            ≡ faults_of (of_volumes ⟦<BoxedVolume as Volume>⟧.seen self.old)) }
        ensures later { faults_of (of_volumes ⟦<BoxedVolume as Volume>⟧.seen self.old)
            ≤ faults_of (of_volumes ⟦<BoxedVolume as Volume>⟧.seen self.new) }
        ensures meter { (of_volumes ⟦<BoxedVolume as Volume>⟧.seen self.new).meter
            ≡ (of_volumes ⟦<BoxedVolume as Volume>⟧.seen self.old).meter }
    {
        self.array.seal()
    }

    // Fills `out` with the bytes of a page from `off` on.
    fn get(&mut self, page: PageNo, off: u64, out: &mut [u8]) -> Result<(), Failed>
        requires closed { writing_of (of_volumes ⟦<BoxedVolume as Volume>⟧.seen self.old) ≡ None }
        requires there { IfSome (changes_of (of_volumes ⟦<BoxedVolume as Volume>⟧.seen self.old))
            (HasRange page.0 off (length out.old)) }
        ensures act { Gets page.0 off
            (of_volumes ⟦<BoxedVolume as Volume>⟧.seen self.old) result out.new
            (of_volumes ⟦<BoxedVolume as Volume>⟧.seen self.new) }
        ensures closed { writing_of (of_volumes ⟦<BoxedVolume as Volume>⟧.seen self.new) ≡ None }
        ensures same { changes_of (of_volumes ⟦<BoxedVolume as Volume>⟧.seen self.new)
            ≡ changes_of (of_volumes ⟦<BoxedVolume as Volume>⟧.seen self.old) }
        ensures bytes { OnOk result (IfSome
            (changes_of (of_volumes ⟦<BoxedVolume as Volume>⟧.seen self.old))
            (λ changes. IsSomeAnd (last_put page.0 changes)
            (λ bytes. out.new ≡ take (length out.old) (drop off bytes)))) }
        ensures failed { OnErr result (Rose
            (faults_of (of_volumes ⟦<BoxedVolume as Volume>⟧.seen self.old))
            (faults_of (of_volumes ⟦<BoxedVolume as Volume>⟧.seen self.new))) }
        ensures good { OnOk result
            (faults_of (of_volumes ⟦<BoxedVolume as Volume>⟧.seen self.new)
            ≡ faults_of (of_volumes ⟦<BoxedVolume as Volume>⟧.seen self.old)) }
        ensures later { faults_of (of_volumes ⟦<BoxedVolume as Volume>⟧.seen self.old)
            ≤ faults_of (of_volumes ⟦<BoxedVolume as Volume>⟧.seen self.new) }
        ensures meter { MatchResult result
            (λ _. (of_volumes ⟦<BoxedVolume as Volume>⟧.seen self.new).meter
            ≡ min ((of_volumes ⟦<BoxedVolume as Volume>⟧.seen self.old).meter + length out.old)
            (2 ^ 64 - 1))
            (λ _. (of_volumes ⟦<BoxedVolume as Volume>⟧.seen self.new).meter
            ≡ (of_volumes ⟦<BoxedVolume as Volume>⟧.seen self.old).meter) }
        ensures len { length out.new ≡ length out.old }
    {
        self.array.get(page, off, out)
    }

    // Removes the file of a page.
    fn remove(&mut self, page: PageNo) -> Result<(), Failed>
        requires closed { writing_of (of_volumes ⟦<BoxedVolume as Volume>⟧.seen self.old) ≡ None }
        requires there { IfSome
            (changes_of (of_volumes ⟦<BoxedVolume as Volume>⟧.seen self.old)) (Stands page.0) }
        ensures act { Removes page (of_volumes ⟦<BoxedVolume as Volume>⟧.seen self.old) result
            (of_volumes ⟦<BoxedVolume as Volume>⟧.seen self.new) }
        ensures closed { writing_of (of_volumes ⟦<BoxedVolume as Volume>⟧.seen self.new) ≡ None }
        ensures ok { OnOk result
            (changes_of (of_volumes ⟦<BoxedVolume as Volume>⟧.seen self.new)
            ≡ with_change (Remove page)
            (changes_of (of_volumes ⟦<BoxedVolume as Volume>⟧.seen self.old))) }
        ensures failed { OnErr result ((changes_of
            (of_volumes ⟦<BoxedVolume as Volume>⟧.seen self.new)
            ≡ with_change (Left page)
            (changes_of (of_volumes ⟦<BoxedVolume as Volume>⟧.seen self.old)))
            × Rose (faults_of (of_volumes ⟦<BoxedVolume as Volume>⟧.seen self.old))
            (faults_of (of_volumes ⟦<BoxedVolume as Volume>⟧.seen self.new))) }
        ensures good { OnOk result
            (faults_of (of_volumes ⟦<BoxedVolume as Volume>⟧.seen self.new)
            ≡ faults_of (of_volumes ⟦<BoxedVolume as Volume>⟧.seen self.old)) }
        ensures later { faults_of (of_volumes ⟦<BoxedVolume as Volume>⟧.seen self.old)
            ≤ faults_of (of_volumes ⟦<BoxedVolume as Volume>⟧.seen self.new) }
        ensures meter { (of_volumes ⟦<BoxedVolume as Volume>⟧.seen self.new).meter
            ≡ (of_volumes ⟦<BoxedVolume as Volume>⟧.seen self.old).meter }
    {
        self.array.remove(page)
    }
}
