//! What a store holds after a line: memory and disk charged by what is reached.
ghost use Rattle.std.specs.Prelude.{◌≡◌, filter, length, sum_by, IfOk};
ghost use Rattle.blob_model.specs.Session.{Session, page_limit};
ghost use Rattle.blob_model.specs.History.{History};
ghost use Rattle.blob_model.specs.Builds.{build_in, builds};
ghost use Rattle.blob_model.specs.Pages.{unlisted_place, is_memory, is_reserved, is_page, page_size};
ghost use Rattle.blob_model.specs.Tally.{in_memory_of, reserved_of, in_page_of, files_of, job_left_in, memory_of, bytes_of, disk_of, tally_of, tally};
ghost use Rattle.blob_model.specs.Pieces.{pieces, length_in};
ghost use Rattle.history_notions.specs.Follows.{Follows};
ghost use Rattle.history_notions.specs.Chosen.{items_at};
ghost use Rattle.history_notions.specs.Placed.{place_at, memory_pieces, reserved_pieces, page_pieces, holds_some};

use crate::blobs::Blobs;
use crate::contents::Contents;
use crate::pages::{Page, page_with};
use crate::parts::{add, few, few_bytes};
use crate::pieces::{Piece, bytes_of, lengths_in};
use crate::settle::job_left_of;
use blob_words::{ItemList, NoMemory, Plan, Tally};
use std::alloc::Global;

/// Whether the piece, where no page file lists it, is reserved on the disk.
fn is_planned(builds: &Blobs, piece: &Piece) -> bool
    ensures { result ≡ is_reserved (unlisted_place (build_in builds.now piece.now.blob)) }
{
    match builds.find(piece.blob) {
        Some(build) => matches!(build.plan, Some(Plan::File(_))),
        None => false,
    }
}

/// Whether the piece is in memory.
#[tactic(auto, using(crate::proofs::Placing::unlisted_memory))]
pub fn is_in_memory(pages: &[Page], builds: &Blobs, piece: &Piece) -> bool
    ensures { result ≡ is_memory (place_at pages.now builds.now piece.now) }
{
    match page_with(pages, piece.number) {
        Some(_) => false,
        None => !is_planned(builds, piece),
    }
}

/// Whether the piece is reserved on the disk.
fn is_reserved(pages: &[Page], builds: &Blobs, piece: &Piece) -> bool
    ensures { result ≡ is_reserved (place_at pages.now builds.now piece.now) }
{
    match page_with(pages, piece.number) {
        Some(_) => false,
        None => is_planned(builds, piece),
    }
}

/// Whether the piece is in the page file.
#[tactic(auto, using(crate::proofs::Placing::unlisted_page))]
fn is_in_page(pages: &[Page], builds: &Blobs, number: u32, piece: &Piece) -> bool
    ensures { result ≡ is_page number (place_at pages.now builds.now piece.now) }
{
    match page_with(pages, piece.number) {
        Some(page) => page.number == number,
        None => false,
    }
}

/// Of these pieces those in memory.
fn memory_pieces(
    alloc: Global,
    pages: &[Page],
    builds: &Blobs,
    list: &[Piece],
) -> Result<ItemList<Piece>, NoMemory>
    ensures { IfOk result (λ found. found ≡ memory_pieces pages.now builds.now list.now) }
{
    let mut found = ItemList::new(alloc);
    for piece in list {
        if is_in_memory(pages, builds, piece) {
            found.push(*piece)?;
        }
    }
    Ok(found)
}

/// Those that are reserved.
fn reserved_pieces(
    alloc: Global,
    pages: &[Page],
    builds: &Blobs,
    list: &[Piece],
) -> Result<ItemList<Piece>, NoMemory>
    ensures { IfOk result (λ found. found ≡ reserved_pieces pages.now builds.now list.now) }
{
    let mut found = ItemList::new(alloc);
    for piece in list {
        if is_reserved(pages, builds, piece) {
            found.push(*piece)?;
        }
    }
    Ok(found)
}

/// Those in one page file.
fn page_pieces(
    alloc: Global,
    pages: &[Page],
    builds: &Blobs,
    number: u32,
    list: &[Piece],
) -> Result<ItemList<Piece>, NoMemory>
    ensures { IfOk result (λ found. found ≡ page_pieces pages.now builds.now number list.now) }
{
    let mut found = ItemList::new(alloc);
    for piece in list {
        if is_in_page(pages, builds, number, piece) {
            found.push(*piece)?;
        }
    }
    Ok(found)
}

/// Whether one of the pieces is in the page file.
fn holds_some(
    alloc: Global,
    pages: &[Page],
    builds: &Blobs,
    list: &[Piece],
    page: &Page,
) -> Result<bool, NoMemory>
    ensures { IfOk result (λ some. some ≡ holds_some pages.now builds.now list.now page.now) }
{
    let found = page_pieces(alloc, pages, builds, page.number, list)?;
    Ok(found.len() > 0)
}

/// The places of the page files that hold one of the pieces.
fn held_files(
    alloc: Global,
    pages: &[Page],
    builds: &Blobs,
    list: &[Piece],
) -> Result<ItemList<usize>, NoMemory>
    ensures { IfOk result (λ places. items_at pages.now places
        ≡ filter (holds_some pages.now builds.now list.now) pages.now) }
{
    let mut places = ItemList::new(alloc);
    for place in 0..pages.len() {
        let some = holds_some(alloc, pages, builds, list, &pages[place])?;
        if some {
            places.push(place)?;
        }
    }
    Ok(places)
}

/// How many page files hold one of the pieces.
fn held_count(
    alloc: Global,
    pages: &[Page],
    builds: &Blobs,
    list: &[Piece],
) -> Result<usize, NoMemory>
    ensures { IfOk result (λ count. count
        ≡ length (filter (holds_some pages.now builds.now list.now) pages.now)) }
{
    let mut count = 0;
    for page in pages {
        let some = holds_some(alloc, pages, builds, list, page)?;
        if some {
            count += 1;
        }
    }
    Ok(count)
}

/// The bytes of the page files that hold one of the pieces.
fn held_bytes(
    alloc: Global,
    pages: &[Page],
    builds: &Blobs,
    all: &[Piece],
    list: &[Piece],
) -> Result<u128, NoMemory>
    ensures { IfOk result (λ bytes. bytes ≡ sum_by (page_size all.now)
        (filter (holds_some pages.now builds.now list.now) pages.now)) }
{
    let mut total = 0;
    for page in pages {
        let some = holds_some(alloc, pages, builds, list, page)?;
        if some {
            total = add(total, page_size(all, page))?;
        }
    }
    Ok(total)
}

/// The bytes of a page file.
pub fn page_size(all: &[Piece], page: &Page) -> u128
    ensures { result ≡ page_size all.now page.now }
{
    lengths_in(all, page.pieces.as_slice())
}

impl Contents {
    /// Of these pieces those in memory.
    pub fn in_memory(&self, list: &[Piece]) -> Result<ItemList<Piece>, NoMemory>
        ensures { IfOk result (λ found. (s : Session) (h : History) → Follows s h self.now
            → found ≡ in_memory_of h (builds (page_limit s) h) list.now) }
    {
        let pages = self.kept.pages.as_slice();
        let found = memory_pieces(self.alloc, pages, &self.builds, list)?;
        Ok(found)
    }

    /// Those that are reserved on the disk.
    pub fn reserved(&self, list: &[Piece]) -> Result<ItemList<Piece>, NoMemory>
        ensures { IfOk result (λ found. (s : Session) (h : History) → Follows s h self.now
            → found ≡ reserved_of h (builds (page_limit s) h) list.now) }
    {
        let pages = self.kept.pages.as_slice();
        let found = reserved_pieces(self.alloc, pages, &self.builds, list)?;
        Ok(found)
    }

    /// Those in one page file.
    pub fn in_page(&self, page: &Page, list: &[Piece]) -> Result<ItemList<Piece>, NoMemory>
        ensures { IfOk result (λ found. (s : Session) (h : History) → Follows s h self.now
            → found ≡ in_page_of h (builds (page_limit s) h) page.now list.now) }
    {
        let pages = self.kept.pages.as_slice();
        let found = page_pieces(self.alloc, pages, &self.builds, page.number, list)?;
        Ok(found)
    }

    /// The places of the page files that hold one of these pieces.
    pub fn files(&self, list: &[Piece]) -> Result<ItemList<usize>, NoMemory>
        ensures { IfOk result (λ places. (s : Session) (h : History) → Follows s h self.now
            → items_at self.now.kept.pages places
            ≡ files_of h (builds (page_limit s) h) list.now) }
    {
        let pages = self.kept.pages.as_slice();
        let places = held_files(self.alloc, pages, &self.builds, list)?;
        Ok(places)
    }

    /// The bytes of those of these pieces that are in memory.
    pub fn memory(&self, list: &[Piece]) -> Result<u128, NoMemory>
        ensures { IfOk result (λ bytes. (s : Session) (h : History) → Follows s h self.now
            → bytes ≡ memory_of h (builds (page_limit s) h) list.now) }
    {
        let found = self.in_memory(list)?;
        Ok(bytes_of(found.as_slice()))
    }

    /// Of these pieces those that the job in flight still has, in its order.
    pub fn job_left(&self, list: &[Piece]) -> Result<ItemList<u32>, NoMemory>
        ensures { IfOk result (λ left. (s : Session) (h : History) → Follows s h self.now
            → left ≡ job_left_in h list.now) }
    {
        match &self.kept.job {
            Some(job) => {
                let left = job_left_of(self.alloc, job, list)?;
                Ok(left)
            }
            None => Ok(ItemList::new(self.alloc)),
        }
    }

    // How many page files hold one of these pieces.
    fn file_count(&self, list: &[Piece]) -> Result<usize, NoMemory>
        ensures { IfOk result (λ count. (s : Session) (h : History) → Follows s h self.now
            → count ≡ length (files_of h (builds (page_limit s) h) list.now)) }
    {
        let pages = self.kept.pages.as_slice();
        let count = held_count(self.alloc, pages, &self.builds, list)?;
        Ok(count)
    }

    // The bytes of the page files that hold one of these pieces.
    fn file_bytes(&self, list: &[Piece]) -> Result<u128, NoMemory>
        ensures { IfOk result (λ bytes. (s : Session) (h : History) → Follows s h self.now
            → bytes ≡ sum_by (page_size (pieces (page_limit s) h))
            (files_of h (builds (page_limit s) h) list.now)) }
    {
        let pages = self.kept.pages.as_slice();
        let blobs = &self.builds;
        let all = self.pieces.as_slice();
        let bytes = held_bytes(self.alloc, pages, blobs, all, list)?;
        Ok(bytes)
    }

    // The bytes of those of these pieces that the job in flight still has.
    fn job_bytes(&self, list: &[Piece]) -> Result<u128, NoMemory>
        ensures { IfOk result (λ bytes. (s : Session) (h : History) → Follows s h self.now
            → bytes ≡ sum_by (length_in (pieces (page_limit s) h)) (job_left_in h list.now)) }
    {
        let left = self.job_left(list)?;
        Ok(lengths_in(self.pieces.as_slice(), left.as_slice()))
    }

    // The bytes of those of these pieces that are reserved.
    fn reserved_bytes(&self, list: &[Piece]) -> Result<u128, NoMemory>
        ensures { IfOk result (λ bytes. (s : Session) (h : History) → Follows s h self.now
            → bytes ≡ bytes_of (reserved_of h (builds (page_limit s) h) list.now)) }
    {
        let found = self.reserved(list)?;
        Ok(bytes_of(found.as_slice()))
    }

    /// The bytes that these pieces charge to the disk: those of their page files, of the reserved
    /// ones, and of those that the job in flight still has.
    pub fn disk(&self, list: &[Piece]) -> Result<u128, NoMemory>
        ensures { IfOk result (λ bytes. (s : Session) (h : History) → Follows s h self.now
            → bytes ≡ disk_of h (builds (page_limit s) h) (pieces (page_limit s) h) list.now) }
    {
        let held = self.file_bytes(list)?;
        let reserved = self.reserved_bytes(list)?;
        let moving = self.job_bytes(list)?;
        let both = add(held, reserved)?;
        let total = add(both, moving)?;
        Ok(total)
    }

    /// The four numbers behind a group, where the reached pieces are these.
    fn tally_of(&self, list: &[Piece]) -> Result<Tally, NoMemory>
        ensures { IfOk result (λ counted. (s : Session) (h : History) → Follows s h self.now
            → counted ≡ tally_of h (builds (page_limit s) h) (pieces (page_limit s) h) list.now) }
    {
        let pieces = few(list.len())?;
        let memory = self.memory(list)?;
        let memory = few_bytes(memory)?;
        let files = self.file_count(list)?;
        let files = few(files)?;
        let disk = self.disk(list)?;
        let disk = few_bytes(disk)?;
        Ok(Tally {
            pieces,
            memory,
            files,
            disk,
        })
    }

    /// The four numbers behind a group.
    pub fn tally(&self) -> Result<Tally, NoMemory>
        ensures { IfOk result (λ counted. (s : Session) (h : History) → Follows s h self.now
            → counted ≡ tally (page_limit s) h) }
    {
        let list = self.reached()?;
        let counted = self.tally_of(list.as_slice())?;
        Ok(counted)
    }
}
