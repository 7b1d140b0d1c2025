//! Calls of page files over any disk. Each says what the next one needs of it.
ghost use Rattle.std.specs.Prelude.{◌≡◌, ◌+◌, ◌^◌, ◌<◌, ◌≤◌, [], ◌∷◌, None, IsTrue, length, IfOk, IfSome, IsSomeAnd, MatchResult, OnErr};
ghost use Rattle.item_shares.specs.Shares.{item_at};
ghost use Rattle.page_files.specs.Items.{IsMemoryIn, IsPagedIn, IsReservedOf};
ghost use Rattle.page_files.specs.Files.{alone, job_no, left_of, new_files, with_job, Agrees};
ghost use Rattle.page_cases.specs.Runs.{four, two_pieces, IsThere};

use blob_words::{JobNo, NoMemory, PageNo, PieceNo};
use item_shares::{Item, Shares};
use page_disk::PageDisk;
use page_files::{JobEnd, JobFault, NoJob, PageFiles, StoreFault};
use std::alloc::Global;

/// Page files for a disk that did nothing yet.
#[tactic(auto, using(crate::proofs::Many::agrees_fresh))]
pub fn fresh_files<D: PageDisk>(heap: Global, limit: u64, disk: &D) -> Result<PageFiles, NoMemory>
    requires fresh { IfSome (D.changes disk.now) (λ changes. changes ≡ []) }
    ensures files { IfOk result (λ files. files ≡ new_files limit) }
    ensures agrees { IfOk result (λ files. IfSome (D.changes disk.now) (Agrees files.pages)) }
{
    PageFiles::new(heap, limit)
}

/// Page files of which so many bytes are reserved.
pub fn reserved_files<D: PageDisk>(
    heap: Global,
    limit: u64,
    bytes: u64,
    disk: &D,
) -> Result<PageFiles, NoMemory>
    requires fresh { IfSome (D.changes disk.now) (λ changes. changes ≡ []) }
    requires fits { bytes ≤ limit }
    ensures pages { IfOk result (λ files. files.pages ≡ []) }
    ensures reserved { IfOk result (λ files. files.reserved ≡ bytes) }
    ensures agrees { IfOk result (λ files. IfSome (D.changes disk.now) (Agrees files.pages)) }
{
    let mut files = fresh_files(heap, limit, disk)?;
    files.reserve(bytes);
    Ok(files)
}

/// Whether the slot holds the piece in memory, with so many bytes.
pub fn is_memory(shares: &Shares, slot: usize, piece: PieceNo, len: u64) -> bool
    ensures { IsTrue result → IsMemoryIn shares.now (alone piece slot len) }
{
    match shares.get(slot) {
        Some(Item::Memory { piece: one, bytes }) => one.0 == piece.0 && bytes.len() as u64 == len,
        Some(Item::Paged { .. }) => false,
        Some(Item::Reserved { .. }) => false,
        Some(Item::File { .. }) => false,
        Some(Item::Range { .. }) => false,
        None => false,
    }
}

/// Whether the slot holds the piece in this page, from its start on, with so many bytes.
pub fn is_paged(shares: &Shares, slot: usize, page: PageNo, piece: PieceNo, len: u64) -> bool
    ensures { IsTrue result → IsPagedIn page shares.now (alone piece slot len) }
{
    match shares.get(slot) {
        Some(Item::Memory { .. }) => false,
        Some(
            Item::Paged {
                piece: one,
                page: place,
                off,
                len: long,
            },
        ) => one.0 == piece.0 && place.0 == page.0 && *off == 0 && *long == len,
        Some(Item::Reserved { .. }) => false,
        Some(Item::File { .. }) => false,
        Some(Item::Range { .. }) => false,
        None => false,
    }
}

// Whether a slot holds a reserved piece of this length.
fn is_reserved(shares: &Shares, slot: usize, expected: u64) -> bool
    ensures { IsTrue result → IsSomeAnd (item_at shares.now slot) (IsReservedOf expected) }
{
    match shares.get(slot) {
        Some(Item::Reserved { len, .. }) => *len == expected,
        Some(Item::Memory { .. }) => false,
        Some(Item::Paged { .. }) => false,
        Some(Item::File { .. }) => false,
        Some(Item::Range { .. }) => false,
        None => false,
    }
}

/// Stores a reserved piece. Where the slot holds no such piece it ends as for want of memory, which
/// no line shows.
pub fn store<D: PageDisk>(
    files: &mut PageFiles,
    slot: usize,
    bytes: &[u8],
    shares: &mut Shares,
    disk: &mut D,
) -> Result<PageNo, StoreFault>
    requires closed { D.writing disk.old ≡ None }
    requires agrees { IfSome (D.changes disk.old) (Agrees files.old.pages) }
    requires some { 0 < length bytes.now }
    requires reserved { length bytes.now ≤ files.old.reserved }
    requires numbers { length files.old.pages < 2 ^ 31 }
    ensures closed { D.writing disk.new ≡ None }
    ensures agrees { IfSome (D.changes disk.new) (Agrees files.new.pages) }
    ensures limit { files.new.limit ≡ files.old.limit }
    ensures pages { MatchResult result
        (λ page. (page.0 ≡ length files.old.pages)
        × (length files.new.pages ≡ length files.old.pages + 1))
        (λ _. length files.new.pages ≤ length files.old.pages + 1) }
    ensures reserved { files.old.reserved ≤ files.new.reserved + length bytes.now }
    ensures kept { OnErr result (files.new.reserved ≡ files.old.reserved) }
{
    if !is_reserved(shares, slot, bytes.len() as u64) {
        return Err(StoreFault::NoMemory);
    }
    files.store_piece(slot, bytes, shares, disk)
}

/// A piece of a page is reached no more.
#[tactic(auto, using(crate::proofs::Told::told_same))]
pub fn release<D: PageDisk>(files: &mut PageFiles, page: u32, piece: u32, disk: &D)
    requires agrees { IfSome (D.changes disk.now) (Agrees files.old.pages) }
    ensures agrees { IfSome (D.changes disk.now) (Agrees files.new.pages) }
{
    files.release_piece(PageNo(page), PieceNo(piece));
}

/// Starts a job of the pieces 0 and 1, of four bytes each.
#[tactic(auto, using(crate::proofs::Moves::both_apart))]
pub fn start_two(files: &mut PageFiles, first: usize, second: usize) -> Result<JobNo, NoMemory>
    requires { files.old ≡ new_files 64 }
    ensures { IfOk result (λ job. (job ≡ job_no 0)
        × (files.new ≡ with_job None (two_pieces first second) (new_files 64))) }
{
    files.start_job(&[(PieceNo(0), first, 4), (PieceNo(1), second, 4)])
}

/// Ends a job of which piece 0 is left. Where the slot holds no such piece it ends as for want of
/// memory, which no line shows.
pub fn finish_one<D: PageDisk>(
    files: &mut PageFiles,
    job: JobNo,
    slot: usize,
    shares: &mut Shares,
    disk: &mut D,
) -> Result<JobEnd, JobFault>
    requires closed { D.writing disk.old ≡ None }
    requires agrees { IfSome (D.changes disk.old) (Agrees files.old.pages) }
    requires left { left_of files.old.job ≡ four 0 slot ∷ [] }
    requires numbers { files.old.pages ≡ [] }
    ensures closed { D.writing disk.new ≡ None }
    ensures agrees { IfSome (D.changes disk.new) (Agrees files.new.pages) }
    ensures there { IsThere 4 (D.changes disk.new) result }
{
    if !is_memory(shares, slot, PieceNo(0), 4) {
        return Err(JobFault::NoMemory);
    }
    files.finish_job(job, shares, disk)
}

/// Ends a job while pieces 0 and 1 are left in the job in flight. Where their slots hold no such
/// pieces it ends as for want of memory, which no line shows.
pub fn finish_two<D: PageDisk>(
    files: &mut PageFiles,
    job: JobNo,
    slots: (usize, usize),
    shares: &mut Shares,
    disk: &mut D,
) -> Result<JobEnd, JobFault>
    requires closed { D.writing disk.old ≡ None }
    requires agrees { IfSome (D.changes disk.old) (Agrees files.old.pages) }
    requires left { left_of files.old.job ≡ two_pieces slots.0 slots.1 }
    requires numbers { files.old.pages ≡ [] }
    ensures closed { D.writing disk.new ≡ None }
    ensures agrees { IfSome (D.changes disk.new) (Agrees files.new.pages) }
{
    if !is_memory(shares, slots.0, PieceNo(0), 4) || !is_memory(shares, slots.1, PieceNo(1), 4) {
        return Err(JobFault::NoMemory);
    }
    files.finish_job(job, shares, disk)
}

/// Ends a job whose reply was lost.
pub fn lose<D: PageDisk>(files: &mut PageFiles, job: JobNo, disk: &D) -> Result<(), NoJob>
    requires agrees { IfSome (D.changes disk.now) (Agrees files.old.pages) }
    ensures agrees { IfSome (D.changes disk.now) (Agrees files.new.pages) }
{
    files.lose_job(job)
}
