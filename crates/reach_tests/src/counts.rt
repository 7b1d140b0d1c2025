ghost use Rattle.std.specs.Prelude.{◌≡◌, [], None};
ghost use Rattle.blob_entries.specs.Book.{book_of};

use crate::blobs::{put_broken, put_own, put_paged};
use blob_registry::Registry;
use blob_words::{PieceNo, Status, Tally};
use item_shares::{Item, Shares};
use page_disk::{FolderDisk, PageDisk};
use page_files::PageFiles;
use quota_queue::Quota;
use std::alloc::Global;
use std::fs;
use std::test::Fail;
use store_reach::{reached_pieces, tally_of};

// A done blob with a piece in a page, one that was granted and one that waits, each with a piece of
// its own, and a broken one.
fn put_all(alloc: Global, registry: &mut Registry, shares: &mut Shares) -> Result<(), Fail>
    requires { registry.old ≡ book_of [] [] }
{
    put_paged(alloc, registry, shares, PieceNo(9_000))?;
    let _endings = registry.finish_pass(shares)?; // the one is done
    put_own(alloc, registry, 2, PieceNo(4), Status::PendingTransport)?;
    put_own(alloc, registry, 3, PieceNo(6), Status::PendingQuota)?;
    put_broken(alloc, registry, 4)
}

// Whether the pieces have these numbers.
fn are_numbered(list: &[PieceNo], expected: &[u32]) -> bool {
    if list.len() != expected.len() {
        return false;
    }
    for i in 0..list.len() {
        if list[i] != PieceNo(expected[i]) {
            return false;
        }
    }
    true
}

// Whether these pieces are reached.
fn are_reached(alloc: Global, expected: &[u32]) -> Result<bool, Fail> {
    let mut registry = Registry::new(alloc)?;
    let mut shares = Shares::new(alloc)?;
    put_all(alloc, &mut registry, &mut shares)?;
    let list = reached_pieces(alloc, &registry, &shares)?;
    Ok(are_numbered(list.as_slice(), expected))
}

// Page files with a page of four bytes, and three bytes reserved.
fn with_page<D: PageDisk>(alloc: Global, disk: &mut D) -> Result<PageFiles, Fail>
    requires closed { D.writing disk.old ≡ None }
    requires untold { D.changes disk.old ≡ None }
{
    let mut shares = Shares::new(alloc)?;
    let piece = PieceNo(0);
    let slot = shares.add(Item::Reserved { piece, len: 4 })?;
    let mut files = PageFiles::new(alloc, 100)?;
    files.reserve(7);
    let _page = files.store_piece(slot, b"page", &mut shares, disk)?; // page 0
    Ok(files)
}

// The tally, where few pieces are reached.
fn tally(
    alloc: Global,
    registry: &Registry,
    shares: &Shares,
    files: &PageFiles,
    quota: &Quota,
) -> Result<Tally, Fail> {
    let list = reached_pieces(alloc, registry, shares)?;
    if list.len() > 100 {
        return Err(Fail::new("too many pieces"));
    }
    Ok(tally_of(registry, shares, files, quota))
}

// The tally with these page files, where ten bytes are charged.
fn tally_with(alloc: Global, files: &PageFiles) -> Result<Tally, Fail> {
    let mut registry = Registry::new(alloc)?;
    let mut shares = Shares::new(alloc)?;
    put_all(alloc, &mut registry, &mut shares)?;
    let mut quota = Quota::new(alloc, 100)?;
    quota.charge(10);
    tally(alloc, &registry, &shares, files, &quota)
}

fn count(rt: &HostRuntime) -> Result<Tally, Fail> {
    fs::create_dir_all(rt, "reach_pages")?;
    let mut disk = FolderDisk::new(rt.clone()?, rt.alloc(), "reach_pages")?;
    let files = with_page(rt.alloc(), &mut disk)?;
    tally_with(rt.alloc(), &files)
}

#[test]
fn pieces_of_blobs_that_stand_are_reached(rt: HostRuntime) -> Result<(), Fail> {
    assert!(rt; are_reached(rt.alloc(), &[4, 9_000])?);
    Ok(())
}

#[test]
fn the_four_numbers_are_counted(rt: HostRuntime) -> Result<(), Fail> {
    let expected = Tally {
        pieces: 2,
        memory: 10,
        files: 1,
        disk: 7,
    };
    assert_eq!(rt; count(&rt)?, expected);
    Ok(())
}
