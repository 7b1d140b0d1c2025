//! Two pieces that are stored in pages of their own.
ghost use Rattle.std.specs.Prelude.{◌≡◌, ◌<◌, [], None, length, IfSome};
ghost use Rattle.page_files.specs.Files.{Agrees};

use crate::calls::{release, reserved_files, store};
use crate::fixture::{Standing, look, reserve_two};
use blob_words::{NoMemory, PageNo};
use case_lines::show_part;
use item_shares::Shares;
use page_disk::PageDisk;
use page_files::{Closed, PageFiles, StoreFault};
use std::alloc::Global;

// What two pieces show that are to be stored.
#[derive(Drop)]
struct Stored {
    first: Result<PageNo, StoreFault>,
    second: Result<PageNo, StoreFault>,
    standing: Standing,
    shares: Shares,
    slots: (usize, usize),
}

// What their pages show from then on.
#[derive(Drop)]
struct Removed {
    due: Option<(PageNo, bool)>,
    next: Option<(PageNo, bool)>,
    end: Option<(PageNo, bool)>,
    last: Standing,
    closed: Closed,
}

// Stores two reserved pieces. What is not stored of the second is reserved no more.
fn store_two<D: PageDisk>(
    files: &mut PageFiles,
    mut shares: Shares,
    slots: (usize, usize),
    disk: &mut D,
) -> Stored
    requires closed { D.writing disk.old ≡ None }
    requires agrees { IfSome (D.changes disk.old) (Agrees files.old.pages) }
    requires reserved { files.old.reserved ≡ 9 }
    requires numbers { length files.old.pages ≡ 0 }
    ensures closed { D.writing disk.new ≡ None }
    ensures agrees { IfSome (D.changes disk.new) (Agrees files.new.pages) }
{
    let first = store(files, slots.0, b"abcdefgh", &mut shares, disk);
    let second = store(files, slots.1, b"i", &mut shares, disk);
    let standing = look(files);
    if second.is_err() {
        files.unreserve(1);
    }
    Stored {
        first,
        second,
        standing,
        shares,
        slots,
    }
}

// Reaches the two pieces no more, and removes their pages.
fn remove_two<D: PageDisk>(files: &mut PageFiles, disk: &mut D) -> Removed
    requires closed { D.writing disk.old ≡ None }
    requires agrees { IfSome (D.changes disk.old) (Agrees files.old.pages) }
{
    release(files, 0, 0, disk);
    release(files, 1, 1, disk);
    let due = files.remove_due(disk);
    let next = files.remove_due(disk);
    let end = files.remove_due(disk);
    let last = look(files);
    let closed = files.close(disk);
    Removed {
        due,
        next,
        end,
        last,
        closed,
    }
}

fn row_stores<D: PageDisk>(heap: Global, disk: &mut D) -> Result<(Stored, Removed), NoMemory>
    requires closed { D.writing disk.old ≡ None }
    requires fresh { IfSome (D.changes disk.old) (λ changes. changes ≡ []) }
{
    let mut files = reserved_files(heap, 9, 9, disk)?;
    let mut shares = Shares::new(heap)?;
    let slots = reserve_two(&mut shares, 8, 1)?;
    let stored = store_two(&mut files, shares, slots, disk);
    let removed = remove_two(&mut files, disk);
    Ok((stored, removed))
}

fn show_removed(rt: &HostRuntime, removed: &Removed) -> anyhow::Result<()> {
    show_part(rt, "due", &removed.due)?;
    show_part(rt, "due", &removed.next)?;
    show_part(rt, "due", &removed.end)?;
    show_part(rt, "then", &removed.last)?;
    show_part(rt, "closed", &removed.closed)?;
    Ok(())
}

/// Stores a piece of eight bytes and one of one byte, reaches them no more, and removes their
/// pages.
pub fn show<D: PageDisk>(rt: &HostRuntime, disk: &mut D) -> anyhow::Result<()>
    requires closed { D.writing disk.old ≡ None }
    requires fresh { IfSome (D.changes disk.old) (λ changes. changes ≡ []) }
{
    let (stored, removed) = row_stores(rt.alloc(), disk)?;
    show_part(rt, "first", &stored.first)?;
    show_part(rt, "second", &stored.second)?;
    show_part(rt, "then", &stored.standing)?;
    show_part(rt, "item", &stored.shares.get(stored.slots.0))?;
    show_part(rt, "item", &stored.shares.get(stored.slots.1))?;
    show_removed(rt, &removed)
}
