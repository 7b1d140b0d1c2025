ghost use Rattle.std.specs.Prelude.{◌≡◌, ◌+◌, ◌^◌, ◌<◌, ◌≤◌, ◌++◌, None, length, IfSome, IsSomeAnd, OnErr, OnOk};
ghost use Rattle.std.specs.List.{AllByRecursion};
ghost use Rattle.blob_source.specs.Faults.{Rose};
ghost use Rattle.page_disk.specs.Changes.{with_more, with_torn, IsNew};
ghost use Rattle.page_files.specs.Pieces.{bytes_of};
ghost use Rattle.page_files.specs.Items.{bytes_in, IsMemoryIn};
ghost use Rattle.page_files.specs.Writes.{Wrote};

use crate::held::Held;
use blob_words::bounds::LONGEST_APPEND;
use blob_words::{Failed, PageNo};
use item_shares::{Item, Shares};
use page_disk::{PageDisk, PutFault};

// Appends the bytes in runs.
fn append_all<D: PageDisk>(disk: &mut D, bytes: &[u8]) -> Result<(), Failed>
    requires fits { IsSomeAnd (D.writing disk.old)
        (λ write. write.came + length bytes.now ≤ write.len) }
    ensures ok { OnOk result
        ((D.writing disk.new ≡ with_more (length bytes.now) (D.writing disk.old))
        × (D.changes disk.new ≡ D.changes disk.old)
        × IfSome (D.changes disk.new) (λ _. D.came disk.new ≡ D.came disk.old ++ bytes.now)) }
    ensures failed { OnErr result ((D.writing disk.new ≡ None)
        × (D.changes disk.new ≡ with_torn (D.writing disk.old) (D.changes disk.old))
        × Rose (D.faults disk.old) (D.faults disk.new)) }
    ensures good { OnOk result (D.faults disk.new ≡ D.faults disk.old) }
    ensures later { D.faults disk.old ≤ D.faults disk.new }
    ensures meter { D.meter disk.new ≡ D.meter disk.old }
{
    let mut rest = bytes;
    while !rest.is_empty() {
        let (run, after) = rest.split_at(rest.len().min(LONGEST_APPEND));
        match disk.append(run) {
            Ok(()) => rest = after,
            Err(Failed) => return Err(Failed),
        }
    }
    Ok(())
}

// Appends the bytes of each item in runs of its own.
fn append_items<D: PageDisk>(disk: &mut D, pieces: &[Held], shares: &Shares) -> Result<(), Failed>
    requires fits { IsSomeAnd (D.writing disk.old)
        (λ write. write.came + bytes_of pieces.now ≤ write.len) }
    requires items { AllByRecursion (IsMemoryIn shares.now) pieces.now }
    ensures ok { OnOk result
        ((D.writing disk.new ≡ with_more (bytes_of pieces.now) (D.writing disk.old))
        × (D.changes disk.new ≡ D.changes disk.old)
        × IfSome (D.changes disk.new) (λ _. D.came disk.new
        ≡ D.came disk.old ++ bytes_in shares.now pieces.now)) }
    ensures failed { OnErr result ((D.writing disk.new ≡ None)
        × (D.changes disk.new ≡ with_torn (D.writing disk.old) (D.changes disk.old))
        × Rose (D.faults disk.old) (D.faults disk.new)) }
    ensures good { OnOk result (D.faults disk.new ≡ D.faults disk.old) }
    ensures later { D.faults disk.old ≤ D.faults disk.new }
    ensures meter { D.meter disk.new ≡ D.meter disk.old }
{
    for held in pieces {
        let Some(Item::Memory { bytes, .. }) = shares.get(held.slot) else {
            unreachable!()
        };
        match append_all(disk, bytes.as_slice()) {
            Ok(()) => {}
            Err(Failed) => return Err(Failed),
        }
    }
    Ok(())
}

// Writes the bytes as a new page.
pub fn write_bytes<D: PageDisk>(disk: &mut D, page: PageNo, bytes: &[u8]) -> Result<(), PutFault>
    requires closed { D.writing disk.old ≡ None }
    requires some { 0 < length bytes.now }
    requires new_page { IfSome (D.changes disk.old) (IsNew page.0) }
    ensures closed { D.writing disk.new ≡ None }
    ensures ends { Wrote page bytes.now (D.changes disk.old) (D.changes disk.new)
        (D.faults disk.old) (D.faults disk.new) result }
    ensures later { D.faults disk.old ≤ D.faults disk.new }
    ensures meter { D.meter disk.new ≡ D.meter disk.old }
{
    disk.begin(page, bytes.len() as u64)?;
    match append_all(disk, bytes) {
        Ok(()) => {}
        Err(Failed) => return Err(PutFault::Failed),
    }
    match disk.seal() {
        Ok(()) => Ok(()),
        Err(Failed) => Err(PutFault::Failed),
    }
}

// Writes the bytes of the items, one after the other, as a new page of `len` bytes.
pub fn write_items<D: PageDisk>(
    disk: &mut D,
    page: PageNo,
    len: u64,
    pieces: &[Held],
    shares: &Shares,
) -> Result<(), PutFault>
    requires closed { D.writing disk.old ≡ None }
    requires some { 0 < bytes_of pieces.now }
    requires len { len ≡ bytes_of pieces.now }
    requires new_page { IfSome (D.changes disk.old) (IsNew page.0) }
    requires items { AllByRecursion (IsMemoryIn shares.now) pieces.now }
    ensures closed { D.writing disk.new ≡ None }
    ensures ends { Wrote page (bytes_in shares.now pieces.now)
        (D.changes disk.old) (D.changes disk.new) (D.faults disk.old) (D.faults disk.new) result }
    ensures later { D.faults disk.old ≤ D.faults disk.new }
    ensures meter { D.meter disk.new ≡ D.meter disk.old }
{
    disk.begin(page, len)?;
    match append_items(disk, pieces, shares) {
        Ok(()) => {}
        Err(Failed) => return Err(PutFault::Failed),
    }
    match disk.seal() {
        Ok(()) => Ok(()),
        Err(Failed) => Err(PutFault::Failed),
    }
}
