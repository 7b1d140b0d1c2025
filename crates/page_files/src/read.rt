ghost use Rattle.std.specs.Prelude.{◌≡◌, ◌+◌, ◌-◌, ◌^◌, ◌≤◌, None, length, min, IfSome, IfOk, IsErrOf, OnErr, OnOk};
ghost use Rattle.std.specs.List.{AllByRecursion};
ghost use Rattle.blob_words.specs.Bytes.{spliced};
ghost use Rattle.blob_source.specs.Faults.{Rose};
ghost use Rattle.page_disk.specs.Changes.{HasRange};
ghost use Rattle.page_files.specs.Pieces.{bytes_of};
ghost use Rattle.page_files.specs.Writes.{range_of, read_of};

use crate::held::Held;
use blob_words::{Failed, PageNo, zeros};
use page_disk::PageDisk;
use std::alloc::Global;

// Why pieces were not read.
#[derive(Clone, Copy, Debug)]
pub enum ReadFault {
    // The disk failed; its count of faults rose.
    Unread,
    // Want of memory, before the first read.
    NoMemory,
}

// Reads one piece into its place in the buffer.
fn read_at<D: PageDisk>(
    disk: &mut D,
    page: PageNo,
    held: &Held,
    buffer: &mut [u8],
    start: usize,
) -> Result<(), Failed>
    requires closed { D.writing disk.old ≡ None }
    requires there { IfSome (D.changes disk.old) (HasRange page.0 held.now.off held.now.len) }
    requires fits { start + held.now.len ≤ length buffer.old }
    ensures closed { D.writing disk.new ≡ None }
    ensures same { D.changes disk.new ≡ D.changes disk.old }
    ensures len { length buffer.new ≡ length buffer.old }
    ensures bytes { OnOk result (IfSome (D.changes disk.old) (λ changes. buffer.new
        ≡ spliced start (range_of page changes held.now) buffer.old)) }
    ensures good { OnOk result (D.faults disk.new ≡ D.faults disk.old) }
    ensures failed { OnErr result (Rose (D.faults disk.old) (D.faults disk.new)) }
    ensures later { D.faults disk.old ≤ D.faults disk.new }
    ensures read { OnOk result
        (D.meter disk.new ≡ min (D.meter disk.old + held.now.len) (2 ^ 64 - 1)) }
    ensures unread { OnErr result (D.meter disk.new ≡ D.meter disk.old) }
{
    let end = start + held.len as usize;
    disk.get(page, held.off, &mut buffer[start..end])
}

// Reads the pieces of a page one after the other into a buffer as long as all of them, and stops at
// the first that the disk fails to read.
fn read_pieces<D: PageDisk>(
    disk: &mut D,
    page: PageNo,
    pieces: &[Held],
    buffer: &mut [u8],
) -> Result<(), Failed>
    requires closed { D.writing disk.old ≡ None }
    requires there { IfSome (D.changes disk.old) (λ changes.
        AllByRecursion (λ held. HasRange page.0 held.off held.len changes) pieces.now) }
    requires fits { length buffer.old ≡ bytes_of pieces.now }
    ensures closed { D.writing disk.new ≡ None }
    ensures same { D.changes disk.new ≡ D.changes disk.old }
    ensures len { length buffer.new ≡ length buffer.old }
    ensures bytes { OnOk result (IfSome (D.changes disk.old) (λ changes. buffer.new
        ≡ read_of page changes pieces.now)) }
    ensures good { OnOk result (D.faults disk.new ≡ D.faults disk.old) }
    ensures failed { OnErr result (Rose (D.faults disk.old) (D.faults disk.new)) }
    ensures later { D.faults disk.old ≤ D.faults disk.new }
    ensures read { OnOk result (min (D.meter disk.new) (2 ^ 64 - 1)
        ≡ min (D.meter disk.old + bytes_of pieces.now) (2 ^ 64 - 1)) }
    ensures meter { min (D.meter disk.old) (2 ^ 64 - 1) ≤ D.meter disk.new }
{
    let mut start = 0;
    for held in pieces {
        match read_at(disk, page, held, buffer, start) {
            Ok(()) => start += held.len as usize,
            Err(Failed) => return Err(Failed),
        }
    }
    Ok(())
}

// Reads the pieces of a page, which have `len` bytes, into one buffer. It takes the memory for it
// first.
pub fn read_all<D: PageDisk>(
    alloc: Global,
    disk: &mut D,
    page: PageNo,
    pieces: &[Held],
    len: u64,
) -> Result<Vec<u8>, ReadFault>
    requires closed { D.writing disk.old ≡ None }
    requires there { IfSome (D.changes disk.old) (λ changes.
        AllByRecursion (λ held. HasRange page.0 held.off held.len changes) pieces.now) }
    requires len { len ≡ bytes_of pieces.now }
    ensures closed { D.writing disk.new ≡ None }
    ensures same { D.changes disk.new ≡ D.changes disk.old }
    ensures len { IfOk result (λ bytes. length bytes.items ≡ bytes_of pieces.now) }
    ensures bytes { IfOk result (λ bytes. IfSome (D.changes disk.old) (λ changes. bytes.items
        ≡ read_of page changes pieces.now)) }
    ensures good { OnOk result (D.faults disk.new ≡ D.faults disk.old) }
    ensures unread { IsErrOf result ReadFault.Unread
        → Rose (D.faults disk.old) (D.faults disk.new) }
    ensures memory { IsErrOf result ReadFault.NoMemory →
        (D.faults disk.new ≡ D.faults disk.old) × (D.meter disk.new ≡ D.meter disk.old) }
    ensures later { D.faults disk.old ≤ D.faults disk.new }
    ensures read { IfOk result (λ _. min (D.meter disk.new) (2 ^ 64 - 1)
        ≡ min (D.meter disk.old + bytes_of pieces.now) (2 ^ 64 - 1)) }
    ensures meter { min (D.meter disk.old) (2 ^ 64 - 1) ≤ D.meter disk.new }
{
    let Ok(mut buffer) = zeros(alloc, len as usize) else {
        return Err(ReadFault::NoMemory);
    };
    match read_pieces(disk, page, pieces, buffer.as_mut_slice()) {
        Ok(()) => Ok(buffer),
        Err(Failed) => Err(ReadFault::Unread),
    }
}
