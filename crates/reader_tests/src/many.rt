//! Very many views, read to their end.
ghost use Rattle.std.specs.Prelude.{◌≡◌, ◌<◌, None, length};
ghost use Rattle.std.specs.Bool.{OnTrue};
ghost use Rattle.std.specs.List.{AllByRecursion};
ghost use Rattle.range_reader.specs.Bytes.{Origins};
ghost use Rattle.range_reader.specs.Places.{Lies, ViewLies};

use crate::lie::fits;
use blob_items::{View, ViewList};
use blob_words::{NoMemory, Octets, Octets64, PieceNo};
use data_handles::HandleTable;
use file_table::FileTable;
use item_shares::{Item, Shares};
use page_disk::{MemoryDisk, PageDisk};
use range_reader::{Reader, StepEnd};
use std::alloc::Global;
use std::test::Fail;

// Views of 16 bytes each, which one after the other have the bytes from 0 to 239, over and over.
fn fill(alloc: Global, shares: &mut Shares, count: u32) -> Result<ViewList, NoMemory> {
    let mut bytes = Octets::new(alloc);
    for byte in 0u8..240 {
        bytes.push(byte)?;
    }
    let piece = PieceNo(0);
    let slot = shares.add(Item::Memory { piece, bytes })?;
    let mut views = ViewList::new(alloc);
    for number in 0..count {
        if views.total() > 1 << 40 {
            break;
        }
        let off = u64::from(number % 15) * 16;
        views.push(View { slot, off, len: 16 })?;
    }
    Ok(views)
}

fn has_in_memory(item: &Item, off: u64, len: u64) -> bool
    ensures { (from : Origins) → OnTrue result (Lies from off len item.now) }
{
    match item {
        Item::Memory { bytes, .. } => fits(off, len, bytes.len() as u64),
        Item::Paged { .. } => false,
        Item::Reserved { .. } => false,
        Item::File { .. } => false,
        Item::Range { .. } => false,
    }
}

fn is_in_memory(view: &View, shares: &Shares) -> bool
    ensures { (from : Origins) → OnTrue result (ViewLies from shares.now view.now) }
{
    match shares.get(view.slot) {
        Some(item) => has_in_memory(item, view.off, view.len),
        None => false,
    }
}

// Whether all views lie inside pieces in memory.
fn are_in_memory(views: &[View], shares: &Shares) -> bool
    ensures { (from : Origins) → OnTrue result
        (AllByRecursion (ViewLies from shares.now) views.now) }
{
    for view in views {
        if !is_in_memory(view, shares) {
            return false;
        }
    }
    true
}

// How many of these bytes are as they are to be from a place on, up to the first that isn't.
fn count_right(bytes: &[u8], place: u64) -> u64 {
    let mut right: u64 = 0;
    for byte in bytes {
        if u64::from(*byte) != place.wrapping_add(right) % 240 {
            return right;
        }
        right = right.wrapping_add(1);
    }
    right
}

// How many bytes are right where the views are read to their end in steps of a buffer.
fn right_bytes<D: PageDisk>(
    views: &ViewList,
    shares: &Shares,
    files: &FileTable,
    disk: &mut D,
    handles: &mut HandleTable,
    buffer: &mut [u8],
) -> u64
    requires closed { D.writing disk.old ≡ None }
    requires room { 0 < length buffer.old }
    requires lie { (from : Origins) → AllByRecursion (ViewLies from shares.now) views.now }
{
    let Ok(mut reader) = Reader::start(views.total(), 0, None) else {
        return 0;
    };
    let mut right: u64 = 0;
    for _turn in 0..1_000_000 {
        let end = reader.step(views, shares, files, disk, handles, buffer);
        let StepEnd::Bytes(count) = end else {
            return right;
        };
        let (front, _) = buffer.split_at(count.min(buffer.len()));
        right = right.saturating_add(count_right(front, right));
    }
    right
}

// How many bytes of so many views are right, in steps of `most` bytes.
fn read_many(rt: &HostRuntime, count: u32, most: usize) -> Result<u64, Fail>
    requires { 0 < most }
{
    let heap = rt.alloc();
    let mut shares = Shares::new(heap)?;
    let views = fill(heap, &mut shares, count)?;
    if !are_in_memory(views.as_slice(), &shares) {
        return Err(Fail::new("no views"));
    }
    let files = FileTable::new(heap)?;
    let mut disk = MemoryDisk::new(heap, Octets64::new(heap));
    let mut handles = HandleTable::new(heap, Vec::new(heap))?;
    let mut buffer = vec![in heap; 0u8; most]?;
    Ok(right_bytes(
        &views,
        &shares,
        &files,
        &mut disk,
        &mut handles,
        buffer.as_mut_slice(),
    ))
}

#[test]
fn ten_thousand_views_are_read(rt: HostRuntime) -> Result<(), Fail> {
    assert_eq!(rt; read_many(&rt, 10_000, 4_096)?, 160_000);
    Ok(())
}

#[test]
fn a_hundred_thousand_views_are_read(rt: HostRuntime) -> Result<(), Fail> {
    assert_eq!(rt; read_many(&rt, 100_000, 4_096)?, 1_600_000);
    Ok(())
}
