//! A range of bytes of one item, from where they are.
ghost use Rattle.std.specs.Prelude.{◌≡◌, ◌+◌, ◌-◌, ◌^◌, ◌<◌, ◌≤◌, None, [], drop, length, min};
ghost use Rattle.std.specs.Prelude.{take, unwrap_or, IfErr, OnOk};
ghost use Rattle.std.specs.Result.{is_ok};
ghost use Rattle.file_table.specs.Files.{content_of, is_readable, state_of};
ghost use Rattle.data_handles.specs.Boxes.{of_table};
ghost use Rattle.range_reader.specs.Bytes.{origins};
ghost use Rattle.range_reader.specs.Places.{Lies};
ghost use Rattle.range_reader.specs.Steps.{asked};
ghost use Rattle.range_reader.specs.Parts.{ItemFails, ItemRead};

use blob_words::{Failed, FileName, PageNo};
use data_handles::{Boxed, DataHandle, HandleTable};
use file_table::{Changed, FileTable};
use item_shares::Item;
use page_disk::PageDisk;

/// Why bytes of an item were not read.
#[derive(Clone, Copy, Debug)]
pub enum ItemFault {
    /// The file isn't at the item's stamp, or is too short.
    Changed,
    /// The disk failed at this page.
    Page(PageNo),
    /// The object in this slot failed.
    Handle(u32),
}

fn copy_from(bytes: &[u8], place: u64, out: &mut [u8])
    requires { place + length out.old ≤ length bytes.now }
    ensures { out.new ≡ take (length out.old) (drop place bytes.now) }
{
    let start = place as usize;
    out.copy_from_slice(&bytes[start..start + out.len()]);
}

// Reads a file that is recorded, from `off` and `place` together on, which may pass what a number
// holds.
fn read_file(
    files: &FileTable,
    name: &FileName,
    stamp: u64,
    off: u64,
    place: u64,
    out: &mut [u8],
) -> Result<(), Changed>
    ensures cause { is_ok result
        ≡ is_readable stamp (off + place + length out.old) (state_of name.now files.now) }
    ensures bytes { OnOk result (out.new
        ≡ take (length out.old) (drop (off + place)
        (unwrap_or (content_of name.now files.now) []))) }
{
    match off.checked_add(place) {
        Some(start) => files.read_range(name, stamp, start, out),
        None => {
            let _state = files.state(name); // its length is less
            Err(Changed)
        }
    }
}

/// Fills `out` with the bytes of an item from a place on, by at most one call of the disk or of the
/// handles.
pub fn read_item<D: PageDisk>(
    item: &Item,
    place: u64,
    files: &FileTable,
    disk: &mut D,
    handles: &mut HandleTable,
    out: &mut [u8],
) -> Result<(), ItemFault>
    requires closed { D.writing disk.old ≡ None }
    requires some { 0 < length out.old }
    requires fits { place + length out.old ≤ 2 ^ 64 - 1 }
    requires lies { Lies (origins files.now (D.changes disk.old)
        (of_table ⟦<Boxed as DataHandle>⟧.seen handles.old))
        place (length out.old) item.now }
    ensures closed { D.writing disk.new ≡ None }
    ensures same { D.changes disk.new ≡ D.changes disk.old }
    ensures ok { OnOk result (ItemRead
        (asked files.now (D.changes disk.old) (of_table ⟦<Boxed as DataHandle>⟧.seen handles.old)
        (D.faults disk.old) (D.meter disk.old))
        (asked files.now (D.changes disk.new) (of_table ⟦<Boxed as DataHandle>⟧.seen handles.new)
        (D.faults disk.new) (D.meter disk.new)) item.now place out.new) }
    ensures err { IfErr result (ItemFails
        (asked files.now (D.changes disk.old) (of_table ⟦<Boxed as DataHandle>⟧.seen handles.old)
        (D.faults disk.old) (D.meter disk.old))
        (asked files.now (D.changes disk.new) (of_table ⟦<Boxed as DataHandle>⟧.seen handles.new)
        (D.faults disk.new) (D.meter disk.new)) item.now place (length out.old)) }
    ensures later { D.faults disk.old ≤ D.faults disk.new }
    ensures meter { min (D.meter disk.old) (2 ^ 64 - 1) ≤ D.meter disk.new }
{
    match item {
        Item::Memory { bytes, .. } => {
            copy_from(bytes.as_slice(), place, out);
            Ok(())
        }
        Item::Paged { page, off, .. } => match disk.get(*page, *off + place, out) {
            Ok(()) => Ok(()),
            Err(Failed) => Err(ItemFault::Page(*page)),
        },
        Item::Reserved { .. } => unreachable!(),
        Item::File {
            name,
            stamp,
            off,
            ..
        } => match read_file(files, name, *stamp, *off, place, out) {
            Ok(()) => Ok(()),
            Err(Changed) => Err(ItemFault::Changed),
        },
        Item::Range { slot, off, .. } => match handles.read(*slot, *off + place, out) {
            Ok(()) => Ok(()),
            Err(Failed) => Err(ItemFault::Handle(*slot)),
        },
    }
}
