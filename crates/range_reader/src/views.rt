//! Bytes of views, one view after the other.
ghost use Rattle.std.specs.Prelude.{◌≡◌, ◌+◌, ◌-◌, ◌^◌, ◌<◌, ◌≤◌, None, drop, length, min, take};
ghost use Rattle.std.specs.Prelude.{IfErr, IsSomeAnd, OnOk};
ghost use Rattle.std.specs.List.{AllByRecursion};
ghost use Rattle.item_shares.specs.Shares.{item_at};
ghost use Rattle.blob_items.specs.Cells.{cells, total};
ghost use Rattle.data_handles.specs.Boxes.{of_table};
ghost use Rattle.range_reader.specs.Bytes.{origins};
ghost use Rattle.range_reader.specs.Places.{Lies, ViewLies};
ghost use Rattle.range_reader.specs.Steps.{asked, AreRead};
ghost use Rattle.range_reader.specs.Parts.{ItemFails, ItemRead};
ghost use Rattle.range_reader.specs.Ends.{Stops, end_of};

use crate::item::{ItemFault, read_item};
use crate::step_end::StepEnd;
use blob_items::View;
use data_handles::{Boxed, DataHandle, HandleTable};
use file_table::FileTable;
use item_shares::{Item, Shares};
use page_disk::PageDisk;

/// The view at which a read stopped, by its place in the list, and why.
#[derive(Clone, Copy, Debug)]
pub struct Stop {
    pub view: usize,
    pub fault: ItemFault,
}

impl Stop {
    /// The answer of a step that stops here.
    pub fn end(self) -> StepEnd
        ensures { result ≡ end_of self.view self.fault }
    {
        match self.fault {
            ItemFault::Changed => StepEnd::FileChanged(self.view),
            ItemFault::Page(page) => StepEnd::PageFault(page),
            ItemFault::Handle(slot) => StepEnd::HandleFault(slot),
        }
    }
}

// Reads a part of an item into its place in `out`.
fn read_at<D: PageDisk>(
    item: &Item,
    place: u64,
    files: &FileTable,
    disk: &mut D,
    handles: &mut HandleTable,
    out: &mut [u8],
    start: usize,
    size: usize,
) -> Result<(), ItemFault>
    requires closed { D.writing disk.old ≡ None }
    requires some { 0 < size }
    requires inside { start + size ≤ length out.old }
    requires fits { place + size ≤ 2 ^ 64 - 1 }
    requires lies { Lies (origins files.now (D.changes disk.old)
        (of_table ⟦<Boxed as DataHandle>⟧.seen handles.old))
        place size item.now }
    ensures closed { D.writing disk.new ≡ None }
    ensures same { D.changes disk.new ≡ D.changes disk.old }
    ensures ok { OnOk result (ItemRead
        (asked files.now (D.changes disk.old) (of_table ⟦<Boxed as DataHandle>⟧.seen handles.old)
        (D.faults disk.old) (D.meter disk.old))
        (asked files.now (D.changes disk.new) (of_table ⟦<Boxed as DataHandle>⟧.seen handles.new)
        (D.faults disk.new) (D.meter disk.new)) item.now place (take size (drop start out.new))) }
    ensures front { OnOk result (take start out.new ≡ take start out.old) }
    ensures err { IfErr result (ItemFails
        (asked files.now (D.changes disk.old) (of_table ⟦<Boxed as DataHandle>⟧.seen handles.old)
        (D.faults disk.old) (D.meter disk.old))
        (asked files.now (D.changes disk.new) (of_table ⟦<Boxed as DataHandle>⟧.seen handles.new)
        (D.faults disk.new) (D.meter disk.new)) item.now place size) }
    ensures later { D.faults disk.old ≤ D.faults disk.new }
    ensures meter { min (D.meter disk.old) (2 ^ 64 - 1) ≤ D.meter disk.new }
{
    read_item(
        item,
        place,
        files,
        disk,
        handles,
        &mut out[start..start + size],
    )
}

/// Fills `out` with the bytes of views, from a byte of the view at `first` on. Each view that has
/// some of them is read by at most one call of the disk or of the handles, and none behind one that
/// fails. Answers the place of the last view that was read.
pub fn read_views<D: PageDisk>(
    views: &[View],
    first: usize,
    skipped: u64,
    shares: &Shares,
    files: &FileTable,
    disk: &mut D,
    handles: &mut HandleTable,
    out: &mut [u8],
) -> Result<usize, Stop>
    requires closed { D.writing disk.old ≡ None }
    requires lie { AllByRecursion (ViewLies
        (origins files.now (D.changes disk.old)
        (of_table ⟦<Boxed as DataHandle>⟧.seen handles.old)) shares.now)
        views.now }
    requires room { skipped + length out.old ≤ total (drop first views.now) }
    requires within { skipped < total (take 1 (drop first views.now)) }
    ensures closed { D.writing disk.new ≡ None }
    ensures same { D.changes disk.new ≡ D.changes disk.old }
    ensures ok { OnOk result (AreRead shares.now
        (asked files.now (D.changes disk.old) (of_table ⟦<Boxed as DataHandle>⟧.seen handles.old)
        (D.faults disk.old) (D.meter disk.old))
        (asked files.now (D.changes disk.new) (of_table ⟦<Boxed as DataHandle>⟧.seen handles.new)
        (D.faults disk.new) (D.meter disk.new))
        (take (length out.old) (drop skipped (cells (drop first views.now)))) out.new) }
    ensures err { IfErr result (λ stop. Stops shares.now views.now
        (asked files.now (D.changes disk.old) (of_table ⟦<Boxed as DataHandle>⟧.seen handles.old)
        (D.faults disk.old) (D.meter disk.old))
        (asked files.now (D.changes disk.new) (of_table ⟦<Boxed as DataHandle>⟧.seen handles.new)
        (D.faults disk.new) (D.meter disk.new))
        (total (take first views.now) + skipped)
        (take (length out.old) (drop skipped (cells (drop first views.now)))) stop.view
        stop.fault) }
    ensures later { D.faults disk.old ≤ D.faults disk.new }
    ensures meter { min (D.meter disk.old) (2 ^ 64 - 1) ≤ D.meter disk.new }
{
    let mut place = first;
    let mut skip = skipped;
    let mut done = 0;
    while done < out.len() {
        let view = views[place];
        let size = (view.len - skip).min((out.len() - done) as u64) as usize;
        let Some(item) = shares.get(view.slot) else {
            unreachable!()
        };
        match read_at(item, view.off + skip, files, disk, handles, out, done, size) {
            Ok(()) => {
                done += size;
                place += 1;
                skip = 0;
            }
            Err(fault) => return Err(Stop { view: place, fault }),
        }
    }
    Ok(place.saturating_sub(1))
}
