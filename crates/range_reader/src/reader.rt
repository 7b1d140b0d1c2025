ghost use Rattle.std.specs.Prelude.{◌≡◌, ◌+◌, ◌-◌, ◌^◌, ◌<◌, ◌≤◌, None, length, min, IfErr, IfOk};
ghost use Rattle.std.specs.Option.{option_map_or};
ghost use Rattle.std.specs.List.{AllByRecursion};
ghost use Rattle.blob_items.specs.Cells.{total};
ghost use Rattle.data_handles.specs.Boxes.{of_table};
ghost use Rattle.range_reader.specs.Bytes.{origins};
ghost use Rattle.range_reader.specs.Places.{ViewLies};
ghost use Rattle.range_reader.specs.Steps.{asked};
ghost use Rattle.range_reader.specs.Ends.{StepEnds};

use crate::step_end::{Range, StepEnd};
use crate::views::read_views;
use blob_items::ViewList;
use data_handles::{Boxed, DataHandle, HandleTable};
use file_table::FileTable;
use item_shares::Shares;
use page_disk::PageDisk;
use std::marker::Model;

/// Reads a range of a blob from its first byte to its last, step by step. Contracts see a `Course`:
/// the size of the blob, the place of the next byte, and the place behind the range.
#[derive(Debug, Drop)]
pub struct Reader {
    size: u64,
    place: u64,
    stop: u64,
    // The last view that was read: the next byte is in it or in the one behind it.
    near: usize,
}

impl Model for Reader {
    ghost use Rattle.std.specs.Prelude.{◌≤◌};
    ghost use Rattle.range_reader.specs.Places.{Course};

    ghost Value = { Course };

    ghost view = { λ reader. record {
      size = reader.size;
      place = reader.place;
      stop = reader.stop;
    } };

    ghost invariant = { λ reader. (reader.place ≤ reader.stop) × (reader.stop ≤ reader.size) };
}

impl Reader {
    /// A reader of `len` bytes from `off` on, or of all from there on, in a blob of this size.
    pub fn start(size: u64, off: u64, len: Option<u64>) -> Result<Reader, Range>
        ensures ok { IfOk result (λ reader. (off + option_map_or (λ count. count) len 0 ≤ size)
            × (reader ≡ record {
              size = size;
              place = off;
              stop = option_map_or (λ count. off + count) len size;
            })) }
        ensures range { IfErr result (λ fault. (size < off + option_map_or (λ count. count) len 0)
            × (fault.size ≡ size)) }
    {
        let Some(stop) = off.checked_add(len.unwrap_or(0)) else {
            return Err(Range { size });
        };
        if stop > size {
            return Err(Range { size });
        }
        Ok(Reader {
            size,
            place: off,
            stop: if len.is_some() { stop } else { size },
            near: 0,
        })
    }

    /// The place of the next byte in the blob.
    pub fn place(&self) -> u64
        ensures place { result ≡ self.now.place }
        ensures within { self.now.place ≤ self.now.stop }
    {
        self.place
    }

    /// How many bytes of the range were not read yet.
    pub fn left(&self) -> u64
        ensures { result ≡ self.now.stop - self.now.place }
    {
        self.stop - self.place
    }

    /// Reads the next bytes of the range into the front of `out`, as many as it has room for. The
    /// first view that fails is the answer; the views behind it are not looked at.
    pub fn step<D: PageDisk>(
        &mut self,
        views: &ViewList,
        shares: &Shares,
        files: &FileTable,
        disk: &mut D,
        handles: &mut HandleTable,
        out: &mut [u8],
    ) -> StepEnd
        requires closed { D.writing disk.old ≡ None }
        requires room { 0 < length out.old }
        requires size { total views.now ≡ self.old.size }
        requires lie { AllByRecursion (ViewLies
            (origins files.now (D.changes disk.old)
            (of_table ⟦<Boxed as DataHandle>⟧.seen handles.old)) shares.now)
            views.now }
        ensures closed { D.writing disk.new ≡ None }
        ensures same { D.changes disk.new ≡ D.changes disk.old }
        ensures ends { StepEnds shares.now views.now (length out.old) self.old self.new
            (asked files.now (D.changes disk.old)
            (of_table ⟦<Boxed as DataHandle>⟧.seen handles.old)
            (D.faults disk.old) (D.meter disk.old))
            (asked files.now (D.changes disk.new)
            (of_table ⟦<Boxed as DataHandle>⟧.seen handles.new)
            (D.faults disk.new) (D.meter disk.new)) out.new result }
        ensures later { D.faults disk.old ≤ D.faults disk.new }
        ensures meter { min (D.meter disk.old) (2 ^ 64 - 1) ≤ D.meter disk.new }
    {
        let left = self.stop - self.place;
        if left == 0 {
            return StepEnd::End;
        }
        let count = left.min(out.len() as u64) as usize;
        let Some((first, skipped)) = views.find_near(self.near, self.place) else {
            return StepEnd::End;
        };
        match read_views(
            views.as_slice(),
            first,
            skipped,
            shares,
            files,
            disk,
            handles,
            &mut out[..count],
        ) {
            Ok(near) => {
                self.place += count as u64;
                self.near = near;
                StepEnd::Bytes(count)
            }
            Err(stop) => stop.end(),
        }
    }
}
