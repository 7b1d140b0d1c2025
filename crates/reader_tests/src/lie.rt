//! Whether views lie inside their items, where the disk tells nothing.
ghost use Rattle.std.specs.Prelude.{ℕ, ◌+◌, ◌-◌, ◌^◌, ◌≤◌, List, None, IsSomeAnd};
ghost use Rattle.std.specs.Bool.{OnTrue};
ghost use Rattle.std.specs.List.{AllByRecursion};
ghost use Rattle.data_handles.specs.Boxes.{of_table};
ghost use Rattle.data_handles.specs.Table.{object_at};
ghost use Rattle.file_table.specs.declared.file_note.FileNote.{FileNote};
ghost use Rattle.range_reader.specs.Bytes.{origins};
ghost use Rattle.range_reader.specs.Places.{Lies, ViewLies};

use blob_items::View;
use data_handles::{Boxed, DataHandle, HandleTable};
use item_shares::{Item, Shares};

/// Whether so many bytes from a place on are inside so many.
pub fn fits(off: u64, len: u64, size: u64) -> bool
    ensures { OnTrue result (off + len ≤ size) }
{
    off <= size && len <= size - off
}

fn object_has(handles: &HandleTable, slot: u32, off: u64, len: u64) -> bool
    ensures { OnTrue result ((off + len ≤ 2 ^ 64 - 1)
        × IsSomeAnd (object_at (of_table ⟦<Boxed as DataHandle>⟧.seen handles.now) slot)
        (λ handle. off + len ≤ handle.size)) }
{
    match handles.size_of(slot) {
        Ok(size) => fits(off, len, size),
        Err(_) => false,
    }
}

fn item_lies(item: &Item, off: u64, len: u64, handles: &HandleTable) -> bool
    ensures { (files : List (List ℕ × FileNote)) → OnTrue result
        (Lies (origins files None (of_table ⟦<Boxed as DataHandle>⟧.seen handles.now)) off len
        item.now) }
{
    match item {
        Item::Memory { bytes, .. } => fits(off, len, bytes.len() as u64),
        Item::Paged {
            off: start,
            len: size,
            ..
        } => fits(*start, *size, u64::MAX) && fits(off, len, *size),
        Item::Reserved { .. } => false,
        Item::File { len: size, .. } => fits(off, len, *size),
        Item::Range {
            slot,
            off: start,
            len: size,
        } => object_has(handles, *slot, *start, *size) && fits(off, len, *size),
    }
}

fn view_lies(view: &View, shares: &Shares, handles: &HandleTable) -> bool
    ensures { (files : List (List ℕ × FileNote)) → OnTrue result
        (ViewLies (origins files None (of_table ⟦<Boxed as DataHandle>⟧.seen handles.now))
        shares.now view.now) }
{
    match shares.get(view.slot) {
        Some(item) => item_lies(item, view.off, view.len, handles),
        None => false,
    }
}

/// Whether all views lie inside their items.
pub fn views_lie(views: &[View], shares: &Shares, handles: &HandleTable) -> bool
    ensures { (files : List (List ℕ × FileNote)) → OnTrue result (AllByRecursion
        (ViewLies (origins files None (of_table ⟦<Boxed as DataHandle>⟧.seen handles.now))
        shares.now) views.now) }
{
    for view in views {
        if !view_lies(view, shares, handles) {
            return false;
        }
    }
    true
}
