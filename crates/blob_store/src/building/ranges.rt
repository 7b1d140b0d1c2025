//! The items of the ranges of files and data handles.
ghost use Rattle.std.specs.Prelude.{◌≡◌, ◌+◌, ◌≤◌, ◌^◌, IfOk, OnOk};
ghost use Rattle.blob_items.specs.Cells.{total};
ghost use Rattle.blob_model.specs.Parts.{part_length, parts_length};
ghost use Rattle.store_laws.specs.NewItems.{part_items, range_items};
ghost use Rattle.blob_store.specs.Putting.{ArePut, PutAll};

use super::putting::put_item;
use blob_items::ViewList;
use blob_words::NoMemory;
use item_shares::{Item, Shares};
use session_script::Part;
use std::alloc::Global;

// Puts the range of a part, where it has one that isn't empty.
fn put_range(
    alloc: Global,
    shares: &mut Shares,
    part: &Part,
    views: &mut ViewList,
) -> Result<(), NoMemory>
    requires { total views.old + part_length part.now ≤ 2 ^ 62 }
    ensures puts { OnOk result
        (PutAll (part_items part.now) shares.old views.old shares.new views.new) }
    ensures total { OnOk result (total views.new ≤ total views.old + part_length part.now) }
{
    match part {
        Part::FileRange {
            name,
            off,
            len,
            stamp,
        } => {
            if *len == 0 {
                return Ok(());
            }
            let item = Item::File {
                name: name.copy(alloc)?,
                stamp: *stamp,
                off: *off,
                len: *len,
            };
            put_item(shares, item, views)
        }
        Part::HandleRange { k, off, len } => {
            if *len == 0 {
                return Ok(());
            }
            let item = Item::Range {
                slot: *k,
                off: *off,
                len: *len,
            };
            put_item(shares, item, views)
        }
        _ => Ok(()),
    }
}

/// The ranges of the parts that aren't empty, each under a slot with one view.
pub fn put_ranges(alloc: Global, shares: &mut Shares, parts: &[Part]) -> Result<ViewList, NoMemory>
    requires { parts_length parts.now ≤ 2 ^ 62 }
    ensures { IfOk result (λ views. ArePut shares.old (range_items parts.now) views shares.new) }
{
    let mut views = ViewList::new(alloc);
    for part in parts {
        put_range(alloc, shares, part, &mut views)?;
    }
    Ok(views)
}
