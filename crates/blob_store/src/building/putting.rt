//! How an item comes under a slot.
ghost use Rattle.std.specs.Prelude.{◌≡◌, ◌+◌, ◌-◌, ◌<◌, ◌≤◌, ◌^◌, OnOk};
ghost use Rattle.blob_items.specs.Cells.{total};
ghost use Rattle.store_laws.specs.Items.{item_length};
ghost use Rattle.blob_store.specs.Putting.{Puts};

use blob_items::{View, ViewList};
use blob_words::NoMemory;
use item_shares::{Item, Shares};

// The number of bytes of an item.
fn item_length(item: &Item) -> u64
    ensures { result ≡ item_length item.now }
{
    match item {
        Item::Memory { bytes, .. } => bytes.len() as u64,
        Item::Paged { len, .. } => *len,
        Item::Reserved { len, .. } => *len,
        Item::File { len, .. } => *len,
        Item::Range { len, .. } => *len,
    }
}

/// An item comes, with one view of all its bytes.
pub fn put_item(shares: &mut Shares, item: Item, views: &mut ViewList) -> Result<(), NoMemory>
    requires some { 0 < item_length item }
    requires fits { total views.old + item_length item ≤ 2 ^ 64 - 1 }
    ensures puts { OnOk result (Puts item shares.old views.old shares.new views.new) }
    ensures total { OnOk result (total views.new ≡ total views.old + item_length item) }
{
    let len = item_length(&item);
    let slot = shares.add(item)?;
    views.push(View { slot, off: 0, len })?;
    Ok(())
}
