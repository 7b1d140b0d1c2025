//! The pieces that a read uses.
ghost use Rattle.std.specs.Prelude.{◌≡◌, ◌+◌, ◌<◌, ◌≤◌, drop, take};
ghost use Rattle.std.specs.Option.{option_copied};
ghost use Rattle.blob_items.specs.Cells.{cells, total};
ghost use Rattle.item_shares.specs.Shares.{item_at};
ghost use Rattle.store_laws.specs.StepLaws.{memory_number, read_numbers, touched_all};

use blob_items::{View, ViewList};
use item_shares::{Item, Shares};
use recent_items::Recent;

// The piece of what a slot holds, where it is in memory, is the last one used.
fn touch_slot(recent: &mut Recent, shares: &Shares, slot: usize)
    ensures { recent.new
        ≡ touched_all recent.old (memory_number (item_at shares.now slot)) }
{
    if let Some(Item::Memory { piece, .. }) = shares.get(slot) {
        recent.touch(*piece);
    }
}

// Each piece in memory that has some of these bytes of views is the last one used, in the order of
// the bytes: so many, from a byte of the view at `first` on.
fn touch_views(
    recent: &mut Recent,
    shares: &Shares,
    views: &[View],
    first: usize,
    skipped: u64,
    count: u64,
)
    requires within { skipped < total (take 1 (drop first views.now)) }
    requires room { skipped + count ≤ total (drop first views.now) }
    ensures { recent.new ≡ touched_all recent.old (read_numbers shares.now
        (take count (drop skipped (cells (drop first views.now))))) }
{
    let mut place = first;
    let mut skip = skipped;
    let mut left = count;
    while left > 0 {
        let view = views[place];
        touch_slot(recent, shares, view.slot);
        left -= (view.len - skip).min(left);
        place += 1;
        skip = 0;
    }
}

/// Each piece in memory that has some of the bytes from a place on, so many, is the last one used.
pub(crate) fn touch_read(
    recent: &mut Recent,
    shares: &Shares,
    views: &ViewList,
    place: u64,
    count: u64,
)
    requires some { 0 < count }
    requires room { place + count ≤ total views.now }
    ensures { recent.new ≡ touched_all recent.old (read_numbers shares.now
        (take count (drop place (cells views.now)))) }
{
    let (first, skipped) = views.find(place).unwrap();
    touch_views(recent, shares, views.as_slice(), first, skipped, count);
}
