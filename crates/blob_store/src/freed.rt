//! What goes with the items that nothing views any more.
ghost use Rattle.std.specs.Prelude.{◌≡◌, ◌+◌, ◌-◌, ◌≤◌, ◌&&◌, List, fold, is_some, sum_by};
ghost use Rattle.std.specs.Option.{option_map_or};
ghost use Rattle.blob_store.specs.Closing.{LetsGo};
ghost use Rattle.data_handles.specs.Boxes.{of_table};
ghost use Rattle.data_handles.specs.Table.{is_claimed_at, object_at};
ghost use Rattle.page_disk.specs.declared.change.Change.{Change};
ghost use Rattle.page_files.specs.Files.{Agrees};
ghost use Rattle.store_laws.specs.Releasing.{released_by, AreReleasable};
ghost use Rattle.store_laws.specs.LetGo.{left_by, let_go_by};
ghost use Rattle.store_laws.specs.Weights.{memory_weight, piece_weight, reserved_weight};

use data_handles::{Boxed, DataHandle, HandleTable, SlotFault};
use item_shares::Item;
use page_files::PageFiles;
use quota_queue::Quota;
use recent_items::Recent;

// One item goes: its bytes are charged no more, and its piece is in no page file, job or order.
fn discharge_one(
    quota: &mut Quota,
    pages: &mut PageFiles,
    recent: &mut Recent,
    held: &mut u32,
    item: &Item,
)
    requires used { memory_weight item.now ≤ quota.old.used }
    requires reserved { reserved_weight item.now ≤ pages.old.reserved }
    requires held { piece_weight item.now ≤ held.old }
    ensures used { quota.new ≡ record quota.old { used = quota.old.used - memory_weight item.now } }
    ensures pages { pages.new ≡ let_go_by pages.old item.now }
    ensures recent { recent.new ≡ left_by recent.old item.now }
    ensures held { held.new + piece_weight item.now ≡ held.old }
    ensures agrees { (changes : List Change) → Agrees pages.old.pages changes
        → Agrees pages.new.pages changes }
{
    match item {
        Item::Memory { piece, bytes } => {
            quota.discharge(bytes.len() as u64);
            recent.leave(*piece);
            pages.strike(*piece);
            *held -= 1;
        }
        Item::Paged { piece, page, .. } => {
            pages.release_piece(*page, *piece);
            recent.leave(*piece);
            pages.strike(*piece);
            *held -= 1;
        }
        Item::Reserved { piece, len } => {
            pages.unreserve(*len);
            recent.leave(*piece);
            pages.strike(*piece);
            *held -= 1;
        }
        Item::File { .. } => {}
        Item::Range { .. } => {}
    }
}

/// An item goes, if there is one.
pub fn discharge_if(
    quota: &mut Quota,
    pages: &mut PageFiles,
    recent: &mut Recent,
    held: &mut u32,
    item: Option<Item>,
)
    requires used { option_map_or memory_weight item 0 ≤ quota.old.used }
    requires reserved { option_map_or reserved_weight item 0 ≤ pages.old.reserved }
    requires held { option_map_or piece_weight item 0 ≤ held.old }
    ensures used { quota.new ≡ record quota.old {
      used = quota.old.used - option_map_or memory_weight item 0;
    } }
    ensures pages { pages.new ≡ option_map_or (let_go_by pages.old) item pages.old }
    ensures recent { recent.new ≡ option_map_or (left_by recent.old) item recent.old }
    ensures held { held.new + option_map_or piece_weight item 0 ≡ held.old }
    ensures agrees { (changes : List Change) → Agrees pages.old.pages changes
        → Agrees pages.new.pages changes }
{
    if let Some(item) = &item {
        discharge_one(quota, pages, recent, held, item);
    }
}

/// The items go, one after the other: what was charged for them is charged no more.
pub fn discharge(
    quota: &mut Quota,
    pages: &mut PageFiles,
    recent: &mut Recent,
    held: &mut u32,
    freed: &[Item],
)
    requires used { sum_by memory_weight freed.now ≤ quota.old.used }
    requires reserved { sum_by reserved_weight freed.now ≤ pages.old.reserved }
    requires held { sum_by piece_weight freed.now ≤ held.old }
    ensures used { quota.new ≡ record quota.old {
      used = quota.old.used - sum_by memory_weight freed.now;
    } }
    ensures pages { pages.new ≡ fold let_go_by pages.old freed.now }
    ensures reserved { pages.new.reserved + sum_by reserved_weight freed.now ≡ pages.old.reserved }
    ensures recent { recent.new ≡ fold left_by recent.old freed.now }
    ensures held { held.new + sum_by piece_weight freed.now ≡ held.old }
    ensures agrees { (changes : List Change) → Agrees pages.old.pages changes
        → Agrees pages.new.pages changes }
{
    for item in freed {
        discharge_one(quota, pages, recent, held, item);
    }
}

/// The objects behind ranges that go are dropped, one after the other.
pub fn release(handles: &mut HandleTable, freed: &[Item])
    requires { AreReleasable (of_table ⟦<Boxed as DataHandle>⟧.seen handles.old) freed.now }
    ensures { of_table ⟦<Boxed as DataHandle>⟧.seen handles.new
        ≡ fold released_by (of_table ⟦<Boxed as DataHandle>⟧.seen handles.old) freed.now }
{
    for item in freed {
        if let Item::Range { slot, .. } = item {
            handles.release(*slot);
        }
    }
}

// Whether a slot was claimed and holds its object still.
fn holds_claimed(handles: &HandleTable, k: u32) -> bool
    ensures { result ≡ (is_claimed_at (of_table ⟦<Boxed as DataHandle>⟧.seen handles.now) k
        && is_some (object_at (of_table ⟦<Boxed as DataHandle>⟧.seen handles.now) k)) }
{
    matches!(handles.size_of(k), Err(SlotFault::Claimed)) && handles.held(k)
}

/// Each object whose slot was claimed is dropped.
pub fn release_claimed(handles: &mut HandleTable)
    ensures { LetsGo (of_table ⟦<Boxed as DataHandle>⟧.seen handles.old)
        (of_table ⟦<Boxed as DataHandle>⟧.seen handles.new) }
{
    for k in 0..handles.len() {
        if holds_claimed(handles, k) {
            handles.release(k);
        }
    }
}
