ghost use Rattle.std.specs.Prelude.{ℕ, ◌≡◌, ◌+◌, ◌^◌, ◌<◌, ◌≤◌, ◌++◌, [], length, sum_by, OnOk};
ghost use Rattle.item_shares.specs.Shares.{item_at};
ghost use Rattle.item_shares.specs.Weights.{weights};
ghost use Rattle.item_shares.specs.declared.item.Item.{Item};
ghost use Rattle.blob_entries.specs.Counts.{count_at, freed_at, freed_by, one_at, views_on};

use blob_items::View;
use blob_words::{ItemList, NoMemory};
use item_shares::{Item, Shares};

/// Items, in the order in which they were let go.
pub type Items = ItemList<Item>;

/// Counts a view more for each of these.
pub fn share_all(shares: &mut Shares, views: &[View])
    requires { (slot : ℕ) → 0 < views_on slot views.now
        → (0 < count_at shares.old slot) × (count_at shares.old slot + length views.now ≤ 2 ^ 32) }
    ensures counts { (slot : ℕ)
        → count_at shares.new slot ≡ count_at shares.old slot + views_on slot views.now }
    ensures items { (slot : ℕ) → item_at shares.new slot ≡ item_at shares.old slot }
{
    for view in views {
        shares.share(view.slot);
    }
}

// Counts a view less on a slot, and keeps its item where that was the last.
fn release_one(shares: &mut Shares, slot: usize, freed: &mut Items) -> Result<(), NoMemory>
    requires { 0 < count_at shares.old slot }
    ensures counts { OnOk result ((other : ℕ)
        → count_at shares.new other + one_at slot other ≡ count_at shares.old other) }
    ensures items { OnOk result ((other : ℕ) → 0 < count_at shares.new other
        → item_at shares.new other ≡ item_at shares.old other) }
    ensures freed { OnOk result (freed.new ≡ freed.old ++ freed_at shares.old slot 0) }
    ensures weighs { OnOk result ((weight : Item → ℕ)
        → sum_by weight freed.new + weights weight shares.new
        ≡ sum_by weight freed.old + weights weight shares.old) }
{
    match shares.release(slot) {
        Some(item) => freed.push(item),
        None => Ok(()),
    }
}

/// Counts a view less for each of these, and keeps the items whose last view went.
pub fn release_all(shares: &mut Shares, views: &[View], freed: &mut Items) -> Result<(), NoMemory>
    requires { (slot : ℕ) → views_on slot views.now ≤ count_at shares.old slot }
    ensures counts { OnOk result ((slot : ℕ)
        → count_at shares.new slot + views_on slot views.now ≡ count_at shares.old slot) }
    ensures items { OnOk result ((slot : ℕ) → 0 < count_at shares.new slot
        → item_at shares.new slot ≡ item_at shares.old slot) }
    ensures freed { OnOk result (freed.new ≡ freed.old ++ freed_by shares.old [] views.now) }
    ensures weighs { OnOk result ((weight : Item → ℕ)
        → sum_by weight freed.new + weights weight shares.new
        ≡ sum_by weight freed.old + weights weight shares.old) }
{
    for view in views {
        release_one(shares, view.slot, freed)?;
    }
    Ok(())
}
