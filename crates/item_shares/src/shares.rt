ghost use Rattle.std.specs.Prelude.{ℕ, ◌≡◌, ◌≢◌, ◌+◌, ◌-◌, ◌^◌, ◌<◌, [], None, Some, IfOk, IfSome, IsSome, IsSomeAnd, OnErr, OnOk};
ghost use Rattle.std.specs.Option.{option_copied, option_map_or};
ghost use Rattle.item_shares.specs.Shares.{AreViewed, HoldsPiece, Changes, item_at, paged_item, share_at, share_of};
ghost use Rattle.item_shares.specs.Weights.{weights};

use crate::item::Item;
use blob_words::{NoMemory, PageNo};
use slab::Slab;
use std::alloc::Global;
use std::marker::Model;

// An item and the number of views on it.
#[derive(Debug, Drop)]
pub struct Share {
    item: Item,
    count: u64,
}

/// Items under slots, each with a count of the views on it. An item stands while its count is
/// above 0. Contracts see what each slot holds.
#[derive(Debug, Drop)]
pub struct Shares {
    slots: Slab<Share>,
}

impl Model for Shares {
    ghost use Rattle.std.specs.Prelude.{List, Option};
    ghost use Rattle.item_shares.specs.declared.shares.Share.{Share};
    ghost use Rattle.item_shares.specs.Shares.{AreViewed};

    ghost Value = { List (Option Share) };

    ghost view = { λ shares. shares.slots.slots };

    ghost invariant = { λ shares. AreViewed shares.slots.slots };
}

impl Shares {
    ghost use Rattle.item_shares.specs.declared.item.Item.{Item};

    /// No items.
    pub fn new(alloc: Global) -> Result<Shares, NoMemory>
        ensures { IfOk result (λ shares. shares ≡ []) }
    {
        Ok(Shares {
            slots: Slab::new(alloc),
        })
    }

    /// Puts an item, with one view on it, into a slot that was vacant.
    pub fn add(&mut self, item: Item) -> Result<usize, NoMemory>
        ensures vacant { IfOk result (λ slot. share_at self.old slot ≡ None) }
        ensures ok { IfOk result (λ slot. Changes self.old self.new slot (Some (share_of item 1))) }
        ensures weighs { OnOk result ((weight : Item → ℕ)
            → weights weight self.new ≡ weights weight self.old + weight item) }
        ensures err { OnErr result (self.new ≡ self.old) }
    {
        let slot = self.slots.insert(Share { item, count: 1 })?;
        Ok(slot)
    }

    /// Counts one more view on the item of a slot.
    pub fn share(&mut self, slot: usize)
        requires { IsSomeAnd (share_at self.old slot) (λ share. share.count < 2 ^ 32) }
        ensures more { IfSome (share_at self.old slot) (λ share.
            Changes self.old self.new slot (Some (share_of share.item (share.count + 1)))) }
        ensures weighs { (weight : Item → ℕ) → weights weight self.new ≡ weights weight self.old }
    {
        if let Some(share) = self.slots.get_mut(slot) {
            share.count += 1;
        }
    }

    /// Counts one view less on the item of a slot, and hands the item out with the last one.
    pub fn release(&mut self, slot: usize) -> Option<Item>
        requires { IsSome (share_at self.old slot) }
        ensures last { IfSome (share_at self.old slot) (λ share. share.count ≡ 1
            → (result ≡ Some share.item) × Changes self.old self.new slot None) }
        ensures others { IfSome (share_at self.old slot) (λ share. share.count ≢ 1
            → (result ≡ None)
            × Changes self.old self.new slot (Some (share_of share.item (share.count - 1)))) }
        ensures counted { IfSome (share_at self.old slot) (λ share. 0 < share.count) }
        ensures weighs { (weight : Item → ℕ)
            → weights weight self.new + option_map_or weight result 0 ≡ weights weight self.old }
    {
        if let Some(share) = self.slots.get_mut(slot) {
            if share.count > 1 {
                share.count -= 1;
                return None;
            }
        }
        match self.slots.try_remove(slot) {
            Some(Share { item, .. }) => Some(item),
            None => None,
        }
    }

    /// A number above every slot that holds an item.
    pub fn end(&self) -> usize
        ensures above { (slot : ℕ) → IsSome (share_at self.now slot) → slot < result }
        ensures counts { AreViewed self.now }
    {
        self.slots.capacity()
    }

    /// The item of a slot, if it holds one.
    pub fn get(&self, slot: usize) -> Option<&Item>
        ensures item { option_copied result ≡ item_at self.now slot }
        ensures counts { AreViewed self.now }
    {
        let share = self.slots.get(slot)?;
        Some(&share.item)
    }

    /// Says that the piece of a slot is now in a page file, from `off` on. Its bytes in memory go.
    pub fn turn_paged(&mut self, slot: usize, page: PageNo, off: u64)
        requires { IsSomeAnd (item_at self.old slot) HoldsPiece }
        ensures { IfSome (share_at self.old slot) (λ share. Changes self.old self.new slot
            (Some (share_of (paged_item share.item page off) share.count))) }
    {
        let Some(share) = self.slots.get_mut(slot) else {
            return;
        };
        let (piece, len) = match &share.item {
            Item::Memory { piece, bytes } => (*piece, bytes.len() as u64),
            Item::Paged { piece, len, .. } => (*piece, *len),
            Item::Reserved { piece, len } => (*piece, *len),
            Item::File { .. } => return,
            Item::Range { .. } => return,
        };
        share.item = Item::Paged {
            piece,
            page,
            off,
            len,
        };
    }
}
