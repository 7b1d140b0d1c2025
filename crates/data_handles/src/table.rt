ghost use Rattle.std.specs.Prelude.{◌≡◌, ◌+◌, ◌≤◌, true, is_some, length, map, vec_len, None, IfOk, IsSome, IsSomeAnd};
ghost use Rattle.blob_words.specs.declared.bounds.TheConstants.{MOST_HANDLES};
ghost use Rattle.data_handles.specs.Calls.{CanClaim, Claims, Reads};
ghost use Rattle.data_handles.specs.Table.{count_of, is_claimed_at, new_table, object_at, released_at, KeepsOthers};

use crate::boxed::Boxed;
use crate::fault::SlotFault;
use crate::handle::DataHandle;
use crate::slots::Slots;
use blob_words::{Failed, NoMemory};
use std::alloc::Global;

/// Objects in slots, numbered from 0. Contracts see the slots with what each object is seen as, and
/// the count of the objects that were dropped.
#[derive(Drop)]
pub struct HandleTable {
    slots: Slots<Boxed>,
}

// Each object in the form of a table.
fn boxed(alloc: Global, objects: Vec<Box<dyn DataHandle>>) -> Result<Vec<Boxed>, NoMemory>
    ensures { IfOk result (λ boxes. map ⟦<Boxed as DataHandle>⟧.seen boxes.items
        ≡ map (λ object. seen object) objects.items) }
{
    let mut boxes = Vec::with_capacity(alloc, objects.len())?;
    for object in objects {
        boxes.push(Boxed::new(object))?;
    }
    Ok(boxes)
}

impl HandleTable {
    ghost use Rattle.data_handles.specs.Boxes.{of_table};

    /// A table of these objects: slot k holds object k and isn't claimed.
    pub fn new(alloc: Global, objects: Vec<Box<dyn DataHandle>>) -> Result<HandleTable, NoMemory>
        requires { vec_len objects ≤ MOST_HANDLES }
        ensures { IfOk result (λ table. of_table ⟦<Boxed as DataHandle>⟧.seen table
            ≡ new_table (map (λ object. seen object) objects.items)) }
    {
        let boxes = boxed(alloc, objects)?;
        let slots = Slots::new(alloc, boxes)?;
        Ok(HandleTable { slots })
    }

    /// The size of the object in a slot that can be claimed.
    pub fn size_of(&self, k: u32) -> Result<u64, SlotFault>
        ensures { CanClaim (of_table ⟦<Boxed as DataHandle>⟧.seen self.now) k result }
    {
        self.slots.size_of(k)
    }

    /// Claims a slot, once, and answers the size of its object.
    pub fn claim(&mut self, k: u32) -> Result<u64, SlotFault>
        ensures claims { Claims (of_table ⟦<Boxed as DataHandle>⟧.seen self.old) k result
            (of_table ⟦<Boxed as DataHandle>⟧.seen self.new) }
        ensures others { KeepsOthers k (of_table ⟦<Boxed as DataHandle>⟧.seen self.old)
            (of_table ⟦<Boxed as DataHandle>⟧.seen self.new) }
    {
        self.slots.claim(k)
    }

    /// Fills `out` with the bytes of the object in a slot from `off` on.
    pub fn read(&mut self, k: u32, off: u64, out: &mut [u8]) -> Result<(), Failed>
        requires { IsSomeAnd (object_at (of_table ⟦<Boxed as DataHandle>⟧.seen self.old) k)
            (λ handle. off + length out.old ≤ handle.size) }
        ensures reads { Reads (of_table ⟦<Boxed as DataHandle>⟧.seen self.old) k off out.old result
            (of_table ⟦<Boxed as DataHandle>⟧.seen self.new) out.new }
        ensures others { KeepsOthers k (of_table ⟦<Boxed as DataHandle>⟧.seen self.old)
            (of_table ⟦<Boxed as DataHandle>⟧.seen self.new) }
    {
        self.slots.read(k, off, out)
    }

    /// Drops the object in a slot that is claimed. Its count stays in the table's.
    pub fn release(&mut self, k: u32)
        requires claimed { is_claimed_at (of_table ⟦<Boxed as DataHandle>⟧.seen self.old) k ≡ true }
        requires held { IsSome (object_at (of_table ⟦<Boxed as DataHandle>⟧.seen self.old) k) }
        ensures rest { of_table ⟦<Boxed as DataHandle>⟧.seen self.new
            ≡ released_at (of_table ⟦<Boxed as DataHandle>⟧.seen self.old) k }
        ensures count { count_of (of_table ⟦<Boxed as DataHandle>⟧.seen self.new)
            ≡ count_of (of_table ⟦<Boxed as DataHandle>⟧.seen self.old) }
        ensures gone { object_at (of_table ⟦<Boxed as DataHandle>⟧.seen self.new) k ≡ None }
        ensures others { KeepsOthers k (of_table ⟦<Boxed as DataHandle>⟧.seen self.old)
            (of_table ⟦<Boxed as DataHandle>⟧.seen self.new) }
    {
        self.slots.release(k);
    }

    /// How many slots there are.
    pub fn len(&self) -> u32
        ensures value { result ≡ length (of_table ⟦<Boxed as DataHandle>⟧.seen self.now).slots }
        ensures most { result ≤ MOST_HANDLES }
    {
        self.slots.len()
    }

    /// Whether a slot holds an object.
    pub fn held(&self, k: u32) -> bool
        ensures { result ≡ is_some (object_at (of_table ⟦<Boxed as DataHandle>⟧.seen self.now) k) }
    {
        self.slots.held(k)
    }

    /// How many reads failed, of the objects that are held and of those that were dropped.
    pub fn faults(&self) -> u128
        ensures { result ≡ count_of (of_table ⟦<Boxed as DataHandle>⟧.seen self.now) }
    {
        self.slots.faults()
    }
}
