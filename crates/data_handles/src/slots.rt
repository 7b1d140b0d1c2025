ghost use Rattle.std.specs.Prelude.{◌≡◌, ◌+◌, ◌*◌, ◌^◌, ◌<◌, ◌≤◌, true, if◌then◌else◌, is_some, length, map, sum_by, vec_len, false, IfOk, IsSome, IsSomeAnd};
ghost use Rattle.blob_words.specs.declared.bounds.TheConstants.{MOST_HANDLES};

use crate::fault::SlotFault;
use crate::handle::DataHandle;
use crate::place::Place;
use blob_words::{Failed, NoMemory};
use std::alloc::Global;

// A table of objects of one kind.
#[derive(Drop)]
pub struct Slots<H> {
    pub slots: Vec<Place<H>>,
    // The counts of the objects that were dropped.
    pub past: u128,
    ghost few: { vec_len slots ≤ MOST_HANDLES },
    ghost past_fits: { past
        ≤ 2 ^ 64 * sum_by (λ place. if is_some place.object then 0 else 1) slots.items },
}

impl<H: DataHandle> Slots<H> {
    ghost use Rattle.data_handles.specs.Calls.{CanClaim, Claims, Reads};
    ghost use Rattle.data_handles.specs.Table.{count_of, is_claimed_at, new_table, object_at, released_at};
    ghost use Rattle.data_handles.specs.Slots.{of_slots};

    // The objects in their order, none of them claimed.
    pub fn new(alloc: Global, objects: Vec<H>) -> Result<Slots<H>, NoMemory>
        requires { vec_len objects ≤ MOST_HANDLES }
        ensures { IfOk result
            (λ table. of_slots H.seen table ≡ new_table (map H.seen objects.items)) }
    {
        let mut slots = Vec::with_capacity(alloc, objects.len())?;
        for object in objects {
            slots.push(Place::new(object))?;
        }
        Ok(Slots { slots, past: 0 })
    }

    // The size of the object in a slot that wasn't claimed.
    pub fn size_of(&self, k: u32) -> Result<u64, SlotFault>
        ensures { CanClaim (of_slots H.seen self.now) k result }
    {
        match self.slots.get(k as usize) {
            Some(place) => match place.size() {
                Some(size) => Ok(size),
                None => Err(SlotFault::Claimed),
            },
            None => Err(SlotFault::NoSuch),
        }
    }

    // Claims a slot.
    pub fn claim(&mut self, k: u32) -> Result<u64, SlotFault>
        ensures { Claims (of_slots H.seen self.old) k result (of_slots H.seen self.new) }
    {
        let size = self.size_of(k)?;
        self.slots[k as usize].claim();
        Ok(size)
    }

    // Reads through the object in a slot.
    pub fn read(&mut self, k: u32, off: u64, out: &mut [u8]) -> Result<(), Failed>
        requires { IsSomeAnd (object_at (of_slots H.seen self.old) k)
            (λ handle. off + length out.old ≤ handle.size) }
        ensures { Reads (of_slots H.seen self.old) k off out.old result
            (of_slots H.seen self.new) out.new }
    {
        self.slots[k as usize].read(off, out)
    }

    // Drops the object in a slot that is claimed.
    pub fn release(&mut self, k: u32)
        requires claimed { is_claimed_at (of_slots H.seen self.old) k ≡ true }
        requires held { IsSome (object_at (of_slots H.seen self.old) k) }
        ensures rest { of_slots H.seen self.new ≡ released_at (of_slots H.seen self.old) k }
        ensures count { count_of (of_slots H.seen self.new) ≡ count_of (of_slots H.seen self.old) }
    {
        let faults = self.slots[k as usize].release();
        self.past += u128::from(faults);
    }

    // How many slots there are.
    pub fn len(&self) -> u32
        ensures value { result ≡ length (of_slots H.seen self.now).slots }
        ensures most { result ≤ MOST_HANDLES }
    {
        self.slots.len() as u32
    }

    // Whether a slot holds an object.
    pub fn held(&self, k: u32) -> bool
        ensures { result ≡ is_some (object_at (of_slots H.seen self.now) k) }
    {
        match self.slots.get(k as usize) {
            Some(place) => place.is_held(),
            None => false,
        }
    }

    // The count of the table.
    pub fn faults(&self) -> u128
        ensures { result ≡ count_of (of_slots H.seen self.now) }
    {
        let mut count = self.past;
        for place in &self.slots {
            count += u128::from(place.faults());
        }
        count
    }
}
