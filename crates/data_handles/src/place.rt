ghost use Rattle.std.specs.Prelude.{◌≡◌, ◌+◌, ◌≤◌, true, false, drop, is_some, length, take, Some, IfNone, IfSome, IsSomeAnd, OnErr, OnOk};
ghost use Rattle.std.specs.Option.{ForNone};
ghost use Rattle.blob_source.specs.Faults.{Rose};

use crate::handle::DataHandle;
use blob_words::Failed;

// A slot of a table. One that wasn't claimed holds an object.
#[derive(Drop)]
pub struct Place<H> {
    pub object: Option<H>,
    pub is_claimed: bool,
    ghost held: { ForNone object (is_claimed ≡ true) },
}

impl<H: DataHandle> Place<H> {
    ghost use Rattle.data_handles.specs.Table.{claimed, counted, emptied, slot_faults};
    ghost use Rattle.data_handles.specs.Slots.{slot_of};

    // A slot that wasn't claimed.
    pub fn new(object: H) -> Place<H>
        ensures seen { slot_of H.seen result
            ≡ record { is_claimed = false; object = Some (H.seen object) } }
        ensures held { is_some result.object ≡ true }
    {
        Place {
            object: Some(object),
            is_claimed: false,
        }
    }

    // The object's size, where the slot wasn't claimed.
    pub fn size(&self) -> Option<u64>
        ensures some { IfSome result (λ size. ((slot_of H.seen self.now).is_claimed ≡ false)
            × IsSomeAnd (slot_of H.seen self.now).object (λ handle. handle.size ≡ size)) }
        ensures none { IfNone result ((slot_of H.seen self.now).is_claimed ≡ true) }
    {
        if self.is_claimed {
            return None;
        }
        match &self.object {
            Some(object) => Some(object.size()),
            None => None,
        }
    }

    pub fn claim(&mut self)
        ensures { slot_of H.seen self.new ≡ claimed (slot_of H.seen self.old) }
    {
        self.is_claimed = true;
    }

    pub fn read(&mut self, off: u64, out: &mut [u8]) -> Result<(), Failed>
        requires { IsSomeAnd (slot_of H.seen self.old).object
            (λ handle. off + length out.old ≤ handle.size) }
        ensures rest { slot_of H.seen self.new
            ≡ counted (slot_faults (slot_of H.seen self.new)) (slot_of H.seen self.old) }
        ensures bytes { OnOk result (IsSomeAnd (slot_of H.seen self.old).object
            (λ handle. IfSome handle.told
            (λ bytes. out.new ≡ take (length out.old) (drop off bytes)))) }
        ensures good { OnOk result (slot_of H.seen self.new ≡ slot_of H.seen self.old) }
        ensures failed { OnErr result (Rose (slot_faults (slot_of H.seen self.old))
            (slot_faults (slot_of H.seen self.new))) }
        ensures later { slot_faults (slot_of H.seen self.old)
            ≤ slot_faults (slot_of H.seen self.new) }
        ensures held { is_some self.new.object ≡ is_some self.old.object }
    {
        match &mut self.object {
            Some(object) => object.read(off, out),
            None => Ok(()),
        }
    }

    // Drops the object of a slot that is claimed, and answers its count.
    pub fn release(&mut self) -> u64
        requires claimed { (slot_of H.seen self.old).is_claimed ≡ true }
        ensures faults { result ≡ slot_faults (slot_of H.seen self.old) }
        ensures rest { slot_of H.seen self.new ≡ emptied (slot_of H.seen self.old) }
    {
        let faults = self.faults();
        self.object = None;
        faults
    }

    pub fn is_held(&self) -> bool
        ensures { result ≡ is_some (slot_of H.seen self.now).object }
    {
        self.object.is_some()
    }

    pub fn faults(&self) -> u64
        ensures { result ≡ slot_faults (slot_of H.seen self.now) }
    {
        match &self.object {
            Some(object) => object.faults(),
            None => 0,
        }
    }
}
