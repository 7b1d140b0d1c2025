//! The slots of data handles that parts name.
ghost use Rattle.std.specs.Prelude.{◌≡◌, length};
ghost use Rattle.data_handles.specs.Boxes.{of_table};
ghost use Rattle.data_handles.specs.Table.{is_claimed_at};
ghost use Rattle.blob_model.specs.Choice.{first_that};
ghost use Rattle.blob_model.specs.Refusals.{is_in};
ghost use Rattle.store_laws.specs.Deciding.{slot_tests};

use answer_text::Refusal;
use data_handles::{Boxed, DataHandle, HandleTable, SlotFault};

// Whether a slot is one of these.
fn is_among(slots: &[u32], slot: u32) -> bool
    ensures { result ≡ is_in slot slots.now }
{
    slots.iter().any(|each| *each == slot)
}

// The refusal of the first of several slots to which one applies.
pub(crate) fn slot_refusal(handles: &HandleTable, slots: &[u32]) -> Option<Refusal>
    ensures { result ≡ first_that (slot_tests
        (length (of_table ⟦<Boxed as DataHandle>⟧.seen handles.now).slots)
        (is_claimed_at (of_table ⟦<Boxed as DataHandle>⟧.seen handles.now)) slots.now) }
{
    for i in 0..slots.len() {
        let slot = slots[i];
        match handles.size_of(slot) {
            Err(SlotFault::NoSuch) => return Some(Refusal::NoSuchHandle(slot)),
            Err(SlotFault::Claimed) => return Some(Refusal::HandleTaken(slot)),
            Ok(_) => {}
        }
        if is_among(&slots[..i], slot) {
            return Some(Refusal::HandleTaken(slot));
        }
    }
    None
}
