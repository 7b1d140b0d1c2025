//! Parts with which a blob breaks at its own line.
ghost use Rattle.std.specs.Prelude.{◌≡◌, ◌+◌, false, nat_lt};
ghost use Rattle.std.specs.List.{list_any, AllByRecursion};
ghost use Rattle.data_handles.specs.Boxes.{of_table};
ghost use Rattle.store_laws.specs.Deciding.{free_size, holds, is_broken_under, is_invalid_in, is_lost_in, is_passed, is_unrecorded_in};
ghost use Rattle.blob_store.specs.Adding.{EndsWithin};
ghost use Rattle.blob_store.specs.Seen.{parts_of};

use crate::parts::Parts;
use blob_entries::status::is_broken;
use blob_registry::Registry;
use blob_words::{BlobName, RendererId};
use data_handles::{Boxed, DataHandle, HandleTable};
use session_script::Part;

// The size of the object in a slot that can be claimed.
fn free_size(handles: &HandleTable, slot: u32) -> u64
    ensures { result ≡ free_size (of_table ⟦<Boxed as DataHandle>⟧.seen handles.now) slot }
{
    match handles.size_of(slot) {
        Ok(size) => size,
        Err(_) => 0,
    }
}

// Whether what stands under a name is broken.
fn is_broken_under(registry: &Registry, name: BlobName) -> bool
    ensures { result ≡ is_broken_under registry.now name }
{
    match registry.status_of(name) {
        Some(status) => is_broken(status),
        None => false,
    }
}

// Whether what stands under a name isn't broken and has fewer bytes than these.
fn is_passed(registry: &Registry, name: BlobName, end: u128) -> bool
    ensures { result ≡ is_passed registry.now name end }
{
    let Some(size) = registry.size_of(name) else {
        return false;
    };
    !is_broken_under(registry, name) && u128::from(size) < end
}

impl Parts {
    // Whether a renderer has a handle on a blob.
    pub(crate) fn holds(&self, renderer: RendererId, name: BlobName) -> bool
        ensures { result ≡ holds (parts_of self.now) renderer.0 name }
    {
        self.renderers.count_of(renderer, name) > 0
    }

    // Whether a part names the blob itself, or a range that passes a blob or an object.
    fn is_invalid(
        &self,
        handles: &HandleTable,
        renderer: RendererId,
        name: BlobName,
        part: &Part,
    ) -> bool
        ensures value { result ≡ is_invalid_in (parts_of self.now)
            (of_table ⟦<Boxed as DataHandle>⟧.seen handles.now) renderer.0 name part.now }
        ensures ends { result ≡ false → EndsWithin part.now }
    {
        match part {
            Part::BlobRange { b, off, len } => {
                let end = u128::from(*off) + u128::from(*len);
                let holds = self.holds(renderer, *b);
                let is_passed = is_passed(&self.registry, *b, end);
                *b == name || (holds && is_passed)
            }
            Part::HandleRange { k, off, len } => {
                let end = u128::from(*off) + u128::from(*len);
                u128::from(free_size(handles, *k)) < end
            }
            _ => false,
        }
    }

    // Whether a part is of a blob that a renderer doesn't hold, or that is broken.
    fn is_lost(&self, renderer: RendererId, part: &Part) -> bool
        ensures { result ≡ is_lost_in (parts_of self.now) renderer.0 part.now }
    {
        match part {
            Part::BlobRange { b, .. } => {
                !self.holds(renderer, *b) || is_broken_under(&self.registry, *b)
            }
            _ => false,
        }
    }

    // Whether a part is a range of a file of which nothing is recorded now.
    fn is_unrecorded(&self, part: &Part) -> bool
        ensures { result ≡ is_unrecorded_in (parts_of self.now) part.now }
    {
        match part {
            Part::FileRange { name, .. } => self.files.state(name).is_none(),
            _ => false,
        }
    }

    pub(crate) fn has_invalid(
        &self,
        handles: &HandleTable,
        renderer: RendererId,
        name: BlobName,
        parts: &[Part],
    ) -> bool
        ensures value { result ≡ list_any (is_invalid_in (parts_of self.now)
            (of_table ⟦<Boxed as DataHandle>⟧.seen handles.now) renderer.0 name) parts.now }
        ensures ends { result ≡ false → AllByRecursion EndsWithin parts.now }
    {
        for part in parts {
            if self.is_invalid(handles, renderer, name, part) {
                return true;
            }
        }
        false
    }

    pub(crate) fn lacks_source(&self, renderer: RendererId, parts: &[Part]) -> bool
        ensures { result ≡ list_any (is_lost_in (parts_of self.now) renderer.0) parts.now }
    {
        parts.iter().any(|part| self.is_lost(renderer, part))
    }

    pub(crate) fn lacks_file(&self, parts: &[Part]) -> bool
        ensures { result ≡ list_any (is_unrecorded_in (parts_of self.now)) parts.now }
    {
        parts.iter().any(|part| self.is_unrecorded(part))
    }
}
