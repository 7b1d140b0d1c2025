//! The status of a blob that breaks at its own line.
ghost use Rattle.std.specs.Prelude.{◌≡◌, None, IfOk};
ghost use Rattle.std.specs.List.{AllByRecursion};
ghost use Rattle.blob_model.specs.Construct.{is_out_of_memory};
ghost use Rattle.data_handles.specs.Boxes.{of_table};
ghost use Rattle.store_laws.specs.Deciding.{line_status_in};
ghost use Rattle.blob_store.specs.Adding.{EndsWithin};
ghost use Rattle.blob_store.specs.Seen.{parts_of};

use crate::parts::Parts;
use blob_words::{BlobName, NoMemory, Plan, RendererId, Status};
use data_handles::{Boxed, DataHandle, HandleTable};
use history_notions::parts::parts_length;
use session_script::Part;

/// The greatest size of a blob.
const MOST_BYTES: u128 = 1 << 62;

// Whether the plan is that there is no room.
fn is_out_of_memory(plan: Plan) -> bool
    ensures { result ≡ is_out_of_memory plan }
{
    matches!(plan, Plan::OutOfMemory)
}

impl Parts {
    /// The status of a blob that breaks at its own line, and none where it doesn't.
    pub(crate) fn line_status(
        &self,
        handles: &HandleTable,
        renderer: RendererId,
        name: BlobName,
        parts: &[Part],
    ) -> Result<Option<Status>, NoMemory>
        ensures value { IfOk result (λ status. status ≡ line_status_in (parts_of self.now)
            (of_table ⟦<Boxed as DataHandle>⟧.seen handles.now) renderer.0 name parts.now) }
        ensures ends { IfOk result (λ status. status ≡ None
            → AllByRecursion EndsWithin parts.now) }
    {
        if self.has_invalid(handles, renderer, name, parts) {
            return Ok(Some(Status::InvalidArguments));
        }
        if parts_length(parts) > MOST_BYTES {
            return Ok(Some(Status::InvalidArguments));
        }
        if self.lacks_source(renderer, parts) {
            return Ok(Some(Status::ReferencedBlobBroken));
        }
        if self.lacks_file(parts) {
            return Ok(Some(Status::ReferencedFileUnavailable));
        }
        let plan = self.plan_for(parts)?;
        if is_out_of_memory(plan) {
            return Ok(Some(Status::OutOfMemory));
        }
        Ok(None)
    }
}
