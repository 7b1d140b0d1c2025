//! Why a line that builds is refused.
ghost use Rattle.std.specs.Prelude.{◌≡◌, ◌+◌, ◌≤◌, ◌^◌, [], ◌∷◌, length, nat_lt, sum, true, IfOk};
ghost use Rattle.blob_model.specs.Choice.{first_that};
ghost use Rattle.blob_model.specs.Parts.{parts_length};
ghost use Rattle.blob_model.specs.Refusals.{is_many_segments};
ghost use Rattle.blob_words.specs.declared.bounds.TheConstants.{MOST_PIECES, MOST_WEIGHT};
ghost use Rattle.data_handles.specs.Boxes.{of_table};
ghost use Rattle.transport_plan.specs.Spans.{piece_count};
ghost use Rattle.store_laws.specs.Deciding.{build_refusal_in, line_weight_in, many_in, many_views_in, slice_refusal_in, stands_in};
ghost use Rattle.blob_store.specs.Seen.{parts_of};

use super::slots::slot_refusal;
use crate::parts::Parts;
use answer_text::Refusal;
use blob_words::bounds::{MOST_BLOBS, MOST_PIECES, MOST_WEIGHT};
use blob_words::{BlobName, Counted, NoMemory, Plan, RendererId};
use data_handles::{Boxed, DataHandle, HandleTable};
use history_notions::parts::{claims, own_lengths};
use session_script::Part;
use transport_plan::pieces_of;

// Whether the plan is that there are too many segments.
fn is_many_segments(plan: Plan) -> bool
    ensures { result ≡ is_many_segments plan }
{
    matches!(plan, Plan::TooMany(Counted::Segments))
}

impl Parts {
    // Whether there would be too many pieces with own parts of these lengths.
    fn has_many_pieces(&self, lengths: &[u64]) -> bool
        requires { sum lengths.now ≤ 2 ^ 62 }
        ensures { result ≡ nat_lt MOST_PIECES (length self.now.homes
            + piece_count self.now.limits.page lengths.now) }
    {
        let more = pieces_of(lengths, self.limits.page);
        u128::from(more) + self.homes.len() as u128 > MOST_PIECES as u128
    }

    // Whether there would be too many views with these parts.
    fn has_many_views(&self, parts: &[Part]) -> bool
        ensures { result ≡ nat_lt MOST_WEIGHT (self.now.weight
            + line_weight_in (parts_of self.now) parts.now) }
    {
        let more = self.line_weight(parts);
        more.saturating_add(u128::from(self.weight)) > MOST_WEIGHT as u128
    }

    // Of a blob that doesn't break at its line.
    fn much_refusal(&self, parts: &[Part]) -> Result<Option<Refusal>, NoMemory>
        requires { parts_length parts.now ≤ 2 ^ 62 }
        ensures { IfOk result (λ why.
            why ≡ first_that (many_in (parts_of self.now) true parts.now)) }
    {
        let plan = self.plan_for(parts)?;
        if is_many_segments(plan) {
            return Ok(Some(Refusal::TooMany(Counted::Segments)));
        }
        let lengths = own_lengths(self.alloc, parts)?;
        if self.has_many_pieces(lengths.as_slice()) {
            return Ok(Some(Refusal::TooMany(Counted::Pieces)));
        }
        if self.has_many_views(parts) {
            return Ok(Some(Refusal::TooMany(Counted::Views)));
        }
        Ok(None)
    }

    // Of a blob that may break at its line.
    fn many_refusal(
        &self,
        handles: &HandleTable,
        renderer: RendererId,
        name: BlobName,
        parts: &[Part],
    ) -> Result<Option<Refusal>, NoMemory>
        ensures { IfOk result (λ why. why ≡ first_that (many_in (parts_of self.now)
            (stands_in (parts_of self.now) (of_table ⟦<Boxed as DataHandle>⟧.seen handles.now)
            renderer name parts.now) parts.now)) }
    {
        let status = self.line_status(handles, renderer, name, parts)?;
        match status {
            Some(_) => Ok(None),
            None => self.much_refusal(parts),
        }
    }

    /// Why a `build` line is refused.
    pub(crate) fn build_refusal(
        &self,
        handles: &HandleTable,
        renderer: RendererId,
        name: BlobName,
        parts: &[Part],
    ) -> Result<Option<Refusal>, NoMemory>
        ensures { IfOk result (λ why. why ≡ build_refusal_in (parts_of self.now)
            (of_table ⟦<Boxed as DataHandle>⟧.seen handles.now) renderer name parts.now) }
    {
        if !self.is_alive(renderer) {
            return Ok(Some(Refusal::NoRenderer(renderer)));
        }
        if self.registry.was_registered(name) {
            return Ok(Some(Refusal::NameUsed(name)));
        }
        let slots = claims(self.alloc, parts)?;
        if let Some(why) = slot_refusal(handles, slots.as_slice()) {
            return Ok(Some(why));
        }
        if self.registry.registered() as usize >= MOST_BLOBS {
            return Ok(Some(Refusal::TooMany(Counted::Blobs)));
        }
        self.many_refusal(handles, renderer, name, parts)
    }

    // Of a slice that may break at its line.
    fn views_refusal(
        &self,
        handles: &HandleTable,
        renderer: RendererId,
        name: BlobName,
        parts: &[Part],
    ) -> Result<Option<Refusal>, NoMemory>
        ensures { IfOk result (λ why. why ≡ first_that (many_views_in (parts_of self.now)
            (stands_in (parts_of self.now) (of_table ⟦<Boxed as DataHandle>⟧.seen handles.now)
            renderer name parts.now) parts.now ∷ [])) }
    {
        let status = self.line_status(handles, renderer, name, parts)?;
        match status {
            Some(_) => Ok(None),
            None => Ok(self.much_views(parts)),
        }
    }

    // Of a slice that doesn't break at its line.
    fn much_views(&self, parts: &[Part]) -> Option<Refusal>
        ensures { result ≡ first_that (many_views_in (parts_of self.now) true parts.now ∷ []) }
    {
        if self.has_many_views(parts) {
            return Some(Refusal::TooMany(Counted::Views));
        }
        None
    }

    /// Why a `slice` line is refused, whose one part is this.
    pub(crate) fn slice_refusal(
        &self,
        handles: &HandleTable,
        renderer: RendererId,
        name: BlobName,
        source: BlobName,
        parts: &[Part],
    ) -> Result<Option<Refusal>, NoMemory>
        ensures { IfOk result (λ why. why ≡ slice_refusal_in (parts_of self.now)
            (of_table ⟦<Boxed as DataHandle>⟧.seen handles.now) renderer name source parts.now) }
    {
        if !self.is_alive(renderer) {
            return Ok(Some(Refusal::NoRenderer(renderer)));
        }
        if self.registry.was_registered(name) {
            return Ok(Some(Refusal::NameUsed(name)));
        }
        if !self.holds(renderer, source) {
            return Ok(Some(Refusal::NoHandle(renderer, source)));
        }
        if self.registry.registered() as usize >= MOST_BLOBS {
            return Ok(Some(Refusal::TooMany(Counted::Blobs)));
        }
        self.views_refusal(handles, renderer, name, parts)
    }
}
