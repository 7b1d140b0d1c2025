//! What was sent for a blob.
ghost use Rattle.std.specs.Prelude.{◌≡◌, ℕ, ◌==◌, ◌<◌, ◌^◌, not, filter, length, IfOk, OnOk};
ghost use Rattle.std.specs.List.{list_any, range_with_len};
ghost use Rattle.blob_model.specs.Session.{Session};
ghost use Rattle.blob_model.specs.History.{History};
ghost use Rattle.blob_model.specs.Transport.{arrivals_after, has_come, spans, missing, has_all};
ghost use Rattle.blob_model.specs.Standing.{is_granted};
ghost use Rattle.blob_model.specs.Refusals.{is_sending};
ghost use Rattle.history_notions.specs.Follows.{Follows};
ghost use Rattle.history_notions.specs.Kept.{arrivals_in, is_arrival};
ghost use Rattle.history_notions.specs.Missing.{missing_in};

use crate::builds::Build;
use crate::contents::Contents;
use crate::parts::{few_bytes, own_bytes, own_lengths};
use crate::pieces::{cut_spans, piece_spans};
use crate::standing::is_granted;
use blob_words::{BlobName, ItemList, Limits, NoMemory, Octets, Plan};
use session_script::Event;
use std::alloc::Global;
use std::marker::Model;

/// A segment that came, with its bytes.
#[derive(Debug, Drop)]
pub struct Arrival {
    pub segment: u32,
    pub bytes: Octets,
}

impl Model for Arrival {
    ghost use Rattle.blob_model.specs.Transport as model;

    ghost Value = { model.Arrival };

    ghost view = { λ one. record { segment = one.segment; bytes = one.bytes } };
}

/// A segment that came, with its blob.
#[derive(Debug, Drop)]
pub struct Brought {
    pub blob: BlobName,
    pub arrival: Arrival,
}

impl Model for Brought {
    ghost use Rattle.history_notions.specs.Kept as kept;

    ghost Value = { kept.Brought };

    ghost view = { λ one. record { blob = one.blob; arrival = one.arrival } };
}

/// An accepted `data` line brings a segment.
pub fn hear(alloc: Global, event: &Event, brought: &mut ItemList<Brought>) -> Result<(), NoMemory>
    ensures { OnOk result ((name : ℕ) → arrivals_in brought.new name
        ≡ arrivals_after event.now name (arrivals_in brought.old name)) }
{
    match event {
        Event::Segment { b, seg, bytes, .. } => {
            let bytes = Octets::from_slice(alloc, bytes.as_slice())?;
            brought.push(Brought {
                blob: *b,
                arrival: Arrival {
                    segment: *seg,
                    bytes,
                },
            })
        }
        _ => Ok(()),
    }
}

fn is_arrival(one: &Brought, name: BlobName, segment: u64) -> bool
    ensures { result ≡ is_arrival name segment one.now }
{
    one.blob == name && u64::from(one.arrival.segment) == segment
}

fn has_arrival(brought: &[Brought], name: BlobName, segment: u64) -> bool
    ensures { result ≡ list_any (is_arrival name segment) brought.now }
{
    brought.iter().any(|one| is_arrival(one, name, segment))
}

/// Whether the segment of the blob came.
pub fn has_come(brought: &[Brought], name: BlobName, segment: u64) -> bool
    ensures { result ≡ has_come (arrivals_in brought.now name) segment }
{
    has_arrival(brought, name, segment)
}

/// The spans of the blob's segments in its own bytes.
pub fn spans(
    alloc: Global,
    limits: &Limits,
    build: &Build,
) -> Result<ItemList<(u64, u64)>, NoMemory>
    ensures { IfOk result (λ found. found ≡ spans limits.now build.now) }
{
    match build.plan {
        Some(Plan::Shared(_)) => {
            let own = few_bytes(own_bytes(build.parts.as_slice()))?;
            let mut found = ItemList::new(alloc);
            cut_spans(limits.segment, 0, own, &mut found)?;
            Ok(found)
        }
        Some(Plan::File(_)) => {
            few_bytes(own_bytes(build.parts.as_slice()))?;
            let lengths = own_lengths(alloc, build.parts.as_slice())?;
            piece_spans(alloc, limits.page, lengths.as_slice())
        }
        _ => Ok(ItemList::new(alloc)),
    }
}

/// The segments of the blob, as many as these, that did not come.
fn missing_of(
    alloc: Global,
    brought: &[Brought],
    name: BlobName,
    count: u64,
) -> Result<ItemList<u64>, NoMemory>
    ensures { IfOk result (λ found. found ≡ filter
        (λ segment. not (has_come (arrivals_in brought.now name) segment))
        (range_with_len 0 count)) }
{
    let mut found = ItemList::new(alloc);
    for segment in 0..count {
        if !has_come(brought, name, segment) {
            found.push(segment)?;
        }
    }
    Ok(found)
}

/// The segments that did not come.
pub fn missing(
    alloc: Global,
    limits: &Limits,
    brought: &[Brought],
    build: &Build,
) -> Result<ItemList<u64>, NoMemory>
    ensures { IfOk result (λ found. found ≡ missing_in limits.now brought.now build.now) }
{
    let count = spans(alloc, limits, build)?.len() as u64;
    missing_of(alloc, brought, build.name, count)
}

/// Whether none is missing.
pub fn has_all(
    alloc: Global,
    limits: &Limits,
    brought: &[Brought],
    build: &Build,
) -> Result<bool, NoMemory>
    ensures { IfOk result (λ all. all
        ≡ (length (missing_in limits.now brought.now build.now) == 0)) }
{
    let found = missing(alloc, limits, brought, build)?;
    Ok(found.len() == 0)
}

impl Contents {
    /// The segments of the blob that did not come.
    pub fn missing(&self, build: &Build) -> Result<ItemList<u64>, NoMemory>
        ensures { IfOk result (λ found. (s : Session) (h : History) → Follows s h self.now
            → found ≡ missing s.limits h build.now) }
    {
        let brought = self.kept.brought.as_slice();
        let found = missing(self.alloc, &self.limits, brought, build)?;
        Ok(found)
    }

    /// Whether none is missing.
    pub fn has_all(&self, build: &Build) -> Result<bool, NoMemory>
        ensures { IfOk result (λ all. (s : Session) (h : History) → Follows s h self.now
            → all ≡ has_all s.limits h build.now) }
    {
        let found = self.missing(build)?;
        Ok(found.len() == 0)
    }

    /// Whether the blob's own bytes have their room.
    pub fn is_granted(&self, build: &Build) -> bool
        ensures { (s : Session) (h : History) → Follows s h self.now
            → result ≡ is_granted h build.now }
    {
        is_granted(&self.kept.granted, build.name, build.plan)
    }

    /// Whether the renderer sends bytes of the blob: it built it, and the blob is unfinished,
    /// granted and misses a segment.
    pub fn is_sending(&self, renderer: u32, build: &Build) -> Result<bool, NoMemory>
        ensures { IfOk result (λ sends. (s : Session) (h : History) → Follows s h self.now
            → sends ≡ is_sending s h renderer build.now) }
    {
        let found = self.missing(build)?;
        let is_unfinished = self.kept.is_unfinished(build.name);
        let is_granted = self.is_granted(build);
        let is_own = build.builder == renderer;
        Ok(is_unfinished && is_granted && is_own && found.len() > 0)
    }
}
