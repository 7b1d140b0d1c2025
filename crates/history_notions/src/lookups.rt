//! What is kept, looked up: each answer is that of the history.
ghost use Rattle.std.specs.Prelude.{◌≡◌, ◌==◌, ◌&&◌, find, not, is_some};
ghost use Rattle.std.specs.List.{list_any};
ghost use Rattle.std.specs.Option.{option_copied};
ghost use Rattle.blob_model.specs.Session.{Session, page_limit};
ghost use Rattle.blob_model.specs.History.{History};
ghost use Rattle.blob_model.specs.Builds.{builds, build_in, size_in};
ghost use Rattle.blob_model.specs.Readers.{reader_at};
ghost use Rattle.blob_model.specs.Refusals.{owns_reader};
ghost use Rattle.history_notions.specs.Follows.{Follows};
ghost use Rattle.blob_model.specs.Renderers.{is_alive};
ghost use Rattle.blob_model.specs.Recorded.{recorded};
ghost use Rattle.blob_model.specs.Standing.{is_unfinished, is_done, is_broken, was_granted};
ghost use Rattle.blob_model.specs.Transport.{arrivals, has_come};
ghost use Rattle.blob_model.specs.Handles.{has_handle, is_held};
ghost use Rattle.blob_model.specs.Entries.{is_named, resolved};
ghost use Rattle.blob_model.specs.Jobs.{is_in_job};
ghost use Rattle.history_notions.specs.Kept.{is_dead_in, holds_one, is_open_to};
ghost use Rattle.history_notions.specs.Keeps.{Keeps};

use crate::builds::{Build, size_in};
use crate::contents::Contents;
use crate::entries::{Entry, before_fragment};
use crate::handles::Holds;
use crate::kept::Kept;
use crate::readers::{OpenReader, reader_at};
use crate::recorded::{self, FileState};
use crate::renderers::{Dead, Renderer, is_spawned, origin_of};
use crate::{entries, jobs, transport};
use blob_words::{BlobName, FileName, RendererId, UrlText};

/// Whether a renderer was spawned and is not dead.
fn is_alive_in(spawned: &[Renderer], dead: &Dead, number: u32) -> bool
    ensures { result ≡ (list_any (λ one. one.number == number) spawned.now
        && not (is_dead_in dead.now number)) }
{
    is_spawned(spawned, number) && !dead.has(number)
}

fn holds_one(renderer: &Renderer, holds: &Holds, name: BlobName) -> bool
    ensures { result ≡ holds_one holds.now name renderer.now }
{
    holds.has(renderer.number, name)
}

fn is_held_in(spawned: &[Renderer], holds: &Holds, name: BlobName) -> bool
    ensures { result ≡ list_any (holds_one holds.now name) spawned.now }
{
    spawned
        .iter()
        .any(|renderer| holds_one(renderer, holds, name))
}

fn is_open_to(spawned: &[Renderer], front: &[u8], origin: &[u8], entry: &Entry) -> bool
    ensures { result ≡ is_open_to spawned.now front.now origin.now entry.now }
{
    entry.text.as_slice() == front && origin_of(spawned, entry.owner) == origin
}

fn resolved_in<'a>(
    spawned: &[Renderer],
    entries: &'a [Entry],
    front: &[u8],
    origin: &[u8],
) -> Option<&'a Entry>
    ensures { option_copied result
        ≡ find (is_open_to spawned.now front.now origin.now) entries.now }
{
    entries
        .iter()
        .find(|entry| is_open_to(spawned, front, origin, entry))
}

impl Kept {
    /// Whether the renderer was spawned and is not dead.
    pub fn is_alive(&self, renderer: RendererId) -> bool
        ensures { (h : History) → Keeps h self.now → result ≡ is_alive h renderer.0 }
    {
        is_alive_in(self.spawned.as_slice(), &self.dead, renderer.0)
    }

    /// What is recorded now of the file.
    pub fn recorded(&self, name: &FileName) -> Option<&FileState>
        ensures { (h : History) → Keeps h self.now → option_copied result ≡ recorded h name.now }
    {
        recorded::recorded(self.notes.as_slice(), name.as_slice())
    }

    /// Whether the blob is unfinished.
    pub fn is_unfinished(&self, name: BlobName) -> bool
        ensures { (h : History) → Keeps h self.now → result ≡ is_unfinished h name }
    {
        self.endings.is_unfinished(name)
    }

    /// Whether the blob is done.
    pub fn is_done(&self, name: BlobName) -> bool
        ensures { (h : History) → Keeps h self.now → result ≡ is_done h name }
    {
        self.endings.is_done(name)
    }

    /// Whether the blob is broken.
    pub fn is_broken(&self, name: BlobName) -> bool
        ensures { (h : History) → Keeps h self.now → result ≡ is_broken h name }
    {
        self.endings.is_broken(name)
    }

    /// Whether the blob was granted by an answer.
    pub fn was_granted(&self, name: BlobName) -> bool
        ensures { (h : History) → Keeps h self.now → result ≡ was_granted h name }
    {
        self.granted.has(name)
    }

    /// Whether the segment of the blob came.
    pub fn has_come(&self, name: BlobName, segment: u32) -> bool
        ensures { (h : History) → Keeps h self.now → result ≡ has_come (arrivals h name) segment }
    {
        transport::has_come(self.brought.as_slice(), name, u64::from(segment))
    }

    /// Whether the renderer has a handle on the blob.
    pub fn has_handle(&self, holder: RendererId, name: BlobName) -> bool
        ensures { (h : History) → Keeps h self.now → result ≡ has_handle h holder.0 name }
    {
        self.holds.has(holder.0, name)
    }

    /// Whether some renderer holds the blob.
    pub fn is_held(&self, name: BlobName) -> bool
        ensures { (h : History) → Keeps h self.now → result ≡ is_held h name }
    {
        is_held_in(self.spawned.as_slice(), &self.holds, name)
    }

    /// Whether a URL entry names the blob.
    pub fn is_named(&self, name: BlobName) -> bool
        ensures { (h : History) → Keeps h self.now → result ≡ is_named h name }
    {
        entries::is_named(&self.entries, name)
    }

    /// The entry that a text resolves to for a renderer.
    pub fn resolved(&self, renderer: RendererId, text: &UrlText) -> Option<&Entry>
        ensures { (h : History) → Keeps h self.now
            → option_copied result ≡ resolved h renderer.0 text.now }
    {
        let whole = text.as_slice();
        let front = before_fragment(whole);
        let spawned = self.spawned.as_slice();
        let origin = origin_of(spawned, renderer.0);
        let entries = self.entries.as_slice();
        resolved_in(spawned, entries, front, origin)
    }

    /// Whether the job in flight names the piece.
    pub fn is_in_job(&self, number: u32) -> bool
        ensures { (h : History) → Keeps h self.now → result ≡ is_in_job h number }
    {
        jobs::is_in_job(&self.job, number)
    }
}

impl Contents {
    /// The blob of this name.
    pub fn build(&self, name: BlobName) -> Option<&Build>
        ensures { (s : Session) (h : History) → Follows s h self.now
            → option_copied result ≡ build_in (builds (page_limit s) h) name }
    {
        self.builds.find(name)
    }

    /// Whether a blob of this name was built.
    pub fn is_built(&self, name: BlobName) -> bool
        ensures { (s : Session) (h : History) → Follows s h self.now
            → result ≡ is_some (build_in (builds (page_limit s) h) name) }
    {
        self.build(name).is_some()
    }

    /// The size of the blob of this name.
    pub fn size_in(&self, name: BlobName) -> u128
        ensures { (s : Session) (h : History) → Follows s h self.now
            → result ≡ size_in (builds (page_limit s) h) name }
    {
        size_in(self.builds.as_slice(), name)
    }

    /// The open reader of this number.
    pub fn reader(&self, number: u32) -> Option<&OpenReader>
        ensures { (s : Session) (h : History) → Follows s h self.now
            → option_copied result ≡ reader_at (page_limit s) h number }
    {
        reader_at(&self.readers, number)
    }

    /// Whether a reader of this number is open.
    pub fn is_open(&self, number: u32) -> bool
        ensures { (s : Session) (h : History) → Follows s h self.now
            → result ≡ is_some (reader_at (page_limit s) h number) }
    {
        self.reader(number).is_some()
    }

    /// Whether the open reader belongs to the renderer.
    pub fn owns_reader(&self, renderer: u32, number: u32) -> bool
        ensures { (s : Session) (h : History) → Follows s h self.now
            → result ≡ owns_reader s h renderer number }
    {
        match self.reader(number) {
            Some(reader) => reader.owner == renderer,
            None => false,
        }
    }
}
