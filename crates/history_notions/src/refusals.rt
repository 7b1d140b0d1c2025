//! Why a line is refused.
ghost use Rattle.std.specs.Prelude.{◌≡◌, ℕ, List, Some, is_some, IfOk};
ghost use Rattle.session_script.specs.declared.event.Event.TheVariants as events;
ghost use Rattle.blob_model.specs.Session.{Session};
ghost use Rattle.blob_model.specs.History.{History};
ghost use Rattle.blob_model.specs.Choice.{first_that};
ghost use Rattle.blob_model.specs.Refusals.{refusal, reader_refusals, segment_refusals};
ghost use Rattle.blob_model.specs.Renderers.{origin_of};
ghost use Rattle.blob_model.specs.Entries.{entries, entry_at, is_url_of};
ghost use Rattle.history_notions.specs.Follows.{Follows};
ghost use Rattle.history_notions.specs.Keeps.{Keeps};
ghost use Rattle.history_notions.specs.Kept.{is_flying};

use crate::builds::Build;
use crate::contents::Contents;
use crate::entries::{entry_at, is_url_of};
use crate::kept::Kept;
use crate::parts::{few, few_bytes};
use crate::recorded::{is_known, last_stamp};
use crate::renderers::{is_spawned, origin_of};
use crate::transport::spans;
use answer_text::Refusal;
use blob_words::bounds::{MOST_FILES, MOST_READERS, MOST_RENDERERS, MOST_URLS};
use blob_words::{
    BlobName, Counted, FileName, JobNo, NoMemory, Octets, ReaderId, RendererId, UrlText,
};

impl Kept {
    /// Of a `spawn` line.
    pub fn spawn_refusal(&self, r: RendererId) -> Option<Refusal>
        ensures { (s : Session) (h : History) (origin : List ℕ) → Keeps h self.now
            → result ≡ refusal s h (events.Spawn r origin) }
    {
        if is_spawned(self.spawned.as_slice(), r.0) {
            return Some(Refusal::RendererUsed(r));
        }
        if self.spawned.len() >= MOST_RENDERERS {
            return Some(Refusal::TooMany(Counted::Renderers));
        }
        None
    }

    /// Of a `die` or a `revoke` line.
    pub fn renderer_refusal(&self, r: RendererId) -> Option<Refusal>
        ensures die { (s : Session) (h : History) → Keeps h self.now
            → result ≡ refusal s h (events.Die r) }
        ensures revoke { (s : Session) (h : History) (text : List ℕ) → Keeps h self.now
            → result ≡ refusal s h (events.Revoke r text) }
    {
        if !self.is_alive(r) {
            return Some(Refusal::NoRenderer(r));
        }
        None
    }

    /// Of a `drop` or a `stat` line.
    pub fn handle_refusal(&self, r: RendererId, b: BlobName) -> Option<Refusal>
        ensures drop { (s : Session) (h : History) → Keeps h self.now
            → result ≡ refusal s h (events.Drop r b) }
        ensures stat { (s : Session) (h : History) → Keeps h self.now
            → result ≡ refusal s h (events.Stat r b) }
    {
        if !self.is_alive(r) {
            return Some(Refusal::NoRenderer(r));
        }
        if !self.has_handle(r, b) {
            return Some(Refusal::NoHandle(r, b));
        }
        None
    }

    /// Of a `pass` line.
    pub fn pass_refusal(&self, r: RendererId, to: RendererId, b: BlobName) -> Option<Refusal>
        ensures { (s : Session) (h : History) → Keeps h self.now
            → result ≡ refusal s h (events.Pass r to b) }
    {
        if !self.is_alive(r) {
            return Some(Refusal::NoRenderer(r));
        }
        if !self.is_alive(to) {
            return Some(Refusal::NoRenderer(to));
        }
        if !self.has_handle(r, b) {
            return Some(Refusal::NoHandle(r, b));
        }
        None
    }

    /// Of a `file` line.
    pub fn file_refusal(&self, name: &FileName, stamp: u64) -> Option<Refusal>
        ensures { (s : Session) (h : History) (bytes : List ℕ) → Keeps h self.now
            → result ≡ refusal s h (events.File name.now stamp bytes) }
    {
        if let Some(last) = last_stamp(self.notes.as_slice(), name.as_slice()) {
            if stamp <= last {
                return Some(Refusal::StaleStamp(last));
            }
        }
        if is_known(self.files.as_slice(), name.as_slice()) {
            return None;
        }
        if self.files.len() >= MOST_FILES {
            return Some(Refusal::TooMany(Counted::Files));
        }
        None
    }

    /// Of a `gone` line.
    pub fn gone_refusal(&self, name: &FileName) -> Option<Refusal>
        ensures { (s : Session) (h : History) → Keeps h self.now
            → result ≡ refusal s h (events.Gone name.now) }
    {
        if self.recorded(name).is_none() {
            return Some(Refusal::NoFile);
        }
        None
    }

    /// Whether the job of this number is in flight.
    fn is_flying(&self, j: JobNo) -> bool
        ensures { result ≡ is_flying self.now.job j.0 }
    {
        match &self.job {
            Some(job) => job.number == j.0,
            None => false,
        }
    }

    /// Of a `disk` or a `lost` line.
    pub fn job_refusal(&self, j: JobNo) -> Option<Refusal>
        ensures disk { (s : Session) (h : History) → Keeps h self.now
            → result ≡ refusal s h (events.Disk j) }
        ensures lost { (s : Session) (h : History) → Keeps h self.now
            → result ≡ refusal s h (events.Lost j) }
    {
        if !self.is_flying(j) {
            return Some(Refusal::NoJob(j));
        }
        None
    }
}

impl Contents {
    // Of the range that a `read` or a `fetch` line asks for.
    fn reader_refusal(
        &self,
        q: ReaderId,
        b: BlobName,
        off: u64,
        len: Option<u64>,
    ) -> Result<Option<Refusal>, NoMemory>
        ensures { IfOk result (λ why. (s : Session) (h : History) → Follows s h self.now
            → why ≡ first_that (reader_refusals s h q b off len)) }
    {
        if self.is_open(q.0) {
            return Ok(Some(Refusal::ReaderUsed(q)));
        }
        let size = self.size_in(b);
        let end = u128::from(off) + u128::from(len.unwrap_or(0));
        if !self.kept.is_broken(b) && size < end {
            return Ok(Some(Refusal::Range(few_bytes(size)?)));
        }
        if self.readers.len() >= MOST_READERS {
            return Ok(Some(Refusal::TooMany(Counted::Readers)));
        }
        Ok(None)
    }

    /// Of a `read` line.
    pub fn read_refusal(
        &self,
        r: RendererId,
        q: ReaderId,
        b: BlobName,
        off: u64,
        len: Option<u64>,
    ) -> Result<Option<Refusal>, NoMemory>
        ensures { IfOk result (λ why. (s : Session) (h : History) → Follows s h self.now
            → why ≡ refusal s h (events.Read r q b off len)) }
    {
        if !self.kept.is_alive(r) {
            return Ok(Some(Refusal::NoRenderer(r)));
        }
        if !self.kept.has_handle(r, b) {
            return Ok(Some(Refusal::NoHandle(r, b)));
        }
        self.reader_refusal(q, b, off, len)
    }

    /// Of a `fetch` line.
    pub fn fetch_refusal(
        &self,
        r: RendererId,
        q: ReaderId,
        text: &UrlText,
        off: u64,
        len: Option<u64>,
    ) -> Result<Option<Refusal>, NoMemory>
        ensures { IfOk result (λ why. (s : Session) (h : History) → Follows s h self.now
            → why ≡ refusal s h (events.Fetch r q text.now off len)) }
    {
        if !self.kept.is_alive(r) {
            return Ok(Some(Refusal::NoRenderer(r)));
        }
        match self.kept.resolved(r, text) {
            None => Ok(Some(Refusal::NoUrl)),
            Some(entry) => self.reader_refusal(q, entry.blob, off, len),
        }
    }

    /// Of a `step` line.
    pub fn step_refusal(&self, q: ReaderId) -> Option<Refusal>
        ensures { (s : Session) (h : History) → Follows s h self.now
            → result ≡ refusal s h (events.Step q) }
    {
        if !self.is_open(q.0) {
            return Some(Refusal::NoReader(q));
        }
        None
    }

    /// Of a `cancel` line.
    pub fn cancel_refusal(&self, r: RendererId, q: ReaderId) -> Option<Refusal>
        ensures { (s : Session) (h : History) → Follows s h self.now
            → result ≡ refusal s h (events.Cancel r q) }
    {
        if !self.kept.is_alive(r) {
            return Some(Refusal::NoRenderer(r));
        }
        if !self.owns_reader(r.0, q.0) {
            return Some(Refusal::NoReader(q));
        }
        None
    }

    // Of the bytes that a `data` line brings for this blob.
    fn part_refusal(
        &self,
        r: RendererId,
        b: BlobName,
        build: &Build,
        segment: u32,
        len: usize,
    ) -> Result<Option<Refusal>, NoMemory>
        ensures { IfOk result (λ why. (s : Session) (h : History) → Follows s h self.now
            → why ≡ first_that (segment_refusals s h r b segment len (Some build.now))) }
    {
        let sends = self.is_sending(r.0, build)?;
        if !sends {
            return Ok(Some(Refusal::NoTransport(b)));
        }
        let found = spans(self.alloc, &self.limits, build)?;
        let place = segment as usize;
        if place >= found.len() {
            return Ok(Some(Refusal::BadSegment(few(found.len())?)));
        }
        if self.kept.has_come(b, segment) {
            return Ok(Some(Refusal::SegmentTaken(segment)));
        }
        let (_, wanted) = found.as_slice()[place];
        if len as u64 != wanted {
            return Ok(Some(Refusal::SegmentLength(wanted)));
        }
        Ok(None)
    }

    /// Of a `data` line.
    pub fn segment_refusal(
        &self,
        r: RendererId,
        b: BlobName,
        segment: u32,
        bytes: &Octets,
    ) -> Result<Option<Refusal>, NoMemory>
        ensures { IfOk result (λ why. (s : Session) (h : History) → Follows s h self.now
            → why ≡ refusal s h (events.Segment r b segment bytes.now)) }
    {
        if !self.kept.is_alive(r) {
            return Ok(Some(Refusal::NoRenderer(r)));
        }
        match self.build(b) {
            None => Ok(Some(Refusal::NoTransport(b))),
            Some(build) => self.part_refusal(r, b, build, segment, bytes.len()),
        }
    }

    /// Of a `url` line.
    pub fn url_refusal(
        &self,
        r: RendererId,
        b: BlobName,
        text: &UrlText,
    ) -> Result<Option<Refusal>, NoMemory>
        ensures { IfOk result (λ why. (s : Session) (h : History) → Follows s h self.now
            → why ≡ refusal s h (events.Url r b text.now)) }
    {
        if !self.kept.is_alive(r) {
            return Ok(Some(Refusal::NoRenderer(r)));
        }
        if !self.kept.has_handle(r, b) {
            return Ok(Some(Refusal::NoHandle(r, b)));
        }
        let has_form = self.has_url_form(r, text)?;
        if !has_form {
            return Ok(Some(Refusal::UrlForm));
        }
        if self.is_registered(text) {
            return Ok(Some(Refusal::UrlTaken));
        }
        if self.kept.entries.len() >= MOST_URLS {
            return Ok(Some(Refusal::TooMany(Counted::Urls)));
        }
        Ok(None)
    }

    // Whether the text is a blob URL of the renderer's origin.
    fn has_url_form(&self, r: RendererId, text: &UrlText) -> Result<bool, NoMemory>
        ensures { IfOk result (λ has_form. (s : Session) (h : History) → Follows s h self.now
            → has_form ≡ is_url_of (origin_of h r.0) text.now) }
    {
        let origin = origin_of(self.kept.spawned.as_slice(), r.0);
        let has_form = is_url_of(self.alloc, origin, text.as_slice())?;
        Ok(has_form)
    }

    // Whether an entry has the text.
    fn is_registered(&self, text: &UrlText) -> bool
        ensures { (s : Session) (h : History) → Follows s h self.now
            → result ≡ is_some (entry_at (entries h) text.now) }
    {
        entry_at(&self.kept.entries, text.as_slice()).is_some()
    }
}
