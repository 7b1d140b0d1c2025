//! The plain store of the first sessions: a list of live blobs with their bytes.
pub mod admitted;
pub mod blob;
pub mod content;
pub mod fault;
pub mod reader;
pub mod readers;
pub mod shelf;

ghost use Rattle.std.specs.Prelude.{◌≡◌, ℕ, List, [], ◌∷◌, map, IfOk, IfErr, option_to_list};
ghost use Rattle.replay_run.specs.Settle.{unfinished_after};

use crate::store::admitted::Admitted;
use crate::store::blob::Blob;
use crate::store::content::{is_plain, joined, measure_parts, plan_for, range};
use crate::store::fault::ApplyFault;
use crate::store::reader::Reader;
use crate::store::readers::Readers;
use crate::store::shelf::Shelf;
use answer_text::{Answer, Answers, Group, Refusal};
use blob_words::{BlobName, Limits, Octets, ReaderId, RendererId, Status, Tally};
use indexmap::IndexSet;
use session_script::{Event, Part, Parts};
use std::alloc::Global;

/// The state of a session.
#[derive(Drop)]
pub struct Store {
    limits: Limits,
    ended: bool,
    /// The renderers that were spawned.
    renderers: IndexSet<u32>,
    /// The name of each blob that was ever built.
    names: IndexSet<u128>,
    shelf: Shelf,
    readers: Readers,
}

/// The blob that a line finishes: one that was built misses no byte.
fn finished_by(event: &Event, answer: &Answer) -> Option<BlobName>
    ensures { unfinished_after event.now answer.now [] ≡ option_to_list result }
{
    let Event::Build { b, .. } = event else {
        return None;
    };
    let Answer::Planned(_) = answer else {
        return None;
    };
    Some(*b)
}

/// The line's own answer, and that of a blob that got done.
fn listed(alloc: Global, answer: Answer, done: Option<BlobName>) -> Result<Answers, ApplyFault>
    ensures answers { IfOk result (λ answers. answers
        ≡ answer ∷ map Answer.Done (option_to_list done)) }
    ensures err { IfErr result (λ fault. fault ≡ ApplyFault.NoMemory) }
{
    let mut answers = Answers::new(alloc);
    answers.push(answer)?;
    if let Some(name) = done {
        answers.push(Answer::Done(name))?;
    }
    Ok(answers)
}

impl Store {
    ghost use Rattle.std.specs.Prelude.{Ok, true, false, length, take, drop, nat_le, Some, OnOk, IfSome, MatchOption};
    ghost use Rattle.std.specs.Option.{option_map};
    ghost use Rattle.session_script.specs.declared.event.Event.TheVariants as events;
    ghost use Rattle.blob_words.specs.declared.limits.Limits.{Limits as SomeLimits};
    ghost use Rattle.replay_run.specs.History.{History, start, heard, has_ended};
    ghost use Rattle.blob_words.specs.declared.number.RendererId.{RendererId as SomeRenderer};
    ghost use Rattle.blob_words.specs.declared.status.Status.{Status as SomeStatus};
    ghost use Rattle.answer_text.specs.declared.answer.Answer.TheVariants as answers;
    ghost use Rattle.replay_run.specs.Builds.{builds, is_built, size_of};
    ghost use Rattle.replay_run.specs.Readers.{range_end};
    ghost use Rattle.replay_run.specs.Live.{is_spawned, has_handle, is_live};
    ghost use Rattle.replay_run.specs.Pieces.{tally};
    ghost use Rattle.replay_run.specs.Own.{is_open, is_plain, is_unbuilt_read, own_build};
    ghost use Rattle.replay_run.specs.Shelf.{IsWithin, blob_at, bytes_in, count_of};
    ghost use Rattle.replay_run.specs.declared.store.reader.Reader.{Reader as SomeReader};
    ghost use Rattle.replay_run.specs.Open.{reader_at};
    ghost use Rattle.replay_run.specs.Room.{HasRoom};
    ghost use Rattle.replay_run.specs.Stands.{Stands, Rests, Answered, Applies};

    /// The store of a session with these limits.
    pub fn new(alloc: Global, limits: Limits) -> Store
        ensures { Rests limits result start }
    {
        Store {
            limits,
            ended: false,
            renderers: IndexSet::new(alloc),
            names: IndexSet::new(alloc),
            shelf: Shelf::new(alloc),
            readers: Readers::new(alloc),
        }
    }

    pub fn has_ended(&self) -> bool
        ensures { (l : SomeLimits) (h : History) → Stands l self.now h → result ≡ has_ended h }
    {
        self.ended
    }

    /// Whether the renderer was spawned.
    fn is_spawned(&self, renderer: RendererId) -> bool
        ensures { (l : SomeLimits) (h : History) → Stands l self.now h
            → result ≡ is_spawned h renderer.0 }
    {
        self.renderers.contains(&renderer.0)
    }

    /// Whether a blob of this name was built.
    fn is_built(&self, name: BlobName) -> bool
        ensures { (l : SomeLimits) (h : History) → Stands l self.now h → result ≡ is_built h name }
    {
        let number = name.number();
        self.names.contains(&number)
    }

    /// Whether so many blobs were built as a session may have.
    fn has_all_blobs(&self) -> bool
        ensures { (l : SomeLimits) (h : History) → Stands l self.now h
            → result ≡ nat_le 65536 (length (builds h)) }
    {
        self.names.len() >= 65_536
    }

    /// Whether the renderer has a handle on the blob.
    fn has_handle(&self, renderer: RendererId, name: BlobName) -> bool
        ensures { (l : SomeLimits) (h : History) → Stands l self.now h
            → result ≡ has_handle h renderer name }
    {
        self.shelf.is_held_by(renderer, name)
    }

    /// The size of a blob that somebody has a handle on.
    fn size_of(&self, name: BlobName) -> u64
        ensures { (l : SomeLimits) (h : History) → Stands l self.now h → is_live h name ≡ true
            → result ≡ size_of h name }
    {
        self.shelf.bytes_of(name).len() as u64
    }

    /// Whether a reader of this number is open.
    fn is_open(&self, number: ReaderId) -> bool
        ensures { (l : SomeLimits) (h : History) → Stands l self.now h → result ≡ is_open h number }
    {
        self.readers.find(number).is_some()
    }

    /// What the store holds.
    fn tally(&self) -> Tally
        ensures model { (l : SomeLimits) (h : History) → Stands l self.now h → result ≡ tally l h }
        ensures count { result ≡ count_of self.now.shelf.blobs }
        ensures within { IsWithin self.now.shelf }
    {
        self.shelf.tally()
    }

    fn spawn(&mut self, renderer: RendererId) -> Result<Answer, ApplyFault>
        ensures { (l : SomeLimits) (h : History) (origin : List ℕ) → Stands l self.old h
            → Answered l h (events.Spawn renderer origin) self.new result }
    {
        if self.renderers.contains(&renderer.0) || self.renderers.len() >= 1024 {
            return Err(ApplyFault::Unbuilt);
        }
        self.renderers.insert(renderer.0)?;
        Ok(Answer::Good)
    }

    /// The plan of a build by a renderer that was spawned, with its pieces, where it is built.
    fn admit(&self, name: BlobName, parts: &[Part]) -> Option<Admitted>
        ensures plan { (l : SomeLimits) (h : History) (renderer : SomeRenderer)
            → Stands l self.now h → is_spawned h renderer.0 ≡ true
            → own_build l h renderer name parts.now
            ≡ option_map (λ admitted. answers.Planned admitted.plan) result }
        ensures new { (l : SomeLimits) (h : History) → Stands l self.now h
            → IfSome result (λ _. is_built h name ≡ false) }
        ensures room { IfSome result (HasRoom self.now.limits self.now.shelf parts.now) }
    {
        if self.is_built(name) {
            return None;
        }
        if self.has_all_blobs() {
            return None;
        }
        let measure = measure_parts(parts, self.limits.page, self.limits.inline_max)?;
        if u64::from(self.shelf.pieces()) + measure.pieces > 65_536 {
            return None;
        }
        let memory = self.tally().memory;
        let plan = plan_for(&self.limits, memory, measure.size)?;
        Some(Admitted {
            plan,
            pieces: measure.pieces as u32,
        })
    }

    /// Puts a blob that was admitted on the shelf.
    fn keep(
        &mut self,
        alloc: Global,
        renderer: RendererId,
        name: BlobName,
        parts: &[Part],
        admitted: Admitted,
    ) -> Result<(), ApplyFault>
        requires { HasRoom self.old.limits self.old.shelf parts.now admitted }
        ensures ok { (l : SomeLimits) (h : History) (kind : List ℕ)
            → Stands l self.old h → is_built h name ≡ false
            → OnOk result (Stands l self.new (heard h (events.Build renderer name kind parts.now)
            (answers.Planned admitted.plan))) }
        ensures err { IfErr result (λ fault. fault ≡ ApplyFault.NoMemory) }
    {
        let bytes = joined(alloc, parts)?;
        let number = name.number();
        self.names.insert(number)?;
        self.shelf.push(Blob {
            name,
            holder: Some(renderer),
            bytes,
            pieces: admitted.pieces,
        })?;
        Ok(())
    }

    fn build(
        &mut self,
        alloc: Global,
        renderer: RendererId,
        name: BlobName,
        parts: &Parts,
    ) -> Result<Answer, ApplyFault>
        ensures { (l : SomeLimits) (h : History) (kind : List ℕ)
            → Stands l self.old h → is_plain kind parts.now ≡ true
            → Answered l h (events.Build renderer name kind parts.now) self.new result }
    {
        if !self.is_spawned(renderer) {
            return Ok(Answer::Refused(Refusal::NoRenderer(renderer)));
        }
        let Some(admitted) = self.admit(name, parts.as_slice()) else {
            return Err(ApplyFault::Unbuilt);
        };
        self.keep(alloc, renderer, name, parts.as_slice(), admitted)?;
        Ok(Answer::Planned(admitted.plan))
    }

    fn drop_handle(&mut self, renderer: RendererId, name: BlobName) -> Answer
        ensures { (l : SomeLimits) (h : History) → Stands l self.old h
            → Answered l h (events.Drop renderer name) self.new (Ok result) }
    {
        if !self.is_spawned(renderer) {
            return Answer::Refused(Refusal::NoRenderer(renderer));
        }
        if !self.has_handle(renderer, name) {
            return Answer::Refused(Refusal::NoHandle(renderer, name));
        }
        if self.readers.reads(name) {
            self.shelf.free(name);
            return Answer::Good;
        }
        self.shelf.remove(name);
        Answer::Good
    }

    /// The reader of a range of a blob on which there is a handle, where it is built.
    fn range_reader(
        &self,
        number: ReaderId,
        name: BlobName,
        off: u64,
        len: Option<u64>,
    ) -> Option<Reader>
        ensures reader { (l : SomeLimits) (h : History)
            → Stands l self.now h → is_live h name ≡ true
            → MatchOption result (is_unbuilt_read h number name off len ≡ true)
            (λ reader. (is_unbuilt_read h number name off len ≡ false) × (reader ≡ record {
              number = number;
              blob = name;
              place = off;
              end = range_end (size_of h name) off len;
            })) }
    {
        if self.is_open(number) {
            return None;
        }
        let size = self.size_of(name);
        let end = off.checked_add(len.unwrap_or(0))?;
        if end > size {
            return None;
        }
        if self.readers.len() >= 4096 {
            return None;
        }
        let end = if len.is_some() { end } else { size };
        Some(Reader {
            number,
            blob: name,
            place: off,
            end,
        })
    }

    fn read(
        &mut self,
        alloc: Global,
        renderer: RendererId,
        number: ReaderId,
        name: BlobName,
        off: u64,
        len: Option<u64>,
    ) -> Result<Answer, ApplyFault>
        ensures { (l : SomeLimits) (h : History) → Stands l self.old h
            → Answered l h (events.Read renderer number name off len) self.new result }
    {
        if !self.is_spawned(renderer) {
            return Ok(Answer::Refused(Refusal::NoRenderer(renderer)));
        }
        if !self.has_handle(renderer, name) {
            return Ok(Answer::Refused(Refusal::NoHandle(renderer, name)));
        }
        let Some(reader) = self.range_reader(number, name, off, len) else {
            return Err(ApplyFault::Unbuilt);
        };
        let size = self.size_of(name);
        self.readers.push(reader)?;
        Ok(Answer::Opened {
            q: number,
            size,
            kind: Octets::new(alloc),
        })
    }

    /// The next bytes of the reader, `count` of them.
    fn next_bytes(&self, alloc: Global, reader: &Reader, count: u64) -> Result<Octets, ApplyFault>
        ensures bytes { IfOk result (λ bytes. bytes ≡ take count (drop reader.now.place
            (bytes_in (blob_at self.now.shelf.blobs reader.now.blob)))) }
        ensures err { IfErr result (λ fault. fault ≡ ApplyFault.NoMemory) }
    {
        let all = self.shelf.bytes_of(reader.blob);
        let bytes = Octets::from_slice(alloc, range(all, reader.place, count))?;
        Ok(bytes)
    }

    fn step(&mut self, alloc: Global, number: ReaderId) -> Result<Answer, ApplyFault>
        ensures { (l : SomeLimits) (h : History) → Stands l self.old h
            → Answered l h (events.Step number) self.new result }
    {
        let Some(found) = self.readers.find(number) else {
            return Ok(Answer::Refused(Refusal::NoReader(number)));
        };
        let reader = *found;
        let left = reader.left();
        if left == 0 {
            self.close(number, reader.blob);
            return Ok(Answer::Ended(number, Status::Done));
        }
        let count = left.min(self.limits.chunk);
        let bytes = self.next_bytes(alloc, &reader, count)?;
        self.readers.place(number, reader.place_after(count));
        Ok(Answer::Given(number, bytes))
    }

    /// Closes the reader of a blob, and lets the blob go where nobody else keeps it.
    fn close(&mut self, number: ReaderId, name: BlobName)
        ensures { (l : SomeLimits) (h : History) (reader : SomeReader) (status : SomeStatus)
            → Stands l self.old h → reader_at self.old.readers number ≡ Some reader
            → reader.blob ≡ name
            → Stands l self.new (heard h (events.Step number) (answers.Ended number status)) }
    {
        self.readers.close(number);
        if self.readers.reads(name) {
            return;
        }
        if self.shelf.is_held(name) {
            return;
        }
        self.shelf.remove(name);
    }

    fn finish(&mut self) -> Answer
        ensures { (l : SomeLimits) (h : History) → Stands l self.old h
            → Answered l h events.Finish self.new (Ok result) }
    {
        self.ended = true;
        self.shelf.clear();
        self.readers.clear();
        Answer::Good
    }

    /// The line's own effect and answer.
    fn answer(&mut self, alloc: Global, event: &Event) -> Result<Answer, ApplyFault>
        ensures { (l : SomeLimits) (h : History) → Stands l self.old h
            → Answered l h event.now self.new result }
    {
        match event {
            Event::Spawn { r, .. } => self.spawn(*r),
            Event::Build { r, b, kind, parts } => {
                if !is_plain(kind.as_slice(), parts.as_slice()) {
                    return Err(ApplyFault::Unbuilt);
                }
                self.build(alloc, *r, *b, parts)
            }
            Event::Drop { r, b } => Ok(self.drop_handle(*r, *b)),
            Event::Read { r, q, b, off, len } => self.read(alloc, *r, *q, *b, *off, *len),
            Event::Step { q } => self.step(alloc, *q),
            Event::Finish => Ok(self.finish()),
            Event::Limits(_) | Event::Limits2(_) => Err(ApplyFault::Unbuilt),
            Event::Die { .. } | Event::Pass { .. } => Err(ApplyFault::Unbuilt),
            Event::File { .. } | Event::Gone { .. } => Err(ApplyFault::Unbuilt),
            Event::Slice { .. } | Event::Segment { .. } => Err(ApplyFault::Unbuilt),
            Event::Url { .. } | Event::Revoke { .. } => Err(ApplyFault::Unbuilt),
            Event::Fetch { .. } | Event::Cancel { .. } => Err(ApplyFault::Unbuilt),
            Event::Disk { .. } | Event::Lost { .. } => Err(ApplyFault::Unbuilt),
            Event::Stat { .. } | Event::Count => Err(ApplyFault::Unbuilt),
        }
    }

    /// Applies a line: its own effect, then the settling, then the tally.
    pub fn apply(&mut self, alloc: Global, event: Event) -> Result<Group, ApplyFault>
        ensures { (l : SomeLimits) (h : History) → Rests l self.old h
            → Applies l h event self.new result }
    {
        let answer = self.answer(alloc, &event)?;
        let done = finished_by(&event, &answer);
        let answers = listed(alloc, answer, done)?;
        Ok(Group {
            event,
            answers,
            tally: self.tally(),
        })
    }
}
