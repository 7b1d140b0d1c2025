//! What is kept of a history with the order in which pieces were used.
ghost use Rattle.std.specs.Prelude.{◌≡◌, ℕ, ◌+◌, ◌<◌, ◌^◌, map, IfOk, OnOk};
ghost use Rattle.std.specs.List.{range_with_len};
ghost use Rattle.std.specs.Option.{option_copied};
ghost use Rattle.session_script.specs.declared.event.Event.{Event};
ghost use Rattle.answer_text.specs.declared.refusal.Refusal.{Refusal};
ghost use Rattle.blob_model.specs.Session.{Session, page_limit};
ghost use Rattle.blob_model.specs.History.{History, start, heard, refused, said};
ghost use Rattle.blob_model.specs.Legal.{session};
ghost use Rattle.blob_model.specs.Builds.{sent};
ghost use Rattle.blob_model.specs.Pieces.{owns, piece_with};
ghost use Rattle.blob_model.specs.Chunk.{chunk};
ghost use Rattle.blob_model.specs.Readers.{reader_at};
ghost use Rattle.blob_model.specs.Victims.{used_by_line, used_by_chunk};
ghost use Rattle.history_notions.specs.Runs.{cell_at, run_cells, cells_of_runs};
ghost use Rattle.history_notions.specs.declared.run.Source.TheVariants as kinds;
ghost use Rattle.history_notions.specs.Silent.{outside_of};
ghost use Rattle.history_notions.specs.Uses.{use_cell, use_cells, chunk_in, use_blob, use_done};
ghost use Rattle.history_notions.specs.Follows.{Follows};
ghost use Rattle.history_notions.specs.FollowsCourse.{FollowsCourse};

use crate::blobs::Blobs;
use crate::builds::{Build, build_in};
use crate::contents::Contents;
use crate::pages::Page;
use crate::pieces::Piece;
use crate::readers::{OpenReader, left};
use crate::run::{Run, Source};
use crate::runs::put_slice;
use crate::tally::is_in_memory;
use crate::victims::used;
use answer_text::Answer;
use blob_words::{BlobName, ItemList, Limits, NoMemory, Octets64, Version};
use session_script::Event;
use std::alloc::Global;

/// What is kept of a history, and the pieces ever used, by last use, the earliest first.
#[derive(Debug, Drop)]
pub struct Course {
    pub contents: Contents,
    pub uses: Vec<u32>,
}

/// Whether the piece has the own byte of the blob at an index.
fn owns(piece: &Piece, blob: BlobName, index: u128) -> bool
    ensures { result ≡ owns piece.now (sent blob index) }
{
    let end = u128::from(piece.from) + u128::from(piece.len);
    blob == piece.blob && u128::from(piece.from) <= index && index < end
}

/// The piece that has the own byte.
pub fn piece_with(list: &[Piece], blob: BlobName, index: u128) -> Option<&Piece>
    ensures { option_copied result ≡ piece_with list.now (sent blob index) }
{
    list.iter().find(|piece| owns(piece, blob, index))
}

/// The own byte of a blob at an index uses its piece, where that is in memory.
fn use_index(
    pages: &[Page],
    builds: &Blobs,
    list: &[Piece],
    blob: BlobName,
    index: u128,
    uses: &mut Vec<u32>,
) -> Result<(), NoMemory>
    ensures { OnOk result (uses.new.items
        ≡ use_cell pages.now builds.now list.now uses.old.items (sent blob index)) }
{
    if let Some(piece) = piece_with(list, blob, index) {
        if is_in_memory(pages, builds, piece) {
            used(uses, piece.number)?;
        }
    }
    Ok(())
}

/// The own bytes of a blob from an index on use their pieces.
fn use_own(
    pages: &[Page],
    builds: &Blobs,
    list: &[Piece],
    blob: BlobName,
    from: u128,
    len: u64,
    uses: &mut Vec<u32>,
) -> Result<(), NoMemory>
    requires { from + len < 2 ^ 66 }
    ensures { OnOk result (uses.new.items ≡ use_cells pages.now builds.now list.now
        uses.old.items (map (cell_at (kinds.Sent blob)) (range_with_len from len))) }
{
    for k in 0..len {
        use_index(pages, builds, list, blob, from + u128::from(k), uses)?;
    }
    Ok(())
}

/// The cells of a run use their pieces.
fn use_run(
    pages: &[Page],
    builds: &Blobs,
    list: &[Piece],
    run: &Run,
    uses: &mut Vec<u32>,
) -> Result<(), NoMemory>
    ensures { OnOk result (uses.new.items
        ≡ use_cells pages.now builds.now list.now uses.old.items (run_cells run.now)) }
{
    match run.source {
        Source::Sent(blob) => use_own(pages, builds, list, blob, run.from, run.len, uses),
        Source::Filed(..) => Ok(()),
        Source::Lent(_) => Ok(()),
    }
}

/// The cells of runs use their pieces, one after the other.
fn use_runs(
    pages: &[Page],
    builds: &Blobs,
    list: &[Piece],
    runs: &[Run],
    uses: &mut Vec<u32>,
) -> Result<(), NoMemory>
    ensures { OnOk result (uses.new.items
        ≡ use_cells pages.now builds.now list.now uses.old.items (cells_of_runs runs.now)) }
{
    for run in runs {
        use_run(pages, builds, list, run, uses)?;
    }
    Ok(())
}

/// The next cells of a reader's range, at most `most` of them.
fn chunk_in(
    alloc: Global,
    most: u64,
    builds: &[Build],
    reader: &OpenReader,
) -> Result<ItemList<Run>, NoMemory>
    ensures { IfOk result (λ runs. cells_of_runs runs ≡ chunk_in most builds.now reader.now) }
{
    let mut found = ItemList::new(alloc);
    if let Some(build) = build_in(builds, reader.blob) {
        let len = left(reader).min(u128::from(most)) as u64;
        put_slice(alloc, build.runs.as_slice(), reader.place, len, &mut found)?;
    }
    Ok(found)
}

/// A blob that gets done uses its pieces, in rising number.
fn use_blob(list: &[Piece], name: BlobName, uses: &mut Vec<u32>) -> Result<(), NoMemory>
    ensures { OnOk result (uses.new.items ≡ use_blob list.now name uses.old.items) }
{
    for piece in list {
        if piece.blob == name {
            used(uses, piece.number)?;
        }
    }
    Ok(())
}

fn use_done(list: &[Piece], answer: &Answer, uses: &mut Vec<u32>) -> Result<(), NoMemory>
    ensures { OnOk result (uses.new.items ≡ use_done list.now answer.now uses.old.items) }
{
    if let Answer::Done(b) = answer {
        use_blob(list, *b, uses)?;
    }
    Ok(())
}

impl Contents {
    /// The next cells of a reader's range.
    pub fn chunk(&self, reader: &OpenReader) -> Result<ItemList<Run>, NoMemory>
        ensures { IfOk result (λ runs. (s : Session) (h : History) → Follows s h self.now
            → cells_of_runs runs ≡ chunk s.limits h reader.now) }
    {
        let blobs = self.builds.as_slice();
        let runs = chunk_in(self.alloc, self.limits.chunk, blobs, reader)?;
        Ok(runs)
    }

    // The chunk of the reader uses its pieces.
    fn use_chunk(&self, number: u32, uses: &mut Vec<u32>) -> Result<(), NoMemory>
        ensures { OnOk result ((s : Session) (h : History) → Follows s h self.now
            → uses.new.items ≡ used_by_chunk s.limits h
            (reader_at (page_limit s) h number) uses.old.items) }
    {
        let Some(reader) = self.reader(number) else {
            return Ok(());
        };
        let runs = self.chunk(reader)?;
        let pages = self.kept.pages.as_slice();
        let blobs = &self.builds;
        let list = self.pieces.as_slice();
        use_runs(pages, blobs, list, runs.as_slice(), uses)?;
        Ok(())
    }

    /// A step that gives bytes uses the pieces in the order of their last bytes in it.
    fn use_line(&self, event: &Event, answer: &Answer, uses: &mut Vec<u32>) -> Result<(), NoMemory>
        ensures { OnOk result ((s : Session) (h : History) → Follows s h self.now
            → uses.new.items ≡ used_by_line s.limits h event.now answer.now uses.old.items) }
    {
        if let Event::Step { q } = event {
            if let Answer::Given(..) = answer {
                self.use_chunk(q.0, uses)?;
            }
        }
        Ok(())
    }
}

impl Course {
    /// Of a history without a line, over data handles of these sizes.
    pub fn new(alloc: Global, limits: Limits, version: Version, sizes: Octets64) -> Course
        ensures { FollowsCourse (session (outside_of sizes) version limits) start result }
    {
        Course {
            contents: Contents::new(alloc, limits, version, sizes),
            uses: Vec::new(alloc),
        }
    }

    /// After a further answer.
    pub fn say(&mut self, answer: &Answer) -> Result<(), NoMemory>
        ensures { OnOk result ((s : Session) (h : History) → FollowsCourse s h self.old
            → FollowsCourse s (said h answer.now) self.new) }
    {
        use_done(self.contents.pieces.as_slice(), answer, &mut self.uses)?;
        self.contents.say(answer)?;
        Ok(())
    }

    /// After a refused line.
    pub fn refuse(&mut self)
        ensures { (s : Session) (h : History) (event : Event) (why : Refusal)
            → FollowsCourse s h self.old → FollowsCourse s (refused h event why) self.new }
    {
        self.contents.refuse();
    }

    /// After an accepted line with its first answer.
    pub fn hear(&mut self, event: &Event, answer: &Answer) -> Result<(), NoMemory>
        ensures { OnOk result ((s : Session) (h : History) → FollowsCourse s h self.old
            → FollowsCourse s (heard h event.now answer.now) self.new) }
    {
        self.contents.use_line(event, answer, &mut self.uses)?;
        self.contents.hear(event, answer)?;
        Ok(())
    }
}
