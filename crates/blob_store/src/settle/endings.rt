//! List 2: the blobs that end now.
ghost use Rattle.std.specs.Prelude.{◌≡◌, ◌<◌, ◌+◌, ◌++◌, List, [], ◌∷◌, flat_map, length, map};
ghost use Rattle.std.specs.Prelude.{slice_get, IfOk, IsSomeAnd, OnOk, Option};
ghost use Rattle.std.specs.Option.{option_map};
ghost use Rattle.blob_entries.specs.Counted.{SameItems};
ghost use Rattle.blob_entries.specs.Sound.{AreSound};
ghost use Rattle.blob_entries.specs.Weights.{KeepsBounds};
ghost use Rattle.blob_registry.specs.Passes.{Finishes};
ghost use Rattle.data_handles.specs.Table.{Table};
ghost use Rattle.page_disk.specs.declared.change.Change.{Change};
ghost use Rattle.page_files.specs.Files.{Agrees};
ghost use Rattle.registry_laws.specs.Laws.{ending_answer};

use crate::parts::Parts;
use answer_text::{Answer, Answers};
use blob_registry::ended_blob::{EndedBlob, Endings};
use blob_words::{BlobName, NoMemory, PieceNo, Status};
use item_shares::Item;

// How it is told that a blob ended.
fn answer_of(end: &EndedBlob) -> Answer
    ensures { result ≡ ending_answer end.now }
{
    match end.status {
        Status::Done => Answer::Done(end.name),
        status => Answer::Broken(end.name, status),
    }
}

/// Tells of each of these blobs how it ended.
pub fn tell_ended(answers: &mut Answers, ended: &[EndedBlob]) -> Result<(), NoMemory>
    ensures { OnOk result (answers.new ≡ answers.old ++ map ending_answer ended.now) }
{
    for end in ended {
        answers.push(answer_of(end))?;
    }
    Ok(())
}

impl Parts {
    ghost use Rattle.blob_store.specs.Passing.{in_memory, pieces_at};
    ghost use Rattle.blob_store.specs.Passing.{pieces_done, pieces_under, with_used};
    ghost use Rattle.blob_store.specs.Passing.{CanEnter, EntriesEnd};
    ghost use Rattle.blob_store.specs.Rows.{pieces_of_row};
    ghost use Rattle.blob_store.specs.Ending.{Ends};
    ghost use Rattle.blob_store.specs.Says.{scene};
    ghost use Rattle.blob_store.specs.Unheld.{HaveObjects};
    ghost use Rattle.blob_store.specs.Whole.{IsCharged, IsWhole};

    // The length of a piece, where its item is in memory.
    fn memory_length(&self, number: u32) -> Option<u64>
        requires { number < length self.now.homes }
        ensures { option_map (λ len. (number, len)) result ≡ in_memory self.now number }
    {
        let slot = self.homes.as_slice()[number as usize];
        match self.shares.get(slot) {
            Some(Item::Memory { piece, bytes }) => {
                if piece.0 == number {
                    Some(bytes.len() as u64)
                } else {
                    None
                }
            }
            _ => None,
        }
    }

    // A piece in memory is the latest in the order of use.
    fn enter_piece(&mut self, number: u32) -> Result<(), NoMemory>
        requires number { number < length self.old.homes }
        requires enters { CanEnter self.old }
        ensures enters { OnOk result (CanEnter self.new) }
        ensures used { OnOk result (self.new ≡ with_used (number ∷ []) self.old) }
    {
        let Some(len) = self.memory_length(number) else {
            return Ok(());
        };
        let piece = PieceNo(number);
        let _none = self.recent.victims(0, 0, 0); // says that no piece is there twice
        self.recent.leave(piece);
        let entered = self.recent.enter(piece, len)?;
        Ok(entered)
    }

    // The number behind the last piece of a blob.
    fn pieces_end(&self, number: u32) -> u32
        requires number { number < length self.now.rows }
        requires enters { CanEnter self.now }
        ensures { IsSomeAnd (slice_get self.now.rows number)
            (λ row. row.first + pieces_of_row self.now.limits.page row ≡ result) }
    {
        let next = number as usize + 1;
        if next < self.rows.len() {
            self.rows.as_slice()[next].first
        } else {
            self.homes.len() as u32
        }
    }

    // The pieces of a blob that are in memory are the latest.
    fn enter_pieces(&mut self, number: u32) -> Result<(), NoMemory>
        requires number { number < length self.old.rows }
        requires enters { CanEnter self.old }
        ensures enters { OnOk result (CanEnter self.new) }
        ensures used { OnOk result (self.new ≡ with_used (pieces_at self.old number) self.old) }
    {
        let first = self.rows.as_slice()[number as usize].first;
        let count = self.pieces_end(number) - first;
        for done in 0..count {
            self.enter_piece(first + done)?;
        }
        Ok(())
    }

    // Those of the blob of this name are.
    fn enter_blob(&mut self, name: BlobName) -> Result<(), NoMemory>
        requires { CanEnter self.old }
        ensures enters { OnOk result (CanEnter self.new) }
        ensures used { OnOk result (self.new ≡ with_used (pieces_under self.old name) self.old) }
    {
        if let Some(number) = self.registry.number_of(name) {
            self.enter_pieces(number)?;
        }
        Ok(())
    }

    // Those of a blob that got done are.
    fn enter_end(&mut self, end: &EndedBlob) -> Result<(), NoMemory>
        requires { CanEnter self.old }
        ensures enters { OnOk result (CanEnter self.new) }
        ensures used { OnOk result (self.new ≡ with_used (pieces_done self.old end.now) self.old) }
    {
        if let Status::Done = end.status {
            self.enter_blob(end.name)?;
        }
        Ok(())
    }

    // Those of the blobs that got done are, in the order of the endings.
    pub(crate) fn enter_done(&mut self, ended: &[EndedBlob]) -> Result<(), NoMemory>
        requires { CanEnter self.old }
        ensures enters { OnOk result (CanEnter self.new) }
        ensures used { OnOk result
            (self.new ≡ with_used (flat_map (pieces_done self.old) ended.now) self.old) }
    {
        for end in ended {
            self.enter_end(end)?;
        }
        Ok(())
    }

    // Each blob that ends now has ended, in order of build.
    #[tactic(auto, unfolding(crate::specs::Whole::IsCharged, crate::specs::Whole::IsWhole))]
    fn finish(&mut self) -> Result<Endings, NoMemory>
        requires { IsWhole self.old }
        ensures finishes { IfOk result (λ list.
            Finishes self.old.registry self.new.registry list) }
        ensures same { OnOk result (SameItems self.old.registry.entries self.new.registry.entries
            self.old.shares self.new.shares) }
        ensures sound { AreSound self.old.registry.names self.old.registry.entries }
        ensures charged { OnOk result (IsCharged self.new) }
        ensures bounds { OnOk result (KeepsBounds self.old.registry self.new.registry) }
        ensures rest { OnOk result (self.new ≡ record self.old {
          registry = self.new.registry;
          shares = self.new.shares;
        }) }
    {
        let _count = self.registry.registered(); // says that the entries are sound
        let Ok(ended) = self.registry.finish_pass(&mut self.shares) else {
            return Err(NoMemory);
        };
        Ok(ended)
    }

    // The blobs that end now, with what was kept of them beside. After want of memory the parts are
    // only to be dropped.
    #[tactic(auto, unfolding(crate::specs::Whole::IsCharged, crate::specs::Whole::IsWhole))]
    pub(crate) fn end_entries(&mut self) -> Result<Endings, NoMemory>
        requires { IsWhole self.old }
        ensures ends { IfOk result (λ list. EntriesEnd list self.old self.new) }
        ensures whole { OnOk result (IsWhole self.new) }
        ensures sound { AreSound self.old.registry.names self.old.registry.entries }
        ensures agrees { OnOk result ((changes : List Change)
            → Agrees self.old.pages.pages changes → Agrees self.new.pages.pages changes) }
    {
        let ended = self.finish()?;
        self.enter_done(ended.as_slice())?;
        self.end_rows(ended.as_slice());
        Ok(ended)
    }

    // The blobs that end now end, and it is told of each how. After want of memory the parts are
    // only to be dropped.
    #[tactic(auto, unfolding(crate::specs::Ending::Ends))]
    pub(crate) fn end_blobs(&mut self, answers: &mut Answers) -> Result<(), NoMemory>
        requires { IsWhole self.old }
        ensures whole { OnOk result (IsWhole self.new) }
        ensures objects { OnOk result ((table : Table)
            → HaveObjects self.old.shares table → HaveObjects self.new.shares table) }
        ensures ends { OnOk result ((told : Option (List Change)) (table : Table)
            → Ends answers.old answers.new (scene self.old told table)
            (scene self.new told table)) }
        ensures agrees { OnOk result ((changes : List Change)
            → Agrees self.old.pages.pages changes → Agrees self.new.pages.pages changes) }
    {
        let Ok(ended) = self.end_entries() else {
            return Err(NoMemory);
        };
        tell_ended(answers, ended.as_slice())
    }
}
