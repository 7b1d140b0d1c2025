//! The line `step`.
ghost use Rattle.std.specs.Prelude.{◌≡◌, [], ◌∷◌, None, IfOk, IsSome, IsSomeAnd, OnErr, OnOk};
ghost use Rattle.blob_entries.specs.Book.{changed};
ghost use Rattle.blob_entries.specs.Changes.{held_less};
ghost use Rattle.data_handles.specs.Boxes.{of_table};
ghost use Rattle.store_laws.specs.StepLaws.{step_answer};
ghost use Rattle.blob_store.specs.Readers.{reader_at, Closes};
ghost use Rattle.blob_store.specs.Steps.{AreReadable};
ghost use Rattle.blob_store.specs.Reading.{IsClosing, IsReading};

use crate::lines::touching::touch_read;
use crate::parts::Parts;
use answer_text::{Answer, Refusal};
use blob_entries::status::{is_done, is_pending};
use blob_items::View;
use blob_words::{BlobName, NoMemory, Octets, ReaderId, Status};
use data_handles::{Boxed, DataHandle, HandleTable};
use item_shares::{Item, Shares};
use page_disk::PageDisk;
use range_reader::StepEnd;
use std::alloc::Global;

// The answer to a step that reads no bytes.
fn closing_answer(
    alloc: Global,
    reader: ReaderId,
    end: StepEnd,
    views: &[View],
    shares: &Shares,
) -> Result<Answer, NoMemory>
    requires { IsClosing shares.now views.now end }
    ensures { IfOk result (λ answer. answer
        ≡ step_answer reader shares.now views.now [] end) }
{
    match end {
        StepEnd::Bytes(_) => unreachable!(),
        StepEnd::End => Ok(Answer::Ended(reader, Status::Done)),
        StepEnd::FileChanged(view) => {
            let Some(Item::File { name, .. }) = shares.get(views[view].slot) else {
                unreachable!()
            };
            let name = name.copy(alloc)?;
            Ok(Answer::FileChanged(reader, name))
        }
        StepEnd::PageFault(page) => Ok(Answer::PageFault(reader, page)),
        StepEnd::HandleFault(slot) => Ok(Answer::HandleFailed(reader, slot)),
    }
}

impl Parts {
    ghost use Rattle.session_script.specs.declared.event.Event.TheVariants as events;
    ghost use Rattle.blob_store.specs.Says.{scene, Says};
    ghost use Rattle.blob_store.specs.Whole.{IsWhole};

    // An open reader is closed, and its blob has one root fewer.
    #[tactic(auto, unfolding(crate::specs::Whole::IsWhole))]
    fn end_reader(&mut self, reader: ReaderId)
        requires whole { IsWhole self.old }
        requires there { IsSome (reader_at reader.0 self.old.readers) }
        ensures whole { IsWhole self.new }
        ensures closed { Closes reader.0 self.old.readers self.new.readers }
        ensures rest { IsSomeAnd (reader_at reader.0 self.old.readers) (λ one. self.new
            ≡ record self.old {
              registry = changed self.old.registry one.blob held_less;
              readers = self.new.readers;
            }) }
    {
        let open = self.readers.close(reader).unwrap();
        self.registry.let_go(open.blob);
    }

    // An open reader of a blob that is done reads at most so many bytes.
    #[tactic(auto, unfolding(crate::specs::Whole::IsWhole))]
    fn read_next<D: PageDisk>(
        &mut self,
        reader: ReaderId,
        blob: BlobName,
        place: u64,
        room: u64,
        disk: &mut D,
        handles: &mut HandleTable,
    ) -> Result<Answer, NoMemory>
        requires whole { IsWhole self.old }
        requires closed { D.writing disk.old ≡ None }
        requires readable { AreReadable self.old.shares (D.changes disk.old)
            (of_table ⟦<Boxed as DataHandle>⟧.seen handles.old) }
        requires reading { IsReading self.old reader.0 blob place room }
        ensures whole { OnOk result (IsWhole self.new) }
        ensures closed { D.writing disk.new ≡ None }
        ensures same { D.changes disk.new ≡ D.changes disk.old }
        ensures says { IfOk result (λ answer. Says (events.Step reader) (answer ∷ [])
            (scene self.old (D.changes disk.old)
            (of_table ⟦<Boxed as DataHandle>⟧.seen handles.old))
            (scene self.new (D.changes disk.new)
            (of_table ⟦<Boxed as DataHandle>⟧.seen handles.new))) }
        ensures err { OnErr result (self.new ≡ self.old) }
    {
        let Ok(mut out) = vec![in self.alloc; 0u8; room as usize] else {
            return Err(NoMemory);
        };
        let _count = self.registry.registered(); // says that a blob has the bytes of its views
        let views = self.registry.views_of(blob).unwrap();
        let end = self.readers.step(
            reader,
            views,
            &self.shares,
            &self.files,
            disk,
            handles,
            out.as_mut_slice(),
        );
        if let StepEnd::Bytes(count) = end {
            touch_read(&mut self.recent, &self.shares, views, place, count as u64);
            out.truncate(count);
            return Ok(Answer::Given(reader, Octets::from_vec(out)));
        }
        let answer = closing_answer(self.alloc, reader, end, views.as_slice(), &self.shares)?;
        self.end_reader(reader);
        Ok(answer)
    }

    /// A reader reads the next bytes of its range.
    #[tactic(auto, unfolding(crate::specs::Whole::IsWhole))]
    pub fn step<D: PageDisk>(
        &mut self,
        reader: ReaderId,
        disk: &mut D,
        handles: &mut HandleTable,
    ) -> Result<Answer, NoMemory>
        requires whole { IsWhole self.old }
        requires closed { D.writing disk.old ≡ None }
        requires readable { AreReadable self.old.shares (D.changes disk.old)
            (of_table ⟦<Boxed as DataHandle>⟧.seen handles.old) }
        ensures whole { OnOk result (IsWhole self.new) }
        ensures closed { D.writing disk.new ≡ None }
        ensures same { D.changes disk.new ≡ D.changes disk.old }
        ensures says { IfOk result (λ answer. Says (events.Step reader) (answer ∷ [])
            (scene self.old (D.changes disk.old)
            (of_table ⟦<Boxed as DataHandle>⟧.seen handles.old))
            (scene self.new (D.changes disk.new)
            (of_table ⟦<Boxed as DataHandle>⟧.seen handles.new))) }
        ensures err { OnErr result (self.new ≡ self.old) }
    {
        let Some(open) = self.readers.find(reader) else {
            return Ok(Answer::Refused(Refusal::NoReader(reader)));
        };
        let blob = open.blob;
        let place = open.course.place();
        let left = open.course.left();
        let status = self.registry.status_of(blob).unwrap();
        if is_pending(status) {
            return Ok(Answer::Wait(reader));
        }
        if !is_done(status) || left == 0 {
            self.end_reader(reader);
            return Ok(Answer::Ended(reader, status));
        }
        let room = left.min(self.limits.chunk);
        let answer = self.read_next(reader, blob, place, room, disk, handles)?;
        Ok(answer)
    }
}
