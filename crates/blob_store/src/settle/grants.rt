//! List 5: those that wait are granted in order, while the head fits in memory.
ghost use Rattle.std.specs.Prelude.{◌≡◌, ◌+◌, ◌≤◌, ◌<◌, ◌^◌, length, slice_get, sum, List, Option};
ghost use Rattle.std.specs.Prelude.{IfOk, IsSomeAnd, OnErr, OnOk};
ghost use Rattle.blob_store.specs.Granting.{gathering_at};
ghost use Rattle.blob_words.specs.declared.bounds.TheConstants.{MOST_PIECES};
ghost use Rattle.data_handles.specs.Table.{Table};
ghost use Rattle.page_disk.specs.declared.change.Change.{Change};
ghost use Rattle.transport_plan.specs.Spans.{piece_count};

use crate::parts::Parts;
use crate::row::{Row, Sending};
use answer_text::{Answer, Answers};
use blob_words::{BlobName, ItemList, NoMemory};
use segment_assembly::Assembly;
use std::mem;
use transport_plan::pieces_of;

// The segments of a number's blob are gathered from now on.
fn gather(rows: &mut ItemList<Row>, number: u32, segments: Assembly)
    requires { number < length rows.old }
    ensures { rows.new ≡ gathering_at number segments rows.old }
{
    let row = &mut rows.as_mut_slice()[number as usize];
    let _waited = mem::replace(&mut row.sending, Sending::Gathering(segments));
}

// The pieces of parts of these lengths count as held.
fn hold_pieces(held: &mut u32, lengths: &[u64], page: u64)
    requires page { 0 < page }
    requires small { sum lengths.now ≤ 2 ^ 30 }
    requires many { held.old + piece_count page lengths.now ≤ MOST_PIECES }
    ensures { held.new ≡ held.old + piece_count page lengths.now }
{
    let pieces = pieces_of(lengths, page);
    *held += pieces as u32;
}

impl Parts {
    ghost use Rattle.blob_store.specs.Granting.{CanGather, CanOpen, IsPlanned, Opens};
    ghost use Rattle.blob_store.specs.Says.{scene};
    ghost use Rattle.blob_store.specs.Seen.{parts_of};
    ghost use Rattle.blob_store.specs.Telling.{Tells};
    ghost use Rattle.blob_store.specs.Whole.{IsWhole};
    ghost use Rattle.blob_model.specs.Settle.{grants};
    ghost use Rattle.store_laws.specs.Granting.{unsent};
    ghost use Rattle.store_laws.specs.LateLaws.{IsSwept};

    // Room for the segments of a number's blob, of which none came.
    fn unsent(&self, number: u32) -> Result<Assembly, NoMemory>
        requires { IsSomeAnd (slice_get self.now.rows number) (IsPlanned self.now.limits) }
        ensures { IfOk result (λ segments. IsSomeAnd (slice_get self.now.rows number)
            (λ row. segments ≡ unsent self.now.limits row.lengths)) }
    {
        let row = &self.rows.as_slice()[number as usize];
        let plan = row.plan.unwrap();
        Assembly::new(self.alloc, row.lengths.as_slice(), plan, &self.limits)
    }

    // The segments of a blob that waited may come.
    fn open(&mut self, name: BlobName) -> Result<(), NoMemory>
        requires { CanOpen name self.old }
        ensures opens { OnOk result (Opens name self.old self.new) }
        ensures err { OnErr result (self.new ≡ self.old) }
    {
        let number = self.registry.number_of(name).unwrap();
        let Ok(segments) = self.unsent(number) else {
            return Err(NoMemory);
        };
        let lengths = self.rows.as_slice()[number as usize].lengths.as_slice();
        hold_pieces(&mut self.held, lengths, self.limits.page);
        gather(&mut self.rows, number, segments);
        self.registry.set_transport(name);
        Ok(())
    }

    /// Those that wait are granted in order, while the head fits in memory. After want of memory
    /// the parts are only to be dropped.
    #[tactic(auto, unfolding(crate::specs::Whole::IsWhole))]
    pub fn grant_waiting(&mut self, answers: &mut Answers) -> Result<(), NoMemory>
        requires whole { IsWhole self.old }
        requires swept { IsSwept (parts_of self.old) }
        ensures whole { OnOk result (IsWhole self.new) }
        ensures swept { OnOk result (IsSwept (parts_of self.new)) }
        ensures items { self.new.shares ≡ self.old.shares }
        ensures pages { self.new.pages ≡ self.old.pages }
        ensures tells { OnOk result ((told : Option (List Change)) → (table : Table)
            → Tells grants answers.old answers.new (scene self.old told table)
            (scene self.new told table)) }
    {
        while let Some(name) = self.quota.next_grant() {
            let Ok(()) = self.open(name) else {
                return Err(NoMemory);
            };
            let Ok(()) = answers.push(Answer::Granted(name)) else {
                return Err(NoMemory);
            };
        }
        Ok(())
    }
}
