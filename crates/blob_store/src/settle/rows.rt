//! The bytes of a blob that is dropped come no more: what they take is given back.
ghost use Rattle.std.specs.Prelude.{ℕ, ◌≡◌, ◌+◌, ◌-◌, ◌<◌, ◌≤◌, ◌^◌, length, slice_get, sum};
ghost use Rattle.std.specs.Prelude.{IsSomeAnd, [], List, count_by, ◌==◌};
ghost use Rattle.item_shares.specs.Shares.{item_at, HoldsPiece};
ghost use Rattle.page_disk.specs.declared.change.Change.{Change};
ghost use Rattle.page_files.specs.Files.{Agrees};
ghost use Rattle.transport_plan.specs.Spans.{piece_count};
ghost use Rattle.blob_store.specs.Dropping.{settled_at};

use crate::freed::discharge_if;
use crate::parts::Parts;
use crate::row::{Row, Sending};
use blob_registry::ended_blob::EndedBlob;
use blob_words::{BlobName, ItemList};
use quota_queue::Quota;
use std::mem;
use transport_plan::pieces_of;

// The row of a number is settled, and how its bytes came is handed out.
fn settle(rows: &mut ItemList<Row>, number: u32) -> Sending
    requires { number < length rows.old }
    ensures was { IsSomeAnd (slice_get rows.old number) (λ row. row.sending ≡ result) }
    ensures rest { rows.new ≡ settled_at number rows.old }
{
    let row = &mut rows.as_mut_slice()[number as usize];
    mem::replace(&mut row.sending, Sending::Settled)
}

// Gathered parts of these lengths take no room any more.
fn give_back(quota: &mut Quota, held: &mut u32, lengths: &[u64], page: u64)
    requires page { 0 < page }
    requires few { quota.old.limit ≤ 2 ^ 30 }
    requires used { sum lengths.now ≤ quota.old.used }
    requires held { piece_count page lengths.now ≤ held.old }
    ensures used { quota.new ≡ record quota.old { used = quota.old.used - sum lengths.now } }
    ensures held { held.new + piece_count page lengths.now ≡ held.old }
{
    let _used = quota.used(); // says that it is at most the limit
    let before = *held;
    let bytes = lengths.iter().sum();
    quota.discharge(bytes);
    let pieces = pieces_of(lengths, page);
    *held = before - pieces as u32;
}

impl Parts {
    ghost use Rattle.std.specs.Prelude.{fold};
    ghost use Rattle.quota_queue.specs.Queue.{without};
    ghost use Rattle.store_laws.specs.Passing.{ended_names};
    ghost use Rattle.blob_store.specs.Dropping.{settled_by, CanSettle, ChargedBeside, PiecesGo};
    ghost use Rattle.blob_store.specs.Dropping.{RowsGo};

    // Each of these slots has a pin fewer.
    fn unpin(&mut self, slots: &[usize])
        requires charged { ChargedBeside slots.now 0 0 self.old }
        requires pieces { (slot : ℕ) → 0 < count_by (λ one. one == slot) slots.now
            → IsSomeAnd (item_at self.old.shares slot) HoldsPiece }
        ensures charged { ChargedBeside [] 0 0 self.new }
        ensures goes { PiecesGo self.old self.new }
        ensures rest { self.new ≡ record self.old {
          shares = self.new.shares;
          quota = record self.old.quota { used = self.new.quota.used };
          pages = self.new.pages;
          recent = self.new.recent;
          held = self.new.held;
        } }
        ensures agrees { (changes : List Change) → Agrees self.old.pages.pages changes
            → Agrees self.new.pages.pages changes }
    {
        for slot in slots {
            let item = self.shares.release(*slot);
            discharge_if(
                &mut self.quota,
                &mut self.pages,
                &mut self.recent,
                &mut self.held,
                item,
            );
        }
    }

    // The row of a number is settled, and what its bytes took is given back.
    fn settle_row(&mut self, number: u32)
        requires number { number < length self.old.rows }
        requires settles { CanSettle self.old }
        ensures { RowsGo (settled_at number self.old.rows) self.old.quota.waiting
            self.old self.new }
    {
        let sending = settle(&mut self.rows, number);
        match &sending {
            Sending::Gathering(_) => {
                let row = &self.rows.as_slice()[number as usize];
                let lengths = row.lengths.as_slice();
                give_back(&mut self.quota, &mut self.held, lengths, self.limits.page);
            }
            Sending::Writing(slots, _) => self.unpin(slots.as_slice()),
            Sending::Settled => {}
            Sending::Waiting => {}
        }
    }

    // No bytes come any more for the blob of this name.
    fn drop_row(&mut self, name: BlobName)
        requires { CanSettle self.old }
        ensures { RowsGo (settled_by self.old.registry.names self.old.rows name)
            (without name self.old.quota.waiting) self.old self.new }
    {
        let _waited = self.quota.leave(name);
        if let Some(number) = self.registry.number_of(name) {
            self.settle_row(number);
        }
    }

    // No bytes come any more for the blobs of these names.
    pub(crate) fn drop_rows(&mut self, names: &[BlobName])
        requires { CanSettle self.old }
        ensures { RowsGo (fold (settled_by self.old.registry.names) self.old.rows names.now)
            (fold (λ list name. without name list) self.old.quota.waiting names.now)
            self.old self.new }
    {
        for name in names {
            self.drop_row(*name);
        }
    }

    // No bytes come any more for the blobs that ended.
    pub(crate) fn end_rows(&mut self, ended: &[EndedBlob])
        requires { CanSettle self.old }
        ensures { RowsGo
            (fold (settled_by self.old.registry.names) self.old.rows (ended_names ended.now))
            (fold (λ list name. without name list) self.old.quota.waiting (ended_names ended.now))
            self.old self.new }
    {
        for end in ended {
            self.drop_row(end.name);
        }
    }
}
