//! The items of a blob that comes, and what is charged for them.
ghost use Rattle.std.specs.Prelude.{◌≡◌, ◌+◌, ◌<◌, ◌≤◌, ◌^◌, ◌++◌, ◌∷◌, [], false, length, map, replicate, IfOk, OnOk};
ghost use Rattle.blob_model.specs.Parts.{embedded, own_bytes, own_lengths, parts_length};
ghost use Rattle.page_files.specs.Files.{room};
ghost use Rattle.quota_queue.specs.Queue.{is_waiting};
ghost use Rattle.transport_plan.specs.Spans.{piece_count};
ghost use Rattle.store_laws.specs.EntryLaws.{all_lengths, AreBrought};
ghost use Rattle.blob_store.specs.Laying.{first_piece, slot_of, HasRoom, Lays};
ghost use Rattle.store_laws.specs.NewItems.{inline_items, reserved_items};
ghost use Rattle.blob_store.specs.Putting.{ArePut};

use super::homes::{push_homeless, push_homes};
use super::own::{put_filed, put_inline};
use super::ranges::put_ranges;
use crate::parts::Parts;
use crate::row::Sending;
use blob_items::{View, ViewList};
use blob_words::{BlobName, ItemList, NoMemory, Plan};
use history_notions::parts::{own_bytes, own_lengths};
use session_script::Part;
use std::alloc::Global;
use transport_plan::pieces_of;

/// What is laid down of a blob that comes.
#[derive(Debug, Drop)]
pub struct Laid {
    /// Views of the ranges of files and data handles.
    pub ranges: ViewList,
    /// Views of its own pieces, where they have items.
    pub pieces: ViewList,
    /// How its own bytes come.
    pub sending: Sending,
}

// Pieces go to page files, and none came yet.
fn writing(alloc: Global, views: &[View]) -> Result<Sending, NoMemory>
    ensures { IfOk result (λ sending. sending
        ≡ Sending.Writing (map slot_of views.now) (replicate (length views.now) false)) }
{
    let mut slots = ItemList::new(alloc);
    let mut came = ItemList::new(alloc);
    for view in views {
        slots.push(view.slot)?;
        came.push(false)?;
    }
    Ok(Sending::Writing(slots, came))
}

impl Parts {
    ghost use Rattle.blob_store.specs.declared.row.Sending.TheVariants as Sending;

    // The own pieces come in memory.
    fn lay_inline(&mut self, parts: &[Part]) -> Result<ViewList, NoMemory>
        requires few { length self.old.homes
            + piece_count self.old.limits.page (own_lengths parts.now) < 2 ^ 32 }
        requires held { self.old.held
            + piece_count self.old.limits.page (own_lengths parts.now) < 2 ^ 32 }
        requires fits { own_bytes parts.now ≤ 2 ^ 62 }
        requires told { own_bytes parts.now ≤ length (embedded parts.now) }
        requires room { self.old.quota.used + own_bytes parts.now ≤ self.old.quota.limit }
        ensures put { IfOk result (λ views. ArePut self.old.shares
            (inline_items self.old.limits.page (first_piece self.old) parts.now) views
            self.new.shares) }
        ensures brought { IfOk result (λ views. AreBrought self.new.shares (first_piece self.old)
            (all_lengths self.old.limits.page parts.now) views) }
        ensures rest { IfOk result (λ views. self.new ≡ record self.old {
          shares = self.new.shares;
          homes = self.old.homes ++ map slot_of views;
          quota = record self.old.quota { used = self.old.quota.used + own_bytes parts.now };
          held = self.old.held + length views;
        }) }
    {
        let first = self.homes.len() as u32;
        let views = put_inline(self.alloc, &mut self.shares, self.limits.page, first, parts)?;
        push_homes(&mut self.homes, views.as_slice())?;
        self.quota.charge(own_bytes(parts) as u64);
        self.held += views.as_slice().len() as u32;
        Ok(views)
    }

    // Room in page files is reserved for the own pieces.
    fn lay_filed(&mut self, parts: &[Part]) -> Result<ViewList, NoMemory>
        requires few { length self.old.homes
            + piece_count self.old.limits.page (own_lengths parts.now) < 2 ^ 32 }
        requires held { self.old.held
            + piece_count self.old.limits.page (own_lengths parts.now) < 2 ^ 32 }
        requires fits { own_bytes parts.now ≤ 2 ^ 62 }
        requires room { own_bytes parts.now ≤ room self.old.pages }
        ensures put { IfOk result (λ views. ArePut self.old.shares
            (reserved_items (first_piece self.old)
            (all_lengths self.old.limits.page parts.now)) views self.new.shares) }
        ensures brought { IfOk result (λ views. AreBrought self.new.shares (first_piece self.old)
            (all_lengths self.old.limits.page parts.now) views) }
        ensures rest { IfOk result (λ views. self.new ≡ record self.old {
          shares = self.new.shares;
          homes = self.old.homes ++ map slot_of views;
          pages = record self.old.pages {
            reserved = self.old.pages.reserved + own_bytes parts.now;
          };
          held = self.old.held + length views;
        }) }
    {
        let first = self.homes.len() as u32;
        let views = put_filed(self.alloc, &mut self.shares, self.limits.page, first, parts)?;
        push_homes(&mut self.homes, views.as_slice())?;
        self.pages.reserve(own_bytes(parts) as u64);
        self.held += views.as_slice().len() as u32;
        Ok(views)
    }

    // The own bytes wait for room in memory.
    fn lay_waiting(&mut self, name: BlobName, parts: &[Part]) -> Result<(), NoMemory>
        requires fits { own_bytes parts.now ≤ 2 ^ 62 }
        requires fresh { is_waiting name self.old.quota.waiting ≡ false }
        ensures { OnOk result (self.new ≡ record self.old {
          homes = self.old.homes
              ++ replicate (piece_count self.old.limits.page (own_lengths parts.now)) 0;
          quota = record self.old.quota {
            waiting = self.old.quota.waiting ++ (name, own_bytes parts.now) ∷ [];
          };
        }) }
    {
        let lengths = own_lengths(self.alloc, parts)?;
        let count = pieces_of(lengths.as_slice(), self.limits.page);
        push_homeless(&mut self.homes, count)?;
        self.quota.wait(name, own_bytes(parts) as u64)?;
        Ok(())
    }

    /// The ranges of the parts come, and the own pieces as the plan says.
    pub(crate) fn lay(
        &mut self,
        name: BlobName,
        plan: Plan,
        parts: &[Part],
    ) -> Result<Laid, NoMemory>
        requires few { length self.old.homes
            + piece_count self.old.limits.page (own_lengths parts.now) < 2 ^ 32 }
        requires held { self.old.held
            + piece_count self.old.limits.page (own_lengths parts.now) < 2 ^ 32 }
        requires fits { parts_length parts.now ≤ 2 ^ 62 }
        requires room { HasRoom plan parts.now self.old }
        requires fresh { is_waiting name self.old.quota.waiting ≡ false }
        ensures { IfOk result (λ laid. Lays name plan parts.now self.old laid self.new) }
    {
        let ranges = put_ranges(self.alloc, &mut self.shares, parts)?;
        match plan {
            Plan::Shared(_) => {
                self.lay_waiting(name, parts)?;
                Ok(Laid {
                    ranges,
                    pieces: ViewList::new(self.alloc),
                    sending: Sending::Waiting,
                })
            }
            Plan::File(_) => {
                let pieces = self.lay_filed(parts)?;
                let sending = writing(self.alloc, pieces.as_slice())?;
                Ok(Laid {
                    ranges,
                    pieces,
                    sending,
                })
            }
            _ => {
                let pieces = self.lay_inline(parts)?;
                Ok(Laid {
                    ranges,
                    pieces,
                    sending: Sending::Settled,
                })
            }
        }
    }
}
