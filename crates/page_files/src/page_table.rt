ghost use Rattle.std.specs.Prelude.{◌≡◌, ◌+◌, ◌-◌, ◌^◌, ◌<◌, ◌++◌, [], ◌∷◌, set, length, take, nat_eq, slice_get, IfOk, OnErr, OnOk};
ghost use Rattle.std.specs.Option.{option_map_or};
ghost use Rattle.std.specs.List.{position, AllByRecursion, IsDistinct};
ghost use Rattle.page_files.specs.declared.page.Page.TheVariants.{Torn};
ghost use Rattle.page_files.specs.Keys.{HasSize};
ghost use Rattle.page_files.specs.Pieces.{bytes_of, numbers, HasBytes};
ghost use Rattle.page_files.specs.Pages.{can_move, is_due, is_held, is_unasked, page_at, pieces_at, released_at, size_of};

use crate::held::Held;
use crate::page::Page;
use blob_words::{NoMemory, PieceNo};
use first_fit::FirstFit;
use std::alloc::Global;
use std::marker::Model;

/// The pages by their numbers. Contracts see their list.
#[derive(Debug, Drop)]
pub struct PageTable {
    pages: Vec<Page>,
    // The key of each page as a thin one and as a due one: the least page of either kind is found
    // without a walk over the others.
    thin: FirstFit,
    due: FirstFit,
}

impl Model for PageTable {
    ghost use Rattle.std.specs.Prelude.{◌≡◌, List, map};
    ghost use Rattle.page_files.specs.declared.page.Page.{Page};
    ghost use Rattle.std.specs.List.{AllByRecursion};
    ghost use Rattle.page_files.specs.Keys.{due_key, thin_key, HasSize};

    ghost Value = { List Page };

    ghost view = { λ table. table.pages.items };

    ghost invariant = { λ table. (table.thin ≡ map thin_key table.pages.items)
        × (table.due ≡ map due_key table.pages.items)
        × AllByRecursion HasSize table.pages.items };
}

impl PageTable {
    /// No page.
    pub fn new(alloc: Global) -> PageTable
        ensures { result ≡ [] }
    {
        PageTable {
            pages: Vec::new(alloc),
            thin: FirstFit::new(alloc),
            due: FirstFit::new(alloc),
        }
    }

    /// How many page numbers were used.
    pub fn len(&self) -> usize
        ensures { result ≡ length self.now }
    {
        self.pages.len()
    }

    /// Uses the next page number, for a write that is to come.
    pub fn open(&mut self) -> Result<(), NoMemory>
        ensures ok { OnOk result (self.new ≡ self.old ++ Torn ∷ []) }
        ensures err { OnErr result (self.new ≡ self.old) }
    {
        self.thin.push(u64::MAX)?;
        if self.due.push(1).is_err() {
            self.thin.pop();
            return Err(NoMemory);
        }
        if self.pages.push(Page::Torn).is_err() {
            self.thin.pop();
            self.due.pop();
            return Err(NoMemory);
        }
        Ok(())
    }

    /// Takes the last page number back, whose write did not begin.
    pub fn shut(&mut self)
        requires { 0 < length self.old }
        ensures { self.new ≡ take (length self.old - 1) self.old }
    {
        self.thin.pop();
        self.due.pop();
        let _ = self.pages.pop();
    }

    /// Says what became of a page.
    pub fn put(&mut self, place: usize, page: Page)
        requires place { place < length self.old }
        requires size { HasSize page }
        ensures { self.new ≡ set self.old place page }
    {
        self.thin.set(place, page.thin_key());
        self.due.set(place, page.due_key());
        self.pages[place] = page;
    }

    /// Takes a reached piece out of a page, where it is there.
    pub fn release(&mut self, place: usize, piece: PieceNo)
        ensures { self.new ≡ released_at place piece self.old }
    {
        if let Some(page) = self.pages.get_mut(place) {
            page.release(piece);
            self.thin.set(place, page.thin_key());
            self.due.set(place, page.due_key());
        }
    }

    /// Whether a piece in the page is reached.
    pub fn is_held(&self, place: usize) -> bool
        ensures { result ≡ is_held (page_at self.now place) }
    {
        match self.pages.get(place) {
            Some(page) => page.is_held(),
            None => false,
        }
    }

    /// The bytes written to the page.
    pub fn size_of(&self, place: usize) -> u64
        ensures { result ≡ size_of (page_at self.now place) }
    {
        match self.pages.get(place) {
            Some(page) => page.size(),
            None => 0,
        }
    }

    /// Whether the page was written and its removal was not asked for.
    pub fn is_unasked(&self, place: usize) -> bool
        ensures { result ≡ is_unasked (page_at self.now place) }
    {
        match self.pages.get(place) {
            Some(page) => page.is_unasked(),
            None => false,
        }
    }

    /// The least thin page whose reached pieces have at most so many bytes.
    pub fn first_thin(&self, room: u64) -> Option<usize>
        ensures { result ≡ position (can_move room) self.now }
    {
        self.thin.first(room.min(u64::MAX - 1))
    }

    /// The least page that was written and holds no reached piece any more.
    pub fn first_due(&self) -> Option<usize>
        ensures { result ≡ position is_due self.now }
    {
        self.due.first(0)
    }

    /// The reached pieces in the page, by rising offset.
    #[tactic(auto, using(crate::proofs::Pages::apart_none))]
    pub fn pieces_at(&self, alloc: Global, place: usize) -> Result<Vec<Held>, NoMemory>
        ensures value { IfOk result (λ list. list.items ≡ pieces_at self.now place) }
        ensures apart { IsDistinct nat_eq (numbers (pieces_at self.now place)) }
        ensures long { AllByRecursion HasBytes (pieces_at self.now place) }
        ensures fits { bytes_of (pieces_at self.now place) < 2 ^ 64 }
    {
        match self.pages.get(place) {
            Some(Page::Whole { pieces, .. }) => pieces.list(alloc),
            Some(Page::Torn) => Ok(Vec::new(alloc)),
            Some(Page::Asked) => Ok(Vec::new(alloc)),
            None => Ok(Vec::new(alloc)),
        }
    }
}
