//! What comes before and behind the write of a page.
ghost use Rattle.std.specs.Prelude.{ℕ, ◌≡◌, ◌≢◌, ◌+◌, ◌-◌, ◌^◌, ◌<◌, ◌≤◌, [], length, nat_eq, set, take, IfOk, OnErr};
ghost use Rattle.std.specs.List.{AllByRecursion, IsDistinct};
ghost use Rattle.item_shares.specs.Shares.{share_at};
ghost use Rattle.page_files.specs.declared.page.Page.TheVariants.{Torn, Whole};
ghost use Rattle.page_files.specs.Pieces.{bytes_of, names, numbers, HasBytes};
ghost use Rattle.page_files.specs.Pages.{page_at};
ghost use Rattle.page_files.specs.Items.{turned, IsPieceIn};
ghost use Rattle.page_files.specs.Files.{page_no, room, with_page};
ghost use Rattle.page_files.specs.Prepared.{IsNextPage};

use crate::copies::{names, placed};
use crate::held::Held;
use crate::next_page::NextPage;
use crate::page::Page;
use crate::page_files::PageFiles;
use crate::piece_table::PieceTable;
use crate::turn::turn_paged;
use blob_words::{NoMemory, PageNo, PieceList};
use item_shares::Shares;

impl PageFiles {
    // Uses the next page number, for pieces that are to be written there, and takes the memory for
    // them.
    #[tactic(auto, using(crate::proofs::Lists::placed_apart, crate::proofs::Lists::placed_long, crate::proofs::Lists::placed_bytes))]
    pub(crate) fn next_page(&mut self, pieces: &[Held]) -> Result<NextPage, NoMemory>
        requires apart { IsDistinct nat_eq (numbers pieces.now) }
        requires long { AllByRecursion HasBytes pieces.now }
        requires fits { bytes_of pieces.now < 2 ^ 64 }
        requires numbers { length self.old.pages < 2 ^ 31 }
        ensures ok { IfOk result (λ next.
            IsNextPage (page_no (length self.old.pages)) pieces.now next
            × (self.new ≡ with_page Torn self.old)) }
        ensures err { OnErr result (self.new ≡ self.old) }
    {
        let list = names(self.alloc, pieces)?;
        let pieces = placed(self.alloc, pieces)?;
        let table = PieceTable::new(self.alloc, pieces.as_slice())?;
        let page = PageNo(self.table.len() as u32);
        self.table.open()?;
        Ok(NextPage {
            page,
            size: table.bytes(),
            pieces,
            table,
            list,
        })
    }

    // The write of the next page did not begin, and its number is free again.
    pub(crate) fn give_back(&mut self)
        requires some { 0 < length self.old.pages }
        requires torn { page_at self.old.pages (length self.old.pages - 1) ≡ Torn }
        ensures { self.new
            ≡ record self.old { pages = take (length self.old.pages - 1) self.old.pages } }
    {
        self.table.shut();
    }

    // The next page was written; its pieces are there now.
    pub(crate) fn keep(&mut self, next: NextPage, shares: &mut Shares) -> PieceList
        requires last { next.page.0 < length self.old.pages }
        requires torn { page_at self.old.pages next.page.0 ≡ Torn }
        requires whole { (next.table ≡ next.pieces.items)
            × (next.size ≡ bytes_of next.pieces.items) }
        requires some { next.pieces.items ≢ [] }
        requires room { next.size ≤ room self.old }
        requires items { AllByRecursion (IsPieceIn shares.old) next.pieces.items }
        ensures list { result ≡ next.list }
        ensures files { self.new ≡ record self.old {
          pages = set self.old.pages next.page.0 (Whole next.size next.table);
        } }
        ensures items { (slot : ℕ) → share_at shares.new slot
            ≡ turned next.page next.pieces.items slot (share_at shares.old slot) }
    {
        turn_paged(shares, next.page, next.pieces.as_slice());
        let page = Page::Whole {
            size: next.size,
            pieces: next.table,
        };
        self.table.put(next.page.0 as usize, page);
        self.files += 1;
        self.charged += next.size;
        next.list
    }
}
