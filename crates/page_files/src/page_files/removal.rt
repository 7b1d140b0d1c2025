//! The removal of pages.
ghost use Rattle.std.specs.Prelude.{IfNone, is_some, length, ◌<◌, ◌≡◌, ◌+◌, ◌-◌, ◌<◌, ◌≤◌, None, Some, true, false, option_map, set, IfSome};
ghost use Rattle.std.specs.Option.{option_map_or};
ghost use Rattle.std.specs.List.{position};
ghost use Rattle.blob_source.specs.Faults.{Rose};
ghost use Rattle.page_disk.specs.Changes.{with_change};
ghost use Rattle.page_files.specs.declared.page.Page.TheVariants.{Asked};
ghost use Rattle.page_files.specs.Pages.{is_due, is_unasked, page_at};
ghost use Rattle.page_files.specs.Files.{all_asked, asked, removal, Agrees, Closes};

use crate::ending::Closed;
use crate::page::Page;
use crate::page_files::PageFiles;
use blob_words::{Failed, PageNo};
use page_disk::PageDisk;

impl PageFiles {
    // The removal of a page is asked for from now on.
    fn forget(&mut self, place: usize)
        requires { is_unasked (page_at self.old.pages place) ≡ true }
        ensures { self.new ≡ asked place self.old }
    {
        if self.table.is_held(place) {
            self.charged -= self.table.size_of(place);
            self.files -= 1;
        }
        self.table.put(place, Page::Asked);
    }

    // Asks for the removal of a page; whether it went.
    fn ask<D: PageDisk>(&mut self, place: usize, disk: &mut D) -> bool
        requires closed { D.writing disk.old ≡ None }
        requires agrees { IfSome (D.changes disk.old) (Agrees self.old.pages) }
        requires unasked { is_unasked (page_at self.old.pages place) ≡ true }
        ensures closed { D.writing disk.new ≡ None }
        ensures agrees { IfSome (D.changes disk.new) (Agrees self.new.pages) }
        ensures files { self.new ≡ asked place self.old }
        ensures changes { D.changes disk.new
            ≡ with_change (removal place result) (D.changes disk.old) }
        ensures good { result ≡ true → D.faults disk.new ≡ D.faults disk.old }
        ensures left { result ≡ false → Rose (D.faults disk.old) (D.faults disk.new) }
        ensures later { D.faults disk.old ≤ D.faults disk.new }
        ensures meter { D.meter disk.new ≡ D.meter disk.old }
    {
        let _pages = self.table.len(); // says that a place is a number
        self.forget(place);
        match disk.remove(PageNo(place as u32)) {
            Ok(()) => true,
            Err(Failed) => false,
        }
    }

    // Asks for the removal of a page, where it wasn't asked for before; whether it went.
    fn ask_once<D: PageDisk>(&mut self, place: usize, disk: &mut D) -> Option<bool>
        requires closed { D.writing disk.old ≡ None }
        requires agrees { IfSome (D.changes disk.old) (Agrees self.old.pages) }
        requires inside { place < length self.old.pages }
        ensures closed { D.writing disk.new ≡ None }
        ensures agrees { IfSome (D.changes disk.new) (Agrees self.new.pages) }
        ensures once { is_some result ≡ is_unasked (page_at self.old.pages place) }
        ensures files { self.new ≡ asked place self.old }
        ensures changes { D.changes disk.new ≡ option_map_or
            (λ goes. with_change (removal place goes) (D.changes disk.old))
            result (D.changes disk.old) }
        ensures good { IfSome result (λ goes. goes ≡ true → D.faults disk.new ≡ D.faults disk.old) }
        ensures none { IfNone result (D.faults disk.new ≡ D.faults disk.old) }
        ensures left { IfSome result
            (λ goes. goes ≡ false → Rose (D.faults disk.old) (D.faults disk.new)) }
        ensures later { D.faults disk.old ≤ D.faults disk.new }
        ensures meter { D.meter disk.new ≡ D.meter disk.old }
    {
        if self.table.is_unasked(place) {
            return Some(self.ask(place, disk));
        }
        None
    }

    /// Asks for the removal of the least page that was written whole and holds no reached piece any
    /// more; whether it went.
    pub fn remove_due<D: PageDisk>(&mut self, disk: &mut D) -> Option<(PageNo, bool)>
        requires closed { D.writing disk.old ≡ None }
        requires agrees { IfSome (D.changes disk.old) (Agrees self.old.pages) }
        ensures closed { D.writing disk.new ≡ None }
        ensures agrees { IfSome (D.changes disk.new) (Agrees self.new.pages) }
        ensures due { option_map (λ gone. gone.0.0) result ≡ position is_due self.old.pages }
        ensures files { self.new ≡ option_map_or (λ gone. asked gone.0.0 self.old) result self.old }
        ensures changes { D.changes disk.new ≡ option_map_or
            (λ gone. with_change (removal gone.0.0 gone.1) (D.changes disk.old))
            result (D.changes disk.old) }
        ensures none { IfNone result (D.faults disk.new ≡ D.faults disk.old) }
        ensures good { IfSome result
            (λ gone. gone.1 ≡ true → D.faults disk.new ≡ D.faults disk.old) }
        ensures left { IfSome result
            (λ gone. gone.1 ≡ false → Rose (D.faults disk.old) (D.faults disk.new)) }
        ensures later { D.faults disk.old ≤ D.faults disk.new }
        ensures meter { D.meter disk.new ≡ D.meter disk.old }
    {
        let place = self.table.first_due()?;
        let goes = self.ask(place, disk);
        Some((PageNo(place as u32), goes))
    }

    /// Asks once for the removal of each page not asked for before, by rising number.
    pub fn close<D: PageDisk>(&mut self, disk: &mut D) -> Closed
        requires closed { D.writing disk.old ≡ None }
        requires agrees { IfSome (D.changes disk.old) (Agrees self.old.pages) }
        ensures closed { D.writing disk.new ≡ None }
        ensures agrees { IfSome (D.changes disk.new) (Agrees self.new.pages) }
        ensures files { self.new ≡ record self.old { pages = all_asked self.old.pages } }
        ensures once { Closes self.old.pages (D.changes disk.old) (D.changes disk.new)
            (D.faults disk.old) (D.faults disk.new) result }
        ensures later { D.faults disk.old ≤ D.faults disk.new }
        ensures meter { D.meter disk.new ≡ D.meter disk.old }
    {
        let mut closed = Closed {
            removed: 0,
            left: 0,
        };
        for place in 0..self.table.len() {
            let goes = self.ask_once(place, disk);
            closed.count(goes);
        }
        closed
    }
}
