ghost use Rattle.std.specs.Prelude.{ℕ, ◌≡◌, ◌+◌, ◌^◌, ◌<◌, ◌≤◌, ◌++◌, [], ◌∷◌, Some, None, true};
ghost use Rattle.std.specs.Prelude.{false, length, set, slice_get, slice_index, is_some};
ghost use Rattle.std.specs.Prelude.{if◌then◌else◌, IfOk, IfSome, IsSome, IsSomeAnd, OnErr, OnOk};
ghost use Rattle.blob_words.specs.declared.bounds.TheConstants.{MOST_BLOBS};
ghost use Rattle.std.specs.Option.{option_copied, option_map_or};
ghost use Rattle.blob_words.specs.declared.status.Status.TheVariants.{Done, PendingTransport};
ghost use Rattle.blob_entries.specs.Book.{book_of, changed_at, entry_at, is_unfinished};
ghost use Rattle.blob_entries.specs.Changes.{with_bytes, with_mark, with_roots, with_status};
ghost use Rattle.blob_entries.specs.Counted.{AreCounted, SameItems};
ghost use Rattle.blob_entries.specs.Endings.{ending_at, LooksAt};
ghost use Rattle.blob_entries.specs.Leaving.{gone_views, Leaves, LetsGo};
ghost use Rattle.blob_entries.specs.Names.{number_of};
ghost use Rattle.blob_entries.specs.Sound.{AreOwn, AreSound, IsSound};
ghost use Rattle.blob_entries.specs.Sources.{needs, sources_at, sources_of};
ghost use Rattle.blob_entries.specs.Standing.{name_under, standing};
ghost use Rattle.blob_entries.specs.Statuses.{is_broken, is_pending};
ghost use Rattle.blob_entries.specs.Weights.{HasRoom, KeepsBounds};

use crate::counts::{Items, release_all};
use crate::entry::Entry;
use crate::fields;
use crate::held::gone;
use crate::lookup::{entry_at, is_unfinished_at};
use crate::make::make_at;
use crate::name_index::NameIndex;
use crate::sources::{ending, sources_of};
use crate::status::{is_done, is_pending};
use crate::step::Step;
use blob_items::ViewList;
use blob_words::{BlobName, NoMemory, Octets64, Status};
use item_shares::Shares;
use std::alloc::Global;
use std::marker::Model;

/// The entries by their build numbers. Contracts see the book of them.
#[derive(Debug, Drop)]
pub struct Table {
    alloc: Global,
    names: NameIndex,
    // Under each build number; an entry that went leaves its place empty, so that none moves.
    entries: Vec<Option<Entry>>,
}

impl Model for Table {
    ghost use Rattle.blob_entries.specs.Book.{Book, book_of};
    ghost use Rattle.blob_entries.specs.Sound.{AreSound};

    ghost Value = { Book };

    ghost view = { λ table. book_of table.names table.entries.items };

    ghost invariant = { λ table. AreSound table.names table.entries.items };
}

impl Table {
    /// No entries.
    pub fn new(alloc: Global) -> Table
        ensures { result ≡ book_of [] [] }
    {
        Table {
            alloc,
            names: NameIndex::new(alloc),
            entries: Vec::new(alloc),
        }
    }

    /// The build number of a name.
    pub fn find(&self, name: BlobName) -> Option<usize>
        ensures { result ≡ number_of name self.now.names }
    {
        self.names.find(name)
    }

    /// How many names there are.
    pub fn len(&self) -> usize
        ensures value { result ≡ length self.now.names }
        ensures entries { result ≡ length self.now.entries }
        ensures most { result ≤ MOST_BLOBS }
        ensures sound { AreSound self.now.names self.now.entries }
    {
        let _ = &self.entries; // says that the invariant holds
        self.names.len()
    }

    /// The name that has this number.
    pub fn name_at(&self, number: usize) -> Option<BlobName>
        ensures { result ≡ slice_get self.now.names number }
    {
        self.names.name_at(number)
    }

    /// What stands under a build number.
    pub fn entry(&self, number: usize) -> Option<&Entry>
        ensures { option_copied result ≡ entry_at self.now.entries number }
    {
        entry_at(&self.entries, number)
    }

    /// Puts an entry under the next build number.
    pub fn push(&mut self, name: BlobName, entry: Entry) -> Result<(), NoMemory>
        requires fresh { number_of name self.old.names ≡ None }
        requires room { length self.old.names < MOST_BLOBS }
        requires sound { IsSound self.old.names self.old.entries (length self.old.entries) entry }
        ensures ok { OnOk result (self.new
            ≡ book_of (self.old.names ++ name ∷ []) (self.old.entries ++ Some entry ∷ [])) }
        ensures err { OnErr result (self.new ≡ self.old) }
    {
        self.entries.reserve(1)?;
        self.names.push(name)?;
        self.entries.push(Some(entry)).unwrap();
        Ok(())
    }

    /// Says how many hold an entry.
    pub fn set_roots(&mut self, number: usize, roots: u64)
        requires { IsSome (entry_at self.old.entries number) }
        ensures { self.new ≡ changed_at self.old number (with_roots roots) }
    {
        fields::set_roots(&mut self.entries, number, roots);
    }

    /// Says with what an entry is to break.
    pub fn set_mark(&mut self, number: usize, why: Status)
        requires some { IsSome (entry_at self.old.entries number) }
        requires breaking { is_broken why ≡ true }
        ensures { self.new ≡ changed_at self.old number (with_mark why) }
    {
        fields::set_mark(&mut self.entries, number, why);
    }

    /// Says that an unfinished entry waits for bytes to be sent.
    pub fn set_transport(&mut self, number: usize)
        requires { IsSomeAnd (entry_at self.old.entries number)
            (λ entry. is_pending entry.status ≡ true) }
        ensures { self.new ≡ changed_at self.old number (with_status PendingTransport) }
    {
        fields::set_status(&mut self.entries, number, Status::PendingTransport);
    }

    /// Gives an unfinished entry the views of its own pieces, which have all come.
    pub fn bring(&mut self, number: usize, own: ViewList)
        requires { IsSomeAnd (entry_at self.old.entries number)
            (λ entry. (is_pending entry.status ≡ true) × AreOwn entry.recipe own) }
        ensures { self.new ≡ changed_at self.old number (with_bytes own) }
    {
        fields::set_bytes(&mut self.entries, number, own);
    }

    /// The build numbers of the sources of steps, in the order of the steps.
    pub fn sources_of(&self, steps: &[Step]) -> Result<Octets64, NoMemory>
        ensures { IfOk result (λ list. list ≡ sources_of self.now.names steps.now) }
    {
        sources_of(self.alloc, &self.names, steps)
    }

    /// The build numbers of the sources of what stands there, in the order of its steps, where it
    /// is unfinished.
    pub fn sources_at(&self, number: usize) -> Result<Octets64, NoMemory>
        ensures { IfOk result (λ list.
            list ≡ sources_at self.now.names (entry_at self.now.entries number)) }
    {
        let Some(entry) = entry_at(&self.entries, number) else {
            return Ok(Octets64::new(self.alloc));
        };
        if !is_pending(entry.status) {
            return Ok(Octets64::new(self.alloc));
        }
        sources_of(self.alloc, &self.names, entry.recipe.as_slice())
    }

    // Gives an entry its bytes, for which all has come.
    fn complete(&mut self, number: usize, shares: &mut Shares) -> Result<(), NoMemory>
        requires done { ending_at self.old.names self.old.entries (entry_at self.old.entries number)
            ≡ Some Done }
        requires counted { AreCounted self.old.entries shares.old }
        requires room { HasRoom self.old.names self.old.entries }
        ensures looks { OnOk result (LooksAt self.old self.new number (Some Done)) }
        ensures counted { OnOk result (AreCounted self.new.entries shares.new) }
        ensures room { OnOk result (HasRoom self.new.names self.new.entries) }
        ensures bounds { OnOk result (KeepsBounds self.old self.new) }
        ensures items { OnOk result
            (SameItems self.old.entries self.new.entries shares.old shares.new) }
        ensures sound { AreSound self.new.names self.new.entries }
        ensures err { OnErr result (self.new ≡ self.old) }
    {
        let views = make_at(self.alloc, &self.names, &self.entries, number, shares)?;
        fields::set_done(self.alloc, &mut self.entries, number, views);
        Ok(())
    }

    /// Looks whether an entry ends now, and ends it so.
    pub fn finish_at(
        &mut self,
        number: usize,
        shares: &mut Shares,
    ) -> Result<Option<Status>, NoMemory>
        requires counted { AreCounted self.old.entries shares.old }
        requires room { HasRoom self.old.names self.old.entries }
        ensures looks { IfOk result (λ end. LooksAt self.old self.new number end) }
        ensures counted { OnOk result (AreCounted self.new.entries shares.new) }
        ensures room { OnOk result (HasRoom self.new.names self.new.entries) }
        ensures bounds { OnOk result (KeepsBounds self.old self.new) }
        ensures items { OnOk result
            (SameItems self.old.entries self.new.entries shares.old shares.new) }
        ensures sound { AreSound self.new.names self.new.entries }
        ensures err { OnErr result (self.new ≡ self.old) }
    {
        let Some(end) = ending(&self.names, &self.entries, number) else {
            return Ok(None);
        };
        if is_done(end) {
            self.complete(number, shares)?;
            return Ok(Some(Status::Done));
        }
        fields::set_status(&mut self.entries, number, end);
        Ok(Some(end))
    }

    /// Leaves of an entry what is to be left where it lives or doesn't, and lets its views go.
    pub fn leave_at(
        &mut self,
        number: usize,
        lives: bool,
        shares: &mut Shares,
        freed: &mut Items,
    ) -> Result<(), NoMemory>
        requires inside { number < length self.old.names }
        requires unneeded { lives ≡ false → (other : ℕ)
            → needs self.old.names number (entry_at self.old.entries other) ≡ false }
        requires counted { AreCounted self.old.entries shares.old }
        ensures leaves { OnOk result (Leaves self.old self.new number lives) }
        ensures lets_go { OnOk result (LetsGo (gone_views lives (entry_at self.old.entries number))
            shares.old shares.new freed.old freed.new) }
        ensures counted { OnOk result (AreCounted self.new.entries shares.new) }
        ensures sound { AreSound self.new.names self.new.entries }
        ensures err { OnErr result (self.new ≡ self.old) }
    {
        let views = gone(self.alloc, &self.entries, number, lives)?;
        release_all(shares, views.as_slice(), freed)?;
        if lives {
            fields::shed_at(self.alloc, &mut self.entries, number);
            return Ok(());
        }
        fields::clear(&mut self.entries, number);
        Ok(())
    }

    /// Whether what stands there is still to end.
    pub fn is_unfinished(&self, number: usize) -> bool
        ensures { result ≡ is_unfinished (entry_at self.now.entries number) }
    {
        is_unfinished_at(&self.entries, number)
    }

    /// How many hold what stands there.
    pub fn roots_at(&self, number: usize) -> u64
        ensures { result ≡ option_map_or (λ entry. entry.roots)
            (entry_at self.now.entries number) 0 }
    {
        match entry_at(&self.entries, number) {
            Some(entry) => entry.roots,
            None => 0,
        }
    }

    /// The name of what stands under a build number.
    pub fn name_under(&self, number: usize) -> Option<BlobName>
        ensures { result ≡ name_under self.now number }
    {
        let _entry = entry_at(&self.entries, number)?; // None once it went
        self.names.name_at(number)
    }

    // 1 where something stands there, else 0.
    fn count_at(&self, number: usize) -> usize
        ensures { result ≡ (if is_some (entry_at self.now.entries number) then 1 else 0) }
    {
        match entry_at(&self.entries, number) {
            Some(_) => 1,
            None => 0,
        }
    }

    /// How many entries stand. It walks over all numbers.
    pub fn count_standing(&self) -> usize
        ensures { result ≡ length (standing self.now.names self.now.entries) }
    {
        let mut count = 0;
        for number in 0..self.len() {
            count += self.count_at(number);
        }
        count
    }

    /// The name of the i-th entry that stands, from 0. It walks over the numbers up to that one.
    pub fn nth_standing(&self, i: usize) -> Option<BlobName>
        ensures { result ≡ slice_get (standing self.now.names self.now.entries) i }
    {
        let mut left = i;
        for number in 0..self.len() {
            let here = self.count_at(number);
            if left < here {
                return self.names.name_at(number);
            }
            left -= here;
        }
        None
    }
}
