ghost use Rattle.std.specs.Prelude.{ℕ, ◌≡◌, ◌≢◌, ◌+◌, ◌-◌, ◌^◌, ◌<◌, ◌++◌, [], ◌∷◌, None, false};
ghost use Rattle.std.specs.Prelude.{true, length, slice_get, is_some, IfErr, IfOk, IsSomeAnd};
ghost use Rattle.std.specs.Prelude.{OnErr, OnOk};
ghost use Rattle.blob_words.specs.declared.bounds.TheConstants.{MOST_BLOBS};
ghost use Rattle.std.specs.Option.{option_copied, option_map};
ghost use Rattle.blob_words.specs.declared.status.Status.TheVariants.{PendingQuota};
ghost use Rattle.blob_words.specs.declared.status.Status.TheVariants.{PendingTransport};
ghost use Rattle.blob_entries.specs.Book.{book_of, changed, entry_at, entry_of, views_of};
ghost use Rattle.blob_entries.specs.Changes.{held_less, held_more, with_bytes, with_mark};
ghost use Rattle.blob_entries.specs.Changes.{with_status};
ghost use Rattle.blob_entries.specs.Counted.{AreCounted, SameItems};
ghost use Rattle.blob_entries.specs.Names.{number_of};
ghost use Rattle.blob_entries.specs.Sound.{AreOwn, AreSound, IsSound};
ghost use Rattle.blob_entries.specs.Sources.{sources_of};
ghost use Rattle.blob_entries.specs.Statuses.{is_broken, is_pending};
ghost use Rattle.blob_entries.specs.Weights.{HasRoom, KeepsBounds};
ghost use Rattle.blob_registry.specs.Dependents.{dependents_of};
ghost use Rattle.blob_registry.specs.Passes.{Finishes};
ghost use Rattle.blob_registry.specs.Registering.{new_entry, pushed, recipe_of, CanBring};
ghost use Rattle.blob_registry.specs.Registering.{CanRegister, IsRegisterCause};
ghost use Rattle.blob_entries.specs.Standing.{name_under, standing};
ghost use Rattle.blob_registry.specs.Sweeps.{Sweeping};
ghost use Rattle.blob_registry.specs.Work.{AreKept};

use crate::ended_blob::Endings;
use crate::fault::RegisterFault;
use crate::look::look_all;
use crate::swept::{Names, Swept};
use crate::weigh::weigh_all;
use crate::work::{Work, list_at};
use blob_entries::status::{is_done, is_pending};
use blob_entries::{Entry, Items, Recipe, Table};
use blob_items::ViewList;
use blob_words::bounds::MOST_BLOBS;
use blob_words::{BlobName, NoMemory, Octets, Octets64, RendererId, Status};
use item_shares::Shares;
use std::alloc::Global;
use std::marker::Model;

/// The blobs that live. Contracts see the book of them.
#[derive(Debug, Drop)]
pub struct Registry {
    alloc: Global,
    table: Table,
    work: Work,
}

impl Model for Registry {
    ghost use Rattle.blob_entries.specs.Book.{Book};
    ghost use Rattle.blob_registry.specs.Work.{AreKept};

    ghost Value = { Book };

    ghost view = { λ registry. registry.table };

    ghost invariant = { λ registry. AreKept registry.table registry.work };
}

// Puts an entry under the next build number, with all lists of work.
fn push(
    table: &mut Table,
    work: &mut Work,
    name: BlobName,
    entry: Entry,
    sources: &[u64],
) -> Result<(), NoMemory>
    requires fresh { number_of name table.old.names ≡ None }
    requires room { length table.old.names < MOST_BLOBS }
    requires sound { IsSound table.old.names table.old.entries (length table.old.entries) entry }
    requires all { AreSound table.old.names table.old.entries }
    requires sources { sources.now ≡ sources_of table.old.names entry.recipe }
    requires apart { is_pending entry.status ≡ false → entry.recipe ≡ [] }
    requires kept { AreKept table.old work.old }
    ensures ok { OnOk result (table.new ≡ pushed table.old name entry) }
    ensures err { OnErr result (table.new ≡ table.old) }
    ensures kept { AreKept table.new work.new }
{
    let number = table.len();
    work.enter(number, sources)?;
    if table.push(name, entry).is_err() {
        work.withdraw(number, sources);
        return Err(NoMemory);
    }
    work.look_at(number);
    work.weigh(number);
    Ok(())
}

impl Registry {
    /// No blobs. It takes the room of the lists of work.
    pub fn new(alloc: Global) -> Result<Registry, NoMemory>
        ensures { IfOk result (λ registry. registry ≡ book_of [] []) }
    {
        let work = Work::new(alloc)?;
        Ok(Registry {
            alloc,
            table: Table::new(alloc),
            work,
        })
    }

    /// Puts a blob under the next build number. Its size is in bytes.
    pub fn register(
        &mut self,
        name: BlobName,
        owner: RendererId,
        size: u64,
        kind: &[u8],
        recipe: Recipe,
        first: Status,
    ) -> Result<(), RegisterFault>
        requires { CanRegister self.old size recipe first }
        ensures ok { OnOk result (self.new
            ≡ pushed self.old name (new_entry owner size kind.now recipe first)) }
        ensures fault { IfErr result (λ fault.
            (self.new ≡ self.old) × IsRegisterCause fault name self.old) }
    {
        if self.table.find(name).is_some() {
            return Err(RegisterFault::NameUsed);
        }
        if self.table.len() == MOST_BLOBS {
            return Err(RegisterFault::Full);
        }
        let Ok(kind) = Octets::from_slice(self.alloc, kind) else {
            return Err(RegisterFault::NoMemory);
        };
        let Ok(sources) = self.table.sources_of(recipe.as_slice()) else {
            return Err(RegisterFault::NoMemory);
        };
        let entry = Entry {
            owner,
            size,
            kind,
            status: first,
            roots: 0,
            recipe,
            own: None,
            views: ViewList::new(self.alloc),
            mark: None,
        };
        let result = push(
            &mut self.table,
            &mut self.work,
            name,
            entry,
            sources.as_slice(),
        );
        if result.is_err() {
            return Err(RegisterFault::NoMemory);
        }
        Ok(())
    }

    /// Gives an unfinished blob the views of its own pieces, which have all come.
    pub fn bring(&mut self, name: BlobName, own: ViewList)
        requires { IsSomeAnd (entry_of self.old name) (CanBring own) }
        ensures { self.new ≡ changed self.old name (with_bytes own) }
    {
        if let Some(number) = self.table.find(name) {
            self.table.bring(number, own);
            self.work.look_at(number);
        }
    }

    /// The blob waits for bytes to be sent, and for room in memory no more.
    pub fn set_transport(&mut self, name: BlobName)
        requires { IsSomeAnd (entry_of self.old name) (λ entry. entry.status ≡ PendingQuota) }
        ensures { self.new ≡ changed self.old name (with_status PendingTransport) }
    {
        if let Some(number) = self.table.find(name) {
            self.table.set_transport(number);
            self.work.look_at(number);
        }
    }

    /// The blob breaks with `why` in the next pass; of two marks a failed write goes before.
    pub fn mark(&mut self, name: BlobName, why: Status)
        requires pending { IsSomeAnd (entry_of self.old name)
            (λ entry. is_pending entry.status ≡ true) }
        requires breaking { is_broken why ≡ true }
        ensures { self.new ≡ changed self.old name (with_mark why) }
    {
        if let Some(number) = self.table.find(name) {
            self.table.set_mark(number, why);
            self.work.look_at(number);
        }
    }

    /// One root more.
    pub fn hold(&mut self, name: BlobName)
        requires { IsSomeAnd (entry_of self.old name) (λ entry. entry.roots < 2 ^ 63) }
        ensures { self.new ≡ changed self.old name held_more }
    {
        if let Some(number) = self.table.find(name) {
            let roots = self.table.roots_at(number);
            self.table.set_roots(number, roots + 1);
        }
    }

    /// One root fewer.
    pub fn let_go(&mut self, name: BlobName)
        requires { IsSomeAnd (entry_of self.old name) (λ entry. 0 < entry.roots) }
        ensures { self.new ≡ changed self.old name held_less }
    {
        if let Some(number) = self.table.find(name) {
            let roots = self.table.roots_at(number) - 1;
            self.table.set_roots(number, roots);
            if roots == 0 {
                self.work.weigh(number);
            }
        }
    }

    /// Ends each unfinished blob that ends now, in order of build, each after those before it.
    /// After want of memory registry and shares are only to be dropped.
    pub fn finish_pass(&mut self, shares: &mut Shares) -> Result<Endings, NoMemory>
        requires counted { AreCounted self.old.entries shares.old }
        requires room { HasRoom self.old.names self.old.entries }
        ensures finishes { IfOk result (λ list. Finishes self.old self.new list) }
        ensures counted { OnOk result (AreCounted self.new.entries shares.new) }
        ensures room { OnOk result (HasRoom self.new.names self.new.entries) }
        ensures bounds { OnOk result (KeepsBounds self.old self.new) }
        ensures items { OnOk result
            (SameItems self.old.entries self.new.entries shares.old shares.new) }
    {
        let mut endings = Endings::new(self.alloc);
        look_all(&mut self.table, &mut self.work, shares, &mut endings)?;
        Ok(endings)
    }

    /// Lets the entries go that don't live, and the views of broken ones. After want of memory
    /// registry and shares are only to be dropped.
    pub fn sweep(&mut self, shares: &mut Shares) -> Result<Swept, NoMemory>
        requires counted { AreCounted self.old.entries shares.old }
        ensures swept { IfOk result (λ swept.
            Sweeping self.old self.new swept.dropped shares.old shares.new swept.freed) }
        ensures counted { OnOk result (AreCounted self.new.entries shares.new) }
    {
        let mut dropped = Names::new(self.alloc);
        let mut freed = Items::new(self.alloc);
        weigh_all(
            &mut self.table,
            &mut self.work,
            shares,
            &mut dropped,
            &mut freed,
        )?;
        Ok(Swept { dropped, freed })
    }

    // What stands under a name.
    fn entry_of(&self, name: BlobName) -> Option<&Entry>
        ensures { option_copied result ≡ entry_of self.now name }
    {
        let number = self.table.find(name)?;
        self.table.entry(number)
    }

    /// How a blob stands.
    pub fn status_of(&self, name: BlobName) -> Option<Status>
        ensures { result ≡ option_map (λ entry. entry.status) (entry_of self.now name) }
    {
        let entry = self.entry_of(name)?;
        Some(entry.status)
    }

    /// The size of a blob in bytes, as it was registered.
    pub fn size_of(&self, name: BlobName) -> Option<u64>
        ensures { result ≡ option_map (λ entry. entry.size) (entry_of self.now name) }
    {
        let entry = self.entry_of(name)?;
        Some(entry.size)
    }

    /// The renderer that built a blob.
    pub fn owner_of(&self, name: BlobName) -> Option<RendererId>
        ensures { result ≡ option_map (λ entry. entry.owner) (entry_of self.now name) }
    {
        let entry = self.entry_of(name)?;
        Some(entry.owner)
    }

    /// The content type of a blob.
    pub fn kind_of(&self, name: BlobName) -> Option<&[u8]>
        ensures { option_copied result ≡ option_map (λ entry. entry.kind) (entry_of self.now name) }
    {
        let entry = self.entry_of(name)?;
        Some(entry.kind.as_slice())
    }

    /// How many hold a blob.
    pub fn roots_of(&self, name: BlobName) -> Option<u64>
        ensures { result ≡ option_map (λ entry. entry.roots) (entry_of self.now name) }
    {
        let entry = self.entry_of(name)?;
        Some(entry.roots)
    }

    /// The bytes of a blob that is done.
    pub fn views_of(&self, name: BlobName) -> Option<&ViewList>
        ensures { option_copied result ≡ views_of self.now name }
    {
        let entry = self.entry_of(name)?;
        if !is_done(entry.status) {
            return None;
        }
        Some(&entry.views)
    }

    /// What an unfinished blob is made of.
    pub fn recipe_of(&self, name: BlobName) -> Option<&Recipe>
        ensures { option_copied result ≡ recipe_of self.now name }
    {
        let entry = self.entry_of(name)?;
        if !is_pending(entry.status) {
            return None;
        }
        Some(&entry.recipe)
    }

    /// The build numbers of the unfinished blobs that have this one as a source, rising.
    pub fn dependents_of(&self, name: BlobName) -> Option<&Octets64>
        ensures { option_copied result ≡ dependents_of self.now name }
    {
        let number = self.table.find(name)?;
        let _entry = self.table.entry(number)?; // None once it went
        Some(list_at(&self.work.dependents, number))
    }

    /// Whether a blob of this name was registered.
    pub fn was_registered(&self, name: BlobName) -> bool
        ensures { result ≡ is_some (number_of name self.now.names) }
    {
        self.table.find(name).is_some()
    }

    /// How many blobs were registered. The next one has this build number.
    pub fn registered(&self) -> u32
        ensures names { result ≡ length self.now.names }
        ensures entries { result ≡ length self.now.entries }
        ensures sound { AreSound self.now.names self.now.entries }
    {
        self.table.len() as u32
    }

    /// The name of what stands under a build number.
    pub fn name_under(&self, number: u32) -> Option<BlobName>
        ensures { result ≡ name_under self.now number }
    {
        self.table.name_under(number as usize)
    }

    /// What stands under a build number.
    pub fn entry_under(&self, number: u32) -> Option<&Entry>
        ensures { option_copied result ≡ entry_at self.now.entries number }
    {
        self.table.entry(number as usize)
    }

    /// The build number of a name.
    pub fn number_of(&self, name: BlobName) -> Option<u32>
        ensures { result ≡ number_of name self.now.names }
    {
        // how many there are, so that a place among them is a number
        let _count = self.table.len();
        let number = self.table.find(name)?;
        Some(number as u32)
    }

    /// How many blobs stand. It walks over all that were registered.
    pub fn len(&self) -> usize
        ensures { result ≡ length (standing self.now.names self.now.entries) }
    {
        self.table.count_standing()
    }

    /// The blob that is the i-th of those that stand, in order of build, from 0. It walks.
    pub fn name_at(&self, i: usize) -> Option<BlobName>
        ensures { result ≡ slice_get (standing self.now.names self.now.entries) i }
    {
        self.table.nth_standing(i)
    }
}
