ghost use Rattle.std.specs.Prelude.{ℕ, ◌≡◌, ◌+◌, ◌-◌, ◌<◌, ◌≤◌, ◌^◌, [], None, Some, false, drop, is_some, slice_get, IfErr, IfNone, IfOk, IfSome, IsSome, MatchResult, OnErr, OnOk, OnSome};
ghost use Rattle.std.specs.Option.{option_copied, option_map};
ghost use Rattle.std.specs.List.Sorted.{IsStrictlySortedBy};
ghost use Rattle.std.specs.Ordering.{nat_cmp};
ghost use Rattle.std.specs.Map.{keys_of, remove_entry};
ghost use Rattle.std.specs.BTreeMap.{is_at};
ghost use Rattle.renderer_table.specs.Counts.{count_on, one_fewer, one_more};
ghost use Rattle.renderer_table.specs.Counted.{origin_at, ChangesCount, Dies, Spawns};
ghost use Rattle.renderer_table.specs.Table.{count_of, counted_in, counts_in, counts_of, drop_fault, living_of, pass_fault, spawn_fault, spawned_in, was_spawned, with_counts, IsCause, IsPassCause};

use crate::fault::{DropFault, PassFault, SpawnFault};
use crate::living::Living;
use blob_words::bounds::MOST_RENDERERS;
use blob_words::{BlobName, NoMemory, Origin, RendererId};
use std::alloc::Global;
use std::collections::{BTreeMap, BTreeSet};
use std::marker::Model;

/// The renderers: those that were ever spawned, and the living ones with their origins and
/// handles.
#[derive(Debug, Drop)]
pub struct Renderers {
    alloc: Global,
    spawned: BTreeSet<u32>,
    living: BTreeMap<u32, Living>,
}

impl Model for Renderers {
    ghost use Rattle.renderer_table.specs.Table.{Table};

    ghost Value = { Table };

    ghost view = { λ table. record {
      spawned = table.spawned.keys;
      living = table.living.entries;
    } };
}

// One handle more on a blob, where the renderer is alive.
fn add_at(living: &mut BTreeMap<u32, Living>, id: u32, blob: BlobName) -> Result<(), NoMemory>
    requires { count_on blob (counts_in id living.old.entries) < 2 ^ 63 }
    ensures ok { OnOk result (living.new.entries ≡ counted_in id
        (one_more blob (counts_in id living.old.entries)) living.old.entries) }
    ensures err { OnErr result (living.new.entries ≡ living.old.entries) }
{
    match living.get_mut(&id) {
        Some(one) => one.counts.add_one(blob),
        None => Ok(()),
    }
}

// One handle fewer on a blob on which the renderer has one.
fn drop_at(living: &mut BTreeMap<u32, Living>, id: u32, blob: BlobName)
    requires { 0 < count_on blob (counts_in id living.old.entries) }
    ensures fewer { living.new.entries ≡ counted_in id
        (one_fewer blob (counts_in id living.old.entries)) living.old.entries }
    ensures ordered { IsStrictlySortedBy nat_cmp (keys_of (counts_in id living.old.entries)) }
{
    if let Some(one) = living.get_mut(&id) {
        one.counts.drop_one(blob);
    }
}

// Takes out the least blob of a renderer.
fn pop_at(living: &mut BTreeMap<u32, Living>, id: u32) -> Option<(BlobName, u64)>
    ensures first { result ≡ slice_get (counts_in id living.old.entries) 0 }
    ensures rest { living.new.entries ≡ counted_in id
        (drop 1 (counts_in id living.old.entries)) living.old.entries }
    ensures ordered { IsStrictlySortedBy nat_cmp (keys_of (counts_in id living.old.entries)) }
    ensures living_ordered { IsStrictlySortedBy nat_cmp (keys_of living.old.entries) }
{
    match living.get_mut(&id) {
        Some(one) => one.counts.pop_first(),
        None => None,
    }
}

impl Renderers {
    /// No renderers.
    pub fn new(alloc: Global) -> Result<Renderers, NoMemory>
        ensures { IfOk result (λ table. table ≡ record { spawned = []; living = [] }) }
    {
        Ok(Renderers {
            alloc,
            spawned: BTreeSet::new(alloc),
            living: BTreeMap::new(alloc),
        })
    }

    // The renderer of a number, where it is alive.
    fn find(&self, id: RendererId) -> Option<&Living>
        ensures { option_copied result ≡ living_of id.0 self.now }
    {
        self.living.get(&id.0)
    }

    // Whether a number is of a living renderer.
    fn is_alive(&self, id: RendererId) -> bool
        ensures { result ≡ is_some (living_of id.0 self.now) }
    {
        self.living.contains_key(&id.0)
    }

    // Why a number can't be spawned.
    fn spawn_fault(&self, id: RendererId) -> Option<SpawnFault>
        ensures { result ≡ spawn_fault id.0 self.now }
    {
        if self.spawned.contains(&id.0) {
            return Some(SpawnFault::Used);
        }
        if self.spawned.len() >= MOST_RENDERERS {
            return Some(SpawnFault::Full);
        }
        None
    }

    // Puts a new renderer into the table.
    fn put(&mut self, id: RendererId, origin: &Origin) -> Result<(), NoMemory>
        requires { was_spawned id.0 self.old ≡ false }
        ensures ok { OnOk result (self.new ≡ spawned_in id.0 origin.now self.old) }
        ensures err { OnErr result (self.new ≡ self.old) }
    {
        let one = Living::new(self.alloc, origin)?;
        self.spawned.insert(id.0)?;
        if self.living.insert(id.0, one).is_err() {
            let _ = self.spawned.remove(&id.0);
            return Err(NoMemory);
        }
        Ok(())
    }

    /// A new renderer, under a number that was never spawned.
    pub fn spawn(&mut self, id: RendererId, origin: &Origin) -> Result<(), SpawnFault>
        ensures ok { OnOk result (self.new ≡ spawned_in id.0 origin.now self.old) }
        ensures changes { OnOk result (Spawns id.0 origin.now self.old self.new) }
        ensures none_due { OnOk result (spawn_fault id.0 self.old ≡ None) }
        ensures fault { IfErr result (λ fault. (self.new ≡ self.old)
            × IsCause fault (spawn_fault id.0 self.old)) }
    {
        if let Some(fault) = self.spawn_fault(id) {
            return Err(fault);
        }
        if self.put(id, origin).is_err() {
            return Err(SpawnFault::NoMemory);
        }
        Ok(())
    }

    /// The origin of a living renderer.
    pub fn origin_of(&self, id: RendererId) -> Option<&Origin>
        ensures { option_copied result ≡ origin_at id.0 self.now }
    {
        let one = self.find(id)?;
        Some(&one.origin)
    }

    /// How many handles a renderer has on a blob; none where it isn't alive.
    pub fn count_of(&self, id: RendererId, blob: BlobName) -> u64
        ensures { result ≡ count_of id.0 blob self.now }
    {
        match self.find(id) {
            Some(one) => one.counts.count_on(blob),
            None => 0,
        }
    }

    /// One handle more for a living renderer.
    pub fn add_one(&mut self, id: RendererId, blob: BlobName) -> Result<(), NoMemory>
        requires alive { IsSome (living_of id.0 self.old) }
        requires room { count_of id.0 blob self.old < 2 ^ 63 }
        ensures ok { OnOk result
            (self.new ≡ with_counts id.0 (one_more blob (counts_of id.0 self.old)) self.old) }
        ensures changes { OnOk result
            (ChangesCount (λ count. count + 1) id.0 blob self.old self.new) }
        ensures err { OnErr result (self.new ≡ self.old) }
    {
        add_at(&mut self.living, id.0, blob)
    }

    /// One handle more for a living renderer, given by one that has one.
    pub fn pass(
        &mut self,
        from: RendererId,
        to: RendererId,
        blob: BlobName,
    ) -> Result<(), PassFault>
        requires { count_of to.0 blob self.old < 2 ^ 63 }
        ensures ok { OnOk result
            (self.new ≡ with_counts to.0 (one_more blob (counts_of to.0 self.old)) self.old) }
        ensures changes { OnOk result
            (ChangesCount (λ count. count + 1) to.0 blob self.old self.new) }
        ensures none_due { OnOk result (pass_fault from to blob self.old ≡ None) }
        ensures fault { IfErr result (λ fault. (self.new ≡ self.old)
            × IsPassCause fault (pass_fault from to blob self.old)) }
    {
        if !self.is_alive(from) {
            return Err(PassFault::NoRenderer(from));
        }
        if !self.is_alive(to) {
            return Err(PassFault::NoRenderer(to));
        }
        if self.count_of(from, blob) == 0 {
            return Err(PassFault::NoHandle);
        }
        if self.add_one(to, blob).is_err() {
            return Err(PassFault::NoMemory);
        }
        Ok(())
    }

    /// One handle fewer for a living renderer that has one.
    pub fn drop_one(&mut self, id: RendererId, blob: BlobName) -> Result<(), DropFault>
        ensures ok { OnOk result
            (self.new ≡ with_counts id.0 (one_fewer blob (counts_of id.0 self.old)) self.old) }
        ensures changes { OnOk result
            (ChangesCount (λ count. count - 1) id.0 blob self.old self.new) }
        ensures err { OnErr result (self.new ≡ self.old) }
        ensures fault { MatchResult result
            (λ _. drop_fault id blob self.old ≡ None)
            (λ fault. drop_fault id blob self.old ≡ Some fault) }
    {
        if !self.is_alive(id) {
            return Err(DropFault::NoRenderer(id));
        }
        if self.count_of(id, blob) == 0 {
            return Err(DropFault::NoHandle);
        }
        drop_at(&mut self.living, id.0, blob);
        Ok(())
    }

    /// Takes the least blob with its count from a living renderer that dies. Once it has none left,
    /// it is dead.
    pub fn die(&mut self, id: RendererId) -> Option<(BlobName, u64)>
        requires { IsSome (living_of id.0 self.old) }
        ensures first { result ≡ slice_get (counts_of id.0 self.old) 0 }
        ensures some { OnSome result
            (self.new ≡ with_counts id.0 (drop 1 (counts_of id.0 self.old)) self.old) }
        ensures none { IfNone result (self.new ≡ record self.old {
          living = remove_entry (is_at (nat_cmp id.0)) self.old.living;
        }) }
        ensures taken { IfSome result (λ taken. (count_of id.0 taken.0 self.old ≡ taken.1)
            × ChangesCount (λ _. 0) id.0 taken.0 self.old self.new) }
        ensures dead { IfNone result (Dies id.0 self.old self.new) }
        ensures ordered { IsStrictlySortedBy nat_cmp (keys_of (counts_of id.0 self.old)) }
    {
        if let Some(taken) = pop_at(&mut self.living, id.0) {
            return Some(taken);
        }
        let _ = self.living.remove(&id.0);
        None
    }

    /// The least number of a living renderer.
    pub fn first_alive(&self) -> Option<RendererId>
        ensures value { option_map (λ id. id.0) result
            ≡ option_map (λ entry. entry.0) (slice_get self.now.living 0) }
        ensures alive { IfSome result (λ id. IsSome (living_of id.0 self.now)) }
        ensures least { IfSome result (λ id. (other : ℕ)
            → IsSome (living_of other self.now) → id.0 ≤ other) }
        ensures nobody { IfNone result ((other : ℕ) → living_of other self.now ≡ None) }
        ensures ordered { IsStrictlySortedBy nat_cmp (keys_of self.now.living) }
    {
        let _count = self.living.len(); // says that the keys are in order
        match self.living.first_key_value() {
            Some((id, _)) => Some(RendererId(*id)),
            None => None,
        }
    }
}
