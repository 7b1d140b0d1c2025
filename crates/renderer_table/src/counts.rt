ghost use Rattle.std.specs.Prelude.{◌≡◌, ◌+◌, ◌<◌, ◌^◌, [], drop, slice_get, IsSome, OnErr, OnOk};
ghost use Rattle.std.specs.List.Sorted.{IsStrictlySortedBy};
ghost use Rattle.std.specs.Ordering.{nat_cmp};
ghost use Rattle.std.specs.Map.{keys_of, lookup, set_value};
ghost use Rattle.std.specs.BTreeMap.{is_at};
ghost use Rattle.renderer_table.specs.Counts.{count_on, one_fewer, one_more};

use blob_words::{BlobName, NoMemory};
use std::alloc::Global;
use std::collections::BTreeMap;
use std::marker::Model;

/// The handles of a renderer: how many on each blob. Contracts see the counts by the number of the
/// blob's name, in the order of the names.
#[derive(Debug, Drop)]
pub struct Counts {
    // Names come from outside: an ordered map, so that no choice of them makes a look-up slow.
    counts: BTreeMap<u128, u64>,
}

impl Model for Counts {
    ghost use Rattle.std.specs.Prelude.{ℕ, List};

    ghost Value = { List (ℕ × ℕ) };

    ghost view = { λ counts. counts.counts.entries };
}

impl Counts {
    /// No handle.
    pub fn new(alloc: Global) -> Counts
        ensures { result ≡ [] }
    {
        Counts {
            counts: BTreeMap::new(alloc),
        }
    }

    /// How many on a blob.
    pub fn count_on(&self, blob: BlobName) -> u64
        ensures { result ≡ count_on blob self.now }
    {
        self.counts.get(&blob.number()).copied().unwrap_or(0)
    }

    /// One more on a blob.
    pub fn add_one(&mut self, blob: BlobName) -> Result<(), NoMemory>
        requires { count_on blob self.old < 2 ^ 63 }
        ensures ok { OnOk result (self.new ≡ one_more blob self.old) }
        ensures err { OnErr result (self.new ≡ self.old) }
    {
        let count = self.count_on(blob);
        self.counts.insert(blob.number(), count + 1)?;
        Ok(())
    }

    /// One fewer on a blob that has one.
    pub fn drop_one(&mut self, blob: BlobName)
        requires { 0 < count_on blob self.old }
        ensures fewer { self.new ≡ one_fewer blob self.old }
        ensures ordered { IsStrictlySortedBy nat_cmp (keys_of self.old) }
    {
        let _count = self.counts.len(); // says that the keys are in order
        let count = self.count_on(blob);
        if count == 1 {
            let _ = self.counts.remove(&blob.number());
            return;
        }
        set_count(&mut self.counts, blob.number(), count - 1);
    }

    /// Takes out the least name with its count.
    pub fn pop_first(&mut self) -> Option<(BlobName, u64)>
        ensures first { result ≡ slice_get self.old 0 }
        ensures rest { self.new ≡ drop 1 self.old }
        ensures ordered { IsStrictlySortedBy nat_cmp (keys_of self.old) }
    {
        let _count = self.counts.len(); // says that the keys are in order
        let (number, count) = self.counts.pop_first()?;
        Some((BlobName::from_number(number), count))
    }
}

// Writes a count over the one that is there.
fn set_count(counts: &mut BTreeMap<u128, u64>, number: u128, count: u64)
    requires { IsSome (lookup (is_at (nat_cmp number)) counts.old.entries) }
    ensures { counts.new.entries ≡ set_value (is_at (nat_cmp number)) counts.old.entries count }
{
    if let Some(place) = counts.get_mut(&number) {
        *place = count;
    }
}
