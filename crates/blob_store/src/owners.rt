ghost use Rattle.std.specs.Prelude.{ℕ, ◌≡◌, drop, if◌then◌else◌, nat_eq, slice_get, OnErr, OnOk};
ghost use Rattle.std.specs.Ordering.{nat_cmp};
ghost use Rattle.std.specs.Set.{remove_key};
ghost use Rattle.std.specs.BTreeMap.{is_at};
ghost use Rattle.std.specs.BTreeSet.{insert_key};
ghost use Rattle.blob_store.specs.Owners.{numbers_at};

use crate::numbers::Numbers;
use blob_words::NoMemory;
use std::alloc::Global;
use std::collections::BTreeMap;

/// The numbers of each owner's readers.
pub type Owners = BTreeMap<u32, Numbers>;

// One number more of an owner.
pub fn put_number(
    owners: &mut Owners,
    alloc: Global,
    owner: u32,
    number: u32,
) -> Result<(), NoMemory>
    ensures ok { OnOk result ((other : ℕ) → numbers_at other owners.new.entries
        ≡ (if nat_eq other owner
        then insert_key nat_cmp (numbers_at other owners.old.entries) number
        else numbers_at other owners.old.entries)) }
    ensures err { OnErr result ((other : ℕ) → numbers_at other owners.new.entries
        ≡ numbers_at other owners.old.entries) }
{
    if let Some(numbers) = owners.get_mut(&owner) {
        return numbers.insert(number);
    }
    let mut numbers = Numbers::new(alloc);
    numbers.insert(number)?;
    owners.insert(owner, numbers)?;
    Ok(())
}

// Takes a number out of an owner's.
pub fn take_number(owners: &mut Owners, owner: u32, number: u32)
    ensures { (other : ℕ) → numbers_at other owners.new.entries
        ≡ (if nat_eq other owner
        then remove_key (is_at (nat_cmp number)) (numbers_at other owners.old.entries)
        else numbers_at other owners.old.entries) }
{
    if let Some(numbers) = owners.get_mut(&owner) {
        numbers.remove(number);
    }
}

// Takes out the least number of an owner.
pub fn pop_number(owners: &mut Owners, owner: u32) -> Option<u32>
    ensures first { result ≡ slice_get (numbers_at owner owners.old.entries) 0 }
    ensures rest { (other : ℕ) → numbers_at other owners.new.entries
        ≡ (if nat_eq other owner then drop 1 (numbers_at other owners.old.entries)
        else numbers_at other owners.old.entries) }
{
    match owners.get_mut(&owner) {
        Some(numbers) => numbers.pop_first(),
        None => None,
    }
}
