ghost use Rattle.std.specs.Prelude.{ℕ, ◌≡◌, drop, if◌then◌else◌, nat_eq, slice_get, OnErr, OnOk};
ghost use Rattle.std.specs.Option.{option_map};
ghost use Rattle.std.specs.Ordering.{nat_cmp};
ghost use Rattle.std.specs.Cmp.Lexicographic.{slice_cmp};
ghost use Rattle.std.specs.Str.{bytes_eq};
ghost use Rattle.std.specs.Set.{remove_key};
ghost use Rattle.std.specs.BTreeSet.{insert_key};
ghost use Rattle.url_store.specs.Owners.{texts_at};

use crate::texts::Texts;
use blob_words::NoMemory;
use std::alloc::Global;
use std::collections::BTreeMap;

/// The texts of each owner's URLs.
pub type Owners = BTreeMap<u32, Texts>;

// One text more of an owner.
pub fn put_text(
    owners: &mut Owners,
    alloc: Global,
    owner: u32,
    text: Vec<u8>,
) -> Result<(), NoMemory>
    ensures ok { OnOk result ((other : ℕ) → texts_at other owners.new.entries
        ≡ (if nat_eq other owner
        then insert_key (slice_cmp nat_cmp) (texts_at other owners.old.entries) text.items
        else texts_at other owners.old.entries)) }
    ensures err { OnErr result ((other : ℕ) → texts_at other owners.new.entries
        ≡ texts_at other owners.old.entries) }
{
    if let Some(texts) = owners.get_mut(&owner) {
        return texts.insert(text);
    }
    let mut texts = Texts::new(alloc);
    texts.insert(text)?;
    owners.insert(owner, texts)?;
    Ok(())
}

// Takes a text out of an owner's.
pub fn take_text(owners: &mut Owners, owner: u32, text: &[u8])
    ensures { (other : ℕ) → texts_at other owners.new.entries
        ≡ (if nat_eq other owner
        then remove_key (bytes_eq text.now) (texts_at other owners.old.entries)
        else texts_at other owners.old.entries) }
{
    if let Some(texts) = owners.get_mut(&owner) {
        texts.remove(text);
    }
}

// Takes out the least text of an owner.
pub fn pop_text(owners: &mut Owners, owner: u32) -> Option<Vec<u8>>
    ensures first { option_map (λ text. text.items) result
        ≡ slice_get (texts_at owner owners.old.entries) 0 }
    ensures rest { (other : ℕ) → texts_at other owners.new.entries
        ≡ (if nat_eq other owner then drop 1 (texts_at other owners.old.entries)
        else texts_at other owners.old.entries) }
{
    match owners.get_mut(&owner) {
        Some(texts) => texts.pop_first(),
        None => None,
    }
}
