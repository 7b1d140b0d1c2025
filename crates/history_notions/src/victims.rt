//! The order of use of the pieces in memory, and which are paged.
ghost use Rattle.std.specs.Prelude.{◌≡◌, ℕ, ◌-◌, ◌<◌, ◌≤◌, filter_map, fold, min, OnOk, IfOk};
ghost use Rattle.recent_items.specs.Recent.{victims};
ghost use Rattle.blob_model.specs.Victims.{used, with_length};

use crate::pieces::{Piece, piece_of};
use blob_words::{ItemList, NoMemory};
use std::alloc::Global;

/// A use makes a piece the latest.
pub fn used(uses: &mut Vec<u32>, number: u32) -> Result<(), NoMemory>
    ensures { OnOk result (uses.new.items ≡ used uses.old.items number) }
{
    uses.retain(|each| *each != number);
    uses.push(number)?;
    Ok(())
}

/// The uses of these pieces, one after the other.
pub fn used_all(uses: &mut Vec<u32>, numbers: &[u32]) -> Result<(), NoMemory>
    ensures { OnOk result (uses.new.items ≡ fold used uses.old.items numbers.now) }
{
    for number in numbers {
        used(uses, *number)?;
    }
    Ok(())
}

/// The piece of this number with its length.
fn with_length(list: &[Piece], number: u32) -> Option<(u32, u64)>
    ensures { result ≡ with_length list.now number }
{
    match piece_of(list, number) {
        Some(piece) => Some((piece.number, piece.len)),
        None => None,
    }
}

/// Those of the pieces that were used, by last use, the earliest first, each with its length.
pub fn recency(
    alloc: Global,
    pageable: &[Piece],
    uses: &[u32],
) -> Result<ItemList<(u32, u64)>, NoMemory>
    ensures { IfOk result (λ found. found ≡ filter_map (with_length pageable.now) uses.now) }
{
    let mut found = ItemList::new(alloc);
    for number in uses {
        if let Some(entry) = with_length(pageable, *number) {
            found.push(entry)?;
        }
    }
    Ok(found)
}

/// The pieces to page: enough of the earliest ones for `need` bytes, as far as they fit in `most`.
pub fn victims(
    alloc: Global,
    need: u64,
    most: u64,
    recency: &[(u32, u64)],
) -> Result<ItemList<u32>, NoMemory>
    ensures { IfOk result (λ found. found ≡ victims need most recency.now) }
{
    let mut found = ItemList::new(alloc);
    let mut missing = need;
    let mut free = most;
    for (number, len) in recency {
        if missing == 0 {
            return Ok(found);
        }
        if *len > free {
            return Ok(found);
        }
        found.push(*number)?;
        missing = missing.saturating_sub(*len);
        free -= *len;
    }
    Ok(found)
}
