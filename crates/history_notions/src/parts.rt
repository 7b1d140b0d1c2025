//! The parts of a blob as numbers.
ghost use Rattle.std.specs.Prelude.{◌≡◌, ℕ, ◌+◌, ◌*◌, ◌^◌, ◌<◌, ◌≤◌, length, sum, sum_by, IfOk};
ghost use Rattle.blob_model.specs.Parts.{part_length, parts_length, own_length, own_lengths, own_bytes, embedded, sources, claims};

use blob_words::{BlobName, ItemList, NoMemory};
use session_script::Part;
use std::alloc::Global;

/// A number of bytes; one that 64 bits don't hold is want of memory.
pub fn few_bytes(count: u128) -> Result<u64, NoMemory>
    ensures { IfOk result (λ few. few ≡ count) }
{
    if count > u128::from(u64::MAX) {
        return Err(NoMemory);
    }
    Ok(count as u64)
}

/// The sum of two numbers; one that 128 bits don't hold is want of memory.
pub fn add(one: u128, other: u128) -> Result<u128, NoMemory>
    ensures { IfOk result (λ both. both ≡ one + other) }
{
    if other > u128::MAX - one {
        return Err(NoMemory);
    }
    Ok(one + other)
}

/// A count of things; one that 32 bits don't hold is want of memory.
pub fn few(count: usize) -> Result<u32, NoMemory>
    ensures { IfOk result (λ few. few ≡ count) }
{
    if count as u64 > u64::from(u32::MAX) {
        return Err(NoMemory);
    }
    Ok(count as u32)
}

/// The number of bytes of a part.
pub fn part_length(part: &Part) -> u64
    ensures { result ≡ part_length part.now }
{
    match part {
        Part::Embedded(bytes) => bytes.len() as u64,
        Part::Asked(len) => *len,
        Part::FileRange { len, .. } => *len,
        Part::BlobRange { len, .. } => *len,
        Part::HandleRange { len, .. } => *len,
    }
}

/// The size that the parts name.
pub fn parts_length(parts: &[Part]) -> u128
    ensures { result ≡ parts_length parts.now }
{
    let mut total: u128 = 0;
    for part in parts {
        total += u128::from(part_length(part));
    }
    total
}

/// The lengths of the own parts, in order.
pub fn own_lengths(alloc: Global, parts: &[Part]) -> Result<ItemList<u64>, NoMemory>
    ensures { IfOk result (λ lengths. lengths ≡ own_lengths parts.now) }
{
    let mut lengths = ItemList::new(alloc);
    for part in parts {
        match part {
            Part::Embedded(bytes) => lengths.push(bytes.len() as u64)?,
            Part::Asked(len) => lengths.push(*len)?,
            _ => {}
        }
    }
    Ok(lengths)
}

/// The number of own bytes.
pub fn own_bytes(parts: &[Part]) -> u128
    ensures { result ≡ own_bytes parts.now }
{
    let mut total: u128 = 0;
    for part in parts {
        match part {
            Part::Embedded(bytes) => total += bytes.len() as u128,
            Part::Asked(len) => total += u128::from(*len),
            _ => {}
        }
    }
    total
}

/// How many bytes stand in the line.
pub fn embedded_len(parts: &[Part]) -> u128
    ensures { result ≡ length (embedded parts.now) }
{
    let mut total: u128 = 0;
    for part in parts {
        if let Part::Embedded(bytes) = part {
            total += bytes.len() as u128;
        }
    }
    total
}

/// The blobs that the parts take bytes from.
pub fn sources(alloc: Global, parts: &[Part]) -> Result<ItemList<BlobName>, NoMemory>
    ensures { IfOk result (λ names. names ≡ sources parts.now) }
{
    let mut names = ItemList::new(alloc);
    for part in parts {
        if let Part::BlobRange { b, .. } = part {
            names.push(*b)?;
        }
    }
    Ok(names)
}

/// The slots that the parts claim.
pub fn claims(alloc: Global, parts: &[Part]) -> Result<ItemList<u32>, NoMemory>
    ensures { IfOk result (λ slots. slots ≡ claims parts.now) }
{
    let mut slots = ItemList::new(alloc);
    for part in parts {
        if let Part::HandleRange { k, .. } = part {
            slots.push(*k)?;
        }
    }
    Ok(slots)
}
