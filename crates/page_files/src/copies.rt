ghost use Rattle.std.specs.Prelude.{◌≡◌, ◌^◌, ◌<◌, map, IfOk};
ghost use Rattle.page_files.specs.Pieces.{bytes_of, names, named, placed};

use crate::held::Held;
use blob_words::{NoMemory, PieceList, PieceNo};
use std::alloc::Global;

// Pieces with their slots and lengths, as those of a job.
pub fn named(alloc: Global, pieces: &[(PieceNo, usize, u64)]) -> Result<Vec<Held>, NoMemory>
    ensures { IfOk result (λ list. list.items ≡ map named pieces.now) }
{
    let mut list = Vec::with_capacity(alloc, pieces.len())?;
    for (piece, slot, len) in pieces {
        list.push(Held {
            piece: *piece,
            slot: *slot,
            off: 0,
            len: *len,
        })?;
    }
    Ok(list)
}

// The pieces one after the other, from the start of a page on.
pub fn placed(alloc: Global, pieces: &[Held]) -> Result<Vec<Held>, NoMemory>
    requires { bytes_of pieces.now < 2 ^ 64 }
    ensures { IfOk result (λ list. list.items ≡ placed 0 pieces.now) }
{
    let mut list = Vec::with_capacity(alloc, pieces.len())?;
    let mut off = 0;
    for held in pieces {
        list.push(Held { off, ..*held })?;
        off += held.len;
    }
    Ok(list)
}

// The numbers of the pieces.
pub fn names(alloc: Global, pieces: &[Held]) -> Result<PieceList, NoMemory>
    ensures { IfOk result (λ list. list ≡ names pieces.now) }
{
    let mut list = PieceList::new(alloc);
    for held in pieces {
        list.push(held.piece)?;
    }
    Ok(list)
}
