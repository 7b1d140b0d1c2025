//! Pieces to begin with, and how page files stand.
ghost use Rattle.std.specs.Prelude.{◌≡◌, ◌≢◌, None, Some, IfOk};
ghost use Rattle.item_shares.specs.declared.item.Item.TheVariants.{Memory, Reserved};
ghost use Rattle.item_shares.specs.Shares.{item_at, share_at, share_of, Changes};
ghost use Rattle.page_cases.specs.Runs.{piece_no};

use blob_words::{JobNo, NoMemory, Octets, PieceNo};
use item_shares::{Item, Shares};
use page_files::PageFiles;
use std::alloc::Global;

/// How page files stand.
#[derive(Debug, Drop)]
pub struct Standing {
    charged: u64,
    files: u32,
    paging: bool,
    flight: Option<JobNo>,
}

/// Reads how page files stand.
pub fn look(files: &PageFiles) -> Standing {
    Standing {
        charged: files.charged(),
        files: files.files(),
        paging: files.paging(),
        flight: files.in_flight(),
    }
}

/// Puts a piece into memory.
pub fn add_memory(
    heap: Global,
    shares: &mut Shares,
    piece: PieceNo,
    bytes: &[u8],
) -> Result<usize, NoMemory>
    ensures vacant { IfOk result (λ slot. share_at shares.old slot ≡ None) }
    ensures ok { IfOk result (λ slot.
        Changes shares.old shares.new slot (Some (share_of (Memory piece bytes.now) 1))) }
{
    let bytes = Octets::from_slice(heap, bytes)?;
    Ok(shares.add(Item::Memory { piece, bytes })?)
}

/// Puts a piece that will be written once its bytes are there.
pub fn add_reserved(shares: &mut Shares, piece: PieceNo, len: u64) -> Result<usize, NoMemory>
    ensures vacant { IfOk result (λ slot. share_at shares.old slot ≡ None) }
    ensures ok { IfOk result (λ slot.
        Changes shares.old shares.new slot (Some (share_of (Reserved piece len) 1))) }
{
    Ok(shares.add(Item::Reserved { piece, len })?)
}

/// Puts the pieces 0 and 1 into memory.
pub fn add_two(
    heap: Global,
    shares: &mut Shares,
    first: &[u8],
    second: &[u8],
) -> Result<(usize, usize), NoMemory>
    ensures apart { IfOk result (λ slots. slots.0 ≢ slots.1) }
    ensures first { IfOk result (λ slots.
        item_at shares.new slots.0 ≡ Some (Memory (piece_no 0) first.now)) }
    ensures second { IfOk result (λ slots.
        item_at shares.new slots.1 ≡ Some (Memory (piece_no 1) second.now)) }
{
    let one = add_memory(heap, shares, PieceNo(0), first)?;
    let two = add_memory(heap, shares, PieceNo(1), second)?;
    Ok((one, two))
}

/// Puts the reserved pieces 0 and 1.
pub fn reserve_two(shares: &mut Shares, first: u64, second: u64) -> Result<(usize, usize), NoMemory>
    ensures apart { IfOk result (λ slots. slots.0 ≢ slots.1) }
    ensures first { IfOk result (λ slots.
        item_at shares.new slots.0 ≡ Some (Reserved (piece_no 0) first)) }
    ensures second { IfOk result (λ slots.
        item_at shares.new slots.1 ≡ Some (Reserved (piece_no 1) second)) }
{
    let one = add_reserved(shares, PieceNo(0), first)?;
    let two = add_reserved(shares, PieceNo(1), second)?;
    Ok((one, two))
}
