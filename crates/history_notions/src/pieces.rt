//! The pieces of blobs.
ghost use Rattle.std.specs.Prelude.{◌≡◌, ℕ, ◌+◌, ◌*◌, ◌==◌, ◌^◌, ◌<◌, ◌≤◌, ◌++◌, find, length, sum, sum_by, IfOk, OnOk};
ghost use Rattle.std.specs.Option.{option_copied};
ghost use Rattle.transport_plan.specs.Spans.{cut_spans, piece_spans, span_at};
ghost use Rattle.blob_model.specs.Pieces.{numbered, length_in, spans_of};
ghost use Rattle.blob_model.specs.Tally.{bytes_of};

use crate::builds::Build;
use crate::parts::{few_bytes, own_bytes, own_lengths};
use blob_words::{BlobName, ItemList, NoMemory};
use std::alloc::Global;
use std::marker::Model;

/// A piece: its number, its blob, and where it stands in the blob's own bytes.
#[derive(Clone, Copy, Debug)]
pub struct Piece {
    pub number: u32,
    pub blob: BlobName,
    pub from: u64,
    pub len: u64,
}

impl Model for Piece {
    ghost use Rattle.blob_model.specs.Pieces as model;

    ghost Value = { model.Piece };

    ghost view = { λ one. record {
      number = one.number;
      blob = one.blob;
      from = one.from;
      len = one.len;
    } };

    ghost inverse = { λ one. record {
      number = one.number;
      blob = one.blob;
      from = one.from;
      len = one.len;
    } };
}

/// The k-th of the spans into which `len` bytes from a place on are cut.
fn cut_span(size: u64, from: u64, len: u64, k: u64) -> (u64, u64)
    requires within { k * size < len }
    requires fits { from + len < 2 ^ 64 }
    ensures { result ≡ (from + (span_at size len k).0, (span_at size len k).1) }
{
    let start = k * size;
    (from + start, size.min(len - start))
}

/// The spans into which `len` bytes from a place on are cut at the multiples of `size`.
pub fn cut_spans(
    size: u64,
    from: u64,
    len: u64,
    found: &mut ItemList<(u64, u64)>,
) -> Result<(), NoMemory>
    requires size { 0 < size }
    requires fits { from + len < 2 ^ 64 }
    ensures { OnOk result (found.new ≡ found.old ++ cut_spans size from len) }
{
    for k in 0..len.div_ceil(size) {
        found.push(cut_span(size, from, len, k))?;
    }
    Ok(())
}

/// Where the pieces of own parts of these lengths stand: each is cut from its own start.
pub fn piece_spans(
    alloc: Global,
    page: u64,
    lengths: &[u64],
) -> Result<ItemList<(u64, u64)>, NoMemory>
    requires page { 0 < page }
    requires fits { sum lengths.now < 2 ^ 64 }
    ensures { IfOk result (λ found. found ≡ piece_spans page 0 lengths.now) }
{
    let mut found = ItemList::new(alloc);
    let mut from = 0;
    for len in lengths {
        cut_spans(page, from, *len, &mut found)?;
        from += *len;
    }
    Ok(found)
}

/// Puts pieces of a blob at these spans behind the others, numbered from `number`.
pub fn numbered(
    blob: BlobName,
    number: u32,
    spans: &[(u64, u64)],
    pieces: &mut ItemList<Piece>,
) -> Result<(), NoMemory>
    requires { number + length spans.now < 2 ^ 32 }
    ensures { OnOk result (pieces.new ≡ pieces.old ++ numbered blob number spans.now) }
{
    let mut next = number;
    for (from, len) in spans {
        pieces.push(Piece {
            number: next,
            blob,
            from: *from,
            len: *len,
        })?;
        next += 1;
    }
    Ok(())
}

/// Where the pieces of a blob stand; one that broke at its own line has none.
pub fn spans_of(alloc: Global, page: u64, build: &Build) -> Result<ItemList<(u64, u64)>, NoMemory>
    requires { 0 < page }
    ensures { IfOk result (λ found. found ≡ spans_of page build.now) }
{
    match build.plan {
        None => Ok(ItemList::new(alloc)),
        Some(_) => {
            few_bytes(own_bytes(build.parts.as_slice()))?;
            let lengths = own_lengths(alloc, build.parts.as_slice())?;
            piece_spans(alloc, page, lengths.as_slice())
        }
    }
}

/// Puts the pieces of the next blob behind those of the others; numbers that 32 bits don't hold are
/// want of memory.
pub fn put_pieces(
    alloc: Global,
    page: u64,
    build: &Build,
    pieces: &mut ItemList<Piece>,
) -> Result<(), NoMemory>
    requires { 0 < page }
    ensures { OnOk result (pieces.new ≡ pieces.old
        ++ numbered build.now.name (length pieces.old) (spans_of page build.now)) }
{
    let spans = spans_of(alloc, page, build)?;
    if pieces.len() as u128 + spans.len() as u128 > u128::from(u32::MAX) {
        return Err(NoMemory);
    }
    let number = pieces.len() as u32;
    numbered(build.name, number, spans.as_slice(), pieces)?;
    Ok(())
}

/// The piece of this number.
pub fn piece_of(pieces: &[Piece], number: u32) -> Option<&Piece>
    ensures { option_copied result ≡ find (λ piece. piece.number == number) pieces.now }
{
    pieces.iter().find(|piece| piece.number == number)
}

/// The length of the piece of this number.
pub fn length_in(pieces: &[Piece], number: u32) -> u64
    ensures { result ≡ length_in pieces.now number }
{
    match piece_of(pieces, number) {
        Some(piece) => piece.len,
        None => 0,
    }
}

/// The lengths of the pieces of these numbers, together.
pub fn lengths_in(pieces: &[Piece], numbers: &[u32]) -> u128
    ensures { result ≡ sum_by (length_in pieces.now) numbers.now }
{
    let mut total: u128 = 0;
    for number in numbers {
        total += u128::from(length_in(pieces, *number));
    }
    total
}

/// The bytes of pieces.
pub fn bytes_of(pieces: &[Piece]) -> u128
    ensures { result ≡ bytes_of pieces.now }
{
    let mut total: u128 = 0;
    for piece in pieces {
        total += u128::from(piece.len);
    }
    total
}
