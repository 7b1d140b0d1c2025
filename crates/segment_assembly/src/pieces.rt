ghost use Rattle.std.specs.Prelude.{◌≡◌, ◌+◌, ◌≤◌, ◌<◌, ◌++◌, length, map, sum, IfOk, OnOk};
ghost use Rattle.transport_plan.specs.Spans.{cut_spans, piece_spans};
ghost use Rattle.segment_assembly.specs.Assembly.{bytes_at};

use blob_words::{NoMemory, Octets};
use std::alloc::Global;

/// Puts the pieces of one part at the end of a list: of `len` bytes from the place `from` on.
fn cut_part(
    alloc: Global,
    bytes: &[u8],
    from: usize,
    len: usize,
    page: usize,
    pieces: &mut Vec<Octets>,
) -> Result<(), NoMemory>
    requires inside { from + len ≤ length bytes.now }
    requires page { 0 < page }
    ensures { OnOk result (pieces.new.items
        ≡ pieces.old.items ++ map (bytes_at bytes.now) (cut_spans page from len)) }
{
    for k in 0..len.div_ceil(page) {
        let start = k * page;
        let size = page.min(len - start);
        let piece = Octets::from_slice(alloc, &bytes[from + start..from + start + size])?;
        pieces.push(piece)?;
    }
    Ok(())
}

/// The pieces of parts of these lengths, which stand one after the other in the bytes.
pub fn cut_parts(
    alloc: Global,
    bytes: &[u8],
    parts: &[u64],
    page: u64,
) -> Result<Vec<Octets>, NoMemory>
    requires whole { sum parts.now ≡ length bytes.now }
    requires page { 0 < page }
    ensures { IfOk result
        (λ pieces. pieces.items ≡ map (bytes_at bytes.now) (piece_spans page 0 parts.now)) }
{
    let mut pieces = Vec::new(alloc);
    let mut from = 0;
    for len in parts {
        cut_part(
            alloc,
            bytes,
            from,
            *len as usize,
            page as usize,
            &mut pieces,
        )?;
        from += *len as usize;
    }
    Ok(pieces)
}
