//! The items of a blob's own pieces.
ghost use Rattle.std.specs.Prelude.{◌≡◌, ◌+◌, ◌<◌, ◌≤◌, ◌^◌, length, map, sum_by, IfOk};
ghost use Rattle.std.specs.List.{AllByRecursion};
ghost use Rattle.blob_model.specs.Parts.{embedded, own_bytes, own_lengths};
ghost use Rattle.segment_assembly.specs.Assembly.{bytes_at};
ghost use Rattle.transport_plan.specs.Spans.{piece_count};
ghost use Rattle.store_laws.specs.EntryLaws.{all_lengths, AreBrought};
ghost use Rattle.store_laws.specs.NewItems.{inline_items, memory_items, reserved_items};
ghost use Rattle.blob_store.specs.NewItems.{span_length, IsSpanIn};
ghost use Rattle.blob_store.specs.Putting.{ArePut};

use super::putting::put_item;
use blob_items::ViewList;
use blob_words::{NoMemory, Octets, PieceNo};
use history_notions::parts::own_lengths;
use history_notions::pieces::piece_spans;
use item_shares::{Item, Shares};
use session_script::Part;
use std::alloc::Global;

/// The bytes that stand in the line, in order.
pub fn embedded(alloc: Global, parts: &[Part]) -> Result<Octets, NoMemory>
    ensures { IfOk result (λ bytes. bytes ≡ embedded parts.now) }
{
    let mut all = Octets::new(alloc);
    for part in parts {
        if let Part::Embedded(bytes) = part {
            all.extend_from_slice(bytes.as_slice())?;
        }
    }
    Ok(all)
}

/// Pieces in memory, which have these spans of the bytes and are numbered from `first`.
pub fn put_memory(
    alloc: Global,
    shares: &mut Shares,
    first: u32,
    bytes: &[u8],
    spans: &[(u64, u64)],
) -> Result<ViewList, NoMemory>
    requires few { first + length spans.now < 2 ^ 32 }
    requires inside { AllByRecursion (IsSpanIn (length bytes.now)) spans.now }
    requires fits { sum_by span_length spans.now ≤ 2 ^ 62 }
    ensures { IfOk result (λ views. ArePut shares.old
        (memory_items first (map (bytes_at bytes.now) spans.now)) views shares.new) }
{
    let mut views = ViewList::new(alloc);
    let mut number = first;
    for span in spans {
        let start = span.0 as usize;
        let end = start + span.1 as usize;
        let bytes = Octets::from_slice(alloc, &bytes[start..end])?;
        let piece = PieceNo(number);
        put_item(shares, Item::Memory { piece, bytes }, &mut views)?;
        number += 1;
    }
    Ok(views)
}

/// Pieces with these spans, for which room in page files is reserved, numbered from `first`.
pub fn put_reserved(
    alloc: Global,
    shares: &mut Shares,
    first: u32,
    spans: &[(u64, u64)],
) -> Result<ViewList, NoMemory>
    requires few { first + length spans.now < 2 ^ 32 }
    requires some { AllByRecursion (λ span. 0 < span_length span) spans.now }
    requires fits { sum_by span_length spans.now ≤ 2 ^ 62 }
    ensures { IfOk result (λ views. ArePut shares.old
        (reserved_items first (map span_length spans.now)) views shares.new) }
{
    let mut views = ViewList::new(alloc);
    let mut number = first;
    for span in spans {
        let piece = PieceNo(number);
        put_item(shares, Item::Reserved { piece, len: span.1 }, &mut views)?;
        number += 1;
    }
    Ok(views)
}

/// The own pieces of parts in memory, where the line has all their bytes, numbered from `first`.
pub fn put_inline(
    alloc: Global,
    shares: &mut Shares,
    page: u64,
    first: u32,
    parts: &[Part],
) -> Result<ViewList, NoMemory>
    requires page { 0 < page }
    requires few { first + piece_count page (own_lengths parts.now) < 2 ^ 32 }
    requires fits { own_bytes parts.now ≤ 2 ^ 62 }
    requires told { own_bytes parts.now ≤ length (embedded parts.now) }
    ensures put { IfOk result
        (λ views. ArePut shares.old (inline_items page first parts.now) views shares.new) }
    ensures brought { IfOk result
        (λ views. AreBrought shares.new first (all_lengths page parts.now) views) }
{
    let bytes = embedded(alloc, parts)?;
    let lengths = own_lengths(alloc, parts)?;
    let spans = piece_spans(alloc, page, lengths.as_slice())?;
    let views = put_memory(alloc, shares, first, bytes.as_slice(), spans.as_slice())?;
    Ok(views)
}

/// The own pieces of parts, for which room in page files is reserved, numbered from `first`.
pub fn put_filed(
    alloc: Global,
    shares: &mut Shares,
    page: u64,
    first: u32,
    parts: &[Part],
) -> Result<ViewList, NoMemory>
    requires page { 0 < page }
    requires few { first + piece_count page (own_lengths parts.now) < 2 ^ 32 }
    requires fits { own_bytes parts.now ≤ 2 ^ 62 }
    ensures put { IfOk result (λ views. ArePut shares.old
        (reserved_items first (all_lengths page parts.now)) views shares.new) }
    ensures brought { IfOk result
        (λ views. AreBrought shares.new first (all_lengths page parts.now) views) }
{
    let lengths = own_lengths(alloc, parts)?;
    let spans = piece_spans(alloc, page, lengths.as_slice())?;
    let views = put_reserved(alloc, shares, first, spans.as_slice())?;
    Ok(views)
}
