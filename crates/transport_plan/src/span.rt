ghost use Rattle.std.specs.Prelude.{◌≡◌, ◌+◌, ◌*◌, ◌≤◌, ◌<◌, ◌^◌, slice_index_or};
ghost use Rattle.transport_plan.specs.Spans.{IsPlanOf, segments, segment_spans, span_at, piece_count, piece_spans};

use blob_words::{Limits, Plan};

/// The k-th span of so many bytes that are cut at the multiples of `size`.
fn span_at(size: u64, len: u64, k: u64) -> (u64, u64)
    requires size { 0 < size }
    requires within { k * size < len }
    ensures { result ≡ span_at size len k }
{
    let start = k * size;
    (start, size.min(len - start))
}

/// The k-th piece of the parts.
fn piece_span(parts: &[u64], page: u64, k: u64) -> (u64, u64)
    requires page { 0 < page }
    requires page_bound { page ≤ 2 ^ 18 }
    requires number { piece_count page parts.now < 2 ^ 32 }
    requires within { k < piece_count page parts.now }
    ensures { result ≡ slice_index_or (piece_spans page 0 parts.now) k (0, 0) }
{
    let mut from = 0;
    let mut left = k;
    for len in parts {
        let count = len.div_ceil(page);
        if left < count {
            let (start, size) = span_at(page, *len, left);
            return (from + start, size);
        }
        left -= count;
        from += *len;
    }
    unreachable!()
}

/// Start and length, in the own bytes, of the k-th segment of a shared or a file plan.
pub fn segment_span(parts: &[u64], plan: Plan, limits: &Limits, k: u32) -> (u64, u64)
    requires plan { IsPlanOf parts.now plan limits.now }
    requires within { k < segments plan }
    ensures { result ≡ slice_index_or (segment_spans parts.now plan limits.now) k (0, 0) }
{
    match plan {
        Plan::Shared(_) => {
            let own = parts.iter().sum();
            span_at(limits.segment, own, u64::from(k))
        }
        Plan::File(_) => piece_span(parts, limits.page, u64::from(k)),
        Plan::None | Plan::Inline | Plan::OutOfMemory | Plan::TooMany(_) => unreachable!(),
    }
}
