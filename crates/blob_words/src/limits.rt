ghost use Rattle.std.specs.Prelude.{◌≡◌, ◌^◌, ◌<◌, ◌≤◌, None, Some, IfNone, IfOk, MatchResult};
ghost use Rattle.blob_words.specs.Limits.{zero_field, large_field, limit_fault};

use crate::limit_fault::{Field, LimitFault};

/// The limits that a session states in its first line, in bytes.
#[derive(Clone, Copy, Debug, PartialEq, Eq)]
pub struct Limits {
    /// Pieces in memory, at most; 1 to 2^30.
    pub memory: u64,
    /// Charged to page files, at most; up to 2^40.
    pub disk: u64,
    /// A blob with more own bytes than this goes to page files; 1 to `memory`.
    pub big: u64,
    /// The own bytes that are taken from the line that builds a blob, at most; up to 2^18.
    pub inline_max: u64,
    /// A segment of a blob that is sent; 1 to 2^18.
    pub segment: u64,
    /// A piece and a page file; 1 to 2^18 and to `memory`.
    pub page: u64,
    /// What one step of a reader gives, at most; 1 to 2^16.
    pub chunk: u64,
    ghost some_memory: { 0 < memory },
    ghost memory_bound: { memory ≤ 2 ^ 30 },
    ghost disk_bound: { disk ≤ 2 ^ 40 },
    ghost some_big: { 0 < big },
    ghost big_bound: { big ≤ memory },
    ghost inline_bound: { inline_max ≤ 2 ^ 18 },
    ghost some_segment: { 0 < segment },
    ghost segment_bound: { segment ≤ 2 ^ 18 },
    ghost some_page: { 0 < page },
    ghost page_bound: { page ≤ 2 ^ 18 },
    ghost page_fits: { page ≤ memory },
    ghost some_chunk: { 0 < chunk },
    ghost chunk_bound: { chunk ≤ 2 ^ 16 },
}

fn zero_field(memory: u64, big: u64, segment: u64, page: u64, chunk: u64) -> Option<Field>
    ensures value { result ≡ zero_field memory big segment page chunk }
    ensures none { IfNone result
        ((0 < memory) × (0 < big) × (0 < segment) × (0 < page) × (0 < chunk)) }
{
    if memory == 0 {
        return Some(Field::Memory);
    }
    if big == 0 {
        return Some(Field::Big);
    }
    if segment == 0 {
        return Some(Field::Segment);
    }
    if page == 0 {
        return Some(Field::Page);
    }
    if chunk == 0 {
        return Some(Field::Chunk);
    }
    None
}

fn large_field(
    memory: u64,
    disk: u64,
    inline_max: u64,
    segment: u64,
    page: u64,
    chunk: u64,
) -> Option<Field>
    ensures value { result ≡ large_field memory disk inline_max segment page chunk }
    ensures none { IfNone result
        ((memory ≤ 2 ^ 30) × (disk ≤ 2 ^ 40) × (inline_max ≤ 2 ^ 18)
        × (segment ≤ 2 ^ 18) × (page ≤ 2 ^ 18) × (chunk ≤ 2 ^ 16)) }
{
    if memory > 1 << 30 {
        return Some(Field::Memory);
    }
    if disk > 1 << 40 {
        return Some(Field::Disk);
    }
    if inline_max > 1 << 18 {
        return Some(Field::InlineMax);
    }
    if segment > 1 << 18 {
        return Some(Field::Segment);
    }
    if page > 1 << 18 {
        return Some(Field::Page);
    }
    if chunk > 1 << 16 {
        return Some(Field::Chunk);
    }
    None
}

impl Limits {
    /// The limits of these numbers, or the first fault: a 0, a value that is too large, a
    /// `big` or a `page` that passes `memory`.
    pub fn new(
        memory: u64,
        disk: u64,
        big: u64,
        inline_max: u64,
        segment: u64,
        page: u64,
        chunk: u64,
    ) -> Result<Limits, LimitFault>
        ensures fields { IfOk result (λ limits.
            (limits.memory ≡ memory) × (limits.disk ≡ disk) × (limits.big ≡ big)
            × (limits.inline_max ≡ inline_max) × (limits.segment ≡ segment)
            × (limits.page ≡ page) × (limits.chunk ≡ chunk)) }
        ensures fault { MatchResult result
            (λ _. limit_fault memory disk big inline_max segment page chunk ≡ None)
            (λ fault. limit_fault memory disk big inline_max segment page chunk ≡ Some fault) }
    {
        if let Some(field) = zero_field(memory, big, segment, page, chunk) {
            return Err(LimitFault::Zero(field));
        }
        if let Some(field) = large_field(memory, disk, inline_max, segment, page, chunk) {
            return Err(LimitFault::Large(field));
        }
        if big > memory {
            return Err(LimitFault::Order);
        }
        if page > memory {
            return Err(LimitFault::Order);
        }
        Ok(Limits {
            memory,
            disk,
            big,
            inline_max,
            segment,
            page,
            chunk,
        })
    }
}
