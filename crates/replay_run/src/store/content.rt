ghost use Rattle.std.specs.Prelude.{◌≡◌, ◌+◌, ◌<◌, ◌≤◌, ◌^◌, length, take, drop, flat_map, IfOk, MatchOption};
ghost use Rattle.std.specs.List.{list_all};
ghost use Rattle.replay_run.specs.Builds.{part_bytes};
ghost use Rattle.replay_run.specs.Own.{is_embedded, is_plain};
ghost use Rattle.replay_run.specs.Measure.{byte_total, piece_total};
ghost use Rattle.replay_run.specs.Plan.{plan_for};

use blob_words::{Limits, NoMemory, Octets, Plan};
use session_script::Part;
use std::alloc::Global;

/// How much the parts of a build bring.
#[derive(Clone, Copy)]
pub struct Measure {
    /// In bytes.
    pub size: u64,
    /// The number of pieces.
    pub pieces: u64,
}

/// The bytes that stand in a part; none of the parts that name bytes elsewhere.
pub fn part_bytes(part: &Part) -> &[u8]
    ensures { result.now ≡ part_bytes part.now }
{
    match part {
        Part::Embedded(bytes) => bytes.as_slice(),
        Part::Asked(_) => &[],
        Part::FileRange { .. } => &[],
        Part::BlobRange { .. } => &[],
        Part::HandleRange { .. } => &[],
    }
}

fn is_embedded(part: &Part) -> bool
    ensures { result ≡ is_embedded part.now }
{
    match part {
        Part::Embedded(_) => true,
        Part::Asked(_) => false,
        Part::FileRange { .. } => false,
        Part::BlobRange { .. } => false,
        Part::HandleRange { .. } => false,
    }
}

fn are_embedded(parts: &[Part]) -> bool
    ensures { result ≡ list_all is_embedded parts.now }
{
    parts.iter().all(|part| is_embedded(part))
}

/// Whether a build is one of no content type and of bytes that stand in the line.
pub fn is_plain(kind: &[u8], parts: &[Part]) -> bool
    ensures { result ≡ is_plain kind.now parts.now }
{
    kind.is_empty() && are_embedded(parts)
}

/// The bytes and pieces of the parts; nothing where they have more than `most` bytes.
pub fn measure_parts(parts: &[Part], page: u64, most: u64) -> Option<Measure>
    requires page { 0 < page }
    requires most { most < 2 ^ 32 }
    ensures { MatchOption result (most < byte_total parts.now) (λ measure.
        (measure.size ≡ byte_total parts.now) × (measure.size ≤ most)
        × (measure.pieces ≡ piece_total page parts.now) × (measure.pieces ≤ measure.size)) }
{
    let mut size = 0;
    let mut pieces = 0;
    for part in parts {
        let len = part_bytes(part).len() as u64;
        if len > most - size {
            return None;
        }
        size += len;
        pieces += len.div_ceil(page);
    }
    Some(Measure { size, pieces })
}

/// The bytes of the parts, one part after the other.
pub fn joined(alloc: Global, parts: &[Part]) -> Result<Octets, NoMemory>
    ensures { IfOk result (λ bytes. bytes ≡ flat_map part_bytes parts.now) }
{
    let mut bytes = Octets::new(alloc);
    for part in parts {
        bytes.extend_from_slice(part_bytes(part))?;
    }
    Ok(bytes)
}

/// The plan for so many bytes, where it is built: none or inline.
pub fn plan_for(limits: &Limits, memory: u64, size: u64) -> Option<Plan>
    requires { memory + size < 2 ^ 64 }
    ensures { result ≡ plan_for limits.now memory size }
{
    if size == 0 {
        return Some(Plan::None);
    }
    if size > limits.big && size <= limits.disk {
        return None;
    }
    if size <= limits.inline_max && memory + size <= limits.memory {
        return Some(Plan::Inline);
    }
    None
}

/// At most `count` bytes from a place on.
pub fn range(bytes: &[u8], from: u64, count: u64) -> &[u8]
    ensures { result.now ≡ take count (drop from bytes.now) }
{
    if from >= bytes.len() as u64 {
        return &[];
    }
    let rest = &bytes[from as usize..];
    if count >= rest.len() as u64 {
        return rest;
    }
    &rest[..count as usize]
}
