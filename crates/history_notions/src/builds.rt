//! The blobs of a session, each with what was named when it was built.
ghost use Rattle.std.specs.Prelude.{◌≡◌, ℕ, ◌+◌, ◌*◌, ◌<◌, ◌≤◌, ◌^◌, ◌++◌, length, map, IfOk, OnOk};
ghost use Rattle.std.specs.List.{range_with_len};
ghost use Rattle.std.specs.Option.{option_copied, option_map_or, option_to_list};
ghost use Rattle.slice_rule.specs.Kind.{kept_type};
ghost use Rattle.blob_model.specs.Parts.{part_length, parts_length};
ghost use Rattle.blob_model.specs.Builds.{build_in, size, size_in, cells_of, part_weight, parts_weight, plan_told, built, slice_parts, builds_after};
ghost use Rattle.history_notions.specs.Runs.{cell_at, cells_of_runs, part_cells, own_end};
ghost use Rattle.history_notions.specs.declared.run.Source.TheVariants as kinds;

use crate::parts::{part_length, parts_length};
use crate::run::{Run, Source};
use crate::runs::{put_run, put_slice};
use answer_text::Answer;
use blob_words::{BlobName, ItemList, NoMemory, Octets, Plan};
use session_script::{Event, Part, Parts};
use slice_rule::{normal_type, slice_range};
use std::alloc::Global;
use std::marker::Model;

/// The greatest size that is kept; one above is want of memory. The model's sizes are below.
const MOST: u128 = 1 << 62;

/// A blob: its name, its builder, the content type that is kept, its parts, the plan of its own
/// bytes (none where the blob broke at its own line), its weight, and its content.
#[derive(Debug, Drop)]
pub struct Build {
    pub name: BlobName,
    pub builder: u32,
    pub kind: Octets,
    pub parts: Parts,
    pub plan: Option<Plan>,
    pub weight: u128,
    pub runs: ItemList<Run>,
}

impl Model for Build {
    ghost use Rattle.blob_model.specs.Builds as model;
    ghost use Rattle.history_notions.specs.Runs.{cells_of_runs};

    ghost Value = { model.Build };

    ghost view = { λ one. record {
      name = one.name;
      builder = one.builder;
      kind = one.kind;
      parts = one.parts;
      plan = one.plan;
      weight = one.weight;
      cells = cells_of_runs one.runs;
    } };
}

/// The blob of this name.
pub fn build_in(builds: &[Build], name: BlobName) -> Option<&Build>
    ensures { option_copied result ≡ build_in builds.now name }
{
    builds.iter().find(|build| build.name == name)
}

/// The size of a blob, which is 0 where it broke at its own line.
pub fn size(build: &Build) -> u128
    ensures { result ≡ size build.now }
{
    match build.plan {
        None => 0,
        Some(_) => parts_length(build.parts.as_slice()),
    }
}

/// The size of the blob of this name.
pub fn size_in(builds: &[Build], name: BlobName) -> u128
    ensures { result ≡ size_in builds.now name }
{
    match build_in(builds, name) {
        Some(build) => size(build),
        None => 0,
    }
}

fn put_own(name: BlobName, from: u64, len: u64, found: &mut ItemList<Run>) -> Result<(), NoMemory>
    ensures { OnOk result (cells_of_runs found.new
        ≡ cells_of_runs found.old ++ map (cell_at (kinds.Sent name)) (range_with_len from len)) }
{
    put_run(Source::Sent(name), u128::from(from), len, found)
}

/// Puts the cells of a part, whose own bytes count from `from` on, behind others.
fn put_part(
    alloc: Global,
    builds: &[Build],
    name: BlobName,
    from: u64,
    part: &Part,
    found: &mut ItemList<Run>,
) -> Result<(), NoMemory>
    ensures { OnOk result (cells_of_runs found.new
        ≡ cells_of_runs found.old ++ part_cells builds.now name from part.now) }
{
    match part {
        Part::Embedded(bytes) => put_own(name, from, bytes.len() as u64, found),
        Part::Asked(len) => put_own(name, from, *len, found),
        Part::FileRange {
            name: file,
            off,
            len,
            stamp,
        } => {
            let source = Source::Filed(file.copy(alloc)?, *stamp);
            put_run(source, u128::from(*off), *len, found)
        }
        Part::BlobRange { b, off, len } => match build_in(builds, *b) {
            Some(build) => put_slice(alloc, build.runs.as_slice(), *off, *len, found),
            None => Ok(()),
        },
        Part::HandleRange { k, off, len } => {
            put_run(Source::Lent(*k), u128::from(*off), *len, found)
        }
    }
}

/// Where the own bytes of the next part begin.
fn own_end(from: u64, part: &Part) -> u64
    requires { from + part_length part.now < 2 ^ 64 }
    ensures { result ≡ own_end from part.now }
{
    match part {
        Part::Embedded(bytes) => from + bytes.len() as u64,
        Part::Asked(len) => from + *len,
        _ => from,
    }
}

/// The content that the parts name.
fn runs_of(
    alloc: Global,
    builds: &[Build],
    name: BlobName,
    parts: &[Part],
) -> Result<ItemList<Run>, NoMemory>
    requires { parts_length parts.now < 2 ^ 64 }
    ensures { IfOk result (λ found. cells_of_runs found
        ≡ cells_of builds.now name 0 parts.now) }
{
    let mut found = ItemList::new(alloc);
    let mut from = 0;
    for part in parts {
        put_part(alloc, builds, name, from, part, &mut found)?;
        from = own_end(from, part);
    }
    Ok(found)
}

/// The weight of the blob of this name.
fn weight_in(builds: &[Build], name: BlobName) -> u128
    ensures { result ≡ option_map_or (λ build. build.weight) (build_in builds.now name) 0 }
{
    match build_in(builds, name) {
        Some(build) => build.weight,
        None => 0,
    }
}

/// The weight of a part bounds its views.
fn part_weight(page: u64, builds: &[Build], part: &Part) -> u128
    requires { 0 < page }
    ensures value { result ≡ part_weight page builds.now part.now }
    ensures small { result < 2 ^ 64 }
{
    match part {
        Part::Embedded(bytes) => u128::from((bytes.len() as u64).div_ceil(page)),
        Part::Asked(len) => u128::from(len.div_ceil(page)),
        Part::FileRange { len, .. } => u128::from(1.min(*len)),
        Part::BlobRange { b, len, .. } => u128::from(*len).min(weight_in(builds, *b)),
        Part::HandleRange { len, .. } => u128::from(1.min(*len)),
    }
}

/// The weight of parts.
pub fn parts_weight(page: u64, builds: &[Build], parts: &[Part]) -> u128
    requires { 0 < page }
    ensures { result ≡ parts_weight page builds.now parts.now }
{
    let mut total: u128 = 0;
    for part in parts {
        total += part_weight(page, builds, part);
    }
    total
}

/// The plan that an answer tells.
pub fn plan_told(answer: &Answer) -> Option<Plan>
    ensures { result ≡ plan_told answer.now }
{
    match answer {
        Answer::Planned(plan) => Some(*plan),
        _ => None,
    }
}

/// The content type that is kept.
pub fn kept_kind(alloc: Global, kind: &[u8]) -> Result<Octets, NoMemory>
    ensures { IfOk result (λ kept. kept ≡ kept_type kind.now) }
{
    let mut kept = Octets::from_slice(alloc, kind)?;
    let len = normal_type(kept.as_mut_slice());
    kept.truncate(len);
    Ok(kept)
}

fn copy_part(alloc: Global, part: &Part) -> Result<Part, NoMemory>
    ensures { IfOk result (λ copy. copy ≡ part.now) }
{
    match part {
        Part::Embedded(bytes) => Ok(Part::Embedded(Octets::from_slice(alloc, bytes.as_slice())?)),
        Part::Asked(len) => Ok(Part::Asked(*len)),
        Part::FileRange {
            name,
            off,
            len,
            stamp,
        } => Ok(Part::FileRange {
            name: name.copy(alloc)?,
            off: *off,
            len: *len,
            stamp: *stamp,
        }),
        Part::BlobRange { b, off, len } => Ok(Part::BlobRange {
            b: *b,
            off: *off,
            len: *len,
        }),
        Part::HandleRange { k, off, len } => Ok(Part::HandleRange {
            k: *k,
            off: *off,
            len: *len,
        }),
    }
}

fn copy_parts(alloc: Global, parts: &[Part]) -> Result<Parts, NoMemory>
    ensures { IfOk result (λ copies. copies ≡ parts.now) }
{
    let mut copies = ItemList::new(alloc);
    for part in parts {
        copies.push(copy_part(alloc, part)?)?;
    }
    Ok(copies)
}

/// What a `slice` line names of its source, as the one part of a blob.
pub fn slice_parts(
    alloc: Global,
    builds: &[Build],
    source: BlobName,
    start: Option<i64>,
    end: Option<i64>,
) -> Result<Parts, NoMemory>
    ensures { IfOk result (λ parts. parts ≡ slice_parts builds.now source start end) }
{
    let size = size_in(builds, source);
    if size > MOST {
        return Err(NoMemory);
    }
    let (off, len) = slice_range(size as u64, start, end);
    let mut parts = ItemList::new(alloc);
    parts.push(Part::BlobRange {
        b: source,
        off,
        len,
    })?;
    Ok(parts)
}

/// The blob that a line builds.
fn built(
    alloc: Global,
    page: u64,
    builds: &[Build],
    builder: u32,
    name: BlobName,
    kind: &[u8],
    parts: Parts,
    plan: Option<Plan>,
) -> Result<Build, NoMemory>
    requires { 0 < page }
    ensures { IfOk result (λ build. build
        ≡ built page builds.now builder name kind.now parts plan) }
{
    let kind = kept_kind(alloc, kind)?;
    match plan {
        None => Ok(Build {
            name,
            builder,
            kind,
            parts,
            plan: None,
            weight: 0,
            runs: ItemList::new(alloc),
        }),
        Some(plan) => {
            if parts_length(parts.as_slice()) > MOST {
                return Err(NoMemory);
            }
            let weight = parts_weight(page, builds, parts.as_slice());
            let runs = runs_of(alloc, builds, name, parts.as_slice())?;
            Ok(Build {
                name,
                builder,
                kind,
                parts,
                plan: Some(plan),
                weight,
                runs,
            })
        }
    }
}

/// The blob that an accepted `build` or `slice` line makes.
pub fn made_by(
    alloc: Global,
    page: u64,
    event: &Event,
    answer: &Answer,
    builds: &[Build],
) -> Result<Option<Build>, NoMemory>
    requires { 0 < page }
    ensures { IfOk result (λ made. builds_after page event.now answer.now builds.now
        ≡ builds.now ++ option_to_list made) }
{
    match event {
        Event::Build { r, b, kind, parts } => {
            let parts = copy_parts(alloc, parts.as_slice())?;
            let kind = kind.as_slice();
            let plan = plan_told(answer);
            let build = built(alloc, page, builds, r.0, *b, kind, parts, plan)?;
            Ok(Some(build))
        }
        Event::Slice {
            r,
            b,
            src,
            start,
            end,
            kind,
        } => {
            let parts = slice_parts(alloc, builds, *src, *start, *end)?;
            let kind = kind.as_slice();
            let plan = plan_told(answer);
            let build = built(alloc, page, builds, r.0, *b, kind, parts, plan)?;
            Ok(Some(build))
        }
        _ => Ok(None),
    }
}
