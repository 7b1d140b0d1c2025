ghost use Rattle.std.specs.Prelude.{◌≡◌, ◌+◌, ◌*◌, ◌%◌, ◌^◌, ◌<◌, ◌==◌, [], ◌∷◌, ◌++◌};
ghost use Rattle.std.specs.Prelude.{if◌then◌else◌, pos, Some, None, IfOk, OnOk};
ghost use Rattle.session_gen.specs.Gen.{build_line, builder, built, data_line, disk_lines};
ghost use Rattle.session_gen.specs.Gen.{drop_lines, read_line, reader, round_lines, slice_line};
ghost use Rattle.session_gen.specs.Gen.{sliced, source, span, start, step_line};

use crate::words::Words;
use blob_words::{BlobName, JobNo, NoMemory, Octets, ReaderId, RendererId};
use session_script::{Event, Part, Parts};
use std::alloc::Global;

// The words that are sent in a round, four bytes each.
const SENT_WORDS: u32 = 256;

// The bytes of a built blob, and its one part's length.
const SIZE: u32 = 1_024;

// The first round whose build waits for the memory of an earlier one.
const FIRST_FULL: u32 = 16;

// What a round draws of its slice: the round that built the source, and the range.
#[derive(Drop)]
struct Cut {
    source: u32,
    start: u32,
    end: u32,
}

// The renderer that builds in a round.
fn builder(i: u32) -> RendererId
    ensures { result ≡ builder i }
{
    RendererId(i % 4)
}

// The blob that a round builds.
fn built(i: u32) -> BlobName
    requires { i < 4096 }
    ensures { result ≡ built i }
{
    BlobName::from_number(u128::from(2 * i + 1))
}

// The blob that a round slices.
fn sliced(i: u32) -> BlobName
    requires { i < 4096 }
    ensures { result ≡ sliced i }
{
    BlobName::from_number(u128::from(2 * i + 2))
}

fn build_line(alloc: Global, i: u32) -> Result<Event, NoMemory>
    requires { i < 4096 }
    ensures { IfOk result (λ event. event ≡ build_line i) }
{
    let kind = Octets::from_slice(alloc, b"text/plain")?;
    let mut parts = Parts::new(alloc);
    parts.push(Part::Asked(u64::from(SIZE)))?;
    Ok(Event::Build {
        r: builder(i),
        b: built(i),
        kind,
        parts,
    })
}

fn push_disk(events: &mut Vec<Event>, i: u32) -> Result<(), NoMemory>
    ensures { OnOk result (events.new.items ≡ events.old.items ++ disk_lines i) }
{
    if i >= FIRST_FULL {
        events.push(Event::Disk {
            j: JobNo(i - FIRST_FULL),
        })?;
    }
    Ok(())
}

fn data_line(alloc: Global, words: &mut Words, i: u32) -> Result<Event, NoMemory>
    requires few { i < 4096 }
    requires place { words.old.count ≡ 259 * i }
    ensures line { IfOk result (λ event. event ≡ data_line words.old.key i) }
    ensures rest { OnOk result (words.new ≡ record words.old { count = 259 * i + 256 }) }
{
    let bytes = words.draw_bytes(alloc, SENT_WORDS)?;
    Ok(Event::Segment {
        r: builder(i),
        b: built(i),
        seg: 0,
        bytes,
    })
}

fn draw_cut(words: &mut Words, i: u32) -> Cut
    requires few { i < 4096 }
    requires place { words.old.count ≡ 259 * i + 256 }
    ensures source { result.source ≡ source words.old.key i }
    ensures start { result.start ≡ start words.old.key i }
    ensures end { result.end ≡ start words.old.key i + span words.old.key i }
    ensures rest { words.new ≡ record words.old { count = 259 * (i + 1) } }
{
    let source = words.draw() % (i + 1);
    let start = words.draw() % SIZE;
    let end = start + 1 + words.draw() % SIZE;
    Cut { source, start, end }
}

fn push_drop(events: &mut Vec<Event>, source: u32, i: u32) -> Result<(), NoMemory>
    requires { i < 4096 }
    ensures { OnOk result (events.new.items ≡ events.old.items
        ++ (if i % 4 == 3 then Event.Drop (builder source) (sliced i) ∷ [] else [])) }
{
    if i % 4 == 3 {
        events.push(Event::Drop {
            r: builder(source),
            b: sliced(i),
        })?;
    }
    Ok(())
}

// The slice of a round, and the reads of it.
fn push_reads(alloc: Global, events: &mut Vec<Event>, cut: &Cut, i: u32) -> Result<(), NoMemory>
    requires few { i < 4096 }
    requires source { cut.now.source < 4096 }
    requires range { (cut.now.start < 2 ^ 11) × (cut.now.end < 2 ^ 12) }
    ensures { OnOk result (events.new.items ≡ events.old.items
        ++ (Event.Slice (builder cut.now.source) (sliced i) (built cut.now.source)
        (Some (pos cut.now.start)) (Some (pos cut.now.end)) []
        ∷ Event.Read (builder cut.now.source) (record { 0 = i }) (sliced i) 0 None ∷ step_line i
        ∷ step_line i ∷ [])) }
{
    let r = builder(cut.source);
    events.push(Event::Slice {
        r,
        b: sliced(i),
        src: built(cut.source),
        start: Some(i64::from(cut.start)),
        end: Some(i64::from(cut.end)),
        kind: Octets::new(alloc),
    })?;
    events.push(Event::Read {
        r,
        q: ReaderId(i),
        b: sliced(i),
        off: 0,
        len: None,
    })?;
    events.push(Event::Step { q: ReaderId(i) })?;
    events.push(Event::Step { q: ReaderId(i) })?;
    Ok(())
}

/// Puts the lines of a round behind those before it.
pub fn push_round(
    alloc: Global,
    events: &mut Vec<Event>,
    words: &mut Words,
    i: u32,
) -> Result<(), NoMemory>
    requires few { i < 4096 }
    requires place { words.old.count ≡ 259 * i }
    ensures lines { OnOk result
        (events.new.items ≡ events.old.items ++ round_lines words.old.key i) }
    ensures rest { OnOk result (words.new ≡ record words.old { count = 259 * (i + 1) }) }
{
    events.push(build_line(alloc, i)?)?;
    push_disk(events, i)?;
    events.push(data_line(alloc, words, i)?)?;
    let cut = draw_cut(words, i);
    push_reads(alloc, events, &cut, i)?;
    push_drop(events, cut.source, i)?;
    Ok(())
}
