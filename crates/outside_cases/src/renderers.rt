//! Calls on a table of renderers.
use blob_words::{BlobName, NoMemory, Octets, Origin, RendererId};
use case_lines::{short_number, show, word};
use renderer_table::{PassFault, Renderers};
use std::alloc::Global;
use std::io;

// More handles than the lines give a renderer on one blob.
const MANY: u64 = 1_000_000;

fn origin(alloc: Global, text: &str) -> anyhow::Result<Origin> {
    Ok(Origin::new(Octets::from_slice(alloc, text.as_bytes())?)?)
}

// One handle more, where the renderer is alive.
fn add_one(table: &mut Renderers, id: RendererId, blob: BlobName) -> Result<bool, NoMemory> {
    if table.origin_of(id).is_none() || table.count_of(id, blob) > MANY {
        return Ok(false);
    }
    table.add_one(id, blob)?;
    Ok(true)
}

// Passes a handle on, where the taker has not very many.
fn pass(
    table: &mut Renderers,
    from: RendererId,
    to: RendererId,
    blob: BlobName,
) -> Option<Result<(), PassFault>> {
    if table.count_of(to, blob) > MANY {
        return None;
    }
    Some(table.pass(from, to, blob))
}

// What a living renderer gives when it dies; it is dead after `None`.
fn die(table: &mut Renderers, id: RendererId) -> Option<(BlobName, u64)> {
    if table.origin_of(id).is_none() {
        return None;
    }
    table.die(id)
}

// Spawns so many renderers, and counts those that were taken.
fn fill(alloc: Global, table: &mut Renderers, count: u32) -> anyhow::Result<u32> {
    let origin = origin(alloc, "https://a.test")?;
    let mut spawned = 0u32;
    for number in 0..count {
        if table.spawn(RendererId(number), &origin).is_ok() {
            spawned = spawned.saturating_add(1);
        }
    }
    Ok(spawned)
}

// So many handles, each on a blob of its own, dealt out among so many renderers.
fn deal(table: &mut Renderers, count: u32, renderers: u32) -> Result<u32, NoMemory> {
    let mut added = 0u32;
    for number in 0..count {
        let blob = BlobName::from_number(u128::from(number.wrapping_mul(2_654_435_761)));
        let id = RendererId(number.checked_rem(renderers).unwrap_or(0));
        if add_one(table, id, blob)? {
            added = added.saturating_add(1);
        }
    }
    Ok(added)
}

// So many renderers die, each in so many steps; counts the blobs that they give.
fn empty(table: &mut Renderers, renderers: u32, each: u32) -> u32 {
    let mut given = 0u32;
    for number in 0..renderers {
        for _ in 0..each {
            if die(table, RendererId(number)).is_some() {
                given = given.saturating_add(1);
            }
        }
    }
    given
}

// Spawns a renderer of an origin.
fn spawn(rt: &HostRuntime, table: &mut Renderers, line: &str) -> anyhow::Result<()> {
    let origin = origin(rt.alloc(), word(line, 3))?;
    let answer = table.spawn(RendererId(short_number(line, 2)), &origin);
    Ok(show(rt, line, &answer)?)
}

// The origin of a renderer.
fn show_origin(rt: &HostRuntime, table: &Renderers, id: RendererId, line: &str) -> io::Result<()> {
    match table.origin_of(id) {
        Some(origin) => show(rt, line, &str::from_utf8(origin.as_slice())),
        None => show(rt, line, &"none"),
    }
}

// Makes a call on a renderer, with a blob and the renderer that takes a handle.
fn call_on(rt: &HostRuntime, table: &mut Renderers, line: &str) -> io::Result<()> {
    let id = RendererId(short_number(line, 2));
    let blob = BlobName::from_number(u128::from(short_number(line, 3)));
    match word(line, 1) {
        "origin" => show_origin(rt, table, id, line),
        "pass" => {
            let to = RendererId(short_number(line, 4));
            show(rt, line, &pass(table, id, to, blob))
        }
        "drop" => show(rt, line, &table.drop_one(id, blob)),
        "count" => show(rt, line, &table.count_of(id, blob)),
        "die" => show(rt, line, &die(table, id)),
        "first" => show(rt, line, &table.first_alive()),
        _ => show(rt, line, &"no such call"),
    }
}

// Adds a handle, or very many, for which memory may lack.
fn show_more(rt: &HostRuntime, table: &mut Renderers, line: &str) -> anyhow::Result<()> {
    let (one, two) = (short_number(line, 2), short_number(line, 3));
    let shown = match word(line, 1) {
        "add" => {
            let blob = BlobName::from_number(u128::from(two));
            show(rt, line, &add_one(table, RendererId(one), blob)?)
        }
        "deal" => show(rt, line, &deal(table, one, two)?),
        "fill" => show(rt, line, &fill(rt.alloc(), table, one)?),
        _ => show(rt, line, &empty(table, one, two)),
    };
    Ok(shown?)
}

/// Makes a call on a table of renderers, with a renderer, a blob and the renderer that takes a
/// handle; or with two counts.
pub fn call(rt: &HostRuntime, table: &mut Renderers, line: &str) -> anyhow::Result<()> {
    match word(line, 1) {
        "new" => {
            *table = Renderers::new(rt.alloc())?;
            Ok(())
        }
        "spawn" => spawn(rt, table, line),
        "add" | "deal" | "fill" | "empty" => show_more(rt, table, line),
        _ => Ok(call_on(rt, table, line)?),
    }
}
