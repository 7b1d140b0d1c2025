//! Calls on a table of one object.
use crate::objects::new_object;
use case_lines::{number, short_number, show, show_read, word};
use data_handles::{DataHandle, HandleTable};

// Claims a slot of a new table twice: its size, two claims, and its size again.
fn claim(rt: &HostRuntime, line: &str) -> anyhow::Result<()> {
    let alloc = rt.alloc();
    let mut objects: Vec<Box<dyn DataHandle>> = Vec::new(alloc);
    objects.push(Box::new(alloc, new_object(alloc, word(line, 2), "-")?)?)?;
    let mut table = HandleTable::new(alloc, objects)?;
    let slot = short_number(line, 3);
    let size = table.size_of(slot);
    let claims = (table.claim(slot), table.claim(slot));
    show(rt, line, &(size, claims, table.size_of(slot)))?;
    Ok(())
}

// Claims the one object of a new table, reads it at two offsets, and lets it go.
fn read(rt: &HostRuntime, line: &str) -> anyhow::Result<()> {
    let alloc = rt.alloc();
    let mut objects: Vec<Box<dyn DataHandle>> = Vec::new(alloc);
    objects.push(Box::new(alloc, new_object(alloc, word(line, 2), word(line, 3))?)?)?;
    let mut table = HandleTable::new(alloc, objects)?;
    let size = table.claim(0)?;
    let (one, two) = (number(line, 4), number(line, 5));
    let mut out = [0u8; 64];
    let (bytes, _) = out.split_at_mut(short_number(line, 6).min(64) as usize);
    let count = bytes.len() as u64;
    if size < one || size - one < count || size < two || size - two < count {
        show(rt, line, &"no such range")?;
        return Ok(());
    }
    let first = table.read(0, one, bytes);
    show_read(rt, line, &first, bytes)?;
    let second = table.read(0, two, bytes);
    show_read(rt, line, &second, bytes)?;
    table.release(0);
    show(rt, line, &(table.held(0), table.faults()))?;
    Ok(())
}

/// Makes calls on a new table of one object.
pub fn call(rt: &HostRuntime, line: &str) -> anyhow::Result<()> {
    match word(line, 1) {
        "claim" => claim(rt, line),
        "read" => read(rt, line),
        _ => Ok(()),
    }
}
