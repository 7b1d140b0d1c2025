//! Calls on a disk over memory.
ghost use Rattle.std.specs.Prelude.{◌≡◌, ◌+◌, None, IsTrue};
ghost use Rattle.std.specs.List.{list_any};
ghost use Rattle.std.specs.Option.{option_copied};
ghost use Rattle.page_disk.specs.Changes.{last_put, put_by, removes, writes, HasRange};
ghost use Rattle.page_disk.specs.Memory.{open_in};

use blob_words::bounds::LONGEST_APPEND;
use blob_words::{Failed, PageNo};
use case_lines::{memory_disk, number, short_number, show, show_changes, show_read, word};
use page_disk::{Change, MemoryDisk, PageDisk, PutFault};
use std::io;

// Whether a change is a write of the page, good or not.
fn writes(change: &Change, page: u32) -> bool
    ensures { result ≡ writes page change.now }
{
    match change {
        Change::Put(one, _) => page == one.0,
        Change::Torn(one) => page == one.0,
        Change::Remove(_) => false,
        Change::Left(_) => false,
    }
}

// Whether a change is a removal of the page, good or not.
fn removes(change: &Change, page: u32) -> bool
    ensures { result ≡ removes page change.now }
{
    match change {
        Change::Put(_, _) => false,
        Change::Torn(_) => false,
        Change::Remove(one) => page == one.0,
        Change::Left(one) => page == one.0,
    }
}

fn was_written(changes: &[Change], page: u32) -> bool
    ensures { result ≡ list_any (writes page) changes.now }
{
    changes.iter().any(|change| writes(change, page))
}

fn was_asked(changes: &[Change], page: u32) -> bool
    ensures { result ≡ list_any (removes page) changes.now }
{
    changes.iter().any(|change| removes(change, page))
}

// The bytes that a change puts into the page.
fn put_by(change: &Change, page: u32) -> Option<&[u8]>
    ensures { option_copied result ≡ put_by page change.now }
{
    match change {
        Change::Put(one, bytes) => {
            if page == one.0 {
                return Some(bytes.as_slice());
            }
            None
        }
        Change::Torn(_) => None,
        Change::Remove(_) => None,
        Change::Left(_) => None,
    }
}

// The bytes last put into the page.
fn last_put(changes: &[Change], page: u32) -> Option<&[u8]>
    ensures { option_copied result ≡ last_put page changes.now }
{
    let (first, rest) = changes.split_first()?;
    last_put(rest, page).or(put_by(first, page))
}

// Whether the page was put, was not asked for, and has these bytes.
fn has_range(changes: &[Change], page: u32, off: u64, count: usize) -> bool
    ensures { IsTrue result → HasRange page off count changes.now }
{
    if was_asked(changes, page) {
        return false;
    }
    match last_put(changes, page) {
        Some(bytes) => off <= bytes.len() as u64 && count as u64 <= bytes.len() as u64 - off,
        None => false,
    }
}

// Writes a new page in two parts, and tells how far it came.
fn put(disk: &mut MemoryDisk, page: u32, first: &[u8], second: &[u8]) -> &'static str
    requires closed { open_in disk.old ≡ None }
    ensures closed { open_in disk.new ≡ None }
{
    if first.is_empty() || first.len() > LONGEST_APPEND {
        return "no such write";
    }
    if second.is_empty() || second.len() > LONGEST_APPEND {
        return "no such write";
    }
    if was_written(disk.changes(), page) {
        return "not a new page";
    }
    if disk
        .begin(PageNo(page), first.len() as u64 + second.len() as u64)
        .is_err()
    {
        return "not begun";
    }
    if disk.append(first).is_err() || disk.append(second).is_err() {
        return "not appended";
    }
    if disk.seal().is_err() {
        return "not sealed";
    }
    "put"
}

// Begins the write of a new page of so many bytes. Where it begins, `other` is the disk from then
// on.
fn begin(disk: &mut MemoryDisk, page: u32, len: u64, other: MemoryDisk) -> Result<(), PutFault>
    requires closed { open_in disk.old ≡ None }
    requires closed_too { open_in other ≡ None }
    ensures closed { open_in disk.new ≡ None }
{
    if len == 0 || was_written(disk.changes(), page) {
        return Ok(());
    }
    disk.begin(PageNo(page), len)?;
    *disk = other;
    Ok(())
}

// Reads where the page has the range.
fn get(disk: &mut MemoryDisk, page: u32, off: u64, out: &mut [u8]) -> Option<Result<(), Failed>>
    requires closed { open_in disk.old ≡ None }
    ensures closed { open_in disk.new ≡ None }
{
    if !has_range(disk.changes(), page, off, out.len()) {
        return None;
    }
    Some(disk.get(PageNo(page), off, out))
}

// Removes a page that stands.
fn remove(disk: &mut MemoryDisk, page: u32) -> Option<Result<(), Failed>>
    requires closed { open_in disk.old ≡ None }
    ensures closed { open_in disk.new ≡ None }
{
    if !was_written(disk.changes(), page) || was_asked(disk.changes(), page) {
        return None;
    }
    Some(disk.remove(PageNo(page)))
}

// Reads into a line.
fn show_get(rt: &HostRuntime, disk: &mut MemoryDisk, line: &str) -> io::Result<()>
    requires closed { open_in disk.old ≡ None }
    ensures closed { open_in disk.new ≡ None }
{
    let mut out = [0u8; 64];
    let (bytes, _) = out.split_at_mut(short_number(line, 4).min(64) as usize);
    match get(disk, short_number(line, 2), number(line, 3), bytes) {
        Some(answer) => show_read(rt, line, &answer, bytes),
        None => show(rt, line, &"no such range"),
    }
}

// Makes a call on a page, with two parts of it, or an offset and a count of bytes.
fn call_on(rt: &HostRuntime, disk: &mut MemoryDisk, line: &str) -> io::Result<()>
    requires closed { open_in disk.old ≡ None }
    ensures closed { open_in disk.new ≡ None }
{
    let page = short_number(line, 2);
    match word(line, 1) {
        "put" => {
            let (first, second) = (word(line, 3).as_bytes(), word(line, 4).as_bytes());
            show(rt, line, &put(disk, page, first, second))
        }
        "get" => show_get(rt, disk, line),
        "remove" => show(rt, line, &remove(disk, page)),
        "changes" => show_changes(rt, disk.changes()),
        _ => show(rt, line, &"no such call"),
    }
}

// Begins the write of a page of so many bytes.
fn show_begin(rt: &HostRuntime, disk: &mut MemoryDisk, line: &str) -> anyhow::Result<()>
    requires closed { open_in disk.old ≡ None }
    ensures closed { open_in disk.new ≡ None }
{
    let other = memory_disk(rt.alloc(), "-", "-")?;
    let begun = begin(disk, short_number(line, 2), number(line, 3), other);
    Ok(show(rt, line, &begun)?)
}

/// Makes a call on a disk over memory. `new` takes a new one, of the calls that fail.
pub fn call(rt: &HostRuntime, disk: &mut MemoryDisk, line: &str) -> anyhow::Result<()>
    requires closed { open_in disk.old ≡ None }
    ensures closed { open_in disk.new ≡ None }
{
    match word(line, 1) {
        "new" => {
            *disk = memory_disk(rt.alloc(), word(line, 2), word(line, 3))?;
            Ok(())
        }
        "begin" => show_begin(rt, disk, line),
        _ => Ok(call_on(rt, disk, line)?),
    }
}
