//! Calls of a disk, and what each shows.
ghost use Rattle.std.specs.Prelude.{◌≡◌, false, None, IfSome};
ghost use Rattle.page_disk.specs.Changes.{IsNew, Stands};

use crate::asks::{was_asked, was_written};
use crate::watched::Watched;
use blob_words::PageNo;
use page_disk::{PageDisk, PutFault};
use std::fmt::Write;
use std::test::Fail;

/// A call of a disk.
#[derive(Clone, Copy)]
pub enum Call<'a> {
    /// The page is written with these bytes.
    Put(u32, &'a [u8]),
    /// Four bytes of the page are read, from its second on.
    Get(u32),
    /// The page is removed.
    Remove(u32),
}

// Writes a page of up to eight bytes.
fn put<D: Watched>(
    disk: &mut D,
    is_told: bool,
    page: u32,
    bytes: &[u8],
) -> Result<&'static str, Fail>
    requires closed { D.writing disk.old ≡ None }
    requires told { is_told ≡ false → D.changes disk.old ≡ None }
    ensures closed { D.writing disk.new ≡ None }
    ensures told { is_told ≡ false → D.changes disk.new ≡ None }
{
    if bytes.is_empty() || bytes.len() > 8 {
        return Err(Fail::new("no such write"));
    }
    if is_told && was_written(disk.told(), page) {
        return Err(Fail::new("not a new page"));
    }
    match disk.begin(PageNo(page), bytes.len() as u64) {
        Ok(()) => {}
        Err(PutFault::Failed) => return Ok("torn"),
        Err(PutFault::NoMemory) => return Err(Fail::new("no memory")),
    }
    if disk.append(bytes).is_err() {
        return Ok("torn");
    }
    if disk.seal().is_err() {
        return Ok("torn");
    }
    Ok("done")
}

// Removes a page.
fn remove<D: Watched>(disk: &mut D, is_told: bool, page: u32) -> Result<&'static str, Fail>
    requires closed { D.writing disk.old ≡ None }
    requires told { is_told ≡ false → D.changes disk.old ≡ None }
    ensures closed { D.writing disk.new ≡ None }
    ensures told { is_told ≡ false → D.changes disk.new ≡ None }
{
    if is_told && (!was_written(disk.told(), page) || was_asked(disk.told(), page)) {
        return Err(Fail::new("no such page"));
    }
    if disk.remove(PageNo(page)).is_err() {
        return Ok("left");
    }
    Ok("done")
}

// Reads four bytes of a page, where nothing is told.
fn get<D: Watched>(disk: &mut D, is_told: bool, page: u32) -> Result<&'static str, Fail>
    requires closed { D.writing disk.old ≡ None }
    requires told { is_told ≡ false → D.changes disk.old ≡ None }
    ensures closed { D.writing disk.new ≡ None }
    ensures told { is_told ≡ false → D.changes disk.new ≡ None }
{
    if is_told {
        return Err(Fail::new("not where changes are told"));
    }
    let mut four = [0u8; 4];
    if disk.get(PageNo(page), 1, &mut four).is_err() {
        return Ok("unread");
    }
    if four.as_slice() == b"bcde".as_slice() {
        return Ok("bcde");
    }
    Ok("other bytes")
}

/// Makes a call, and gives its answer in a word or two.
pub fn answer<D: Watched>(disk: &mut D, is_told: bool, call: Call) -> Result<&'static str, Fail>
    requires closed { D.writing disk.old ≡ None }
    requires told { is_told ≡ false → D.changes disk.old ≡ None }
    ensures closed { D.writing disk.new ≡ None }
    ensures told { is_told ≡ false → D.changes disk.new ≡ None }
{
    match call {
        Call::Put(page, bytes) => put(disk, is_told, page, bytes),
        Call::Get(page) => get(disk, is_told, page),
        Call::Remove(page) => remove(disk, is_told, page),
    }
}

// Writes down the name of a call; gives its page.
fn name(call: Call, text: &mut String) -> Result<u32, Fail> {
    let (word, page) = match call {
        Call::Put(page, _) => ("put", page),
        Call::Get(page) => ("get", page),
        Call::Remove(page) => ("remove", page),
    };
    write!(text, "{word} {page} ")?;
    Ok(page)
}

/// Makes calls, a line of text for each.
pub fn follow<D: Watched>(
    disk: &mut D,
    is_told: bool,
    calls: &[Call],
    text: &mut String,
) -> Result<(), Fail>
    requires closed { D.writing disk.old ≡ None }
    requires told { is_told ≡ false → D.changes disk.old ≡ None }
    ensures closed { D.writing disk.new ≡ None }
    ensures told { is_told ≡ false → D.changes disk.new ≡ None }
{
    for call in calls {
        let page = name(*call, text)?;
        text.push_str(answer(disk, is_told, *call)?)?;
        disk.look(page, text)?;
        text.push_str("\n")?;
    }
    Ok(())
}
