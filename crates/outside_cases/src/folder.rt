//! Calls on a disk over a folder.
ghost use Rattle.std.specs.Prelude.{◌≡◌, None};

use blob_words::PageNo;
use blob_words::bounds::LONGEST_APPEND;
use case_lines::{number, short_number, show, show_read, word};
use page_disk::{FolderDisk, PageDisk};
use std::io;

// Writes a page at once, and tells how far it came.
fn put(disk: &mut FolderDisk<HostRuntime>, page: PageNo, bytes: &[u8]) -> &'static str
    requires closed { ⟦<FolderDisk<HostRuntime> as PageDisk>⟧.writing disk.old ≡ None }
    ensures closed { ⟦<FolderDisk<HostRuntime> as PageDisk>⟧.writing disk.new ≡ None }
{
    if bytes.is_empty() || bytes.len() > LONGEST_APPEND {
        return "no such write";
    }
    if disk.begin(page, bytes.len() as u64).is_err() {
        return "not begun";
    }
    if disk.append(bytes).is_err() || disk.seal().is_err() {
        return "torn";
    }
    "put"
}

// Reads into a line.
fn show_get(rt: &HostRuntime, disk: &mut FolderDisk<HostRuntime>, line: &str) -> io::Result<()>
    requires closed { ⟦<FolderDisk<HostRuntime> as PageDisk>⟧.writing disk.old ≡ None }
    ensures closed { ⟦<FolderDisk<HostRuntime> as PageDisk>⟧.writing disk.new ≡ None }
{
    let mut out = [0u8; 64];
    let (bytes, _) = out.split_at_mut(short_number(line, 4).min(64) as usize);
    let answer = disk.get(PageNo(short_number(line, 2)), number(line, 3), bytes);
    show_read(rt, line, &answer, bytes)
}

// Makes a call on a disk, with a page, and its bytes, or an offset and a count.
fn call_on(rt: &HostRuntime, disk: &mut FolderDisk<HostRuntime>, line: &str) -> io::Result<()>
    requires closed { ⟦<FolderDisk<HostRuntime> as PageDisk>⟧.writing disk.old ≡ None }
    ensures closed { ⟦<FolderDisk<HostRuntime> as PageDisk>⟧.writing disk.new ≡ None }
{
    let page = PageNo(short_number(line, 2));
    match word(line, 1) {
        "put" => show(rt, line, &put(disk, page, word(line, 3).as_bytes())),
        "get" => show_get(rt, disk, line),
        "remove" => show(rt, line, &disk.remove(page)),
        _ => show(rt, line, &"no such call"),
    }
}

/// Makes a call on a disk over a folder. `open` takes a new disk, over the folder of a path.
pub fn call(rt: &HostRuntime, disk: &mut FolderDisk<HostRuntime>, line: &str) -> anyhow::Result<()>
    requires closed { ⟦<FolderDisk<HostRuntime> as PageDisk>⟧.writing disk.old ≡ None }
    ensures closed { ⟦<FolderDisk<HostRuntime> as PageDisk>⟧.writing disk.new ≡ None }
{
    if word(line, 1) == "open" {
        *disk = FolderDisk::new(rt.clone()?, rt.alloc(), word(line, 2))?;
        return Ok(());
    }
    Ok(call_on(rt, disk, line)?)
}
