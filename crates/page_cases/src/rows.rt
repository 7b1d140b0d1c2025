//! The rows by their names, and the disks.
ghost use Rattle.std.specs.Prelude.{◌≡◌, [], None, IfSome};

use crate::{
    empty_moves, jobs, long_page, many_pages, many_pieces, moving, reserves, stores, whole_page,
};
use case_lines::{call_path, memory_disk, number, numbers, show_changes, word};
use page_disk::{FolderDisk, PageDisk};
use page_volumes::{MemoryVolume, Volume, Volumes};

// Makes the row of a name on a disk.
fn run<D: PageDisk>(rt: &HostRuntime, name: &str, disk: &mut D) -> anyhow::Result<()>
    requires closed { D.writing disk.old ≡ None }
    requires fresh { IfSome (D.changes disk.old) (λ changes. changes ≡ []) }
{
    match name {
        "stores" => stores::show(rt, disk),
        "whole_page" => whole_page::show(rt, disk),
        "long_page" => long_page::show(rt, disk),
        "move" => moving::show(rt, 64, disk),
        "move_of_8" => moving::show(rt, 8, disk),
        "move_of_7" => moving::show(rt, 7, disk),
        "empty_move" => empty_moves::show(rt, disk),
        "other_number" => jobs::show_other_number(rt, disk),
        "other_kind" => jobs::show_other_kind(rt, disk),
        "other_lost" => jobs::show_other_lost(rt, disk),
        "many_pieces" => many_pieces::show(rt, disk),
        "many_pages" => many_pages::show(rt, disk),
        _ => Ok(()),
    }
}

fn over_memory(rt: &HostRuntime, line: &str) -> anyhow::Result<()> {
    let mut disk = memory_disk(rt.alloc(), word(line, 2), word(line, 3))?;
    run(rt, word(line, 0), &mut disk)?;
    Ok(show_changes(rt, disk.changes())?)
}

fn over_folder(rt: &HostRuntime, line: &str) -> anyhow::Result<()> {
    let mut disk = FolderDisk::new(rt.clone()?, rt.alloc(), word(line, 2))?;
    run(rt, word(line, 0), &mut disk)
}

fn over_volume(rt: &HostRuntime, line: &str) -> anyhow::Result<()> {
    let mut volumes: Vec<Box<dyn Volume>> = Vec::new(rt.alloc());
    let volume = MemoryVolume::new(rt.alloc(), numbers(rt.alloc(), word(line, 2))?);
    volumes.push(Box::new(rt.alloc(), volume)?)?;
    let mut disk = Volumes::recording(rt.alloc(), volumes)?;
    run(rt, word(line, 0), &mut disk)?;
    Ok(show_changes(rt, disk.changes())?)
}

/// Shows what comes of a line.
pub fn show(rt: &HostRuntime, line: &str) -> anyhow::Result<()> {
    if word(line, 0) == "path" {
        return Ok(call_path(rt, line)?);
    }
    println!(rt; "{line}")?;
    match word(line, 1) {
        "memory" => over_memory(rt, line),
        "folder" => over_folder(rt, line),
        "volume" => over_volume(rt, line),
        "reserve" => reserves::show_limit(rt, line, number(line, 2), number(line, 3)),
        _ => Ok(()),
    }
}
