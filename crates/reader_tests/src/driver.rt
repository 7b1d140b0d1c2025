//! Reads a list of views to its end in steps, and writes down each answer.
ghost use Rattle.std.specs.Prelude.{◌≡◌, ◌<◌, None};

use crate::lie::views_lie;
use blob_items::ViewList;
use blob_words::FileName;
use data_handles::HandleTable;
use file_table::FileTable;
use item_shares::Shares;
use page_disk::PageDisk;
use range_reader::{Reader, StepEnd};
use std::fmt::Write;
use std::fs;
use std::test::Fail;

// The answer of a step, with the bytes that it read.
fn tell(end: StepEnd, bytes: &[u8], text: &mut String) -> Result<(), Fail> {
    match end {
        StepEnd::Bytes(count) => {
            let (front, _) = bytes.split_at(count.min(bytes.len()));
            write!(text, "{}|", str::from_utf8(front).unwrap_or("?"))?;
        }
        StepEnd::End => text.push_str("end")?,
        StepEnd::FileChanged(view) => write!(text, "file-changed {view}|")?,
        StepEnd::PageFault(page) => write!(text, "page-fault {}|", page.0)?,
        StepEnd::HandleFault(slot) => write!(text, "handle-failed {slot}|")?,
    }
    Ok(())
}

/// What happens behind the first step, until a step fails.
#[derive(Clone, Copy)]
pub enum Trouble {
    Nothing,
    /// The file of this name is recorded anew, at stamp 9.
    NewFile,
    /// The page goes.
    NoPage,
}

fn make_trouble(
    rt: &HostRuntime,
    trouble: Trouble,
    name: &FileName,
    files: &mut FileTable,
) -> Result<(), Fail> {
    match trouble {
        Trouble::Nothing => Ok(()),
        Trouble::NewFile => Ok(files.note(name, 9, b"another")?),
        Trouble::NoPage => Ok(fs::remove_file(rt, "reader_pages/0")?),
    }
}

// The page is there again.
fn mend(rt: &HostRuntime, trouble: Trouble) -> Result<(), Fail> {
    match trouble {
        Trouble::NoPage => Ok(fs::write(rt, "reader_pages/0", "0123456789")?),
        _ => Ok(()),
    }
}

/// Reads all bytes of the views in steps of at most `most` bytes. A step that fails is made once
/// more.
pub fn read<D: PageDisk>(
    rt: &HostRuntime,
    views: &ViewList,
    shares: &Shares,
    files: &mut FileTable,
    disk: &mut D,
    handles: &mut HandleTable,
    name: &FileName,
    trouble: Trouble,
    most: usize,
) -> Result<String, Fail>
    requires most { 0 < most }
    requires closed { D.writing disk.old ≡ None }
    requires untold { D.changes disk.old ≡ None }
{
    let mut text = String::new(rt.alloc());
    let mut buffer = vec![in rt.alloc(); 0u8; most]?;
    let mut reader = Reader::start(views.total(), 0, None)?;
    let mut failed = false;
    for turn in 0..1_000 {
        if !views_lie(views.as_slice(), shares, handles) {
            text.push_str("no views")?;
            return Ok(text);
        }
        let end = reader.step(views, shares, files, disk, handles, buffer.as_mut_slice());
        tell(end, buffer.as_slice(), &mut text)?;
        match end {
            StepEnd::End => return Ok(text),
            StepEnd::Bytes(_) => {
                if turn == 0 {
                    make_trouble(rt, trouble, name, files)?;
                }
            }
            _ => {
                if failed {
                    return Ok(text);
                }
                failed = true;
                mend(rt, trouble)?;
            }
        }
    }
    Ok(text)
}
