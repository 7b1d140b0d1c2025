//! Calls on a table of files.
use blob_words::{FileName, NoMemory, Octets};
use case_lines::{number, short_number, show, show_read, word};
use file_table::FileTable;
use std::alloc::Global;
use std::io;

// The bytes of a word, in which `^` stands for a NUL byte.
fn bytes_of(alloc: Global, text: &str) -> Result<Octets, NoMemory> {
    let mut bytes = Octets::new(alloc);
    for byte in text.as_bytes() {
        let is_nul = *byte == b'^';
        bytes.push(if is_nul { 0 } else { *byte })?;
    }
    Ok(bytes)
}

// Notes a file that is named by a number; whether it was taken.
fn note_one(alloc: Global, files: &mut FileTable, number: u32) -> anyhow::Result<bool> {
    let text = format!(in alloc; "{number}.png")?;
    let name = FileName::new(bytes_of(alloc, text.as_str())?)?;
    Ok(files.note(&name, 1, b"x").is_ok())
}

// Notes so many files, and counts those that were taken.
fn fill(alloc: Global, files: &mut FileTable, count: u32) -> anyhow::Result<u32> {
    let mut taken = 0u32;
    for number in 0..count {
        if note_one(alloc, files, number)? {
            taken = taken.saturating_add(1);
        }
    }
    Ok(taken)
}

// Reads a range of a file, of a stamp.
fn show_range(rt: &HostRuntime, files: &FileTable, file: &FileName, line: &str) -> io::Result<()> {
    let mut out = [0u8; 64];
    let (bytes, _) = out.split_at_mut(short_number(line, 5).min(64) as usize);
    let answer = files.read_range(file, number(line, 3), number(line, 4), bytes);
    show_read(rt, line, &answer, bytes)
}

// Makes a call on a file, with a stamp, an offset and a count of bytes, or a content.
fn call_on(rt: &HostRuntime, files: &mut FileTable, file: &FileName, line: &str) -> io::Result<()> {
    match word(line, 1) {
        "note" => {
            let content = word(line, 4).as_bytes();
            show(rt, line, &files.note(file, number(line, 3), content))
        }
        "forget" => show(rt, line, &files.forget(file)),
        "state" => show(rt, line, &files.state(file)),
        "read" => show_range(rt, files, file, line),
        _ => show(rt, line, &"no such call"),
    }
}

// Makes a call on the file that a line names, in whose name `^` stands for a NUL byte.
fn call_by_name(rt: &HostRuntime, files: &mut FileTable, line: &str) -> anyhow::Result<()> {
    let shown = match FileName::new(bytes_of(rt.alloc(), word(line, 2))?) {
        Ok(file) => call_on(rt, files, &file, line),
        Err(fault) => show(rt, line, &fault),
    };
    Ok(shown?)
}

/// Makes a call on a table of files.
pub fn call(rt: &HostRuntime, files: &mut FileTable, line: &str) -> anyhow::Result<()> {
    match word(line, 1) {
        "new" => {
            *files = FileTable::new(rt.alloc())?;
            Ok(())
        }
        "fill" => {
            let taken = fill(rt.alloc(), files, short_number(line, 2))?;
            Ok(show(rt, line, &taken)?)
        }
        _ => call_by_name(rt, files, line),
    }
}
