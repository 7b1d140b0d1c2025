//! Calls on an object over memory, and on one over a file.
use blob_words::Octets;
use case_lines::{number, numbers, short_number, show, show_read, word};
use data_handles::{DataHandle, FileHandle, MemoryHandle};
use std::alloc::Global;
use std::io;

/// An object over the bytes of a text, whose reads of the numbers in `failing` fail.
pub fn new_object(alloc: Global, text: &str, failing: &str) -> anyhow::Result<MemoryHandle> {
    let bytes = Octets::from_slice(alloc, text.as_bytes())?;
    Ok(MemoryHandle::new(bytes, numbers(alloc, failing)?))
}

// Reads where the object has the range.
fn show_bytes<H: DataHandle>(rt: &HostRuntime, object: &mut H, line: &str) -> io::Result<()> {
    let off = number(line, 2);
    let mut out = [0u8; 64];
    let (bytes, _) = out.split_at_mut(short_number(line, 3).min(64) as usize);
    let size = object.size();
    if size < off || size - off < bytes.len() as u64 {
        return show(rt, line, &"no such range");
    }
    let answer = object.read(off, bytes);
    show_read(rt, line, &answer, bytes)
}

// Makes a call on an object, with an offset and a count of bytes.
fn call<H: DataHandle>(rt: &HostRuntime, object: &mut H, line: &str) -> io::Result<()> {
    match word(line, 1) {
        "read" => show_bytes(rt, object, line),
        "size" => show(rt, line, &object.size()),
        "faults" => show(rt, line, &object.faults()),
        _ => show(rt, line, &"no such call"),
    }
}

/// Makes a call on an object over memory. `new` takes a new one, of a text and the reads that fail.
pub fn call_memory(rt: &HostRuntime, object: &mut MemoryHandle, line: &str) -> anyhow::Result<()> {
    if word(line, 1) == "new" {
        *object = new_object(rt.alloc(), word(line, 2), word(line, 3))?;
        return Ok(());
    }
    Ok(call(rt, object, line)?)
}

// Opens an object over the file at a path.
fn open(rt: &HostRuntime, object: &mut Option<FileHandle>, line: &str) -> io::Result<()> {
    match FileHandle::open(rt, word(line, 2)) {
        Ok(handle) => {
            *object = Some(handle);
            Ok(())
        }
        Err(fault) => show(rt, line, &fault),
    }
}

/// Makes a call on an object over a file, once one is opened.
pub fn call_file(rt: &HostRuntime, object: &mut Option<FileHandle>, line: &str) -> io::Result<()> {
    if word(line, 1) == "open" {
        return open(rt, object, line);
    }
    match object {
        Some(handle) => call(rt, handle, line),
        None => Ok(()),
    }
}
