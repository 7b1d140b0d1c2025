//! Calls on paths.
use crate::shown::show;
use crate::words::word;
use std::{fs, io};

// The length of what stands at a path, where there is something.
fn len(rt: &HostRuntime, path: &str) -> io::Result<u64> {
    let there = fs::metadata(rt, path)?;
    Ok(there.len())
}

/// Makes the call of a line on the path that it names: `write`, `read`, `len`, `remove` of a file,
/// or `remove_folder`.
pub fn call_path(rt: &HostRuntime, line: &str) -> io::Result<()> {
    let path = word(line, 2);
    match word(line, 1) {
        "write" => show(rt, line, &fs::write(rt, path, word(line, 3)).is_ok()),
        "read" => show(rt, line, &fs::read_to_string(rt, path)?.as_str()),
        "len" => show(rt, line, &len(rt, path).ok()),
        "remove" => show(rt, line, &fs::remove_file(rt, path).is_ok()),
        "remove_folder" => show(rt, line, &fs::remove_dir(rt, path).is_ok()),
        _ => show(rt, line, &"no such call"),
    }
}
