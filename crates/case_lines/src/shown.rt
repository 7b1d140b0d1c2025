//! How an answer is shown.
use std::fmt::Debug;
use std::io;

/// Writes a line with its answer.
pub fn show<T: Debug>(rt: &HostRuntime, line: &str, answer: &T) -> io::Result<()> {
    println!(rt; "{line}: {answer:?}")
}

/// Writes a part of what a line shows, in a line below it.
pub fn show_part<T: Debug>(rt: &HostRuntime, name: &str, part: &T) -> io::Result<()> {
    println!(rt; "  {name} {part:?}")
}

/// Writes a line with what was read, as a text.
pub fn show_read<E: Debug>(
    rt: &HostRuntime,
    line: &str,
    answer: &Result<(), E>,
    bytes: &[u8],
) -> io::Result<()> {
    if answer.is_ok() {
        return show(rt, line, &str::from_utf8(bytes));
    }
    show(rt, line, answer)
}
