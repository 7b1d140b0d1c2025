//! Bytes that are reserved, and reserved no more.
use case_lines::{show, show_part};
use page_files::PageFiles;

/// Reserves the whole of a limit, gives a part of it back and reserves that again, and gives back
/// the whole. Shows what is charged at its most and in the end, and how many pages hold a piece.
pub fn show_limit(rt: &HostRuntime, line: &str, limit: u64, part: u64) -> anyhow::Result<()> {
    if part > limit {
        show(rt, line, &"no such part")?;
        return Ok(());
    }
    let mut files = PageFiles::new(rt.alloc(), limit)?;
    files.reserve(limit);
    let whole = files.charged();
    files.unreserve(part);
    let less = files.charged();
    files.reserve(part);
    files.unreserve(limit);
    show_part(rt, "charged", &(whole, less, files.charged()))?;
    show_part(rt, "files", &files.files())?;
    Ok(())
}
