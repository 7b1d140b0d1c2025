//! What a disk did, in words.
use crate::shown::show_part;
use page_disk::Change;
use std::io;

// The longest page whose bytes are shown, and the most changes that are named.
const MOST_SHOWN: usize = 64;

// The FNV-1a hash of bytes, of 64 bits.
fn hash(bytes: &[u8]) -> u64 {
    let mut hash = 0xcbf2_9ce4_8422_2325u64;
    for byte in bytes {
        hash = (hash ^ u64::from(*byte)).wrapping_mul(0x100_0000_01b3);
    }
    hash
}

// Shows a page that was put.
fn show_put(rt: &HostRuntime, page: u32, bytes: &[u8]) -> io::Result<()> {
    if bytes.len() > MOST_SHOWN {
        return show_part(rt, "put", &(page, bytes.len(), hash(bytes)));
    }
    show_part(rt, "put", &(page, bytes))
}

// How many changes of each kind there are: put, torn, removed and left.
fn counts(changes: &[Change]) -> [u32; 4] {
    let (mut put, mut torn, mut removed, mut left) = (0u32, 0u32, 0u32, 0u32);
    for change in changes {
        match change {
            Change::Put(_, _) => put = put.saturating_add(1),
            Change::Torn(_) => torn = torn.saturating_add(1),
            Change::Remove(_) => removed = removed.saturating_add(1),
            Change::Left(_) => left = left.saturating_add(1),
        }
    }
    [put, torn, removed, left]
}

/// Shows what a disk did, a line for each change, the last thing last; of very many changes, how
/// many were put, torn, removed and left. A page of very many bytes is shown by their count and
/// their hash.
pub fn show_changes(rt: &HostRuntime, changes: &[Change]) -> io::Result<()> {
    if changes.len() > MOST_SHOWN {
        return show_part(rt, "changes", &counts(changes));
    }
    for change in changes {
        match change {
            Change::Put(page, bytes) => show_put(rt, page.0, bytes.as_slice())?,
            Change::Torn(page) => show_part(rt, "torn", &page.0)?,
            Change::Remove(page) => show_part(rt, "removed", &page.0)?,
            Change::Left(page) => show_part(rt, "left", &page.0)?,
        }
    }
    Ok(())
}
