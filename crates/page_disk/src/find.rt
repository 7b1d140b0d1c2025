ghost use Rattle.std.specs.Prelude.{◌≡◌, ◌+◌, ◌≤◌, drop, length, take};
ghost use Rattle.std.specs.Option.{option_copied};
ghost use Rattle.page_disk.specs.Changes.{last_put, put_by};

use crate::change::Change;
use blob_words::PageNo;

// The bytes that a change puts into the page.
fn put_by(change: &Change, page: PageNo) -> Option<&[u8]>
    ensures { option_copied result ≡ put_by page.0 change.now }
{
    match change {
        Change::Put(one, bytes) => {
            if page.0 == one.0 {
                return Some(bytes.as_slice());
            }
            None
        }
        Change::Torn(_) => None,
        Change::Remove(_) => None,
        Change::Left(_) => None,
    }
}

// The bytes last put into the page.
pub fn last_put(changes: &[Change], page: PageNo) -> Option<&[u8]>
    ensures { option_copied result ≡ last_put page.0 changes.now }
{
    let mut found = None;
    for change in changes {
        found = put_by(change, page).or(found);
    }
    found
}

// Fills `out` with the bytes from `off` on.
pub fn fill_from(bytes: &[u8], off: u64, out: &mut [u8])
    requires { off + length out.old ≤ length bytes.now }
    ensures { out.new ≡ take (length out.old) (drop off bytes.now) }
{
    let start = off as usize;
    out.copy_from_slice(&bytes[start..start + out.len()]);
}
