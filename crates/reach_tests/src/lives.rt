ghost use Rattle.std.specs.Prelude.{◌≡◌, []};
ghost use Rattle.blob_entries.specs.Book.{book_of};

use crate::blobs::{hold, name, put_broken, put_own, put_source};
use blob_registry::Registry;
use blob_words::{BlobName, PieceNo, Status};
use std::alloc::Global;
use std::test::Fail;
use store_reach::live_names;

// A source that one who is held needs, that one, one whom nobody holds, and a broken one with a
// root.
fn put_all(alloc: Global, registry: &mut Registry) -> Result<(), Fail>
    requires { registry.old ≡ book_of [] [] }
{
    put_source(alloc, registry)?;
    put_own(alloc, registry, 3, PieceNo(4), Status::PendingTransport)?;
    put_broken(alloc, registry, 4)?;
    hold(registry, 2);
    hold(registry, 4);
    Ok(())
}

// Whether the names are those of these blobs.
fn are_named(list: &[BlobName], expected: &[u32]) -> bool {
    if list.len() != expected.len() {
        return false;
    }
    for i in 0..list.len() {
        if list[i] != name(expected[i]) {
            return false;
        }
    }
    true
}

// Whether these blobs are live.
fn are_live(alloc: Global, expected: &[u32]) -> Result<bool, Fail> {
    let mut registry = Registry::new(alloc)?;
    put_all(alloc, &mut registry)?;
    let list = live_names(alloc, &registry)?;
    Ok(are_named(list.as_slice(), expected))
}

#[test]
fn blobs_with_a_root_and_their_sources_live(rt: HostRuntime) -> Result<(), Fail> {
    assert!(rt; are_live(rt.alloc(), &[1, 2, 4])?);
    Ok(())
}
