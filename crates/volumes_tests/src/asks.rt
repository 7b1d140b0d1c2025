//! Questions on what a disk did.
ghost use Rattle.std.specs.Prelude.{◌≡◌};
ghost use Rattle.std.specs.List.{list_any};
ghost use Rattle.page_disk.specs.Changes.{removes, writes};

use page_disk::Change;

// Whether a change is a write of the page, good or not.
fn writes(change: &Change, page: u32) -> bool
    ensures { result ≡ writes page change.now }
{
    match change {
        Change::Put(one, _) => page == one.0,
        Change::Torn(one) => page == one.0,
        Change::Remove(_) => false,
        Change::Left(_) => false,
    }
}

// Whether a change is a removal of the page, good or not.
fn removes(change: &Change, page: u32) -> bool
    ensures { result ≡ removes page change.now }
{
    match change {
        Change::Put(_, _) => false,
        Change::Torn(_) => false,
        Change::Remove(one) => page == one.0,
        Change::Left(one) => page == one.0,
    }
}

/// Whether the page was written, whole or not.
pub fn was_written(changes: &[Change], page: u32) -> bool
    ensures { result ≡ list_any (writes page) changes.now }
{
    changes.iter().any(|change| writes(change, page))
}

/// Whether its removal was asked for.
pub fn was_asked(changes: &[Change], page: u32) -> bool
    ensures { result ≡ list_any (removes page) changes.now }
{
    changes.iter().any(|change| removes(change, page))
}
