ghost use Rattle.std.specs.Prelude.{◌≡◌};
ghost use Rattle.std.specs.Option.{option_copied};
ghost use Rattle.blob_entries.specs.Book.{entry_at, is_unfinished};

use crate::entry::Entry;
use crate::status::is_pending;

/// What stands under a build number.
pub fn entry_at(entries: &[Option<Entry>], number: usize) -> Option<&Entry>
    ensures { option_copied result ≡ entry_at entries.now number }
{
    match entries.get(number) {
        Some(Some(entry)) => Some(entry),
        Some(None) => None,
        None => None,
    }
}

/// Whether something stands there that is still to end.
pub fn is_unfinished_at(entries: &[Option<Entry>], number: usize) -> bool
    ensures { result ≡ is_unfinished (entry_at entries.now number) }
{
    match entry_at(entries, number) {
        Some(entry) => is_pending(entry.status),
        None => false,
    }
}
