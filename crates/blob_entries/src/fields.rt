ghost use Rattle.std.specs.Prelude.{◌≡◌, ◌<◌, None, length, set, IsSome};
ghost use Rattle.std.specs.Option.{option_map};
ghost use Rattle.blob_entries.specs.Book.{entry_at};
ghost use Rattle.blob_entries.specs.Changes.{done_with, first_mark, with_bytes, with_mark};
ghost use Rattle.blob_entries.specs.Changes.{with_roots, with_status};
ghost use Rattle.blob_entries.specs.Leaving.{shed};

use crate::entry::Entry;
use crate::status::is_broken;
use crate::step::Recipe;
use blob_items::ViewList;
use blob_words::Status;
use std::alloc::Global;

// Says how many hold an entry.
pub fn set_roots(entries: &mut Vec<Option<Entry>>, number: usize, roots: u64)
    requires { IsSome (entry_at entries.old.items number) }
    ensures { entries.new.items ≡ set entries.old.items number
        (option_map (with_roots roots) (entry_at entries.old.items number)) }
{
    if let Some(entry) = &mut entries[number] {
        entry.roots = roots;
    }
}

// Of two marks a failed write goes before.
fn first_mark(before: Option<Status>, why: Status) -> Status
    ensures { result ≡ first_mark before why }
{
    match before {
        Some(Status::FileWriteFailed) => Status::FileWriteFailed,
        _ => why,
    }
}

// Says with what an entry is to break.
pub fn set_mark(entries: &mut Vec<Option<Entry>>, number: usize, why: Status)
    requires { IsSome (entry_at entries.old.items number) }
    ensures { entries.new.items ≡ set entries.old.items number
        (option_map (with_mark why) (entry_at entries.old.items number)) }
{
    if let Some(entry) = &mut entries[number] {
        entry.mark = Some(first_mark(entry.mark, why));
    }
}

// Says how an entry stands.
pub fn set_status(entries: &mut Vec<Option<Entry>>, number: usize, status: Status)
    requires { IsSome (entry_at entries.old.items number) }
    ensures { entries.new.items ≡ set entries.old.items number
        (option_map (with_status status) (entry_at entries.old.items number)) }
{
    if let Some(entry) = &mut entries[number] {
        entry.status = status;
    }
}

// Gives an entry the views of its own pieces, which have all come.
pub fn set_bytes(entries: &mut Vec<Option<Entry>>, number: usize, own: ViewList)
    requires { IsSome (entry_at entries.old.items number) }
    ensures { entries.new.items ≡ set entries.old.items number
        (option_map (with_bytes own) (entry_at entries.old.items number)) }
{
    if let Some(entry) = &mut entries[number] {
        entry.status = Status::PendingReferencedBlobs;
        entry.own = Some(own);
    }
}

// Gives an entry its bytes.
pub fn set_done(alloc: Global, entries: &mut Vec<Option<Entry>>, number: usize, views: ViewList)
    requires { IsSome (entry_at entries.old.items number) }
    ensures { entries.new.items ≡ set entries.old.items number
        (option_map (done_with views) (entry_at entries.old.items number)) }
{
    if let Some(entry) = &mut entries[number] {
        entry.status = Status::Done;
        entry.recipe = Recipe::new(alloc);
        entry.own = None;
        entry.views = views;
    }
}

// Takes an entry away.
pub fn clear(entries: &mut Vec<Option<Entry>>, number: usize)
    requires { number < length entries.old.items }
    ensures { entries.new.items ≡ set entries.old.items number None }
{
    entries[number] = None;
}

// Lets a broken entry have no views.
fn shed(alloc: Global, entry: &mut Entry)
    ensures { entry.new ≡ shed entry.old }
{
    if is_broken(entry.status) {
        entry.recipe = Recipe::new(alloc);
        entry.own = None;
        entry.views = ViewList::new(alloc);
    }
}

// Lets an entry have no views, where it is broken.
pub fn shed_at(alloc: Global, entries: &mut Vec<Option<Entry>>, number: usize)
    requires { number < length entries.old.items }
    ensures { entries.new.items ≡ set entries.old.items number
        (option_map shed (entry_at entries.old.items number)) }
{
    if let Some(entry) = &mut entries[number] {
        shed(alloc, entry);
    }
}
