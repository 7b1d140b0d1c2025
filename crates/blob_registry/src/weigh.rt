ghost use Rattle.std.specs.Prelude.{◌≡◌, ◌<◌, ◌++◌, [], length, slice_index, OnErr, OnOk};
ghost use Rattle.blob_entries.specs.Book.{entry_at};
ghost use Rattle.blob_entries.specs.Counted.{AreCounted};
ghost use Rattle.blob_entries.specs.Leaving.{gone_name, lives_at};
ghost use Rattle.blob_entries.specs.Sound.{AreSound};
ghost use Rattle.blob_registry.specs.Sweeps.{Sweeping};
ghost use Rattle.blob_registry.specs.Work.{AreKept, Weighed};

use crate::lists::turned;
use crate::swept::Names;
use crate::work::{Work, list_at};
use blob_entries::{Items, Table};
use blob_words::NoMemory;
use blob_words::bounds::MOST_BLOBS;
use item_shares::Shares;

// Whether what stands there is rooted or needed.
fn lives_at(table: &Table, work: &Work, number: usize) -> bool
    requires kept { AreKept table.now work.now }
    requires inside { number < length table.now.entries }
    ensures { result ≡ lives_at table.now number }
{
    table.roots_at(number) > 0 || list_at(&work.dependents, number).len() > 0
}

// Notes the name of an unfinished entry that goes.
fn note_gone(table: &Table, number: usize, lives: bool, names: &mut Names) -> Result<(), NoMemory>
    requires { number < length table.now.names }
    ensures { OnOk result (names.new ≡ names.old
        ++ gone_name lives (slice_index table.now.names number)
        (entry_at table.now.entries number)) }
{
    if lives {
        return Ok(());
    }
    if !table.is_unfinished(number) {
        return Ok(());
    }
    match table.name_at(number) {
        Some(name) => names.push(name),
        None => Ok(()),
    }
}

// Weighs an entry of the list, and takes it off: it is left as it is to be. Where it goes, the list
// gets its sources.
fn weigh(
    table: &mut Table,
    work: &mut Work,
    number: usize,
    shares: &mut Shares,
    names: &mut Names,
    freed: &mut Items,
) -> Result<(), NoMemory>
    requires inside { number < length table.old.names }
    requires kept { AreKept table.old work.old }
    requires sound { AreSound table.old.names table.old.entries }
    requires counted { AreCounted table.old.entries shares.old }
    ensures weighed { OnOk result (Weighed table.old table.new work.old work.new number
        names.old names.new shares.old shares.new freed.old freed.new) }
    ensures kept { AreKept table.new work.new }
    ensures counted { OnOk result (AreCounted table.new.entries shares.new) }
    ensures sound { AreSound table.new.names table.new.entries }
{
    let sources = table.sources_at(number)?;
    let lives = lives_at(table, work, number);
    note_gone(table, number, lives, names)?;
    table.leave_at(number, lives, shares, freed)?;
    work.weighed(number, lives, sources.as_slice());
    Ok(())
}

/// Weighs each entry of the list, the greatest build number first, and notes what goes.
pub fn weigh_all(
    table: &mut Table,
    work: &mut Work,
    shares: &mut Shares,
    names: &mut Names,
    freed: &mut Items,
) -> Result<(), NoMemory>
    requires no_names { names.old ≡ [] }
    requires no_items { freed.old ≡ [] }
    requires kept { AreKept table.old work.old }
    requires counted { AreCounted table.old.entries shares.old }
    ensures swept { OnOk result
        (Sweeping table.old table.new names.new shares.old shares.new freed.new) }
    ensures kept { AreKept table.new work.new }
    ensures counted { OnOk result (AreCounted table.new.entries shares.new) }
{
    let count = table.len();
    // each round takes a lesser number
    for _round in 0..count {
        let Some(place) = work.weighs.first(0) else {
            return Ok(());
        };
        weigh(table, work, MOST_BLOBS - 1 - place, shares, names, freed)?;
    }
    Ok(())
}
