ghost use Rattle.std.specs.Prelude.{◌≡◌, ◌<◌, ◌++◌, [], length, OnOk};
ghost use Rattle.blob_entries.specs.Counted.{AreCounted, SameItems};
ghost use Rattle.blob_entries.specs.Sound.{AreSound};
ghost use Rattle.blob_entries.specs.Weights.{HasRoom, KeepsBounds};
ghost use Rattle.blob_registry.specs.Passes.{ending_list, Finishes};
ghost use Rattle.blob_registry.specs.Work.{AreKept, Looked};

use crate::ended_blob::{EndedBlob, Endings};
use crate::work::Work;
use blob_entries::Table;
use blob_words::{BlobName, NoMemory, Status};
use item_shares::Shares;

// Notes how an entry ended, if it did.
fn note(endings: &mut Endings, name: BlobName, end: Option<Status>) -> Result<(), NoMemory>
    ensures { OnOk result (endings.new ≡ endings.old ++ ending_list name end) }
{
    match end {
        Some(status) => endings.push(EndedBlob { name, status }),
        None => Ok(()),
    }
}

// Looks at an entry of the list, and takes it off. Where it ends, the list gets those who need it.
fn look(
    table: &mut Table,
    work: &mut Work,
    number: usize,
    shares: &mut Shares,
    endings: &mut Endings,
) -> Result<(), NoMemory>
    requires inside { number < length table.old.names }
    requires kept { AreKept table.old work.old }
    requires sound { AreSound table.old.names table.old.entries }
    requires counted { AreCounted table.old.entries shares.old }
    requires room { HasRoom table.old.names table.old.entries }
    ensures looked { OnOk result (Looked table.old table.new work.old work.new number
        endings.old endings.new) }
    ensures kept { AreKept table.new work.new }
    ensures counted { OnOk result (AreCounted table.new.entries shares.new) }
    ensures room { OnOk result (HasRoom table.new.names table.new.entries) }
    ensures bounds { OnOk result (KeepsBounds table.old table.new) }
    ensures items { OnOk result
        (SameItems table.old.entries table.new.entries shares.old shares.new) }
    ensures sound { AreSound table.new.names table.new.entries }
{
    let Some(name) = table.name_at(number) else {
        return Ok(());
    };
    let sources = table.sources_at(number)?;
    let end = table.finish_at(number, shares)?;
    work.looked(number, end.is_some(), sources.as_slice());
    note(endings, name, end)
}

/// Looks at each entry of the list, in order of build, and notes those that end.
pub fn look_all(
    table: &mut Table,
    work: &mut Work,
    shares: &mut Shares,
    endings: &mut Endings,
) -> Result<(), NoMemory>
    requires none { endings.old ≡ [] }
    requires kept { AreKept table.old work.old }
    requires counted { AreCounted table.old.entries shares.old }
    requires room { HasRoom table.old.names table.old.entries }
    ensures finishes { OnOk result (Finishes table.old table.new endings.new) }
    ensures kept { AreKept table.new work.new }
    ensures counted { OnOk result (AreCounted table.new.entries shares.new) }
    ensures room { OnOk result (HasRoom table.new.names table.new.entries) }
    ensures bounds { OnOk result (KeepsBounds table.old table.new) }
    ensures items { OnOk result
        (SameItems table.old.entries table.new.entries shares.old shares.new) }
{
    let count = table.len();
    // each round takes a greater number
    for round in 0..count {
        let Some(number) = work.looks.first(0) else {
            return Ok(());
        };
        if number >= count {
            return Ok(());
        }
        look(table, work, number, shares, endings)?;
    }
    Ok(())
}
