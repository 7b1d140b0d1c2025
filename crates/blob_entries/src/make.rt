ghost use Rattle.std.specs.Prelude.{ℕ, ◌≡◌, ◌+◌, ◌-◌, ◌^◌, ◌<◌, ◌≤◌, ◌++◌, [], drop, length, min};
ghost use Rattle.std.specs.Prelude.{sum_by, take, unwrap_or, IfOk, IfSome, IsSomeAnd, OnOk};
ghost use Rattle.std.specs.List.{AllByRecursion};
ghost use Rattle.std.specs.Option.{option_copied};
ghost use Rattle.blob_items.specs.Cells.{total};
ghost use Rattle.blob_entries.specs.Book.{entry_at};
ghost use Rattle.blob_entries.specs.Contents.{source_at, source_views, step_len};
ghost use Rattle.blob_entries.specs.Counts.{count_at, views_on};
ghost use Rattle.blob_entries.specs.Holdings.{own_views, views_in};
ghost use Rattle.blob_entries.specs.Making.{CanMake, HasRoomFor, IsCut, IsInside, IsMade};
ghost use Rattle.blob_entries.specs.Making.{IsNextOwn, Puts, PutsCut};
ghost use Rattle.blob_entries.specs.Sound.{AreOwn};
ghost use Rattle.blob_entries.specs.Weights.{cut_most};

use crate::counts::share_all;
use crate::entry::Entry;
use crate::held::own_slice;
use crate::lookup::entry_at;
use crate::name_index::NameIndex;
use crate::step::Step;
use blob_items::{View, ViewList};
use blob_words::{BlobName, NoMemory};
use item_shares::Shares;
use std::alloc::Global;

// The entry of a source.
fn source<'a>(names: &NameIndex, entries: &'a [Option<Entry>], name: BlobName) -> Option<&'a Entry>
    ensures { option_copied result ≡ source_at names.now entries.now name }
{
    let number = names.find(name)?;
    entry_at(entries, number)
}

// A range of the bytes of a source.
fn cut_source(
    alloc: Global,
    names: &NameIndex,
    entries: &[Option<Entry>],
    name: BlobName,
    off: u64,
    len: u64,
) -> Result<ViewList, NoMemory>
    requires { off + len ≤ total (source_views names.now entries.now name) }
    ensures { IfOk result (λ list. IsCut (source_views names.now entries.now name) off len list) }
{
    match source(names, entries, name) {
        Some(entry) => entry.views.cut(off, len),
        None => Ok(ViewList::new(alloc)),
    }
}

// Puts the views of a source at the end.
fn put_source(
    alloc: Global,
    names: &NameIndex,
    entries: &[Option<Entry>],
    name: BlobName,
    off: u64,
    len: u64,
    views: &mut ViewList,
    shares: &mut Shares,
) -> Result<(), NoMemory>
    requires inside { off + len ≤ total (source_views names.now entries.now name) }
    requires fits { total views.old + len ≤ 2 ^ 64 - 1 }
    requires room { (slot : ℕ) → 0 < views_on slot (source_views names.now entries.now name)
        → (0 < count_at shares.old slot)
        × (count_at shares.old slot
        + min len (length (source_views names.now entries.now name)) ≤ 2 ^ 32) }
    ensures { OnOk result (PutsCut (source_views names.now entries.now name) off len
        views.old views.new shares.old shares.new) }
{
    let cut = cut_source(alloc, names, entries, name, off, len)?;
    views.append(&cut)?;
    share_all(shares, cut.as_slice());
    Ok(())
}

// Puts the views of a step at the end, and answers how many of the own views it took.
fn put_step(
    alloc: Global,
    names: &NameIndex,
    entries: &[Option<Entry>],
    step: &Step,
    own: &[View],
    views: &mut ViewList,
    shares: &mut Shares,
) -> Result<usize, NoMemory>
    requires inside { IsInside names.now entries.now step.now }
    requires own { IsNextOwn step.now own.now }
    requires fits { total views.old + step_len step.now ≤ 2 ^ 64 - 1 }
    requires room { HasRoomFor names.now entries.now shares.old step.now }
    ensures { IfOk result (λ taken. Puts names.now entries.now step.now own.now taken
        views.old views.new shares.old shares.new) }
{
    match step {
        Step::Own(_, _) => {
            views.push(own[0])?;
            Ok(1)
        }
        Step::Fixed(view) => {
            views.push(*view)?;
            Ok(0)
        }
        Step::Source(name, off, len) => {
            put_source(alloc, names, entries, *name, *off, *len, views, shares)?;
            Ok(0)
        }
    }
}

// The views that the steps give, each counted.
pub fn make(
    alloc: Global,
    names: &NameIndex,
    entries: &[Option<Entry>],
    steps: &[Step],
    own: &[View],
    shares: &mut Shares,
) -> Result<ViewList, NoMemory>
    requires inside { AllByRecursion (IsInside names.now entries.now) steps.now }
    requires own { AreOwn steps.now own.now }
    requires fits { sum_by step_len steps.now ≤ 2 ^ 64 - 1 }
    requires room { (slot : ℕ) → 0 < views_in entries.now slot → (0 < count_at shares.old slot)
        × (count_at shares.old slot + cut_most names.now entries.now steps.now ≤ 2 ^ 32) }
    ensures { IfOk result (λ views. IsMade names.now entries.now steps.now own.now shares.old
        [] [] views shares.new) }
{
    let mut views = ViewList::new(alloc);
    let mut left = own;
    for step in steps {
        let taken = put_step(alloc, names, entries, step, left, &mut views, shares)?;
        let (_, after) = left.split_at(taken);
        left = after;
    }
    Ok(views)
}

// The views of an entry for which all has come.
pub fn make_at(
    alloc: Global,
    names: &NameIndex,
    entries: &Vec<Option<Entry>>,
    number: usize,
    shares: &mut Shares,
) -> Result<ViewList, NoMemory>
    requires { IsSomeAnd (entry_at entries.now.items number)
        (CanMake names.now entries.now.items shares.old) }
    ensures { IfOk result (λ views. IfSome (entry_at entries.now.items number) (λ entry.
        IsMade names.now entries.now.items entry.recipe
        (own_views entry.own) shares.old [] [] views shares.new)) }
{
    let Some(entry) = entry_at(entries.as_slice(), number) else {
        return Ok(ViewList::new(alloc));
    };
    make(
        alloc,
        names,
        entries.as_slice(),
        entry.recipe.as_slice(),
        own_slice(entry),
        shares,
    )
}
