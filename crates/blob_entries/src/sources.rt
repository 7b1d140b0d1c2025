ghost use Rattle.std.specs.Prelude.{◌≡◌, ◌++◌, false, true, IfOk, OnOk};
ghost use Rattle.std.specs.List.{list_any};
ghost use Rattle.blob_entries.specs.Book.{entry_at, is_broken_at, is_done_at};
ghost use Rattle.blob_entries.specs.Contents.{is_own};
ghost use Rattle.blob_entries.specs.Endings.{ending_at, is_complete, is_granted_status, misses};
ghost use Rattle.blob_entries.specs.Sources.{each_source, some_source, source_passes, sources_of};
ghost use Rattle.blob_entries.specs.Sources.{step_source, step_sources};

use crate::entry::Entry;
use crate::lookup::entry_at;
use crate::name_index::NameIndex;
use crate::status::{is_broken, is_done, is_pending};
use crate::step::Step;
use blob_words::{NoMemory, Octets64, Status};
use std::alloc::Global;

// The build number of the source of a step.
pub fn step_source(names: &NameIndex, step: &Step) -> Option<usize>
    ensures { result ≡ step_source names.now step.now }
{
    match step {
        Step::Own(_, _) => None,
        Step::Fixed(_) => None,
        Step::Source(name, _, _) => names.find(*name),
    }
}

// Whether something broken stands there.
fn is_broken_at(entries: &[Option<Entry>], number: usize) -> bool
    ensures { result ≡ is_broken_at entries.now number }
{
    match entry_at(entries, number) {
        Some(entry) => is_broken(entry.status),
        None => false,
    }
}

// Whether something done stands there.
fn is_done_at(entries: &[Option<Entry>], number: usize) -> bool
    ensures { result ≡ is_done_at entries.now number }
{
    match entry_at(entries, number) {
        Some(entry) => is_done(entry.status),
        None => false,
    }
}

fn is_source_broken(names: &NameIndex, entries: &[Option<Entry>], step: &Step) -> bool
    ensures { result ≡ source_passes names.now (is_broken_at entries.now) false step.now }
{
    match step_source(names, step) {
        Some(number) => is_broken_at(entries, number),
        None => false,
    }
}

fn has_broken_source(names: &NameIndex, entries: &[Option<Entry>], steps: &[Step]) -> bool
    ensures { result ≡ some_source names.now (is_broken_at entries.now) steps.now }
{
    steps
        .iter()
        .any(|step| is_source_broken(names, entries, step))
}

fn is_source_done(names: &NameIndex, entries: &[Option<Entry>], step: &Step) -> bool
    ensures { result ≡ source_passes names.now (is_done_at entries.now) true step.now }
{
    match step_source(names, step) {
        Some(number) => is_done_at(entries, number),
        None => true,
    }
}

fn are_sources_done(names: &NameIndex, entries: &[Option<Entry>], steps: &[Step]) -> bool
    ensures { result ≡ each_source names.now (is_done_at entries.now) steps.now }
{
    steps
        .iter()
        .all(|step| is_source_done(names, entries, step))
}

// Whether a step is a piece of its own.
fn is_own(step: &Step) -> bool
    ensures { result ≡ is_own step.now }
{
    matches!(step, Step::Own(_, _))
}

fn has_own(steps: &[Step]) -> bool
    ensures { result ≡ list_any is_own steps.now }
{
    steps.iter().any(|step| is_own(step))
}

// Whether a piece of its own has not come.
fn misses(entry: &Entry) -> bool
    ensures { result ≡ misses entry.now }
{
    entry.own.is_none() && has_own(entry.recipe.as_slice())
}

fn is_granted_status(status: Status) -> bool
    ensures { result ≡ is_granted_status status }
{
    !matches!(status, Status::PendingQuota)
}

fn is_complete(names: &NameIndex, entries: &[Option<Entry>], entry: &Entry) -> bool
    ensures { result ≡ is_complete names.now entries.now entry.now }
{
    if !is_granted_status(entry.status) {
        return false;
    }
    if misses(entry) {
        return false;
    }
    are_sources_done(names, entries, entry.recipe.as_slice())
}

// With what an unfinished entry ends now, if it does.
pub fn ending(names: &NameIndex, entries: &[Option<Entry>], number: usize) -> Option<Status>
    ensures { result ≡ ending_at names.now entries.now (entry_at entries.now number) }
{
    let entry = entry_at(entries, number)?;
    if !is_pending(entry.status) {
        return None;
    }
    if let Some(why) = entry.mark {
        return Some(why);
    }
    if has_broken_source(names, entries, entry.recipe.as_slice()) {
        return Some(Status::ReferencedBlobBroken);
    }
    if is_complete(names, entries, entry) {
        return Some(Status::Done);
    }
    None
}

// Puts the build number of the source of a step, if it has one.
fn put_source(names: &NameIndex, out: &mut Octets64, step: &Step) -> Result<(), NoMemory>
    ensures { OnOk result (out.new ≡ out.old ++ step_sources names.now step.now) }
{
    match step_source(names, step) {
        Some(source) => out.push(source as u64),
        None => Ok(()),
    }
}

// The build numbers of the sources of steps, in order.
pub fn sources_of(alloc: Global, names: &NameIndex, steps: &[Step]) -> Result<Octets64, NoMemory>
    ensures { IfOk result (λ out. out ≡ sources_of names.now steps.now) }
{
    let mut out = Octets64::new(alloc);
    for step in steps {
        put_source(names, &mut out, step)?;
    }
    Ok(out)
}
