ghost use Rattle.std.specs.Prelude.{◌≡◌, ◌<◌, [], ◌∷◌, ◌++◌, false, if◌then◌else◌, length, replicate, set, true, IfOk, OnOk};
ghost use Rattle.std.specs.Option.{option_to_list};
ghost use Rattle.blob_entries.specs.Standing.{name_under};
ghost use Rattle.store_reach.specs.Lives.{live, AreLive, MarksSources, Weighs};

use blob_entries::Step;
use blob_entries::status::is_pending;
use blob_registry::Registry;
use blob_words::{BlobName, NoMemory};
use std::alloc::{AllocError, Global};

// No mark.
fn none_marked(alloc: Global, count: usize) -> Result<Vec<bool>, AllocError>
    ensures { IfOk result (λ marks. marks.items ≡ replicate count false) }
{
    vec![in alloc; false; count]
}

fn mark(marks: &mut Vec<bool>, place: usize)
    ensures { marks.new.items ≡ set marks.old.items place true }
{
    if place < marks.len() {
        marks[place] = true;
    }
}

fn mark_source(registry: &Registry, step: &Step, marks: &mut Vec<bool>)
    ensures { MarksSources registry.now.names (step.now ∷ []) marks.old.items marks.new.items }
{
    let Step::Source(name, _, _) = step else {
        return;
    };
    if let Some(number) = registry.number_of(*name) {
        mark(marks, number as usize);
    }
}

fn mark_sources(registry: &Registry, steps: &[Step], marks: &mut Vec<bool>)
    ensures { MarksSources registry.now.names steps.now marks.old.items marks.new.items }
{
    for step in steps {
        mark_source(registry, step, marks);
    }
}

// Marks what stands under a number where it is rooted or was marked, and the sources of an
// unfinished one.
fn weigh(registry: &Registry, number: u32, marks: &mut Vec<bool>)
    requires { number < length marks.old.items }
    ensures { Weighs registry.now number marks.old.items marks.new.items }
{
    let place = number as usize;
    let Some(entry) = registry.entry_under(number) else {
        marks[place] = false;
        return;
    };
    if entry.roots == 0 && !marks[place] {
        return;
    }
    marks[place] = true;
    if is_pending(entry.status) {
        mark_sources(registry, entry.recipe.as_slice(), marks);
    }
}

// A mark for each build number under which a live entry stands.
fn live_marks(alloc: Global, registry: &Registry) -> Result<Vec<bool>, NoMemory>
    ensures { IfOk result (λ marks. AreLive registry.now marks.items) }
{
    let count = registry.registered();
    let mut marks = none_marked(alloc, count as usize)?;
    // sources have lesser numbers
    for round in 0..count {
        weigh(registry, count - 1 - round, &mut marks);
    }
    Ok(marks)
}

// Puts the name under a number at the end of a list, where it lives.
fn put_live(
    registry: &Registry,
    number: u32,
    lives: bool,
    list: &mut Vec<BlobName>,
) -> Result<(), NoMemory>
    ensures { OnOk result (list.new.items ≡ list.old.items
        ++ (if lives then option_to_list (name_under registry.now number) else [])) }
{
    if !lives {
        return Ok(());
    }
    if let Some(name) = registry.name_under(number) {
        list.push(name)?;
    }
    Ok(())
}

/// The names of the live blobs, in order of build: the least set that has every rooted blob and
/// every source of an unfinished one in it.
pub fn live_names(alloc: Global, registry: &Registry) -> Result<Vec<BlobName>, NoMemory>
    ensures { IfOk result (λ list. list.items ≡ live registry.now) }
{
    let marks = live_marks(alloc, registry)?;
    let mut list = Vec::new(alloc);
    for number in 0..registry.registered() {
        put_live(registry, number, marks[number as usize], &mut list)?;
    }
    Ok(list)
}
