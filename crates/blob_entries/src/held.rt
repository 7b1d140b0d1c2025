ghost use Rattle.std.specs.Prelude.{◌≡◌, ◌++◌, IfOk, OnOk};
ghost use Rattle.blob_entries.specs.Book.{entry_at};
ghost use Rattle.blob_entries.specs.Holdings.{fixed_views, held_views, own_views, step_views};
ghost use Rattle.blob_entries.specs.Leaving.{gone_views};

use crate::entry::Entry;
use crate::lookup::entry_at;
use crate::status::is_broken;
use crate::step::Step;
use blob_items::View;
use blob_words::NoMemory;
use std::alloc::Global;

// Puts the view that a step has already, if it has one.
fn put_fixed(out: &mut Vec<View>, step: &Step) -> Result<(), NoMemory>
    ensures { OnOk result (out.new.items ≡ out.old.items ++ step_views step.now) }
{
    match step {
        Step::Own(_, _) => Ok(()),
        Step::Fixed(view) => {
            out.push(*view)?;
            Ok(())
        }
        Step::Source(_, _, _) => Ok(()),
    }
}

// The views that steps have already.
fn fixed(alloc: Global, steps: &[Step]) -> Result<Vec<View>, NoMemory>
    ensures { IfOk result (λ out. out.items ≡ fixed_views steps.now) }
{
    let mut out = Vec::new(alloc);
    for step in steps {
        put_fixed(&mut out, step)?;
    }
    Ok(out)
}

// The views that an entry has.
fn held(alloc: Global, entry: &Entry) -> Result<Vec<View>, NoMemory>
    ensures { IfOk result (λ out. out.items ≡ held_views entry.now) }
{
    let mut out = fixed(alloc, entry.recipe.as_slice())?;
    out.extend_from_slice(own_slice(entry))?;
    out.extend_from_slice(entry.views.as_slice())?;
    Ok(out)
}

/// The views that go with what stands under a build number: all of an entry that doesn't live or
/// is broken.
pub fn gone(
    alloc: Global,
    entries: &Vec<Option<Entry>>,
    number: usize,
    lives: bool,
) -> Result<Vec<View>, NoMemory>
    ensures { IfOk result
        (λ out. out.items ≡ gone_views lives (entry_at entries.now.items number)) }
{
    let Some(entry) = entry_at(entries.as_slice(), number) else {
        return Ok(Vec::new(alloc));
    };
    if lives && !is_broken(entry.status) {
        return Ok(Vec::new(alloc));
    }
    held(alloc, entry)
}

/// The views of the own pieces of an entry, where they were brought.
pub fn own_slice(entry: &Entry) -> &[View]
    ensures { result.now ≡ own_views entry.now.own }
{
    match &entry.own {
        Some(own) => own.as_slice(),
        None => &[],
    }
}
