//! The blobs whose own bytes stand in content, and where to look for them first.
ghost use Rattle.std.specs.Prelude.{◌≡◌, ℕ, ◌||◌, false, is_some, IfOk, OnOk};
ghost use Rattle.std.specs.List.{list_any};
ghost use Rattle.std.specs.Ordering.{nat_cmp};
ghost use Rattle.std.specs.BTreeMap as tree;
ghost use Rattle.blob_model.specs.Pieces.{Piece};
ghost use Rattle.history_notions.specs.Reach.{has_at, is_sent};

use crate::blobs::note;
use crate::builds::Build;
use crate::run::{Run, Source};
use blob_words::NoMemory;
use std::alloc::Global;
use std::collections::BTreeMap;

/// Notes whose own bytes the run has, with the first index that comes for a name.
fn note_run(run: &Run, index: usize, names: &mut BTreeMap<u128, usize>) -> Result<(), NoMemory>
    ensures { OnOk result ((name : ℕ) → is_some (tree.get nat_cmp names.new name)
        ≡ (is_some (tree.get nat_cmp names.old name) || is_sent name run.now)) }
{
    match run.source {
        Source::Sent(blob) => note(names, blob, index),
        _ => Ok(()),
    }
}

/// Notes whose own bytes the runs have.
fn note_runs(runs: &[Run], index: usize, names: &mut BTreeMap<u128, usize>) -> Result<(), NoMemory>
    ensures { OnOk result ((name : ℕ) → is_some (tree.get nat_cmp names.new name)
        ≡ (is_some (tree.get nat_cmp names.old name) || list_any (is_sent name) runs.now)) }
{
    for run in runs {
        note_run(run, index, names)?;
    }
    Ok(())
}

/// Notes whose own bytes the blob at the place has.
fn note_at(
    builds: &[Build],
    place: usize,
    index: usize,
    names: &mut BTreeMap<u128, usize>,
) -> Result<(), NoMemory>
    ensures { OnOk result ((piece : Piece) → is_some (tree.get nat_cmp names.new piece.blob) ≡ false
        → (is_some (tree.get nat_cmp names.old piece.blob) ≡ false)
        × (has_at builds.now piece place ≡ false)) }
{
    match builds.get(place) {
        Some(build) => note_runs(build.runs.as_slice(), index, names),
        None => Ok(()),
    }
}

/// The names of blobs, all of those among them whose own bytes the blobs at these places have. Each
/// has the index of the first of the places where they stand.
pub fn senders(
    alloc: Global,
    builds: &[Build],
    places: &[usize],
) -> Result<BTreeMap<u128, usize>, NoMemory>
    ensures { IfOk result (λ names. (piece : Piece)
        → is_some (tree.get nat_cmp names piece.blob) ≡ false
        → list_any (has_at builds.now piece) places.now ≡ false) }
{
    let mut names = BTreeMap::new(alloc);
    for index in 0..places.len() {
        note_at(builds, places[index], index, &mut names)?;
    }
    Ok(names)
}
