//! Which pieces are reached.
ghost use Rattle.std.specs.Prelude.{◌≡◌, ℕ, ◌+◌, ◌<◌, ◌≤◌, ◌^◌, filter, map, false, is_some, IfOk};
ghost use Rattle.std.specs.List.{list_any};
ghost use Rattle.std.specs.Ordering.{nat_cmp};
ghost use Rattle.std.specs.BTreeMap as tree;
ghost use Rattle.blob_model.specs.Session.{Session, page_limit};
ghost use Rattle.blob_model.specs.History.{History};
ghost use Rattle.blob_model.specs.Reached.{live_cells, reached};
ghost use Rattle.history_notions.specs.Follows.{Follows};
ghost use Rattle.history_notions.specs.Chosen.{items_at};
ghost use Rattle.history_notions.specs.Reach.{do_meet, has_run, has_cell, is_whole, has_at, has_grant, is_reached_in};

use crate::blobs::Blobs;
use crate::builds::Build;
use crate::contents::Contents;
use crate::pieces::Piece;
use crate::run::{Run, Source};
use crate::senders::senders;
use crate::standing::{Endings, Granted, is_granted};
use blob_words::{ItemList, NoMemory};
use std::alloc::Global;
use std::collections::BTreeMap;

/// Whether two ranges, each told by its first number and by how many it has, share a number.
fn do_meet(from: u128, len: u64, start: u64, count: u64) -> bool
    requires { from + len < 2 ^ 66 }
    ensures { result ≡ do_meet from len start count }
{
    let end = from + u128::from(len);
    let other_end = u128::from(start) + u128::from(count);
    from.max(u128::from(start)) < end.min(other_end)
}

/// Whether the run has an own byte of the piece.
fn has_run(piece: &Piece, run: &Run) -> bool
    ensures { result ≡ has_run piece.now run.now }
{
    match run.source {
        Source::Sent(blob) => {
            blob == piece.blob && do_meet(run.from, run.len, piece.from, piece.len)
        }
        _ => false,
    }
}

fn is_run_of(piece: &Piece, runs: &[Run]) -> bool
    ensures { result ≡ list_any (has_run piece.now) runs.now }
{
    runs.iter().any(|run| has_run(piece, run))
}

/// Whether the blob has a byte of the piece.
#[tactic(auto, using(crate::proofs::Reaching::owns_runs))]
fn has_cell(piece: &Piece, build: &Build) -> bool
    ensures { result ≡ has_cell piece.now build.now }
{
    is_run_of(piece, build.runs.as_slice())
}

fn has_at(builds: &[Build], piece: &Piece, place: usize) -> bool
    ensures { result ≡ has_at builds.now piece.now place }
{
    match builds.get(place) {
        Some(build) => has_cell(piece, build),
        None => false,
    }
}

fn has_some(builds: &[Build], places: &[usize], piece: &Piece) -> bool
    ensures { result ≡ list_any (has_at builds.now piece.now) places.now }
{
    places.iter().any(|place| has_at(builds, piece, *place))
}

fn is_whole(builds: &[Build], endings: &Endings, place: usize) -> bool
    ensures { result ≡ is_whole builds.now endings.now place }
{
    match builds.get(place) {
        Some(build) => !endings.is_broken(build.name),
        None => false,
    }
}

/// Whether the blob of the piece was granted.
fn has_grant(granted: &Granted, builds: &Blobs, piece: &Piece) -> bool
    ensures { result ≡ has_grant granted.now builds.now piece.now }
{
    match builds.find(piece.blob) {
        Some(build) => is_granted(granted, build.name, build.plan),
        None => false,
    }
}

/// Those of the places at which a blob that isn't broken stands.
fn whole_places(
    alloc: Global,
    builds: &[Build],
    endings: &Endings,
    places: &[usize],
) -> Result<ItemList<usize>, NoMemory>
    ensures { IfOk result (λ found. found
        ≡ filter (is_whole builds.now endings.now) places.now) }
{
    let mut found = ItemList::new(alloc);
    for place in places {
        if is_whole(builds, endings, *place) {
            found.push(*place)?;
        }
    }
    Ok(found)
}

/// Whether a blob at one of the places has a byte of the piece. That at the index is asked first.
fn is_held_from(builds: &[Build], places: &[usize], index: usize, piece: &Piece) -> bool
    ensures { result ≡ list_any (has_at builds.now piece.now) places.now }
{
    if index < places.len() && has_at(builds, piece, places[index]) {
        return true;
    }
    has_some(builds, places, piece)
}

/// Whether a blob at one of the places has a byte of the piece, where these names are among
/// others those of the blobs whose own bytes are there.
fn is_held_by(
    names: &BTreeMap<u128, usize>,
    builds: &[Build],
    places: &[usize],
    piece: &Piece,
) -> bool
    requires { is_some (tree.get nat_cmp names.now piece.now.blob) ≡ false
        → list_any (has_at builds.now piece.now) places.now ≡ false }
    ensures { result ≡ list_any (has_at builds.now piece.now) places.now }
{
    match names.get(&piece.blob.number()) {
        Some(index) => is_held_from(builds, places, *index, piece),
        None => false,
    }
}

/// Of these pieces those that are reached from the blobs at these places.
fn reached_from(
    alloc: Global,
    granted: &Granted,
    builds: &Blobs,
    places: &[usize],
    pieces: &[Piece],
) -> Result<ItemList<Piece>, NoMemory>
    ensures { IfOk result (λ found. found
        ≡ filter (is_reached_in granted.now builds.now places.now) pieces.now) }
{
    let names = senders(alloc, builds.as_slice(), places)?;
    let mut found = ItemList::new(alloc);
    for piece in pieces {
        if is_held_by(&names, builds.as_slice(), places, piece)
            && has_grant(granted, builds, piece)
        {
            found.push(*piece)?;
        }
    }
    Ok(found)
}

impl Contents {
    /// The places of the live blobs that aren't broken, in order of build.
    pub fn live_cells(&self) -> Result<ItemList<usize>, NoMemory>
        ensures { IfOk result (λ places. (s : Session) (h : History) → Follows s h self.now
            → map (λ build. build.cells) (items_at self.now.builds places)
            ≡ live_cells (page_limit s) h) }
    {
        let places = self.live()?;
        let builds = self.builds.as_slice();
        let endings = &self.kept.endings;
        let found = whole_places(self.alloc, builds, endings, places.as_slice())?;
        Ok(found)
    }

    /// The pieces that are reached.
    pub fn reached(&self) -> Result<ItemList<Piece>, NoMemory>
        ensures { IfOk result (λ pieces. (s : Session) (h : History) → Follows s h self.now
            → pieces ≡ reached (page_limit s) h) }
    {
        let places = self.live_cells()?;
        let granted = &self.kept.granted;
        let builds = &self.builds;
        let pieces = self.pieces.as_slice();
        let found = reached_from(self.alloc, granted, builds, places.as_slice(), pieces)?;
        Ok(found)
    }
}
