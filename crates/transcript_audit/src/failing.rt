//! Which cells fail, and which faults they may tell.
ghost use Rattle.std.specs.Prelude.{◌≡◌, ◌≤◌, length, map, take, take_while, find, not, slice_get};
ghost use Rattle.std.specs.List.{list_any};
ghost use Rattle.history_notions.specs.Kept.{recorded_in};
ghost use Rattle.blob_model.specs.Builds.{sent};
ghost use Rattle.blob_model.specs.Chunk.{gives};
ghost use Rattle.transcript_audit.specs.Tests.{is_among};
ghost use Rattle.transcript_audit.specs.Cells.{cell_of, fails_in, cell_fault_in};

use crate::cells::At;
use crate::told::{is_handle_failed, is_page_fault};
use answer_text::Answer;
use blob_words::{BlobName, ReaderId};
use history_notions::contents::Contents;
use history_notions::course::piece_with;
use history_notions::pages::page_with;
use history_notions::recorded::{FileState, Note, recorded};
use history_notions::run::Source;

/// Whether the state gives the byte at this index of this stamp.
fn gives(state: &FileState, stamp: u64, index: u128) -> bool
    ensures { result ≡ gives (Some state.now) stamp index }
{
    state.stamp == stamp && index < state.bytes.len() as u128
}

/// Whether the file doesn't give the byte.
fn file_fails(notes: &[Note], name: &[u8], stamp: u64, index: u128) -> bool
    ensures { result ≡ not (gives (recorded_in notes.now name.now) stamp index) }
{
    match recorded(notes, name) {
        Some(state) => !gives(state, stamp, index),
        None => true,
    }
}

/// Whether the cell fails.
fn cell_fails(notes: &[Note], at: &At) -> bool
    ensures { result ≡ fails_in notes.now (cell_of at.now) }
{
    match &at.source {
        Source::Filed(name, stamp) => file_fails(notes, name.as_slice(), *stamp, at.index),
        Source::Sent(_) => false,
        Source::Lent(_) => false,
    }
}

/// How many cells stand before the first that fails.
pub fn good_count(notes: &[Note], cells: &[At]) -> usize
    ensures within { result ≤ length cells.now }
    ensures before { take_while (λ cell. not (fails_in notes.now cell)) (map cell_of cells.now)
        ≡ map cell_of (take result cells.now) }
    ensures first { find (fails_in notes.now) (map cell_of cells.now)
        ≡ slice_get (map cell_of cells.now) result }
{
    for place in 0..cells.len() {
        if cell_fails(notes, &cells[place]) {
            return place;
        }
    }
    cells.len()
}

/// Whether the answer tells that the page file of the own byte could not be read.
fn is_sent_fault(
    contents: &Contents,
    q: ReaderId,
    answer: &Answer,
    blob: BlobName,
    index: u128,
) -> bool
    ensures { result ≡ is_among answer.now (cell_fault_in contents.now.kept.pages
        contents.now.builds contents.now.pieces q (sent blob index)) }
{
    let Some(piece) = piece_with(contents.pieces.as_slice(), blob, index) else {
        return false;
    };
    match page_with(contents.kept.pages.as_slice(), piece.number) {
        Some(page) => is_page_fault(answer, q, page.number),
        None => false,
    }
}

/// Whether the answer tells that the cell could not be read.
fn is_cell_fault(contents: &Contents, q: ReaderId, answer: &Answer, at: &At) -> bool
    ensures { result ≡ is_among answer.now (cell_fault_in contents.now.kept.pages
        contents.now.builds contents.now.pieces q (cell_of at.now)) }
{
    match &at.source {
        Source::Sent(blob) => is_sent_fault(contents, q, answer, *blob, at.index),
        Source::Filed(..) => false,
        Source::Lent(slot) => is_handle_failed(answer, q, *slot),
    }
}

/// Whether the answer tells that one of the cells could not be read.
pub fn is_fault(contents: &Contents, q: ReaderId, answer: &Answer, cells: &[At]) -> bool
    ensures { result ≡ list_any (λ at. is_among answer.now (cell_fault_in
        contents.now.kept.pages contents.now.builds contents.now.pieces q (cell_of at)))
        cells.now }
{
    cells
        .iter()
        .any(|at| is_cell_fault(contents, q, answer, at))
}
