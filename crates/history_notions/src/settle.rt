//! What a store owes after a line: the parts that lists of numbers decide.
ghost use Rattle.std.specs.Prelude.{◌≡◌, ℕ, ◌==◌, ◌&&◌, not, filter, IfOk};
ghost use Rattle.std.specs.List.{list_any};
ghost use Rattle.blob_model.specs.Settle.{kept_of};
ghost use Rattle.blob_model.specs.Tally.{job_left_of};

use crate::jobs::Job;
use crate::pages::Page;
use crate::pieces::Piece;
use blob_words::{ItemList, NoMemory};
use std::alloc::Global;

/// Whether a page file holds no reached piece, and was not asked to be removed.
pub fn is_due(held: &[u32], asked: &[u32], page: &Page) -> bool
    ensures { result ≡ (not (list_any (λ each. each == page.now.number) held.now)
        && not (list_any (λ number. number == page.now.number) asked.now)) }
{
    !has(held, page.number) && !has(asked, page.number)
}

/// Whether the number is one of these.
pub fn has(numbers: &[u32], number: u32) -> bool
    ensures { result ≡ list_any (λ each. each == number) numbers.now }
{
    numbers.iter().any(|each| *each == number)
}

/// Whether one of the pieces has the number.
fn has_piece(list: &[Piece], number: u32) -> bool
    ensures { result ≡ list_any (λ piece. piece.number == number) list.now }
{
    list.iter().any(|piece| piece.number == number)
}

/// The reached pieces in a page file, by rising offset.
pub fn kept_of(alloc: Global, page: &Page, list: &[Piece]) -> Result<ItemList<u32>, NoMemory>
    ensures { IfOk result (λ found. found ≡ kept_of page.now list.now) }
{
    let mut found = ItemList::new(alloc);
    for number in page.pieces.as_slice() {
        if has_piece(list, *number) {
            found.push(*number)?;
        }
    }
    Ok(found)
}

/// The pieces of a job that are reached, in its order.
pub fn job_left_of(alloc: Global, job: &Job, list: &[Piece]) -> Result<ItemList<u32>, NoMemory>
    ensures { IfOk result (λ found. found ≡ job_left_of job.now list.now) }
{
    let mut found = ItemList::new(alloc);
    for number in job.pieces.as_slice() {
        if has_piece(list, *number) {
            found.push(*number)?;
        }
    }
    Ok(found)
}
