//! Page files, and where each piece is.
ghost use Rattle.std.specs.Prelude.{◌≡◌, ℕ, ◌+◌, ◌^◌, ◌<◌, ◌==◌, find, reverse, OnOk, IfOk};
ghost use Rattle.std.specs.List.{list_any};
ghost use Rattle.std.specs.Option.{option_copied};
ghost use Rattle.blob_model.specs.Pages.{numbers, pages_after, next_page_after, asked_after, lists, page_with};

use answer_text::Answer;
use blob_words::{ItemList, NoMemory, PieceNo};
use std::alloc::Global;
use std::marker::Model;

/// A page file as it was written: its number, and the pieces one after the other.
#[derive(Debug, Drop)]
pub struct Page {
    pub number: u32,
    pub pieces: ItemList<u32>,
}

impl Model for Page {
    ghost use Rattle.blob_model.specs.Pages as model;

    ghost Value = { model.Page };

    ghost view = { λ one. record { number = one.number; pieces = one.pieces } };
}

/// The numbers in a list of pieces.
pub fn numbers(alloc: Global, list: &[PieceNo]) -> Result<ItemList<u32>, NoMemory>
    ensures { IfOk result (λ list_of. list_of ≡ numbers list.now) }
{
    let mut found = ItemList::new(alloc);
    for piece in list {
        found.push(piece.0)?;
    }
    Ok(found)
}

/// `stored`, `paged` and `moved` write a page file.
pub fn pages_after(
    alloc: Global,
    answer: &Answer,
    pages: &mut ItemList<Page>,
) -> Result<(), NoMemory>
    ensures { OnOk result (pages.new ≡ pages_after answer.now pages.old) }
{
    match answer {
        Answer::Stored(file, piece) => {
            let mut pieces = ItemList::new(alloc);
            pieces.push(piece.0)?;
            pages.push(Page {
                number: file.0,
                pieces,
            })
        }
        Answer::Paged(_, file, list) => {
            let pieces = numbers(alloc, list.as_slice())?;
            pages.push(Page {
                number: file.0,
                pieces,
            })
        }
        Answer::Moved(_, file, list) => {
            let pieces = numbers(alloc, list.as_slice())?;
            pages.push(Page {
                number: file.0,
                pieces,
            })
        }
        _ => Ok(()),
    }
}

/// One more; a count that 64 bits don't hold is want of memory.
pub fn one_more(count: u64) -> Result<u64, NoMemory>
    ensures { IfOk result (λ more. more ≡ count + 1) }
{
    if count == u64::MAX {
        return Err(NoMemory);
    }
    Ok(count + 1)
}

/// Each write takes a page number, one that fails too.
pub fn next_page_after(answer: &Answer, before: u64) -> Result<u64, NoMemory>
    ensures { IfOk result (λ next. next ≡ next_page_after answer.now before) }
{
    match answer {
        Answer::Stored(..)
        | Answer::StoreFailed(..)
        | Answer::Paged(..)
        | Answer::PageFailed(..)
        | Answer::Moved(..)
        | Answer::MoveFailed(..) => one_more(before),
        _ => Ok(before),
    }
}

/// A page file is asked to be removed once, whether it then goes or is left.
pub fn asked_after(answer: &Answer, asked: &mut ItemList<u32>) -> Result<(), NoMemory>
    ensures { OnOk result (asked.new ≡ asked_after answer.now asked.old) }
{
    match answer {
        Answer::Removed(file) => asked.push(file.0),
        Answer::Left(file) => asked.push(file.0),
        _ => Ok(()),
    }
}

/// Whether the page file lists the piece.
pub fn lists(page: &Page, number: u32) -> bool
    ensures { result ≡ lists page.now number }
{
    page.pieces
        .as_slice()
        .iter()
        .any(|listed| *listed == number)
}

/// The last page file that lists the piece.
pub fn page_with(pages: &[Page], number: u32) -> Option<&Page>
    ensures { option_copied result ≡ page_with pages.now number }
{
    pages.iter().rev().find(|page| lists(page, number))
}
