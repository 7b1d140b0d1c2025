//! The page files that hold no reached piece are removed, in rising number.
ghost use Rattle.std.specs.Prelude.{◌≡◌, ◌++◌, map, filter, slice_get, IfOk, OnOk};
ghost use Rattle.std.specs.Option.{option_to_list};
ghost use Rattle.blob_model.specs.Session.{Session};
ghost use Rattle.blob_model.specs.History.{History};
ghost use Rattle.blob_model.specs.Settle.{removal, removals};
ghost use Rattle.history_notions.specs.Follows.{Follows};
ghost use Rattle.history_notions.specs.Chosen.{items_at};
ghost use Rattle.transcript_audit.specs.Owed.{is_due_in, number_of};

use answer_text::{Answer, Answers};
use blob_words::{ItemList, NoMemory, PageNo};
use history_notions::contents::Contents;
use history_notions::pages::Page;
use history_notions::settle::{has, is_due};
use std::alloc::Global;

/// Puts the number of the page file at a place behind others.
fn put_number(pages: &[Page], place: usize, numbers: &mut ItemList<u32>) -> Result<(), NoMemory>
    ensures { OnOk result (numbers.new
        ≡ numbers.old ++ map number_of (option_to_list (slice_get pages.now place))) }
{
    if let Some(page) = pages.get(place) {
        numbers.push(page.number)?;
    }
    Ok(())
}

/// The numbers of the page files at these places.
fn numbers_at(alloc: Global, pages: &[Page], places: &[usize]) -> Result<ItemList<u32>, NoMemory>
    ensures { IfOk result (λ numbers. numbers
        ≡ map number_of (items_at pages.now places.now)) }
{
    let mut numbers = ItemList::new(alloc);
    for place in places {
        put_number(pages, *place, &mut numbers)?;
    }
    Ok(numbers)
}

/// The answer for a page file that is due; those of `unremoved` are left.
fn removal(unremoved: &[u32], page: &Page) -> Answer
    ensures { result ≡ removal unremoved.now page.now }
{
    if has(unremoved, page.number) {
        Answer::Left(PageNo(page.number))
    } else {
        Answer::Removed(PageNo(page.number))
    }
}

/// The answers for those of these page files that are due, where these hold a reached piece.
fn removals_of(
    alloc: Global,
    held: &[u32],
    asked: &[u32],
    unremoved: &[u32],
    pages: &[Page],
) -> Result<Answers, NoMemory>
    ensures { IfOk result (λ found. found ≡ map (removal unremoved.now)
        (filter (is_due_in held.now asked.now) pages.now)) }
{
    let mut found = ItemList::new(alloc);
    for page in pages {
        if is_due(held, asked, page) {
            found.push(removal(unremoved, page))?;
        }
    }
    Ok(found)
}

/// The page files that hold no reached piece are removed; those of `unremoved` are left.
pub fn removals(contents: &Contents, unremoved: &[u32]) -> Result<Answers, NoMemory>
    ensures { IfOk result (λ found. (s : Session) (h : History) → Follows s h contents.now
        → found ≡ removals s unremoved.now h) }
{
    let pages = contents.kept.pages.as_slice();
    if pages.len() == 0 {
        return Ok(ItemList::new(contents.alloc));
    }
    let list = contents.reached()?;
    let places = contents.files(list.as_slice())?;
    let held = numbers_at(contents.alloc, pages, places.as_slice())?;
    let asked = contents.kept.asked.as_slice();
    let found = removals_of(contents.alloc, held.as_slice(), asked, unremoved, pages)?;
    Ok(found)
}
