//! Jobs that start: pieces are paged out where somebody waits, or moved out of a thin page file.
ghost use Rattle.std.specs.Prelude.{◌≡◌, ◌+◌, ◌-◌, ◌*◌, ◌&&◌, ◌<◌, false, filter, find, nat_lt, nat_le, IfOk, slice_get};
ghost use Rattle.std.specs.Option.{option_and_then, option_map, option_map_or, option_to_list};
ghost use Rattle.blob_model.specs.Session.{Session, page_limit};
ghost use Rattle.blob_model.specs.History.{History};
ghost use Rattle.blob_model.specs.Builds.{builds};
ghost use Rattle.blob_model.specs.Pieces.{Piece, pieces};
ghost use Rattle.blob_model.specs.Pages.{page_size};
ghost use Rattle.blob_model.specs.Reached.{reached};
ghost use Rattle.blob_model.specs.Tally.{bytes_of, in_page_of, disk_of, is_thin};
ghost use Rattle.blob_model.specs.Victims.{pageable, head_bytes, recency, chosen};
ghost use Rattle.blob_model.specs.Waits.{waits};
ghost use Rattle.blob_model.specs.Settle.{may_start, page_jobs, can_move, movable, kept, compaction, compactions, piece_list};
ghost use Rattle.history_notions.specs.Follows.{Follows};
ghost use Rattle.history_notions.specs.FollowsCourse.{FollowsCourse};
ghost use Rattle.history_notions.specs.Chosen.{items_at};
ghost use Rattle.transcript_audit.specs.Owed.{is_pageable};

use crate::grants::heads;
use answer_text::Answer;
use blob_words::{ItemList, JobNo, NoMemory, PageNo, PieceList, PieceNo};
use history_notions::contents::Contents;
use history_notions::course::Course;
use history_notions::jobs::{Job, is_in_job};
use history_notions::pages::Page;
use history_notions::parts::{add, few_bytes};
use history_notions::pieces::{Piece, bytes_of};
use history_notions::settle::kept_of;
use history_notions::standing::Endings;
use history_notions::tally::page_size;
use history_notions::victims::{recency, victims};
use std::alloc::Global;

/// The numbers as an answer lists them.
pub fn piece_list(alloc: Global, numbers: &[u32]) -> Result<PieceList, NoMemory>
    ensures { IfOk result (λ list. list ≡ piece_list numbers.now) }
{
    let mut list = ItemList::new(alloc);
    for number in numbers {
        list.push(PieceNo(*number))?;
    }
    Ok(list)
}

/// Whether paging is on and no job is in flight.
fn may_start(contents: &Contents) -> bool
    ensures { (s : Session) (h : History) → Follows s h contents.now → result ≡ may_start h }
{
    contents.kept.paging && contents.kept.job.is_none()
}

/// The next number of a job.
fn next_job(contents: &Contents) -> Result<JobNo, NoMemory>
    ensures { IfOk result (λ job. job.0 ≡ contents.now.kept.next_job) }
{
    let number = contents.kept.next_job;
    if number > u64::from(u32::MAX) {
        return Err(NoMemory);
    }
    Ok(JobNo(number as u32))
}

/// Whether the blob of the piece is done, and the job doesn't name the piece.
fn is_pageable(endings: &Endings, job: &Option<Job>, piece: &Piece) -> bool
    ensures { result ≡ is_pageable endings.now job.now piece.now }
{
    endings.is_done(piece.blob) && !is_in_job(job, piece.number)
}

/// Of these pieces those whose blob is done and that the job doesn't name.
fn pageable_of(
    alloc: Global,
    endings: &Endings,
    job: &Option<Job>,
    list: &[Piece],
) -> Result<ItemList<Piece>, NoMemory>
    ensures { IfOk result (λ found. found
        ≡ filter (is_pageable endings.now job.now) list.now) }
{
    let mut found = ItemList::new(alloc);
    for piece in list {
        if is_pageable(endings, job, piece) {
            found.push(*piece)?;
        }
    }
    Ok(found)
}

/// The reached pieces in memory whose own blob is done and that no job in flight names.
fn pageable(contents: &Contents, list: &[Piece]) -> Result<ItemList<Piece>, NoMemory>
    ensures { IfOk result (λ found. (s : Session) (h : History) → Follows s h contents.now
        → list.now ≡ reached (page_limit s) h → found ≡ pageable (page_limit s) h) }
{
    let memory = contents.in_memory(list)?;
    let endings = &contents.kept.endings;
    let job = &contents.kept.job;
    let found = pageable_of(contents.alloc, endings, job, memory.as_slice())?;
    Ok(found)
}

/// The own bytes of the head of those that wait.
fn head_bytes(contents: &Contents) -> Result<u128, NoMemory>
    ensures { IfOk result (λ bytes. (s : Session) (h : History) → Follows s h contents.now
        → bytes ≡ head_bytes (waits (page_limit s) h)) }
{
    let waiting = heads(contents)?;
    match waiting.as_slice().first() {
        Some((_, own)) => Ok(*own),
        None => Ok(0),
    }
}

/// The pieces to page out.
fn chosen(course: &Course) -> Result<ItemList<u32>, NoMemory>
    ensures { IfOk result (λ found. (s : Session) (h : History) → FollowsCourse s h course.now
        → found ≡ chosen s.limits h) }
{
    let contents = &course.contents;
    let list = contents.reached()?;
    let memory = contents.memory(list.as_slice())?;
    let disk = contents.disk(list.as_slice())?;
    let head = head_bytes(contents)?;
    let limits = &contents.limits;
    let wanted = add(memory, head)?;
    let need = few_bytes(wanted.saturating_sub(u128::from(limits.memory)))?;
    let room = u128::from(limits.disk).saturating_sub(disk) as u64;
    let most = limits.page.min(room);
    let pageable = pageable(contents, list.as_slice())?;
    let uses = course.uses.as_slice();
    let recent = recency(contents.alloc, pageable.as_slice(), uses)?;
    let found = victims(contents.alloc, need, most, recent.as_slice())?;
    Ok(found)
}

/// Where somebody waits, a job starts to page pieces out.
pub fn page_job(course: &Course) -> Result<Option<Answer>, NoMemory>
    ensures { IfOk result (λ found. (s : Session) (h : History) → FollowsCourse s h course.now
        → option_to_list found ≡ page_jobs s h) }
{
    let contents = &course.contents;
    if !may_start(contents) || !contents.has_waiting() {
        return Ok(None);
    }
    let numbers = chosen(course)?;
    if numbers.len() == 0 {
        return Ok(None);
    }
    let list = piece_list(contents.alloc, numbers.as_slice())?;
    let job = next_job(contents)?;
    Ok(Some(Answer::Job(job, list)))
}

/// Whether the page file is thin and the disk has room for its reached pieces once more, where so
/// many bytes are charged to it.
fn can_move(contents: &Contents, list: &[Piece], disk: u128, page: &Page) -> Result<bool, NoMemory>
    ensures { IfOk result (λ can. (s : Session) (h : History) → Follows s h contents.now
        → disk ≡ disk_of h (builds (page_limit s) h) (pieces (page_limit s) h) list.now
        → can
        ≡ can_move s h (builds (page_limit s) h) (pieces (page_limit s) h) list.now page.now) }
{
    let inside = contents.in_page(page, list)?;
    let bytes = bytes_of(inside.as_slice());
    let whole = page_size(contents.pieces.as_slice(), page);
    let room = u128::from(contents.limits.disk).saturating_sub(disk);
    Ok(bytes < whole.saturating_sub(bytes) && bytes <= room)
}

/// Whether there is a page file at the place, and it can move.
fn can_move_at(
    contents: &Contents,
    list: &[Piece],
    disk: u128,
    place: usize,
) -> Result<bool, NoMemory>
    ensures { IfOk result (λ can. (s : Session) (h : History) → Follows s h contents.now
        → disk ≡ disk_of h (builds (page_limit s) h) (pieces (page_limit s) h) list.now
        → can ≡ option_map_or
        (can_move s h (builds (page_limit s) h) (pieces (page_limit s) h) list.now)
        (slice_get contents.now.kept.pages place) false) }
{
    match contents.kept.pages.as_slice().get(place) {
        Some(page) => can_move(contents, list, disk, page),
        None => Ok(false),
    }
}

/// The first of the page files at these places that can move, as its place.
fn first_movable(
    contents: &Contents,
    list: &[Piece],
    disk: u128,
    places: &[usize],
) -> Result<Option<usize>, NoMemory>
    ensures { IfOk result (λ found. (s : Session) (h : History) → Follows s h contents.now
        → disk ≡ disk_of h (builds (page_limit s) h) (pieces (page_limit s) h) list.now
        → option_and_then (slice_get contents.now.kept.pages) found
        ≡ find (can_move s h (builds (page_limit s) h) (pieces (page_limit s) h) list.now)
        (items_at contents.now.kept.pages places.now)) }
{
    for place in places {
        let can = can_move_at(contents, list, disk, *place)?;
        if can {
            return Ok(Some(*place));
        }
    }
    Ok(None)
}

/// A job that moves the reached pieces out of the page file.
fn compaction_of(contents: &Contents, list: &[Piece], page: &Page) -> Result<Answer, NoMemory>
    ensures { IfOk result (λ answer. (s : Session) (h : History) → Follows s h contents.now
        → list.now ≡ reached (page_limit s) h → answer ≡ compaction s h page.now) }
{
    let inside = contents.in_page(page, list)?;
    let numbers = kept_of(contents.alloc, page, inside.as_slice())?;
    let moved = piece_list(contents.alloc, numbers.as_slice())?;
    let job = next_job(contents)?;
    Ok(Answer::Compacting(job, PageNo(page.number), moved))
}

/// A job that moves the reached pieces out of the page file at a place, where there is one.
fn compaction_at(
    contents: &Contents,
    list: &[Piece],
    found: Option<usize>,
) -> Result<Option<Answer>, NoMemory>
    ensures { IfOk result (λ answer. (s : Session) (h : History) → Follows s h contents.now
        → list.now ≡ reached (page_limit s) h → answer ≡ option_map (compaction s h)
        (option_and_then (slice_get contents.now.kept.pages) found)) }
{
    let Some(place) = found else {
        return Ok(None);
    };
    match contents.kept.pages.as_slice().get(place) {
        Some(page) => {
            let answer = compaction_of(contents, list, page)?;
            Ok(Some(answer))
        }
        None => Ok(None),
    }
}

/// A job that moves the reached pieces out of the first page file that can move.
fn first_compaction(contents: &Contents) -> Result<Option<Answer>, NoMemory>
    ensures { IfOk result (λ found. (s : Session) (h : History) → Follows s h contents.now
        → found ≡ option_map (compaction s h) (movable s h)) }
{
    let list = contents.reached()?;
    let disk = contents.disk(list.as_slice())?;
    let places = contents.files(list.as_slice())?;
    let found = first_movable(contents, list.as_slice(), disk, places.as_slice())?;
    let answer = compaction_at(contents, list.as_slice(), found)?;
    Ok(answer)
}

/// A job starts to move the reached pieces out of a thin page file.
pub fn compaction(contents: &Contents) -> Result<Option<Answer>, NoMemory>
    ensures { IfOk result (λ found. (s : Session) (h : History) → Follows s h contents.now
        → option_to_list found ≡ compactions s h) }
{
    let pages = contents.kept.pages.as_slice();
    if pages.len() == 0 {
        return Ok(None);
    }
    if !may_start(contents) {
        return Ok(None);
    }
    let answer = first_compaction(contents)?;
    Ok(answer)
}
