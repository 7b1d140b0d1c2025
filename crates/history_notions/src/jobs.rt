//! Jobs on page files: writing pieces of memory, or moving the reached pieces of a thin page.
ghost use Rattle.std.specs.Prelude.{◌≡◌, ℕ, ◌+◌, ◌^◌, ◌<◌, ◌==◌, OnOk, IfOk, if◌then◌else◌, false};
ghost use Rattle.std.specs.List.{list_any};
ghost use Rattle.std.specs.Option.{option_map_or};
ghost use Rattle.blob_model.specs.Jobs.{without_job, in_flight_after, next_job_after, turns_off, data_blob_of, unstored_after};

use crate::pages::{numbers, one_more};
use answer_text::Answer;
use blob_words::{BlobName, ItemList, NoMemory};
use session_script::Event;
use std::alloc::Global;
use std::marker::Model;

/// A job: its number, the page that it moves pieces out of (none for a page job), and its pieces.
#[derive(Debug, Drop)]
pub struct Job {
    pub number: u32,
    pub source: Option<u32>,
    pub pieces: ItemList<u32>,
}

impl Model for Job {
    ghost use Rattle.blob_model.specs.Jobs as model;

    ghost Value = { model.Job };

    ghost view = { λ one. record {
      number = one.number;
      source = one.source;
      pieces = one.pieces;
    } };
}

/// No job is in flight any more where this one ended.
pub fn without_job(number: u32, before: Option<Job>) -> Option<Job>
    ensures { result ≡ without_job number before }
{
    match before {
        None => None,
        Some(job) => {
            if job.number == number {
                None
            } else {
                Some(job)
            }
        }
    }
}

/// `job` and `compact` start a job; the answers to its `disk` or `lost` line end it.
pub fn in_flight_after(
    alloc: Global,
    answer: &Answer,
    before: Option<Job>,
) -> Result<Option<Job>, NoMemory>
    ensures { IfOk result (λ job. job ≡ in_flight_after answer.now before) }
{
    match answer {
        Answer::Job(job, list) => Ok(Some(Job {
            number: job.0,
            source: None,
            pieces: numbers(alloc, list.as_slice())?,
        })),
        Answer::Compacting(job, file, list) => Ok(Some(Job {
            number: job.0,
            source: Some(file.0),
            pieces: numbers(alloc, list.as_slice())?,
        })),
        Answer::Paged(job, ..)
        | Answer::Empty(job)
        | Answer::PageFailed(job, _)
        | Answer::Moved(job, ..)
        | Answer::MoveFailed(job, _)
        | Answer::MoveUnread(job, _)
        | Answer::LostJob(job) => Ok(without_job(job.0, before)),
        _ => Ok(before),
    }
}

fn names(job: &Job, number: u32) -> bool
    ensures { result ≡ list_any (λ named. named == number) job.now.pieces }
{
    job.pieces.as_slice().iter().any(|named| *named == number)
}

/// Whether the job names the piece.
pub fn is_in_job(job: &Option<Job>, number: u32) -> bool
    ensures { result ≡ option_map_or
        (λ one. list_any (λ named. named == number) one.pieces) job.now false }
{
    match job {
        Some(job) => names(job, number),
        None => false,
    }
}

/// Jobs of both kinds are numbered together.
pub fn next_job_after(answer: &Answer, before: u64) -> Result<u64, NoMemory>
    ensures { IfOk result (λ next. next ≡ next_job_after answer.now before) }
{
    match answer {
        Answer::Job(..) | Answer::Compacting(..) => one_more(before),
        _ => Ok(before),
    }
}

/// The answers that turn paging off.
pub fn turns_off(answer: &Answer) -> bool
    ensures { result ≡ turns_off answer.now }
{
    matches!(
        answer,
        Answer::PageFailed(..)
            | Answer::LostJob(..)
            | Answer::MoveFailed(..)
            | Answer::MoveUnread(..)
    )
}

/// Whether pieces may go to page files after a line with this first answer.
pub fn paging_after(answer: &Answer, before: bool) -> bool
    ensures { result ≡ (if turns_off answer.now then false else before) }
{
    if turns_off(answer) { false } else { before }
}

/// The blob of the last line, where that is a `data` line.
pub fn data_blob_of(event: &Event) -> Option<BlobName>
    ensures { result ≡ data_blob_of event.now }
{
    match event {
        Event::Segment { b, .. } => Some(*b),
        _ => None,
    }
}

/// The blob whose segment could not be stored in the last line.
pub fn unstored_after(
    answer: &Answer,
    blob: Option<BlobName>,
    before: Option<BlobName>,
) -> Option<BlobName>
    ensures { result ≡ unstored_after answer.now blob before }
{
    match answer {
        Answer::StoreFailed(_) => blob,
        _ => before,
    }
}
