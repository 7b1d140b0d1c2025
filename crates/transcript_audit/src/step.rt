//! What a step of a reader may answer.
ghost use Rattle.std.specs.Prelude.{◌≡◌, ◌≤◌, List, length, map, take, IfOk};
ghost use Rattle.std.specs.Option.{option_copied};
ghost use Rattle.blob_model.specs.Session.{Session, page_limit};
ghost use Rattle.blob_model.specs.History.{History};
ghost use Rattle.blob_model.specs.Readers.{reader_at};
ghost use Rattle.blob_model.specs.Standing.{ended};
ghost use Rattle.blob_model.specs.Builds.{Cell};
ghost use Rattle.blob_model.specs.Chunk.{left, first_failing, before_failing};
ghost use Rattle.blob_model.specs.Own.{read_faults};
ghost use Rattle.history_notions.specs.Follows.{Follows};
ghost use Rattle.transcript_audit.specs.Tests.{is_among};
ghost use Rattle.transcript_audit.specs.Cells.{cell_of, file_in};
ghost use Rattle.transcript_audit.specs.OwnTests.{is_given, is_read, is_next, is_step_by, is_step};

use crate::cells::{At, cells_of};
use crate::equal::{both, either};
use crate::failing::{good_count, is_fault};
use crate::stands::ended;
use crate::told::{is_ended, is_file_changed, is_wait};
use crate::values::agree;
use answer_text::Answer;
use blob_words::{FileName, NoMemory, ReaderId, Status};
use history_notions::contents::Contents;
use history_notions::readers::{OpenReader, left};
use history_notions::run::Source;
use history_notions::standing::is_done_status;

/// Bytes that agree with the cells are given.
fn is_given_answer(
    contents: &Contents,
    answer: &Answer,
    q: ReaderId,
    cells: &[At],
) -> Result<bool, NoMemory>
    ensures { IfOk result (λ is_own. (s : Session) (h : History) → Follows s h contents.now
        → is_own ≡ is_given s h q (map cell_of cells.now) answer.now) }
{
    match answer {
        Answer::Given(told, bytes) => {
            let same = agree(contents, cells, bytes.as_slice())?;
            let is_own = told.0 == q.0;
            Ok(both(is_own, same))
        }
        _ => Ok(false),
    }
}

/// The file of a cell.
fn file_of(at: &At) -> Option<&FileName>
    ensures { option_copied result ≡ file_in at.now.source }
{
    match &at.source {
        Source::Filed(name, _) => Some(name),
        Source::Sent(_) => None,
        Source::Lent(_) => None,
    }
}

/// Whether the answer tells that one of the cells could not be read.
fn is_fault_of(contents: &Contents, q: ReaderId, answer: &Answer, cells: &[At]) -> bool
    ensures { (s : Session) (h : History) → Follows s h contents.now
        → result ≡ is_among answer.now (read_faults s h q (map cell_of cells.now)) }
{
    is_fault(contents, q, answer, cells)
}

/// The first cells.
fn front(cells: &[At], count: usize) -> &[At]
    requires { count ≤ length cells.now }
    ensures { result.now ≡ take count cells.now }
{
    &cells[..count]
}

/// All cells are read: their bytes are given, or one of them could not be read.
fn is_whole_answer(
    contents: &Contents,
    answer: &Answer,
    q: ReaderId,
    cells: &[At],
) -> Result<bool, NoMemory>
    ensures { IfOk result (λ is_own. (s : Session) (h : History) → Follows s h contents.now
        → first_failing h (map cell_of cells.now) ≡ None
        → is_own ≡ is_read s h q (map cell_of cells.now)
        (first_failing h (map cell_of cells.now)) answer.now) }
{
    let given = is_given_answer(contents, answer, q, cells)?;
    let fault = is_fault_of(contents, q, answer, cells);
    Ok(either(given, fault))
}

/// The file of the first cell that fails has changed, or a cell before it could not be read.
fn is_changed_answer(
    contents: &Contents,
    answer: &Answer,
    q: ReaderId,
    at: &At,
    before: &[At],
) -> bool
    ensures { (s : Session) (h : History) (cells : List Cell) → Follows s h contents.now
        → first_failing h cells ≡ Some (cell_of at.now)
        → before_failing h cells ≡ map cell_of before.now
        → result ≡ is_read s h q cells (first_failing h cells) answer.now }
{
    match file_of(at) {
        Some(name) => {
            let changed = is_file_changed(answer, q, name.as_slice());
            let fault = is_fault_of(contents, q, answer, before);
            either(changed, fault)
        }
        None => false,
    }
}

/// The answers of a step that reads these cells.
fn is_read_answer(
    contents: &Contents,
    answer: &Answer,
    q: ReaderId,
    cells: &[At],
) -> Result<bool, NoMemory>
    ensures { IfOk result (λ is_own. (s : Session) (h : History) → Follows s h contents.now
        → is_own ≡ is_read s h q (map cell_of cells.now)
        (first_failing h (map cell_of cells.now)) answer.now) }
{
    let good = good_count(contents.kept.notes.as_slice(), cells);
    if good == cells.len() {
        let is_own = is_whole_answer(contents, answer, q, cells)?;
        return Ok(is_own);
    }
    let before = front(cells, good);
    Ok(is_changed_answer(contents, answer, q, &cells[good], before))
}

/// The answers of a step of a reader on a done blob.
fn is_next_answer(
    contents: &Contents,
    answer: &Answer,
    q: ReaderId,
    reader: &OpenReader,
) -> Result<bool, NoMemory>
    ensures { IfOk result (λ is_own. (s : Session) (h : History) → Follows s h contents.now
        → is_own ≡ is_next s h q reader.now (left reader.now) answer.now) }
{
    if left(reader) == 0 {
        return Ok(is_ended(answer, q, Status::Done));
    }
    let runs = contents.chunk(reader)?;
    let cells = cells_of(contents.alloc, runs.as_slice())?;
    let is_own = is_read_answer(contents, answer, q, cells.as_slice())?;
    Ok(is_own)
}

/// The answers of a step of an open reader, where its blob ended so.
fn is_ended_answer(
    contents: &Contents,
    answer: &Answer,
    q: ReaderId,
    reader: &OpenReader,
    status: Status,
) -> Result<bool, NoMemory>
    ensures { IfOk result (λ is_own. (s : Session) (h : History) → Follows s h contents.now
        → is_own ≡ is_step_by s h q reader.now (Some status) answer.now) }
{
    match status {
        Status::Done => {
            let is_own = is_next_answer(contents, answer, q, reader)?;
            Ok(is_own)
        }
        _ => Ok(is_ended(answer, q, status)),
    }
}

/// The answers of a step of an open reader.
fn is_open_answer(
    contents: &Contents,
    answer: &Answer,
    q: ReaderId,
    reader: &OpenReader,
) -> Result<bool, NoMemory>
    ensures { IfOk result (λ is_own. (s : Session) (h : History) → Follows s h contents.now
        → is_own ≡ is_step_by s h q reader.now (ended h reader.now.blob) answer.now) }
{
    match ended(contents, reader.blob) {
        Some(status) => {
            let is_own = is_ended_answer(contents, answer, q, reader, status)?;
            Ok(is_own)
        }
        None => Ok(is_wait(answer, q)),
    }
}

/// The answers of a step.
pub fn is_step_answer(contents: &Contents, answer: &Answer, q: ReaderId) -> Result<bool, NoMemory>
    ensures { IfOk result (λ is_own. (s : Session) (h : History) → Follows s h contents.now
        → is_own ≡ is_step s h q (reader_at (page_limit s) h q.0) answer.now) }
{
    match contents.reader(q.0) {
        Some(reader) => {
            let is_own = is_open_answer(contents, answer, q, reader)?;
            Ok(is_own)
        }
        None => Ok(false),
    }
}
