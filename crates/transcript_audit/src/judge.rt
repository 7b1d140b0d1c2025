//! Whether a group may come after a history.
ghost use Rattle.std.specs.Prelude.{◌≡◌, ◌≤◌, ℕ, List, true, false, length, take, drop, if◌then◌else◌, IfOk, OnOk};
ghost use Rattle.session_script.specs.declared.event.Event.{Event};
ghost use Rattle.session_script.specs.declared.event.Event.TheVariants as events;
ghost use Rattle.blob_words.specs.declared.number.RendererId.{RendererId};
ghost use Rattle.blob_model.specs.Refusals.{refusal};
ghost use Rattle.blob_model.specs.Own.{plan_in};
ghost use Rattle.transcript_audit.specs.Tests.{is_file, same_tally};
ghost use Rattle.blob_model.specs.Session.{Session};
ghost use Rattle.blob_model.specs.History.{History, heard_first, after, has_ended};
ghost use Rattle.blob_model.specs.Legal.{left_files};
ghost use Rattle.history_notions.specs.Follows.{Follows};
ghost use Rattle.history_notions.specs.FollowsCourse.{FollowsCourse};
ghost use Rattle.transcript_audit.specs.OwnTests.{event_count, OwnFound};
ghost use Rattle.transcript_audit.specs.Judged.{Judged};

use crate::disk::{is_filed, is_segment_answer};
use crate::equal::both;
use crate::giving::say_all;
use crate::same::are_same;
use crate::settling::settle;
use crate::single::is_single;
use crate::told::is_refused;
use crate::why::refusal;
use answer_text::{Answer, Group, Refusal};
use blob_words::{BlobName, ItemList, NoMemory, Tally};
use history_notions::contents::Contents;
use history_notions::course::Course;
use session_script::Event;
use std::alloc::Global;

/// So many, where the answers are own ones.
fn count_if(is_own: bool, count: usize) -> Option<usize>
    ensures { result ≡ (if is_own then Some count else None) }
{
    if is_own { Some(count) } else { None }
}

/// How many own answers these begin with, where the line is a segment that goes to a page file.
fn stored_count(
    contents: &Contents,
    b: BlobName,
    segment: u32,
    answers: &[Answer],
) -> Result<Option<usize>, NoMemory>
    ensures { IfOk result (λ found. (s : Session) (h : History) (r : RendererId) (bytes : List ℕ)
        → Follows s h contents.now → refusal s h (events.Segment r b segment bytes) ≡ None
        → is_file (plan_in s h b) ≡ true
        → OwnFound s h (events.Segment r b segment bytes) answers.now found) }
{
    if answers.len() < 2 {
        return Ok(None);
    }
    let is_own = is_segment_answer(contents, &answers[0], &answers[1], b, segment)?;
    Ok(count_if(is_own, 2))
}

/// How many own answers these begin with, where the line is accepted and has one.
fn single_count(
    contents: &Contents,
    event: &Event,
    answers: &[Answer],
) -> Result<Option<usize>, NoMemory>
    ensures { IfOk result (λ found. (s : Session) (h : History) → Follows s h contents.now
        → refusal s h event.now ≡ None → event_count s h event.now ≡ 1
        → OwnFound s h event.now answers.now found) }
{
    if answers.len() == 0 {
        return Ok(None);
    }
    let is_own = is_single(contents, event, &answers[0])?;
    Ok(count_if(is_own, 1))
}

/// How many own answers these begin with, where the line is an accepted segment.
fn segment_count(
    contents: &Contents,
    event: &Event,
    b: BlobName,
    segment: u32,
    answers: &[Answer],
) -> Result<Option<usize>, NoMemory>
    ensures { IfOk result (λ found. (s : Session) (h : History) (r : RendererId) (bytes : List ℕ)
        → Follows s h contents.now → event.now ≡ events.Segment r b segment bytes
        → refusal s h (events.Segment r b segment bytes) ≡ None
        → OwnFound s h (events.Segment r b segment bytes) answers.now found) }
{
    if is_filed(contents, b) {
        let found = stored_count(contents, b, segment, answers)?;
        return Ok(found);
    }
    let found = single_count(contents, event, answers)?;
    Ok(found)
}

/// How many own answers these begin with, where the line is accepted.
fn accepted_count(
    contents: &Contents,
    event: &Event,
    answers: &[Answer],
) -> Result<Option<usize>, NoMemory>
    ensures { IfOk result (λ found. (s : Session) (h : History) → Follows s h contents.now
        → refusal s h event.now ≡ None → OwnFound s h event.now answers.now found) }
{
    match event {
        Event::Segment { b, seg, .. } => {
            let found = segment_count(contents, event, *b, *seg, answers)?;
            Ok(found)
        }
        _ => {
            let found = single_count(contents, event, answers)?;
            Ok(found)
        }
    }
}

/// How many own answers these begin with, where the line is refused for this.
fn refused_count(answers: &[Answer], why: Refusal) -> Option<usize>
    ensures { (s : Session) (h : History) (event : Event) → refusal s h event ≡ Some why
        → OwnFound s h event answers.now result }
{
    if answers.len() == 0 {
        return None;
    }
    count_if(is_refused(&answers[0], why), 1)
}

/// How many own answers these begin with, or none.
fn own_count(
    contents: &Contents,
    event: &Event,
    answers: &[Answer],
) -> Result<Option<usize>, NoMemory>
    ensures { IfOk result (λ found. (s : Session) (h : History) → Follows s h contents.now
        → OwnFound s h event.now answers.now found) }
{
    let why = refusal(contents, event)?;
    match why {
        Some(why) => Ok(refused_count(answers, why)),
        None => {
            let found = accepted_count(contents, event, answers)?;
            Ok(found)
        }
    }
}

/// After a line with its first answer.
fn take_first(course: &mut Course, event: &Event, first: &Answer) -> Result<(), NoMemory>
    ensures { OnOk result ((s : Session) (h : History) → FollowsCourse s h course.old
        → FollowsCourse s (heard_first h event.now first.now) course.new) }
{
    match first {
        Answer::Refused(_) => course.refuse(),
        _ => course.hear(event, first)?,
    }
    Ok(())
}

/// After a line with its answers.
pub fn take_line(course: &mut Course, event: &Event, answers: &[Answer]) -> Result<(), NoMemory>
    ensures { OnOk result ((s : Session) (h : History) → FollowsCourse s h course.old
        → FollowsCourse s (after h event.now answers.now) course.new) }
{
    let Some((first, more)) = answers.split_first() else {
        return Ok(());
    };
    take_first(course, event, first)?;
    say_all(course, more)?;
    Ok(())
}

/// The page files that could not be removed, as the answers tell.
fn left_files(alloc: Global, answers: &[Answer]) -> Result<ItemList<u32>, NoMemory>
    ensures { IfOk result (λ files. files ≡ left_files answers.now) }
{
    let mut files = ItemList::new(alloc);
    for answer in answers {
        if let Answer::Left(file) = answer {
            files.push(file.0)?;
        }
    }
    Ok(files)
}

/// The first answers.
fn front(list: &[Answer], count: usize) -> &[Answer]
    requires { count ≤ length list.now }
    ensures { result.now ≡ take count list.now }
{
    &list[..count]
}

/// The answers behind the first ones.
fn rest(list: &[Answer], count: usize) -> &[Answer]
    requires { count ≤ length list.now }
    ensures { result.now ≡ drop count list.now }
{
    &list[count..]
}

/// Whether two tallies are one.
pub fn is_tally(one: Tally, other: Tally) -> bool
    ensures { result ≡ same_tally one other }
{
    let sizes = both(one.memory == other.memory, one.disk == other.disk);
    let counts = both(one.pieces == other.pieces, one.files == other.files);
    both(sizes, counts)
}

/// Whether a group with so many own answers may come after a history that goes on.
fn judge_rest(course: &mut Course, group: &Group, count: usize) -> Result<bool, NoMemory>
    ensures { IfOk result (λ legal. (s : Session) (h : History) → FollowsCourse s h course.old
        → has_ended h ≡ false → OwnFound s h group.now.event group.now.answers (Some count)
        → Judged s h group.now course.new legal) }
{
    let answers = group.answers.as_slice();
    if count > answers.len() {
        return Ok(false);
    }
    take_line(course, &group.event, front(answers, count))?;
    let unremoved = left_files(course.contents.alloc, answers)?;
    let owed = settle(course, unremoved.as_slice())?;
    if !are_same(rest(answers, count), owed.as_slice()) {
        return Ok(false);
    }
    let tally = course.contents.tally()?;
    Ok(is_tally(group.tally, tally))
}

/// Whether the group may come after a history that goes on. What is kept is then that of the
/// history with it.
pub fn judge(course: &mut Course, group: &Group) -> Result<bool, NoMemory>
    ensures { IfOk result (λ legal. (s : Session) (h : History) → FollowsCourse s h course.old
        → has_ended h ≡ false → Judged s h group.now course.new legal) }
{
    let found = own_count(&course.contents, &group.event, group.answers.as_slice())?;
    match found {
        Some(count) => {
            let legal = judge_rest(course, group, count)?;
            Ok(legal)
        }
        None => Ok(false),
    }
}
