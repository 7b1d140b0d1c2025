//! What is owed after a line's own answers.
ghost use Rattle.std.specs.Prelude.{◌≡◌, ◌++◌, [], IfOk, OnOk};
ghost use Rattle.blob_model.specs.Session.{Session};
ghost use Rattle.blob_model.specs.History.{History, said_all};
ghost use Rattle.blob_model.specs.Settle.{drops, settle};
ghost use Rattle.history_notions.specs.FollowsCourse.{FollowsCourse};

use crate::drops::drops;
use crate::endings::endings;
use crate::giving::{give_all, give_one};
use crate::grants::grants;
use crate::removals::removals;
use crate::starts::{compaction, page_job};
use answer_text::Answers;
use blob_words::{ItemList, NoMemory};
use history_notions::course::Course;

/// The unfinished blobs are dropped that live no more since others ended. Where nothing was owed
/// before, none is.
fn put_orphans(course: &mut Course, owed: &mut Answers) -> Result<(), NoMemory>
    ensures { OnOk result ((s : Session) (h : History) → FollowsCourse s h course.old
        → (owed.old ≡ [] → drops s h ≡ []) → (owed.new ≡ owed.old ++ drops s h)
        × FollowsCourse s (said_all h (drops s h)) course.new) }
{
    if owed.len() == 0 {
        return Ok(());
    }
    let orphans = drops(&course.contents)?;
    give_all(course, owed, orphans)?;
    Ok(())
}

/// All that is owed after a line's own answers, where the page files `unremoved` could not be
/// removed; what is kept is then that of the history with it.
pub fn settle(course: &mut Course, unremoved: &[u32]) -> Result<Answers, NoMemory>
    ensures { IfOk result (λ owed. (s : Session) (h : History) → FollowsCourse s h course.old
        → (owed ≡ settle s unremoved.now h) × FollowsCourse s (said_all h owed) course.new) }
{
    let mut owed = ItemList::new(course.contents.alloc);
    let lost = drops(&course.contents)?;
    give_all(course, &mut owed, lost)?;
    endings(course, &mut owed)?;
    put_orphans(course, &mut owed)?;
    let gone = removals(&course.contents, unremoved)?;
    give_all(course, &mut owed, gone)?;
    grants(course, &mut owed)?;
    let job = page_job(course)?;
    give_one(course, &mut owed, job)?;
    let moved = compaction(&course.contents)?;
    give_one(course, &mut owed, moved)?;
    Ok(owed)
}
