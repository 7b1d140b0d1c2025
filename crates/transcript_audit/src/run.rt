//! What is kept of the groups of a transcript.
ghost use Rattle.std.specs.Prelude.{◌≡◌, ◌||◌, IfOk, OnOk};
ghost use Rattle.session_script.specs.declared.event.Event.{Event};
ghost use Rattle.blob_words.specs.declared.limits.Limits.{Limits};
ghost use Rattle.blob_model.specs.Session.{Session};
ghost use Rattle.blob_model.specs.History.{History, start, after, has_ended, history_from};
ghost use Rattle.blob_model.specs.Legal.{session, IsLegal};
ghost use Rattle.history_notions.specs.Silent.{outside_of};
ghost use Rattle.transcript_audit.specs.Runs.{ends, is_answered, is_quiet, FollowsRun, AreRun, Begins};

use crate::equal::{both, either};
use crate::judge::{is_tally, take_line};
use crate::told::is_good;
use answer_text::{Answer, Group};
use blob_words::{Limits, NoMemory, Octets64, Tally, Version};
use history_notions::course::Course;
use session_script::Event;
use std::alloc::Global;

/// What is kept of the groups after the first, and whether the `end` line was among them.
#[derive(Debug, Drop)]
pub struct Run {
    pub course: Course,
    pub ended: bool,
}

/// Whether the line was accepted.
fn is_accepted(answers: &[Answer]) -> bool
    ensures { result ≡ is_answered answers.now }
{
    match answers.first() {
        Some(Answer::Refused(_)) => false,
        Some(_) => true,
        None => false,
    }
}

/// Whether the line ends the session.
pub fn ends(event: &Event, answers: &[Answer]) -> bool
    ensures { result ≡ ends event.now answers.now }
{
    match event {
        Event::Finish => is_accepted(answers),
        _ => false,
    }
}

impl Run {
    /// Of a session without a line after its first.
    pub fn new(
        alloc: Global,
        limits: Limits,
        version: Version,
        sizes: &[u64],
    ) -> Result<Run, NoMemory>
        ensures { IfOk result (FollowsRun (session (outside_of sizes.now) version limits) start) }
    {
        let sizes = Octets64::from_slice(alloc, sizes)?;
        Ok(Run {
            course: Course::new(alloc, limits, version, sizes),
            ended: false,
        })
    }

    /// After one more group.
    fn take(&mut self, group: &Group) -> Result<(), NoMemory>
        ensures { OnOk result ((s : Session) (h : History) → FollowsRun s h self.old
            → FollowsRun s (after h group.now.event group.now.answers) self.new) }
    {
        let answers = group.answers.as_slice();
        take_line(&mut self.course, &group.event, answers)?;
        self.ended = either(self.ended, ends(&group.event, answers));
        Ok(())
    }
}

/// Whether these are the answers and the tally of a line that begins a session.
fn is_quiet(group: &Group) -> bool
    ensures { result ≡ is_quiet group.now }
{
    let nothing = Tally {
        pieces: 0,
        memory: 0,
        files: 0,
        disk: 0,
    };
    let Some((first, more)) = group.answers.as_slice().split_first() else {
        return false;
    };
    more.is_empty() && both(is_good(first), is_tally(group.tally, nothing))
}

/// The session that the group begins, where it begins one.
pub fn begin(alloc: Global, sizes: &[u64], group: &Group) -> Result<Option<Run>, NoMemory>
    ensures { IfOk result (Begins (outside_of sizes.now) group.now) }
{
    if !is_quiet(group) {
        return Ok(None);
    }
    match &group.event {
        Event::Limits(limits) => {
            let run = Run::new(alloc, *limits, Version::One, sizes)?;
            Ok(Some(run))
        }
        Event::Limits2(limits) => {
            let run = Run::new(alloc, *limits, Version::Two, sizes)?;
            Ok(Some(run))
        }
        _ => Ok(None),
    }
}

/// After these groups.
fn take_all(run: &mut Run, groups: &[Group]) -> Result<(), NoMemory>
    ensures { OnOk result ((s : Session) (h : History) → FollowsRun s h run.old
        → FollowsRun s (history_from h groups.now) run.new) }
{
    for group in groups {
        run.take(group)?;
    }
    Ok(())
}

/// What is kept of a legal transcript, where it has a group.
pub fn replay(alloc: Global, sizes: &[u64], groups: &[Group]) -> Result<Option<Run>, NoMemory>
    ensures { IfOk result (λ found. IsLegal (outside_of sizes.now) groups.now
        → AreRun (outside_of sizes.now) groups.now found) }
{
    let Some((first, more)) = groups.split_first() else {
        return Ok(None);
    };
    let began = begin(alloc, sizes, first)?;
    match began {
        Some(begun) => {
            let mut run = begun;
            take_all(&mut run, more)?;
            Ok(Some(run))
        }
        None => Ok(None),
    }
}
