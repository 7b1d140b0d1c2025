//! The one own answer of an accepted line.
ghost use Rattle.std.specs.Prelude.{◌≡◌, IfOk};
ghost use Rattle.blob_model.specs.Session.{Session};
ghost use Rattle.blob_model.specs.History.{History};
ghost use Rattle.history_notions.specs.Follows.{Follows};
ghost use Rattle.transcript_audit.specs.OwnTests.{is_single};

use crate::disk::{is_disk_answer, is_filed};
use crate::equal::both;
use crate::own::{
    is_build_answer, is_count_answer, is_fetch_answer, is_opened_on, is_revoke_answer,
    is_slice_answer, is_stat_answer,
};
use crate::step::is_step_answer;
use crate::told::{is_good, is_lost_job, is_taken};
use answer_text::Answer;
use blob_words::NoMemory;
use history_notions::contents::Contents;
use session_script::Event;

/// Whether the answer is the one own answer of the line, where that is accepted.
pub fn is_single(contents: &Contents, event: &Event, answer: &Answer) -> Result<bool, NoMemory>
    ensures { IfOk result (λ is_own. (s : Session) (h : History) → Follows s h contents.now
        → is_own ≡ is_single s h event.now answer.now) }
{
    match event {
        Event::Build { r, b, parts, .. } => {
            let is_own = is_build_answer(contents, answer, *r, *b, parts.as_slice())?;
            Ok(is_own)
        }
        Event::Slice {
            r,
            b,
            src,
            start,
            end,
            ..
        } => {
            let is_own = is_slice_answer(contents, answer, *r, *b, *src, *start, *end)?;
            Ok(is_own)
        }
        Event::Segment { b, seg, .. } => {
            let is_held = !is_filed(contents, *b);
            Ok(both(is_held, is_taken(answer, *seg)))
        }
        Event::Stat { r, b } => {
            let is_own = is_stat_answer(contents, answer, *r, *b)?;
            Ok(is_own)
        }
        Event::Revoke { r, text } => Ok(is_revoke_answer(contents, answer, *r, text)),
        Event::Read { q, b, .. } => Ok(is_opened_on(contents, answer, *q, *b)),
        Event::Fetch { r, q, text, .. } => Ok(is_fetch_answer(contents, answer, *r, *q, text)),
        Event::Step { q } => {
            let is_own = is_step_answer(contents, answer, *q)?;
            Ok(is_own)
        }
        Event::Disk { j } => {
            let is_own = is_disk_answer(contents, answer, *j)?;
            Ok(is_own)
        }
        Event::Lost { j } => Ok(is_lost_job(answer, *j)),
        Event::Count => {
            let is_own = is_count_answer(contents, answer)?;
            Ok(is_own)
        }
        _ => Ok(is_good(answer)),
    }
}
