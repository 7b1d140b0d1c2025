//! Why a line is refused.
ghost use Rattle.std.specs.Prelude.{◌≡◌, IfOk};
ghost use Rattle.blob_model.specs.Session.{Session};
ghost use Rattle.blob_model.specs.History.{History};
ghost use Rattle.blob_model.specs.Refusals.{refusal};
ghost use Rattle.history_notions.specs.Follows.{Follows};

use answer_text::Refusal;
use blob_words::NoMemory;
use history_notions::contents::Contents;
use session_script::Event;

/// The first refusal that applies to a line, or none.
pub fn refusal(contents: &Contents, event: &Event) -> Result<Option<Refusal>, NoMemory>
    ensures { IfOk result (λ why. (s : Session) (h : History) → Follows s h contents.now
        → why ≡ refusal s h event.now) }
{
    let kept = &contents.kept;
    match event {
        Event::Limits(_) | Event::Limits2(_) => Ok(Some(Refusal::LimitsAgain)),
        Event::Spawn { r, .. } => Ok(kept.spawn_refusal(*r)),
        Event::Die { r } => Ok(kept.renderer_refusal(*r)),
        Event::File { name, stamp, .. } => Ok(kept.file_refusal(name, *stamp)),
        Event::Gone { name } => Ok(kept.gone_refusal(name)),
        Event::Build { r, b, parts, .. } => {
            let why = contents.build_refusal(*r, *b, parts.as_slice())?;
            Ok(why)
        }
        Event::Slice {
            r,
            b,
            src,
            start,
            end,
            ..
        } => {
            let why = contents.slice_refusal(*r, *b, *src, *start, *end)?;
            Ok(why)
        }
        Event::Segment { r, b, seg, bytes } => contents.segment_refusal(*r, *b, *seg, bytes),
        Event::Pass { r, to, b } => Ok(kept.pass_refusal(*r, *to, *b)),
        Event::Drop { r, b } => Ok(kept.handle_refusal(*r, *b)),
        Event::Stat { r, b } => Ok(kept.handle_refusal(*r, *b)),
        Event::Url { r, b, text } => {
            let why = contents.url_refusal(*r, *b, text)?;
            Ok(why)
        }
        Event::Revoke { r, .. } => Ok(kept.renderer_refusal(*r)),
        Event::Read { r, q, b, off, len } => contents.read_refusal(*r, *q, *b, *off, *len),
        Event::Fetch {
            r,
            q,
            text,
            off,
            len,
        } => contents.fetch_refusal(*r, *q, text, *off, *len),
        Event::Step { q } => Ok(contents.step_refusal(*q)),
        Event::Cancel { r, q } => Ok(contents.cancel_refusal(*r, *q)),
        Event::Disk { j } => Ok(kept.job_refusal(*j)),
        Event::Lost { j } => Ok(kept.job_refusal(*j)),
        Event::Count | Event::Finish => Ok(None),
    }
}
