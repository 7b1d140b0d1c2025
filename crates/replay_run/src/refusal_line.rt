//! The last line of a session that was refused.

ghost use Rattle.std.specs.Prelude.{◌≡◌, ◌∷◌, [], codes, decimal};
ghost use Rattle.text_fields.specs.Fields.{joined};
ghost use Rattle.text_fields.specs.Output.{IsPutTo};
ghost use Rattle.replay_run.specs.Reason.{reason_text};

use crate::reason::Reason;
use blob_source::Sink;
use blob_words::Failed;
use text_fields::buffer::Buffer;
use text_fields::field::Spell;
use text_fields::literal::Literal;
use text_fields::values::Values;

/// `!`, the number of the line that was refused, from 1, and why.
#[derive(Clone, Copy, Debug, PartialEq, Eq)]
pub struct RefusalLine {
    pub number: u32,
    pub reason: Reason,
}

fn put_words<K: Sink>(buffer: &mut Buffer, out: &mut K, line: &RefusalLine) -> Result<(), Failed>
    ensures { IsPutTo K.Sink out.old out.new buffer.old buffer.new
        (joined 32 (codes "!" ∷ decimal line.now.number
        ∷ reason_text line.now.reason ∷ [])) result }
{
    let word = Literal {
        text: line.reason.text(),
    };
    match buffer.put_byte(out, b'!') {
        Ok(()) => (line.number, word).put_all(buffer, out, b' '),
        Err(Failed) => Err(Failed),
    }
}

impl Spell for RefusalLine {
    ghost use Rattle.replay_run.specs.Text.{refusal_line};

    ghost spell = { λ line. refusal_line line.number line.reason };

    fn put<K: Sink>(&self, buffer: &mut Buffer, out: &mut K) -> Result<(), Failed> {
        match put_words(buffer, out, self) {
            Ok(()) => buffer.put_byte(out, b'\n'),
            Err(Failed) => Err(Failed),
        }
    }
}
