ghost use Rattle.std.specs.Prelude.{◌≡◌, ◌≢◌, ◌≤◌, [], false, length, IfOk};
ghost use Rattle.std.specs.Io.KnownBytes.{prepend_known};
ghost use Rattle.blob_words.specs.declared.bounds.TheConstants.{LONGEST_LINE};
ghost use Rattle.blob_source.specs.Faults.{Rose};
ghost use Rattle.blob_source.specs.Lines.{Takes, has_line_feed};

use crate::ahead::Ahead;
use crate::line_buffer::LineBuffer;
use crate::line_step::LineStep;
use crate::source::Source;
use crate::take::take_line;
use blob_words::NoMemory;
use std::alloc::Global;
use std::marker::Model;

/// Reads a source line by line. Contracts see a `Reading`: the bytes read and not taken yet, the
/// last line and the last answer.
#[derive(Debug, Drop)]
pub struct LineReader {
    ahead: Ahead,
    line: LineBuffer,
    last: LineStep,
}

impl Model for LineReader {
    ghost use Rattle.std.specs.Prelude.{◌≡◌, ◌≤◌, false, length};
    ghost use Rattle.blob_words.specs.declared.bounds.TheConstants.{LONGEST_LINE};
    ghost use Rattle.blob_source.specs.declared.line_step.LineStep.TheVariants.{Line};
    ghost use Rattle.blob_source.specs.Lines.{Reading, has_line_feed};

    ghost Value = { Reading };

    ghost view = { λ reader. record {
      ahead = reader.ahead;
      line = reader.line;
      last = reader.last;
    } };

    ghost invariant = { λ reader. reader.last ≡ Line →
        (length reader.line ≤ LONGEST_LINE) × (has_line_feed reader.line ≡ false) };
}

impl LineReader {
    /// Takes the room for the longest line and for reading ahead.
    pub fn new(alloc: Global) -> Result<LineReader, NoMemory>
        ensures { IfOk result (λ reader. reader ≡ record {
          ahead = [];
          line = [];
          last = LineStep.Line;
        }) }
    {
        let ahead = Ahead::new(alloc)?;
        let line = LineBuffer::new(alloc)?;
        Ok(LineReader {
            ahead,
            line,
            last: LineStep::Line,
        })
    }

    /// Looks for the next line. After any answer but `Line` each further call gives that answer
    /// again and touches nothing.
    pub fn next_line<S: Source>(&mut self, source: &mut S) -> LineStep
        ensures step { self.old.last ≡ LineStep.Line →
            Takes (prepend_known self.old.ahead (S.left source.old))
            (prepend_known self.new.ahead (S.left source.new)) self.new.line result }
        ensures good { result ≢ LineStep.ReadFault → S.faults source.new ≡ S.faults source.old }
        ensures cause { self.old.last ≡ LineStep.Line → result ≡ LineStep.ReadFault →
            Rose (S.faults source.old) (S.faults source.new) }
        ensures later { S.faults source.old ≤ S.faults source.new }
        ensures again { self.old.last ≢ LineStep.Line →
            (result ≡ self.old.last) × (self.new ≡ self.old) × (source.new ≡ source.old) }
        ensures last { self.new.last ≡ result }
    {
        if self.last != LineStep::Line {
            return self.last;
        }
        self.line.clear();
        let step = take_line(&mut self.ahead, &mut self.line, source);
        self.last = step;
        step
    }

    /// The last line, without its line feed.
    pub fn line(&self) -> &[u8]
        requires { self.now.last ≡ LineStep.Line }
        ensures bytes { result.now ≡ self.now.line }
        ensures short { length result.now ≤ LONGEST_LINE }
        ensures plain { has_line_feed result.now ≡ false }
    {
        self.line.as_slice()
    }
}
