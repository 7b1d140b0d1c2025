ghost use Rattle.std.specs.Prelude.{◌≡◌, ◌≢◌, ◌<◌, ◌≤◌, [], length};
ghost use Rattle.std.specs.Io.KnownBytes.{prepend_known};
ghost use Rattle.blob_words.specs.declared.bounds.TheConstants.{LONGEST_LINE};
ghost use Rattle.blob_source.specs.Faults.{Rose};
ghost use Rattle.blob_source.specs.Lines.{Takes};
ghost use Rattle.blob_source.specs.Parts.{TakesPiece};

use crate::ahead::Ahead;
use crate::filled::Filled;
use crate::find::find_byte;
use crate::line_buffer::LineBuffer;
use crate::line_step::LineStep;
use crate::piece::Piece;
use crate::source::Source;
use blob_words::bounds::LONGEST_LINE;

// Moves bytes from those ahead to the line, up to a line feed or to one byte too many.
fn take_piece(ahead: &mut Ahead, line: &mut LineBuffer) -> Piece
    requires some { 0 < length ahead.old }
    requires short { length line.old ≤ LONGEST_LINE }
    ensures { TakesPiece ahead.old ahead.new line.old line.new result }
{
    let room = LONGEST_LINE + 1 - line.as_slice().len();
    let count = ahead.as_slice().len().min(room);
    let bytes = &ahead.as_slice()[..count];
    match find_byte(b'\n', bytes) {
        Some(place) => {
            line.append(&bytes[..place]);
            ahead.skip(place + 1);
            Piece::Line
        }
        None => {
            line.append(bytes);
            ahead.skip(count);
            if count == room {
                return Piece::TooLong;
            }
            Piece::More
        }
    }
}

// Takes the next line of the bytes ahead and the source.
pub fn take_line<S: Source>(ahead: &mut Ahead, line: &mut LineBuffer, source: &mut S) -> LineStep
    requires { line.old ≡ [] }
    ensures step { Takes (prepend_known ahead.old (S.left source.old))
        (prepend_known ahead.new (S.left source.new)) line.new result }
    ensures good { result ≢ LineStep.ReadFault → S.faults source.new ≡ S.faults source.old }
    ensures cause { result ≡ LineStep.ReadFault → Rose (S.faults source.old) (S.faults source.new) }
    ensures later { S.faults source.old ≤ S.faults source.new }
{
    'pieces: loop {
        match ahead.fill(source) {
            Filled::Fault => return LineStep::ReadFault,
            Filled::End => {
                if line.as_slice().is_empty() {
                    return LineStep::End;
                }
                return LineStep::Unended;
            }
            Filled::Some => match take_piece(ahead, line) {
                Piece::Line => return LineStep::Line,
                Piece::TooLong => return LineStep::TooLong,
                Piece::More => {}
            },
        }
    }
}
