use crate::answer::Answer as AnAnswer;
use blob_words::Tally as ATally;

/// A line of a group behind that of its event.
#[derive(Debug, Drop)]
pub enum Further {
    Answer(AnAnswer),
    /// The last line of the group.
    Tally(ATally),
}
