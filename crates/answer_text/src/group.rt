use crate::answer::Answers;
use blob_words::{ItemList, Tally};
use session_script::Event;

/// What one line of a session led to.
#[derive(Debug, Drop)]
pub struct Group {
    pub event: Event,
    pub answers: Answers,
    pub tally: Tally,
}

/// The groups of a transcript, in their order.
pub type Groups = ItemList<Group>;
