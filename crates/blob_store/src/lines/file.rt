//! The line `file`.
ghost use Rattle.std.specs.Prelude.{OnOk, ◌≡◌, [], ◌∷◌, List, Option, IfOk, OnErr};

use crate::parts::Parts;
use answer_text::{Answer, Refusal};
use blob_words::{Counted, FileName, NoMemory, Octets};
use file_table::NoteFault;

impl Parts {
    ghost use Rattle.data_handles.specs.Table.{Table};
    ghost use Rattle.page_disk.specs.declared.change.Change.{Change};
    ghost use Rattle.session_script.specs.declared.event.Event.TheVariants as events;
    ghost use Rattle.blob_store.specs.Says.{scene, Says};
    ghost use Rattle.blob_store.specs.Whole.{IsWhole};

    /// A file has these bytes from a change stamp on.
    #[tactic(auto, unfolding(crate::specs::Whole::IsWhole))]
    pub fn file(&mut self, name: &FileName, stamp: u64, bytes: &Octets) -> Result<Answer, NoMemory>
        requires { IsWhole self.old }
        ensures whole { IsWhole self.new }
        ensures items { OnOk result (self.new.shares ≡ self.old.shares) }
        ensures says { IfOk result (λ answer. (told : Option (List Change)) (table : Table)
            → Says (events.File name.now stamp bytes.now) (answer ∷ [])
            (scene self.old told table) (scene self.new told table)) }
        ensures err { OnErr result (self.new ≡ self.old) }
    {
        match self.files.note(name, stamp, bytes.as_slice()) {
            Ok(()) => Ok(Answer::Good),
            Err(NoteFault::StaleStamp(last)) => Ok(Answer::Refused(Refusal::StaleStamp(last))),
            Err(NoteFault::Full) => Ok(Answer::Refused(Refusal::TooMany(Counted::Files))),
            Err(NoteFault::NoMemory) => Err(NoMemory),
        }
    }
}
