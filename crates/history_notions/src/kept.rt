//! What is kept of a history, and how a line or an answer changes it.
ghost use Rattle.std.specs.Prelude.{OnOk};
ghost use Rattle.blob_model.specs.History.{History, start, heard, refused, said};
ghost use Rattle.session_script.specs.declared.event.Event.{Event};
ghost use Rattle.answer_text.specs.declared.refusal.Refusal.{Refusal};
ghost use Rattle.history_notions.specs.Keeps.{Keeps, Takes};

use crate::entries::{self, Entry};
use crate::handles::Holds;
use crate::jobs::{
    Job, data_blob_of, in_flight_after, next_job_after, paging_after, turns_off, unstored_after,
};
use crate::pages::{Page, asked_after, next_page_after, pages_after};
use crate::recorded::{self, Note};
use crate::renderers::{Dead, Renderer, spawned_after};
use crate::standing::{Endings, Granted};
use crate::transport::{self, Brought};
use answer_text::Answer;
use blob_words::{BlobName, FileName, ItemList, NoMemory};
use session_script::Event;
use std::alloc::Global;

/// What is kept of a history: what each notion is after it.
#[derive(Debug, Drop)]
pub struct Kept {
    pub alloc: Global,
    pub spawned: ItemList<Renderer>,
    pub dead: Dead,
    pub notes: ItemList<Note>,
    pub files: ItemList<FileName>,
    pub endings: Endings,
    pub granted: Granted,
    pub brought: ItemList<Brought>,
    pub holds: Holds,
    pub entries: Vec<Entry>,
    pub pages: ItemList<Page>,
    pub next_page: u64,
    pub asked: ItemList<u32>,
    pub job: Option<Job>,
    pub next_job: u64,
    pub paging: bool,
    pub turned_off: bool,
    pub data_blob: Option<BlobName>,
    pub unstored: Option<BlobName>,
}

impl Kept {
    /// Of a history without a line.
    pub fn new(alloc: Global) -> Kept
        ensures { Keeps start result }
    {
        Kept {
            alloc,
            spawned: ItemList::new(alloc),
            dead: Dead::new(alloc),
            notes: ItemList::new(alloc),
            files: ItemList::new(alloc),
            endings: Endings::new(alloc),
            granted: Granted::new(alloc),
            brought: ItemList::new(alloc),
            holds: Holds::new(alloc),
            entries: Vec::new(alloc),
            pages: ItemList::new(alloc),
            next_page: 0,
            asked: ItemList::new(alloc),
            job: None,
            next_job: 0,
            paging: true,
            turned_off: false,
            data_blob: None,
            unstored: None,
        }
    }

    // What an answer alone changes.
    fn take(&mut self, answer: &Answer) -> Result<(), NoMemory>
        ensures { OnOk result (Takes answer.now self.old self.new) }
    {
        self.endings.hear(answer)?;
        self.granted.hear(answer)?;
        pages_after(self.alloc, answer, &mut self.pages)?;
        asked_after(answer, &mut self.asked)?;
        let before = self.job.take();
        self.job = in_flight_after(self.alloc, answer, before)?;
        self.next_page = next_page_after(answer, self.next_page)?;
        self.next_job = next_job_after(answer, self.next_job)?;
        Ok(())
    }

    /// After a further answer.
    pub fn say(&mut self, answer: &Answer) -> Result<(), NoMemory>
        ensures { OnOk result ((h : History) → Keeps h self.old
            → Keeps (said h answer.now) self.new) }
    {
        self.take(answer)?;
        self.unstored = unstored_after(answer, self.data_blob, self.unstored);
        Ok(())
    }

    /// After an accepted line with its first answer.
    pub fn hear(&mut self, event: &Event, answer: &Answer) -> Result<(), NoMemory>
        ensures { OnOk result ((h : History) → Keeps h self.old
            → Keeps (heard h event.now answer.now) self.new) }
    {
        self.take(answer)?;
        spawned_after(self.alloc, event, &mut self.spawned)?;
        self.dead.hear(event)?;
        recorded::hear(self.alloc, event, &mut self.notes)?;
        recorded::file_names_after(self.alloc, event, &mut self.files)?;
        transport::hear(self.alloc, event, &mut self.brought)?;
        self.holds.hear(event)?;
        entries::hear(self.alloc, event, answer, &mut self.entries)?;
        self.paging = paging_after(answer, self.paging);
        self.turned_off = turns_off(answer);
        self.data_blob = data_blob_of(event);
        self.unstored = None;
        Ok(())
    }

    /// After a refused line.
    pub fn refuse(&mut self)
        ensures { (h : History) (event : Event) (why : Refusal) → Keeps h self.old
            → Keeps (refused h event why) self.new }
    {
        self.turned_off = false;
        self.data_blob = None;
        self.unstored = None;
    }
}
