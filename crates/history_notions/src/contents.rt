//! What is kept of a history, the blobs with their content among it.
ghost use Rattle.std.specs.Prelude.{◌≡◌, ℕ, ◌||◌, OnOk};
ghost use Rattle.session_script.specs.declared.event.Event.{Event};
ghost use Rattle.answer_text.specs.declared.refusal.Refusal.{Refusal};
ghost use Rattle.blob_model.specs.Session.{Session, page_limit};
ghost use Rattle.blob_model.specs.Legal.{session};
ghost use Rattle.blob_model.specs.History.{History, start, heard, refused, said};
ghost use Rattle.blob_model.specs.Builds.{builds_after};
ghost use Rattle.blob_model.specs.Pieces.{pieces_from};
ghost use Rattle.blob_model.specs.Live.{is_rooted};
ghost use Rattle.history_notions.specs.Follows.{Follows};
ghost use Rattle.history_notions.specs.Silent.{outside_of};

use crate::blobs::Blobs;
use crate::builds::made_by;
use crate::kept::Kept;
use crate::pieces::{Piece, put_pieces};
use crate::readers::{self, OpenReader, is_read};
use answer_text::Answer;
use blob_words::{BlobName, ItemList, Limits, NoMemory, Octets64, Version};
use session_script::Event;
use std::alloc::Global;

/// What is kept of a history: the limits, the version and the sizes of the data handles, the blobs
/// with their content, their pieces, the open readers, and all that asks for no blob's content.
#[derive(Debug, Drop)]
pub struct Contents {
    pub alloc: Global,
    pub limits: Limits,
    pub version: Version,
    pub sizes: Octets64,
    pub kept: Kept,
    pub builds: Blobs,
    pub pieces: ItemList<Piece>,
    pub readers: Vec<OpenReader>,
}

impl Contents {
    /// Of a history without a line, over data handles of these sizes.
    pub fn new(alloc: Global, limits: Limits, version: Version, sizes: Octets64) -> Contents
        ensures { Follows (session (outside_of sizes) version limits) start result }
    {
        Contents {
            alloc,
            limits,
            version,
            sizes,
            kept: Kept::new(alloc),
            builds: Blobs::new(alloc),
            pieces: ItemList::new(alloc),
            readers: Vec::new(alloc),
        }
    }

    /// After a further answer.
    pub fn say(&mut self, answer: &Answer) -> Result<(), NoMemory>
        ensures { OnOk result ((s : Session) (h : History) → Follows s h self.old
            → Follows s (said h answer.now) self.new) }
    {
        self.kept.say(answer)?;
        Ok(())
    }

    /// After a refused line.
    pub fn refuse(&mut self)
        ensures { (s : Session) (h : History) (event : Event) (why : Refusal)
            → Follows s h self.old → Follows s (refused h event why) self.new }
    {
        self.kept.refuse();
    }

    // The blob that a line makes, and its pieces.
    fn put_made(&mut self, event: &Event, answer: &Answer) -> Result<(), NoMemory>
        ensures builds { OnOk result (self.new.builds
            ≡ builds_after self.old.limits.page event.now answer.now self.old.builds) }
        ensures pieces { OnOk result (self.old.pieces
            ≡ pieces_from self.old.limits.page 0 self.old.builds
            → self.new.pieces ≡ pieces_from self.old.limits.page 0 self.new.builds) }
        ensures kept { self.new.kept ≡ self.old.kept }
        ensures limits { self.new.limits ≡ self.old.limits }
        ensures version { self.new.version ≡ self.old.version }
        ensures sizes { self.new.sizes ≡ self.old.sizes }
        ensures readers { self.new.readers.items ≡ self.old.readers.items }
    {
        let page = self.limits.page;
        let made = made_by(self.alloc, page, event, answer, self.builds.as_slice())?;
        if let Some(build) = made {
            put_pieces(self.alloc, page, &build, &mut self.pieces)?;
            self.builds.push(build)?;
        }
        Ok(())
    }

    /// After an accepted line with its first answer.
    pub fn hear(&mut self, event: &Event, answer: &Answer) -> Result<(), NoMemory>
        ensures { OnOk result ((s : Session) (h : History) → Follows s h self.old
            → Follows s (heard h event.now answer.now) self.new) }
    {
        let builds = self.builds.as_slice();
        readers::hear(&self.kept, builds, event, answer, &mut self.readers)?;
        self.kept.hear(event, answer)?;
        self.put_made(event, answer)?;
        Ok(())
    }

    /// Whether a renderer holds the blob, a URL names it or a reader reads it.
    pub fn is_rooted(&self, name: BlobName) -> bool
        ensures { (s : Session) (h : History) → Follows s h self.now
            → result ≡ is_rooted (page_limit s) h name }
    {
        self.kept.is_held(name) || self.kept.is_named(name) || is_read(&self.readers, name)
    }
}
