//! How each blob stands, read off the answers.
ghost use Rattle.std.specs.Prelude.{◌≡◌, ℕ, ◌||◌, ◌==◌, [], None, Some, false, if◌then◌else◌, is_none, OnOk};
ghost use Rattle.std.specs.Option.{option_map_or};
ghost use Rattle.blob_model.specs.Standing.{ended_after, is_done_status, is_broken_status, was_granted_after, grants_at_once};
ghost use Rattle.history_notions.specs.Kept.{ended_in, was_granted_in};

use answer_text::Answer;
use blob_words::{BlobName, NoMemory, Plan, Status};
use std::alloc::Global;
use std::collections::BTreeMap;
use std::marker::Model;

/// How blobs ended. Contracts see the names that ended, with their statuses.
#[derive(Debug, Drop)]
pub struct Endings {
    // Names come from outside: an ordered map, so that no choice of them makes a look-up slow.
    statuses: BTreeMap<u128, Status>,
}

impl Model for Endings {
    ghost use Rattle.std.specs.Prelude.{ℕ, List};
    ghost use Rattle.blob_words.specs.declared.status.Status.{Status};

    ghost Value = { List (ℕ × Status) };

    ghost view = { λ endings. endings.statuses.entries };
}

/// The blobs that were granted by an answer. Contracts see their names.
#[derive(Debug, Drop)]
pub struct Granted {
    names: Vec<BlobName>,
}

impl Model for Granted {
    ghost use Rattle.std.specs.Prelude.{ℕ, List};

    ghost Value = { List ℕ };

    ghost view = { λ granted. granted.names.items };
}

impl Endings {
    /// No blob ended.
    pub fn new(alloc: Global) -> Endings
        ensures { (name : ℕ) → ended_in result name ≡ None }
    {
        Endings {
            statuses: BTreeMap::new(alloc),
        }
    }

    /// The status with which the blob ended, or nothing while it is unfinished.
    pub fn ended(&self, name: BlobName) -> Option<Status>
        ensures { result ≡ ended_in self.now name }
    {
        self.statuses.get(&name.number()).copied()
    }

    /// Whether the blob is unfinished.
    pub fn is_unfinished(&self, name: BlobName) -> bool
        ensures { result ≡ is_none (ended_in self.now name) }
    {
        self.ended(name).is_none()
    }

    /// Whether the blob is done.
    pub fn is_done(&self, name: BlobName) -> bool
        ensures { result ≡ option_map_or is_done_status (ended_in self.now name) false }
    {
        match self.ended(name) {
            Some(status) => is_done_status(status),
            None => false,
        }
    }

    /// Whether the blob is broken.
    pub fn is_broken(&self, name: BlobName) -> bool
        ensures { result ≡ option_map_or is_broken_status (ended_in self.now name) false }
    {
        match self.ended(name) {
            Some(status) => is_broken_status(status),
            None => false,
        }
    }

    fn end(&mut self, name: BlobName, status: Status) -> Result<(), NoMemory>
        ensures { OnOk result ((other : ℕ) → ended_in self.new other
            ≡ (if name == other then Some status else ended_in self.old other)) }
    {
        let _ = self.statuses.insert(name.number(), status)?;
        Ok(())
    }

    /// `done`, `broken` and `dropped` end a blob.
    pub fn hear(&mut self, answer: &Answer) -> Result<(), NoMemory>
        ensures { OnOk result ((other : ℕ) → ended_in self.new other
            ≡ ended_after answer.now other (ended_in self.old other)) }
    {
        match answer {
            Answer::Done(b) => self.end(*b, Status::Done),
            Answer::Broken(b, status) => self.end(*b, *status),
            Answer::Dropped(b) => self.end(*b, Status::Dereferenced),
            _ => Ok(()),
        }
    }
}

impl Granted {
    /// No blob was granted.
    pub fn new(alloc: Global) -> Granted
        ensures { result ≡ [] }
    {
        Granted {
            names: Vec::new(alloc),
        }
    }

    /// Whether the blob was granted by an answer.
    pub fn has(&self, name: BlobName) -> bool
        ensures { result ≡ was_granted_in self.now name }
    {
        is_among(&self.names, name)
    }

    /// A blob whose bytes wait for room in memory is granted by an answer.
    pub fn hear(&mut self, answer: &Answer) -> Result<(), NoMemory>
        ensures { OnOk result ((other : ℕ) → was_granted_in self.new other
            ≡ was_granted_after answer.now other (was_granted_in self.old other)) }
    {
        if let Answer::Granted(b) = answer {
            self.names.push(*b)?;
        }
        Ok(())
    }
}

fn is_among(names: &[BlobName], name: BlobName) -> bool
    ensures { result ≡ was_granted_in names.now name }
{
    names.iter().any(|one| *one == name)
}

/// Whether the status is that of a done blob.
pub fn is_done_status(status: Status) -> bool
    ensures { result ≡ is_done_status status }
{
    matches!(status, Status::Done)
}

/// Whether the status is one with which a blob breaks.
pub fn is_broken_status(status: Status) -> bool
    ensures { result ≡ is_broken_status status }
{
    matches!(
        status,
        Status::InvalidArguments
            | Status::OutOfMemory
            | Status::FileWriteFailed
            | Status::SourceDied
            | Status::ReferencedBlobBroken
            | Status::ReferencedFileUnavailable
    )
}

/// The plans that grant a blob at its own line.
pub fn grants_at_once(plan: Plan) -> bool
    ensures { result ≡ grants_at_once plan }
{
    matches!(plan, Plan::None | Plan::Inline | Plan::File(_))
}

/// Whether the own bytes of a blob of this name and plan have their room.
pub fn is_granted(granted: &Granted, name: BlobName, plan: Option<Plan>) -> bool
    ensures { result ≡ (option_map_or grants_at_once plan false
        || was_granted_in granted.now name) }
{
    if let Some(plan) = plan {
        if grants_at_once(plan) {
            return true;
        }
    }
    granted.has(name)
}
