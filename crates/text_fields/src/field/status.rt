//! Words of statuses and switches, which stand in answers.

ghost use Rattle.std.specs.Prelude.{◌≡◌, true, refl};
ghost use Rattle.text_fields.specs.Keyword.{IsWordOf};
ghost use Rattle.text_fields.specs.Status.{status_word, is_told, is_broken, is_end, switch_word};
ghost use Rattle.text_fields.specs.Kind.{broken, ending, status, switch};

use crate::buffer::Buffer;
use crate::field::{Field, Spell};
use crate::keyword::{Keyword, find};
use crate::line_fault::LineFault;
use blob_source::Sink;
use blob_words::{Failed, Status};
use std::alloc::Global;

/// The word of a broken status.
#[derive(Clone, Copy, Debug, PartialEq, Eq)]
pub struct Broken(pub Status);

/// The word of a status with which a reader ends: a broken one, or `done`.
#[derive(Clone, Copy, Debug, PartialEq, Eq)]
pub struct Ending(pub Status);

/// The word of a status.
#[derive(Clone, Copy, Debug, PartialEq, Eq)]
pub struct Told(pub Status);

/// All statuses.
const STATUSES: [Status; 11] = [
    Status::InvalidArguments,
    Status::OutOfMemory,
    Status::FileWriteFailed,
    Status::SourceDied,
    Status::Dereferenced,
    Status::ReferencedBlobBroken,
    Status::ReferencedFileUnavailable,
    Status::Done,
    Status::PendingQuota,
    Status::PendingTransport,
    Status::PendingReferencedBlobs,
];

impl Keyword for Status {
    ghost text = { status_word };

    fn text(self) -> &'static [u8] {
        match self {
            Status::InvalidArguments => b"invalid-construction-arguments",
            Status::OutOfMemory => b"out-of-memory",
            Status::FileWriteFailed => b"file-write-failed",
            Status::SourceDied => b"source-died-in-transit",
            Status::Dereferenced => b"dropped",
            Status::ReferencedBlobBroken => b"referenced-blob-broken",
            Status::ReferencedFileUnavailable => b"referenced-file-unavailable",
            Status::Done => b"done",
            Status::PendingQuota => b"pending-quota",
            Status::PendingTransport => b"pending-transport",
            Status::PendingReferencedBlobs => b"pending-referenced-blobs",
        }
    }
}

fn read_status(text: &[u8]) -> Option<Status>
    ensures { IsWordOf status_word text.now result }
{
    find(&STATUSES, text)
}

fn is_broken(status: Status) -> bool
    ensures { result ≡ is_broken status }
{
    match status {
        Status::InvalidArguments => true,
        Status::OutOfMemory => true,
        Status::FileWriteFailed => true,
        Status::SourceDied => true,
        Status::Dereferenced => false,
        Status::ReferencedBlobBroken => true,
        Status::ReferencedFileUnavailable => true,
        Status::Done => false,
        Status::PendingQuota => false,
        Status::PendingTransport => false,
        Status::PendingReferencedBlobs => false,
    }
}

fn is_end(status: Status) -> bool
    ensures { result ≡ is_end status }
{
    match status {
        Status::InvalidArguments => true,
        Status::OutOfMemory => true,
        Status::FileWriteFailed => true,
        Status::SourceDied => true,
        Status::Dereferenced => false,
        Status::ReferencedBlobBroken => true,
        Status::ReferencedFileUnavailable => true,
        Status::Done => true,
        Status::PendingQuota => false,
        Status::PendingTransport => false,
        Status::PendingReferencedBlobs => false,
    }
}

fn is_told(status: Status) -> bool
    ensures { result ≡ is_told status }
{
    match status {
        Status::InvalidArguments => true,
        Status::OutOfMemory => true,
        Status::FileWriteFailed => true,
        Status::SourceDied => true,
        Status::Dereferenced => false,
        Status::ReferencedBlobBroken => true,
        Status::ReferencedFileUnavailable => true,
        Status::Done => true,
        Status::PendingQuota => true,
        Status::PendingTransport => true,
        Status::PendingReferencedBlobs => true,
    }
}

impl Spell for Broken {
    ghost spell = { λ value. status_word value.0 };

    fn put<K: Sink>(&self, buffer: &mut Buffer, out: &mut K) -> Result<(), Failed> {
        buffer.put(out, self.0.text())
    }
}

impl Field for Broken {
    ghost kind = { broken };

    ghost Fits = { λ value. is_broken value.0 ≡ true };

    ghost spelled = { λ value fits. (value.0, fits, refl) };

    fn read(_alloc: Global, text: &[u8]) -> Result<Self, LineFault> {
        match read_status(text) {
            Some(status) => {
                if is_broken(status) {
                    return Ok(Broken(status));
                }
                Err(LineFault::Word)
            }
            None => Err(LineFault::Word),
        }
    }
}

impl Spell for Ending {
    ghost spell = { λ value. status_word value.0 };

    fn put<K: Sink>(&self, buffer: &mut Buffer, out: &mut K) -> Result<(), Failed> {
        buffer.put(out, self.0.text())
    }
}

impl Field for Ending {
    ghost kind = { ending };

    ghost Fits = { λ value. is_end value.0 ≡ true };

    ghost spelled = { λ value fits. (value.0, fits, refl) };

    fn read(_alloc: Global, text: &[u8]) -> Result<Self, LineFault> {
        match read_status(text) {
            Some(status) => {
                if is_end(status) {
                    return Ok(Ending(status));
                }
                Err(LineFault::Word)
            }
            None => Err(LineFault::Word),
        }
    }
}

impl Spell for Told {
    ghost spell = { λ value. status_word value.0 };

    fn put<K: Sink>(&self, buffer: &mut Buffer, out: &mut K) -> Result<(), Failed> {
        buffer.put(out, self.0.text())
    }
}

impl Field for Told {
    ghost kind = { status };

    ghost Fits = { λ value. is_told value.0 ≡ true };

    ghost spelled = { λ value fits. (value.0, fits, refl) };

    fn read(_alloc: Global, text: &[u8]) -> Result<Self, LineFault> {
        match read_status(text) {
            Some(status) => {
                if is_told(status) {
                    return Ok(Told(status));
                }
                Err(LineFault::Word)
            }
            None => Err(LineFault::Word),
        }
    }
}

impl Spell for bool {
    ghost spell = { switch_word };

    fn put<K: Sink>(&self, buffer: &mut Buffer, out: &mut K) -> Result<(), Failed> {
        if *self {
            return buffer.put(out, b"on");
        }
        buffer.put(out, b"off")
    }
}

impl Field for bool {
    ghost kind = { switch };

    ghost Fits = { λ _. Unit {0} };

    ghost spelled = { λ value fits. (value, refl) };

    fn read(_alloc: Global, text: &[u8]) -> Result<Self, LineFault> {
        if text == b"on".as_slice() {
            return Ok(true);
        }
        if text == b"off".as_slice() {
            return Ok(false);
        }
        Err(LineFault::Word)
    }
}
