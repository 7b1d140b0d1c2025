ghost use Rattle.std.specs.Prelude.{◌≡◌};
ghost use Rattle.blob_entries.specs.Statuses.{is_broken, is_done, is_pending};

use blob_words::Status;

// Whether a blob of this status is still to end.
pub fn is_pending(status: Status) -> bool
    ensures { result ≡ is_pending status }
{
    matches!(
        status,
        Status::PendingQuota | Status::PendingTransport | Status::PendingReferencedBlobs
    )
}

pub fn is_done(status: Status) -> bool
    ensures { result ≡ is_done status }
{
    matches!(status, Status::Done)
}

pub fn is_broken(status: Status) -> bool
    ensures { result ≡ is_broken status }
{
    matches!(
        status,
        Status::InvalidArguments
            | Status::OutOfMemory
            | Status::FileWriteFailed
            | Status::SourceDied
            | Status::ReferencedBlobBroken
            | Status::ReferencedFileUnavailable
    )
}
