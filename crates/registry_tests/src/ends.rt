use crate::script::{Call, run};
use blob_words::Status;
use std::test::Fail;

#[test]
fn blobs_are_done_after_their_sources(rt: HostRuntime) -> Result<(), Fail> {
    let calls = [
        Call::Wait(1, &[]),
        Call::Build(2, &[1]),
        Call::Build(3, &[2, 1]),
        Call::Build(4, &[]),
        Call::Hold(1),
        Call::Hold(2),
        Call::Hold(3),
        Call::Hold(4),
        Call::Finish(&[(4, Status::Done)]),
        Call::Finish(&[]),
        Call::Grant(1),
        Call::Stands(1, Some(Status::PendingTransport)),
        Call::Finish(&[(1, Status::Done), (2, Status::Done), (3, Status::Done)]),
        Call::Finish(&[]),
        Call::Count(4),
    ];
    assert_eq!(rt; run(rt.alloc(), &calls)?, None);
    Ok(())
}

#[test]
fn dependents_break_in_the_pass_of_their_source(rt: HostRuntime) -> Result<(), Fail> {
    let calls = [
        Call::Wait(1, &[]),
        Call::Build(2, &[1]),
        Call::Build(3, &[2]),
        Call::Wait(4, &[]),
        Call::Hold(2),
        Call::Hold(3),
        Call::Hold(4),
        Call::Die(1),
        Call::Finish(&[
            (1, Status::SourceDied),
            (2, Status::ReferencedBlobBroken),
            (3, Status::ReferencedBlobBroken),
        ]),
        Call::Sweep(&[]),
        Call::Stands(1, None),
        Call::Stands(3, Some(Status::ReferencedBlobBroken)),
        Call::Stands(4, Some(Status::PendingQuota)),
    ];
    assert_eq!(rt; run(rt.alloc(), &calls)?, None);
    Ok(())
}

#[test]
fn of_two_marks_a_failed_write_is_told(rt: HostRuntime) -> Result<(), Fail> {
    let calls = [
        Call::Build(1, &[]),
        Call::Build(2, &[]),
        Call::Build(3, &[]),
        Call::Hold(1),
        Call::Hold(2),
        Call::Die(1),
        Call::Fail(1),
        Call::Fail(2),
        Call::Die(2),
        Call::Die(3),
        Call::Sweep(&[3]),
        Call::Finish(&[(1, Status::FileWriteFailed), (2, Status::FileWriteFailed)]),
    ];
    assert_eq!(rt; run(rt.alloc(), &calls)?, None);
    Ok(())
}
