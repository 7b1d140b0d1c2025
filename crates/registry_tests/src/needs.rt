use crate::script::{Call, run};
use blob_words::Status;
use std::test::Fail;

// The blob that is the first to be built has the build number 0.
#[test]
fn those_who_need_a_blob_are_told(rt: HostRuntime) -> Result<(), Fail> {
    let calls = [
        Call::Wait(1, &[]),
        Call::Wait(2, &[1]),
        Call::Build(3, &[1, 2, 1]),
        Call::Needed(1, &[1, 2]),
        Call::Needed(2, &[2]),
        Call::Hold(1),
        Call::Hold(3),
        Call::Grant(1),
        Call::Finish(&[(1, Status::Done)]),
        Call::Needed(1, &[1, 2]),
        Call::Grant(2),
        Call::Finish(&[(2, Status::Done), (3, Status::Done)]),
        Call::Needed(1, &[]),
        Call::Needed(2, &[]),
    ];
    assert_eq!(rt; run(rt.alloc(), &calls)?, None);
    Ok(())
}

#[test]
fn unfinished_blobs_keep_their_sources(rt: HostRuntime) -> Result<(), Fail> {
    let calls = [
        Call::Wait(1, &[]),
        Call::Build(2, &[1]),
        Call::Build(3, &[2]),
        Call::Hold(1),
        Call::Hold(3),
        Call::Hold(3),
        Call::LetGo(1),
        Call::Sweep(&[]),
        Call::LetGo(3),
        Call::Sweep(&[]),
        Call::Count(3),
        Call::LetGo(3),
        Call::Sweep(&[3, 2, 1]),
        Call::Count(0),
        Call::Used(2),
        Call::Build(4, &[]),
        Call::Count(1),
    ];
    assert_eq!(rt; run(rt.alloc(), &calls)?, None);
    Ok(())
}

#[test]
fn done_blobs_let_their_sources_go(rt: HostRuntime) -> Result<(), Fail> {
    let calls = [
        Call::Build(1, &[]),
        Call::Build(2, &[1]),
        Call::Hold(2),
        Call::Sweep(&[]),
        Call::Finish(&[(1, Status::Done), (2, Status::Done)]),
        Call::Sweep(&[]),
        Call::Stands(1, None),
        Call::Stands(2, Some(Status::Done)),
        Call::LetGo(2),
        Call::Sweep(&[]),
        Call::Count(0),
    ];
    assert_eq!(rt; run(rt.alloc(), &calls)?, None);
    Ok(())
}
