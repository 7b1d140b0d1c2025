ghost use Rattle.std.specs.Prelude.{◌≡◌};

use blob_words::{Counted, Limits, Plan};
use std::test::Fail;
use transport_plan::{PlanInput, pieces_of, plan, segment_span};

/// A build with nothing in the store: so many bytes in the line, so many asked for.
fn input(limits: Limits, embedded: u64, asked: u64) -> PlanInput
    ensures { (result.embedded ≡ embedded) × (result.asked ≡ asked) }
{
    PlanInput {
        embedded,
        asked,
        pieces: 1,
        waiting: false,
        paging: true,
        memory_used: 0,
        disk_used: 0,
        limits,
    }
}

#[test]
fn the_first_plan_that_applies(rt: HostRuntime) -> Result<(), Fail> {
    let limits = Limits::new(8, 9, 8, 4, 4, 8, 8)?;
    assert_eq!(rt; plan(&input(limits, 0, 0)), Plan::None);
    assert_eq!(rt; plan(&input(limits, 4, 0)), Plan::Inline);
    assert_eq!(rt; plan(&input(limits, 5, 0)), Plan::Shared(2));
    assert_eq!(rt; plan(&input(limits, 3, 1)), Plan::Shared(1));
    assert_eq!(rt; plan(&input(limits, 0, 8)), Plan::Shared(2));
    let large = PlanInput {
        pieces: 2,
        ..input(limits, 0, 9)
    };
    assert_eq!(rt; plan(&large), Plan::File(2));
    Ok(())
}

#[test]
fn files_need_room_and_paging(rt: HostRuntime) -> Result<(), Fail> {
    let limits = Limits::new(8, 9, 8, 4, 4, 8, 8)?;
    let large = input(limits, 0, 9);
    let charged = PlanInput {
        disk_used: 1,
        ..large
    };
    assert_eq!(rt; plan(&charged), Plan::OutOfMemory);
    let full = PlanInput {
        disk_used: u64::MAX,
        ..large
    };
    assert_eq!(rt; plan(&full), Plan::OutOfMemory);
    let stopped = PlanInput {
        paging: false,
        ..large
    };
    assert_eq!(rt; plan(&stopped), Plan::OutOfMemory);
    Ok(())
}

#[test]
fn inline_needs_room_and_nobody_that_waits(rt: HostRuntime) -> Result<(), Fail> {
    let limits = Limits::new(8, 9, 8, 4, 4, 8, 8)?;
    let behind = PlanInput {
        waiting: true,
        ..input(limits, 4, 0)
    };
    assert_eq!(rt; plan(&behind), Plan::Shared(1));
    let tight = PlanInput {
        memory_used: 5,
        ..input(limits, 4, 0)
    };
    assert_eq!(rt; plan(&tight), Plan::Shared(1));
    let past = PlanInput {
        memory_used: u64::MAX,
        ..input(limits, 4, 0)
    };
    assert_eq!(rt; plan(&past), Plan::Shared(1));
    Ok(())
}

#[test]
fn plans_have_a_greatest_number(rt: HostRuntime) -> Result<(), Fail> {
    let limits = Limits::new(65_537, 65_537, 65_536, 0, 1, 1, 1)?;
    assert_eq!(rt; plan(&input(limits, 0, 65_536)), Plan::Shared(65_536));
    let filed = PlanInput {
        pieces: 65_536,
        ..input(limits, 0, 65_537)
    };
    assert_eq!(rt; plan(&filed), Plan::File(65_536));
    let pieces = PlanInput {
        pieces: 65_537,
        ..filed
    };
    assert_eq!(rt; plan(&pieces), Plan::TooMany(Counted::Pieces));
    let shared = PlanInput {
        paging: false,
        ..filed
    };
    assert_eq!(rt; plan(&shared), Plan::TooMany(Counted::Segments));
    Ok(())
}

#[test]
fn segments_stand_in_the_own_bytes(rt: HostRuntime) -> Result<(), Fail> {
    let limits = Limits::new(64, 64, 32, 16, 4, 8, 8)?;
    assert_eq!(rt; pieces_of(&[10, 0, 8], 8), 3);
    assert_eq!(rt; pieces_of(&[], 8), 0);
    assert_eq!(rt; segment_span(&[10], Plan::Shared(3), &limits, 1), (4, 4));
    assert_eq!(rt; segment_span(&[10], Plan::Shared(3), &limits, 2), (8, 2));
    assert_eq!(rt;
        segment_span(&[10, 0, 8], Plan::File(3), &limits, 0),
        (0, 8)
    );
    assert_eq!(rt;
        segment_span(&[10, 0, 8], Plan::File(3), &limits, 1),
        (8, 2)
    );
    assert_eq!(rt;
        segment_span(&[10, 0, 8], Plan::File(3), &limits, 2),
        (10, 8)
    );
    Ok(())
}
