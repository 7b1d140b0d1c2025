use blob_words::PieceNo;
use recent_items::Recent;
use std::test::Fail;

#[test]
fn victims_are_cut_at_page_and_room(rt: HostRuntime) -> Result<(), Fail> {
    let [first, second] = [PieceNo(0), PieceNo(1)];
    let mut recent = Recent::new(rt.alloc())?;
    recent.enter(first, 4)?;
    recent.enter(second, 4)?;
    let both = [first, second];
    // what is needed, what a page and what the disk still takes, and how many go
    let rows = [
        (5, 4, 64, 1),
        (5, 8, 64, 2),
        (5, 8, 7, 1),
        (5, 8, 3, 0),
        (4, 8, 64, 1),
        (9, 64, 64, 2),
        (0, 8, 64, 0),
    ];
    for (need, page, room, count) in rows {
        let victims = recent.victims(need, page, room)?;
        let wanted = both.as_slice().get(..count);
        assert_eq!(rt;
            Some(victims.as_slice()),
            wanted,
            "need {need}, page {page}, room {room}"
        );
    }
    Ok(())
}

#[test]
fn a_use_moves_a_piece_behind_the_others(rt: HostRuntime) -> Result<(), Fail> {
    let [first, second, third] = [PieceNo(9), PieceNo(4), PieceNo(6)];
    let mut recent = Recent::new(rt.alloc())?;
    recent.enter(first, 1)?;
    recent.enter(second, 2)?;
    recent.enter(third, 3)?;
    recent.touch(first);
    recent.touch(PieceNo(5));
    let order = recent.victims(6, 64, 64)?;
    assert_eq!(rt; order.as_slice(), [second, third, first].as_slice());
    recent.leave(third);
    recent.leave(PieceNo(5));
    let order = recent.victims(6, 64, 64)?;
    assert_eq!(rt; order.as_slice(), [second, first].as_slice());
    Ok(())
}
