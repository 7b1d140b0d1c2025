use blob_words::{Limits, Plan};
use segment_assembly::{Assembly, SegmentFault};
use std::test::Fail;

#[test]
fn segments_come_in_any_order(rt: HostRuntime) -> Result<(), Fail> {
    let limits = Limits::new(64, 64, 32, 16, 4, 8, 8)?;
    let mut assembly = Assembly::new(rt.alloc(), &[10], Plan::Shared(3), &limits)?;
    assert_eq!(rt; assembly.missing(), 3);
    assert_eq!(rt; assembly.take(2, b"ij"), Ok(()));
    assert_eq!(rt; assembly.take(0, b"abcd"), Ok(()));
    assert_eq!(rt; assembly.take(0, b"abcd"), Err(SegmentFault::Taken));
    assert_eq!(rt; assembly.take(1, b"efg"), Err(SegmentFault::Length(4)));
    assert_eq!(rt; assembly.take(3, b"a"), Err(SegmentFault::BadSegment(3)));
    assert_eq!(rt; assembly.missing(), 1);
    assert_eq!(rt; assembly.take(1, b"efgh"), Ok(()));
    let missing = assembly.missing();
    assert_eq!(rt; missing, 0);
    let pieces = assembly.into_pieces()?;
    assert_eq!(rt; pieces.len(), 2);
    assert_eq!(rt; pieces[0].as_slice(), b"abcdefgh".as_slice());
    assert_eq!(rt; pieces[1].as_slice(), b"ij".as_slice());
    Ok(())
}

#[test]
fn parts_are_cut_from_their_own_start(rt: HostRuntime) -> Result<(), Fail> {
    let limits = Limits::new(64, 64, 32, 16, 16, 4, 8)?;
    let mut assembly = Assembly::new(rt.alloc(), &[5, 0, 3], Plan::Shared(1), &limits)?;
    assert_eq!(rt; assembly.take(0, b"abcdefgh"), Ok(()));
    let missing = assembly.missing();
    assert_eq!(rt; missing, 0);
    let pieces = assembly.into_pieces()?;
    assert_eq!(rt; pieces.len(), 3);
    assert_eq!(rt; pieces[0].as_slice(), b"abcd".as_slice());
    assert_eq!(rt; pieces[1].as_slice(), b"e".as_slice());
    assert_eq!(rt; pieces[2].as_slice(), b"fgh".as_slice());
    Ok(())
}
