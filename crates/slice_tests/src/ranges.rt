use slice_rule::slice_range;
use std::test::Fail;

#[test]
fn left_out_or_inside(rt: HostRuntime) -> Result<(), Fail> {
    let rows: [(u32, Option<i64>, Option<i64>, (u64, u64)); 14] = [
        (5, None, None, (0, 5)),
        (5, Some(0), None, (0, 5)),
        (5, Some(2), None, (2, 3)),
        (5, Some(5), None, (5, 0)),
        (5, None, Some(0), (0, 0)),
        (5, None, Some(3), (0, 3)),
        (5, None, Some(5), (0, 5)),
        (5, Some(1), Some(4), (1, 3)),
        (5, Some(2), Some(3), (2, 1)),
        (5, Some(0), Some(5), (0, 5)),
        (5, Some(3), Some(3), (3, 0)),
        (0, None, None, (0, 0)),
        (0, Some(0), Some(0), (0, 0)),
        (1, Some(0), Some(1), (0, 1)),
    ];
    for (size, start, end, want) in rows {
        assert_eq!(rt; slice_range(u64::from(size), start, end), want);
    }
    Ok(())
}

#[test]
fn from_the_end(rt: HostRuntime) -> Result<(), Fail> {
    let rows: [(u32, Option<i64>, Option<i64>, (u64, u64)); 12] = [
        (5, Some(-1), None, (4, 1)),
        (5, Some(-2), None, (3, 2)),
        (5, Some(-5), None, (0, 5)),
        (5, Some(-6), None, (0, 5)),
        (5, None, Some(-1), (0, 4)),
        (5, None, Some(-5), (0, 0)),
        (5, None, Some(-6), (0, 0)),
        (5, Some(-4), Some(-1), (1, 3)),
        (5, Some(1), Some(-1), (1, 3)),
        (5, Some(-3), Some(4), (2, 2)),
        (1, Some(-1), Some(-1), (0, 0)),
        (0, Some(-1), Some(-1), (0, 0)),
    ];
    for (size, start, end, want) in rows {
        assert_eq!(rt; slice_range(u64::from(size), start, end), want);
    }
    Ok(())
}

#[test]
fn past_the_end_or_crossed(rt: HostRuntime) -> Result<(), Fail> {
    let rows: [(u32, Option<i64>, Option<i64>, (u64, u64)); 10] = [
        (5, Some(6), None, (5, 0)),
        (5, None, Some(6), (0, 5)),
        (5, Some(4), Some(9), (4, 1)),
        (5, Some(4), Some(1), (4, 0)),
        (5, Some(-1), Some(1), (4, 0)),
        (5, Some(2), Some(-4), (2, 0)),
        (5, Some(9), Some(2), (5, 0)),
        (0, Some(1), Some(2), (0, 0)),
        (8, Some(i64::MAX), Some(i64::MAX), (8, 0)),
        (8, Some(i64::MIN), Some(i64::MAX), (0, 8)),
    ];
    for (size, start, end, want) in rows {
        assert_eq!(rt; slice_range(u64::from(size), start, end), want);
    }
    Ok(())
}

#[test]
fn the_largest_blobs(rt: HostRuntime) -> Result<(), Fail> {
    let most = 9_223_372_036_854_775_807;
    assert_eq!(rt; slice_range(most, None, None), (0, most));
    assert_eq!(rt; slice_range(most, Some(i64::MIN), None), (0, most));
    assert_eq!(rt; slice_range(most, Some(-1), None), (most - 1, 1));
    assert_eq!(rt;
        slice_range(most, Some(i64::MAX), Some(i64::MIN)),
        (most, 0)
    );
    Ok(())
}
