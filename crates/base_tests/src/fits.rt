use first_fit::FirstFit;
use std::test::Fail;

#[test]
fn the_first_small_value_is_found(rt: HostRuntime) -> Result<(), Fail> {
    let mut fit = FirstFit::new(rt.alloc());
    assert_eq!(rt; fit.first(u64::MAX), None);
    fit.push(7)?;
    fit.push(3)?;
    fit.push(5)?;
    assert_eq!(rt; fit.first(2), None);
    assert_eq!(rt; fit.first(4), Some(1));
    assert_eq!(rt; fit.first(7), Some(0));
    Ok(())
}

#[test]
fn a_value_written_over_or_taken_away_is_gone(rt: HostRuntime) -> Result<(), Fail> {
    let mut fit = FirstFit::new(rt.alloc());
    fit.push(7)?;
    fit.push(3)?;
    fit.set(1, 9);
    assert_eq!(rt; fit.first(7), Some(0));
    fit.set(0, 9);
    assert_eq!(rt; fit.first(8), None);
    fit.pop();
    fit.push(1)?;
    assert_eq!(rt; fit.first(8), Some(1));
    Ok(())
}

// The list grows many times; each value is less than those before it.
#[test]
fn values_are_found_among_many(rt: HostRuntime) -> Result<(), Fail> {
    let mut fit = FirstFit::new(rt.alloc());
    for number in 0..1_000 {
        fit.push(1_000 - number)?;
    }
    for (most, place) in [
        (1_000, Some(0)),
        (999, Some(1)),
        (488, Some(512)),
        (1, Some(999)),
        (0, None),
    ] {
        assert_eq!(rt; fit.first(most), place, "most {most}");
    }
    Ok(())
}
