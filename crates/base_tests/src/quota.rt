use blob_words::BlobName;
use quota_queue::Quota;
use std::test::Fail;

#[test]
fn nobody_passes_the_head(rt: HostRuntime) -> Result<(), Fail> {
    let [large, small] = [2, 3].map(BlobName::from_number);
    let mut quota = Quota::new(rt.alloc(), 8)?;
    assert!(rt; quota.fits(4));
    quota.charge(4);
    quota.wait(large, 6)?;
    quota.wait(small, 2)?;
    assert_eq!(rt; quota.waiting(), 2);
    assert!(rt; quota.fits(2));
    assert_eq!(rt; quota.next_grant(), None);
    assert_eq!(rt; quota.head(), Some((large, 6)));
    assert!(rt; quota.used() >= 4);
    quota.discharge(4);
    assert_eq!(rt; quota.next_grant(), Some(large));
    assert_eq!(rt; quota.used(), 6);
    assert_eq!(rt; quota.next_grant(), Some(small));
    assert_eq!(rt; quota.used(), 8);
    assert_eq!(rt; quota.head(), None);
    assert_eq!(rt; quota.next_grant(), None);
    Ok(())
}

#[test]
fn who_leaves_is_gone_and_the_others_keep_their_order(rt: HostRuntime) -> Result<(), Fail> {
    let [first, second, third] = [7, 5, 6].map(BlobName::from_number);
    let mut quota = Quota::new(rt.alloc(), 9)?;
    quota.wait(first, 1)?;
    quota.wait(second, 2)?;
    quota.wait(third, 3)?;
    assert!(rt; quota.leave(second));
    assert!(rt; !quota.leave(second));
    assert_eq!(rt; quota.waiting(), 2);
    assert_eq!(rt; quota.next_grant(), Some(first));
    assert_eq!(rt; quota.next_grant(), Some(third));
    assert_eq!(rt; quota.used(), 4);
    Ok(())
}

#[test]
fn sums_past_the_numbers_do_not_fit(rt: HostRuntime) -> Result<(), Fail> {
    let mut quota = Quota::new(rt.alloc(), u64::MAX)?;
    assert!(rt; quota.fits(u64::MAX));
    quota.charge(u64::MAX);
    assert!(rt; quota.fits(0));
    assert!(rt; !quota.fits(1));
    assert!(rt; !quota.fits(u64::MAX));
    Ok(())
}
