use blob_items::{View, ViewList};
use std::test::Fail;

#[test]
fn a_cut_begins_and_ends_inside_views(rt: HostRuntime) -> Result<(), Fail> {
    let first = View {
        slot: 3,
        off: 0,
        len: 4,
    };
    let second = View {
        slot: 5,
        off: 10,
        len: 6,
    };
    let mut list = ViewList::new(rt.alloc());
    list.push(first)?;
    list.push(second)?;
    assert_eq!(rt; list.total(), 10);
    assert_eq!(rt; list.find(0), Some((0, 0)));
    assert_eq!(rt; list.find(3), Some((0, 3)));
    assert_eq!(rt; list.find(4), Some((1, 0)));
    assert_eq!(rt; list.find(9), Some((1, 5)));
    assert_eq!(rt; list.find(10), None);
    let cut = list.cut(2, 5)?;
    let ends = [
        View {
            slot: 3,
            off: 2,
            len: 2,
        },
        View {
            slot: 5,
            off: 10,
            len: 3,
        },
    ];
    assert!(rt; cut.as_slice() == ends.as_slice());
    let inner = list.cut(5, 2)?;
    let part = View {
        slot: 5,
        off: 11,
        len: 2,
    };
    assert!(rt; inner.as_slice() == [part].as_slice());
    let empty = list.cut(10, 0)?;
    assert_eq!(rt; empty.as_slice().len(), 0);
    Ok(())
}

#[test]
fn lists_are_put_together(rt: HostRuntime) -> Result<(), Fail> {
    let view = View {
        slot: 1,
        off: 7,
        len: 2,
    };
    let mut list = ViewList::new(rt.alloc());
    let mut other = ViewList::new(rt.alloc());
    list.push(view)?;
    other.push(view)?;
    other.push(view)?;
    list.append(&other)?;
    assert!(rt; list.as_slice() == [view, view, view].as_slice());
    assert_eq!(rt; list.find(5), Some((2, 1)));
    Ok(())
}
