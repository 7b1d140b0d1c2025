use blob_words::{FileName, NameFault, Octets, PageNo, PieceNo};
use item_shares::{Item, Shares};
use std::test::Fail;

#[test]
fn the_item_goes_with_its_last_view(rt: HostRuntime) -> Result<(), Fail> {
    let heap = rt.alloc();
    let bytes = Octets::from_slice(heap, b"abcd")?;
    let mut shares = Shares::new(heap)?;
    let slot = shares.add(Item::Memory {
        piece: PieceNo(3),
        bytes,
    })?;
    assert!(rt; slot < shares.end());
    shares.share(slot);
    assert!(rt; shares.release(slot).is_none());
    assert!(rt; shares.get(slot).is_some());
    let Some(Item::Memory { piece, bytes }) = shares.release(slot) else {
        assert!(rt; false);
        return Ok(());
    };
    assert_eq!(rt; piece, PieceNo(3));
    assert_eq!(rt; bytes.as_slice(), b"abcd".as_slice());
    assert!(rt; shares.get(slot).is_none());
    Ok(())
}

#[test]
fn a_paged_item_keeps_piece_length_and_count(rt: HostRuntime) -> Result<(), Fail> {
    let mut shares = Shares::new(rt.alloc())?;
    let slot = shares.add(Item::Reserved {
        piece: PieceNo(3),
        len: 5,
    })?;
    shares.share(slot);
    shares.turn_paged(slot, PageNo(7), 12);
    assert!(rt; shares.release(slot).is_none());
    let Some(
        Item::Paged {
            piece,
            page,
            off,
            len,
        },
    ) = shares.release(slot)
    else {
        assert!(rt; false);
        return Ok(());
    };
    assert_eq!(rt; (piece, page), (PieceNo(3), PageNo(7)));
    assert_eq!(rt; (off, len), (12, 5));
    Ok(())
}

#[test]
fn files_have_names_without_a_colon(rt: HostRuntime) -> Result<(), Fail> {
    let heap = rt.alloc();
    let colon = FileName::new(Octets::from_slice(heap, b"a:b")?);
    assert!(rt; matches!(colon, Err(NameFault::Form)));
    let name = FileName::new(Octets::from_slice(heap, b"notes.txt")?)?;
    assert_eq!(rt; name.as_slice(), b"notes.txt".as_slice());
    let mut shares = Shares::new(heap)?;
    let file = shares.add(Item::File {
        name,
        stamp: 1,
        off: 2,
        len: 3,
    })?;
    let range = shares.add(Item::Range {
        slot: 0,
        off: 0,
        len: 1,
    })?;
    assert!(rt; file != range);
    assert!(rt; matches!(shares.get(range), Some(Item::Range { len: 1, .. })));
    assert!(rt;
        matches!(
            shares.get(file),
            Some(Item::File {
                stamp: 1,
                off: 2,
                len: 3,
                ..
            })
        )
    );
    Ok(())
}
