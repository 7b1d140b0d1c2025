//! One list with items of every kind, read in steps of every width, with each failure.
use crate::driver::{Trouble, read};
use blob_items::{View, ViewList};
use blob_words::{FileName, Octets, Octets64, PageNo, PieceNo};
use data_handles::{DataHandle, HandleTable, MemoryHandle};
use file_table::FileTable;
use item_shares::{Item, Shares};
use page_disk::{FolderDisk, PageDisk};
use std::fs;
use std::test::Fail;

// Puts an item, and a view on some bytes of it.
fn add(
    views: &mut ViewList,
    shares: &mut Shares,
    item: Item,
    off: u64,
    len: u64,
) -> Result<(), Fail> {
    if len == 0 || off > 100 || len > 100 || views.total() > 100 {
        return Ok(());
    }
    let slot = shares.add(item)?;
    views.push(View { slot, off, len })?;
    Ok(())
}

// The bytes `abc` of memory, `345` of page 0, `world` of a file at stamp 1, `yz!` of an object.
fn all_kinds(
    rt: &HostRuntime,
    name: &FileName,
    views: &mut ViewList,
    shares: &mut Shares,
) -> Result<(), Fail> {
    let heap = rt.alloc();
    let bytes = Octets::from_slice(heap, b"abc")?;
    add(
        views,
        shares,
        Item::Memory {
            piece: PieceNo(0),
            bytes,
        },
        0,
        3,
    )?;
    let paged = Item::Paged {
        piece: PieceNo(1),
        page: PageNo(0),
        off: 2,
        len: 4,
    };
    add(views, shares, paged, 1, 3)?;
    let file = Item::File {
        name: name.copy(heap)?,
        stamp: 1,
        off: 6,
        len: 5,
    };
    add(views, shares, file, 0, 5)?;
    let range = Item::Range {
        slot: 0,
        off: 1,
        len: 3,
    };
    add(views, shares, range, 0, 3)
}

// Reads the list in steps of `most` bytes, where the reads of the object in `failing` fail.
fn answers(
    rt: &HostRuntime,
    most: usize,
    failing: &[u64],
    trouble: Trouble,
) -> Result<String, Fail> {
    let heap = rt.alloc();
    let name = FileName::new(Octets::from_slice(heap, b"f")?)?;
    let mut views = ViewList::new(heap);
    let mut shares = Shares::new(heap)?;
    all_kinds(rt, &name, &mut views, &mut shares)?;
    let mut files = FileTable::new(heap)?;
    files.note(&name, 1, b"hello world")?;
    fs::create_dir_all(rt, "reader_pages")?;
    fs::write(rt, "reader_pages/0", "0123456789")?;
    let mut disk = FolderDisk::new(rt.clone()?, heap, "reader_pages")?;
    let object = MemoryHandle::new(
        Octets::from_slice(heap, b"xyz!")?,
        Octets64::from_slice(heap, failing)?,
    );
    let mut objects: Vec<Box<dyn DataHandle>> = Vec::new(heap);
    objects.push(Box::new(heap, object)?)?;
    let mut handles = HandleTable::new(heap, objects)?;
    if most == 0 {
        return Ok(String::new(heap));
    }
    read(
        rt,
        &views,
        &shares,
        &mut files,
        &mut disk,
        &mut handles,
        &name,
        trouble,
        most,
    )
}

#[test]
fn every_width_gives_the_same_bytes(rt: HostRuntime) -> Result<(), Fail> {
    for (most, text) in [
        (1, "a|b|c|3|4|5|w|o|r|l|d|y|z|!|end"),
        (2, "ab|c3|45|wo|rl|dy|z!|end"),
        (3, "abc|345|wor|ldy|z!|end"),
        (7, "abc345w|orldyz!|end"),
        (100, "abc345worldyz!|end"),
    ] {
        let answers = answers(&rt, most, &[], Trouble::Nothing)?;
        assert_eq!(rt; answers.as_str(), text);
    }
    Ok(())
}

#[test]
fn a_failure_leaves_the_place(rt: HostRuntime) -> Result<(), Fail> {
    for (most, failing, trouble, text) in [
        (
            3,
            0,
            Trouble::Nothing,
            "abc|345|wor|handle-failed 0|ldy|z!|end",
        ),
        (
            3,
            1,
            Trouble::Nothing,
            "abc|345|wor|ldy|handle-failed 0|z!|end",
        ),
        (
            3,
            9,
            Trouble::NewFile,
            "abc|345|file-changed 2|file-changed 2|",
        ),
        (
            7,
            9,
            Trouble::NewFile,
            "abc345w|file-changed 2|file-changed 2|",
        ),
        (3, 9, Trouble::NoPage, "abc|page-fault 0|345|wor|ldy|z!|end"),
        (4, 9, Trouble::NoPage, "abc3|page-fault 0|45wo|rldy|z!|end"),
        (
            100,
            0,
            Trouble::Nothing,
            "handle-failed 0|abc345worldyz!|end",
        ),
    ] {
        let answers = answers(&rt, most, &[failing], trouble)?;
        assert_eq!(rt; answers.as_str(), text);
    }
    Ok(())
}
