//! Calls over two volumes in memory, of which the first fails.
use crate::calls::{Call, follow};
use blob_words::Octets64;
use page_volumes::{MemoryVolume, Volume, Volumes};
use std::alloc::Global;
use std::test::Fail;

// What calls show where the first volume fails at its calls of these numbers.
fn shown(heap: Global, failing: &[u64], calls: &[Call]) -> Result<String, Fail> {
    let failing = Octets64::from_slice(heap, failing)?;
    let mut volumes: Vec<Box<dyn Volume>> = Vec::new(heap);
    volumes.push(Box::new(heap, MemoryVolume::new(heap, failing))?)?;
    volumes.push(Box::new(heap, MemoryVolume::new(heap, Octets64::new(heap)))?)?;
    let mut disk = Volumes::recording(heap, volumes)?;
    let mut text = String::new(heap);
    follow(&mut disk, true, calls, &mut text)?;
    Ok(text)
}

// A blob of two pages, whose second isn't written; another of two pages; the end.
const CALLS: [Call; 8] = [
    Call::Put(0, b"abcdefgh"),
    Call::Put(1, b"i"),
    Call::Remove(0),
    Call::Put(2, b"abcdefgh"),
    Call::Put(3, b"i"),
    Call::Remove(1),
    Call::Remove(2),
    Call::Remove(3),
];

#[test]
fn a_volume_goes_with_its_last_file(rt: HostRuntime) -> Result<(), Fail> {
    let text = shown(rt.alloc(), &[1], &CALLS)?;
    assert_eq!(rt;
        text.as_str(),
        "put 0 done on 0; held 0 1; retired; count 0
put 1 torn; held 0 1; retired 0; count 1
remove 0 done; held 1; retired 0; count 1
put 2 done on 1; held 1; retired 0; count 1
put 3 done on 1; held 1; retired 0; count 1
remove 1 done; held 1; retired 0; count 1
remove 2 done; held 1; retired 0; count 1
remove 3 done; held 1; retired 0; count 1
"
    );
    Ok(())
}

#[test]
fn a_file_that_is_left_stands_no_longer(rt: HostRuntime) -> Result<(), Fail> {
    let text = shown(rt.alloc(), &[1, 3], &CALLS)?;
    assert_eq!(rt;
        text.as_str(),
        "put 0 done on 0; held 0 1; retired; count 0
put 1 torn; held 0 1; retired 0; count 1
remove 0 left; held 1; retired 0; count 2
put 2 done on 1; held 1; retired 0; count 2
put 3 done on 1; held 1; retired 0; count 2
remove 1 done; held 1; retired 0; count 2
remove 2 done; held 1; retired 0; count 2
remove 3 done; held 1; retired 0; count 2
"
    );
    Ok(())
}

#[test]
fn a_torn_file_that_stays_keeps_its_volume(rt: HostRuntime) -> Result<(), Fail> {
    let text = shown(rt.alloc(), &[1, 2], &CALLS)?;
    assert_eq!(rt;
        text.as_str(),
        "put 0 done on 0; held 0 1; retired; count 0
put 1 torn on 0; held 0 1; retired 0; count 2
remove 0 done; held 0 1; retired 0; count 2
put 2 done on 1; held 0 1; retired 0; count 2
put 3 done on 1; held 0 1; retired 0; count 2
remove 1 done; held 1; retired 0; count 2
remove 2 done; held 1; retired 0; count 2
remove 3 done; held 1; retired 0; count 2
"
    );
    Ok(())
}
