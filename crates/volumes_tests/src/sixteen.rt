//! As many volumes as there may be, each of which fails at its second write.
ghost use Rattle.std.specs.Prelude.{◌≡◌, ◌+◌, [], ◌∷◌, true, map, vec_len, None, IfOk, OnOk};
ghost use Rattle.std.specs.List.{list_all};
ghost use Rattle.page_volumes.specs.Memory.{new_store};
ghost use Rattle.page_volumes.specs.Seen.{is_fresh};

use crate::calls::{Call, answer, follow};
use crate::watched::Watched;
use blob_words::Octets64;
use page_volumes::{MemoryVolume, Volume, Volumes};
use std::alloc::Global;
use std::test::Fail;

// Writes 32 pages; gives how many are torn.
fn put_all<D: Watched>(disk: &mut D) -> Result<u32, Fail>
    requires closed { D.writing disk.old ≡ None }
    ensures closed { D.writing disk.new ≡ None }
{
    let mut torn = 0u32;
    for page in 0u32..32 {
        if answer(disk, true, Call::Put(page, b"abcdefgh"))? == "torn" {
            torn = torn.saturating_add(1);
        }
    }
    Ok(torn)
}

// Removes the pages of the first fifteen volumes; gives how many are gone.
fn remove_most<D: Watched>(disk: &mut D) -> Result<u32, Fail>
    requires closed { D.writing disk.old ≡ None }
    ensures closed { D.writing disk.new ≡ None }
{
    let mut gone = 0u32;
    for place in 0u32..15 {
        if answer(disk, true, Call::Remove(place * 2))? == "done" {
            gone = gone.saturating_add(1);
        }
    }
    Ok(gone)
}

// A volume whose second write fails.
fn second_fails(heap: Global) -> Result<Box<MemoryVolume>, Fail>
    ensures { IfOk result (λ volume. volume.value ≡ new_store (1 ∷ [])) }
{
    let failing = Octets64::from_slice(heap, &[1])?;
    Ok(Box::new(heap, MemoryVolume::new(heap, failing))?)
}

// One more volume without files.
fn add(volumes: &mut Vec<Box<dyn Volume>>, volume: Box<dyn Volume>) -> Result<(), Fail>
    requires fresh { list_all (is_fresh true) (map (λ object. seen object) volumes.old.items)
        ≡ true }
    requires next { is_fresh true (seen volume) ≡ true }
    ensures fresh { OnOk result
        (list_all (is_fresh true) (map (λ object. seen object) volumes.new.items) ≡ true) }
    ensures more { OnOk result (vec_len volumes.new ≡ vec_len volumes.old + 1) }
{
    volumes.push(volume)?;
    Ok(())
}

#[test]
fn the_last_of_sixteen_takes_writes(rt: HostRuntime) -> Result<(), Fail> {
    let heap = rt.alloc();
    let mut volumes: Vec<Box<dyn Volume>> = Vec::new(heap);
    add(&mut volumes, second_fails(heap)?)?;
    add(&mut volumes, second_fails(heap)?)?;
    add(&mut volumes, second_fails(heap)?)?;
    add(&mut volumes, second_fails(heap)?)?;
    add(&mut volumes, second_fails(heap)?)?;
    add(&mut volumes, second_fails(heap)?)?;
    add(&mut volumes, second_fails(heap)?)?;
    add(&mut volumes, second_fails(heap)?)?;
    add(&mut volumes, second_fails(heap)?)?;
    add(&mut volumes, second_fails(heap)?)?;
    add(&mut volumes, second_fails(heap)?)?;
    add(&mut volumes, second_fails(heap)?)?;
    add(&mut volumes, second_fails(heap)?)?;
    add(&mut volumes, second_fails(heap)?)?;
    add(&mut volumes, second_fails(heap)?)?;
    add(&mut volumes, second_fails(heap)?)?;
    let mut disk = Volumes::recording(heap, volumes)?;
    let mut text = String::new(heap);
    let torn = put_all(&mut disk)?;
    follow(&mut disk, true, &[Call::Put(32, b"i")], &mut text)?;
    let gone = remove_most(&mut disk)?;
    follow(&mut disk, true, &[Call::Remove(30)], &mut text)?;
    assert_eq!(rt; (torn, gone), (16, 15));
    assert_eq!(rt;
        text.as_str(),
        "put 32 done on 15; held 0 1 2 3 4 5 6 7 8 9 10 11 12 13 14 15; \
         retired 0 1 2 3 4 5 6 7 8 9 10 11 12 13 14; count 16
remove 30 done; held 15; retired 0 1 2 3 4 5 6 7 8 9 10 11 12 13 14; count 16
"
    );
    Ok(())
}
