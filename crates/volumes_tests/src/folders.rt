//! Two real folders, of which the first can't be written to for a while.
use crate::calls::{Call, follow};
use page_volumes::{FolderVolume, Volume, Volumes};
use std::fs;
use std::test::Fail;

// What happens to the first folder.
#[derive(Clone, Copy)]
enum Trouble {
    /// A file stands where it was.
    Replaced,
    /// A folder stands where its second page is to be.
    Blocked,
}

fn spoil(rt: &HostRuntime, trouble: Trouble) -> Result<(), Fail> {
    match trouble {
        Trouble::Replaced => {
            fs::rename(rt, "volume_one", "volume_away")?;
            fs::write(rt, "volume_one", "a file")?;
        }
        Trouble::Blocked => fs::create_dir(rt, "volume_one/1")?,
    }
    Ok(())
}

fn mend(rt: &HostRuntime, trouble: Trouble) -> Result<(), Fail> {
    match trouble {
        Trouble::Replaced => {
            fs::remove_file(rt, "volume_one")?;
            fs::rename(rt, "volume_away", "volume_one")?;
        }
        Trouble::Blocked => fs::remove_dir(rt, "volume_one/1")?,
    }
    Ok(())
}

// What calls show before the trouble, in it and behind it.
fn shown(rt: &HostRuntime, trouble: Trouble) -> Result<String, Fail> {
    let heap = rt.alloc();
    let _ = fs::remove_dir_all(rt, "volume_one");
    let _ = fs::remove_dir_all(rt, "volume_two");
    let mut volumes: Vec<Box<dyn Volume>> = Vec::new(heap);
    let first = FolderVolume::new(rt.clone()?, heap, "volume_one")?;
    let second = FolderVolume::new(rt.clone()?, heap, "volume_two")?;
    volumes.push(Box::new(heap, first)?)?;
    volumes.push(Box::new(heap, second)?)?;
    let mut disk = Volumes::new(heap, volumes)?;
    let mut text = String::new(heap);
    follow(&mut disk, false, &BEFORE, &mut text)?;
    spoil(rt, trouble)?;
    follow(&mut disk, false, &DURING, &mut text)?;
    mend(rt, trouble)?;
    follow(&mut disk, false, &BEHIND, &mut text)?;
    fs::remove_dir(rt, "volume_one")?;
    fs::remove_dir(rt, "volume_two")?;
    Ok(text)
}

const BEFORE: [Call; 1] = [Call::Put(0, b"abcdefgh")];

const DURING: [Call; 4] = [
    Call::Put(1, b"abcdefgh"),
    Call::Put(2, b"abcdefgh"),
    Call::Get(2),
    Call::Get(0),
];

const BEHIND: [Call; 5] = [
    Call::Get(0),
    Call::Remove(1),
    Call::Get(0),
    Call::Remove(0),
    Call::Remove(2),
];

#[test]
fn a_file_may_stand_where_a_folder_was(rt: HostRuntime) -> Result<(), Fail> {
    let text = shown(&rt, Trouble::Replaced)?;
    assert_eq!(rt;
        text.as_str(),
        "put 0 done on 0; held 0 1; retired; count 0
put 1 torn on 0; held 0 1; retired 0; count 2
put 2 done on 1; held 0 1; retired 0; count 2
get 2 bcde on 1; held 0 1; retired 0; count 2
get 0 unread on 0; held 0 1; retired 0; count 3
get 0 bcde on 0; held 0 1; retired 0; count 3
remove 1 left; held 0 1; retired 0; count 4
get 0 bcde on 0; held 0 1; retired 0; count 4
remove 0 done; held 1; retired 0; count 4
remove 2 done; held 1; retired 0; count 4
"
    );
    Ok(())
}

#[test]
fn a_folder_may_stand_where_a_page_is_to_be(rt: HostRuntime) -> Result<(), Fail> {
    let text = shown(&rt, Trouble::Blocked)?;
    assert_eq!(rt;
        text.as_str(),
        "put 0 done on 0; held 0 1; retired; count 0
put 1 torn on 0; held 0 1; retired 0; count 2
put 2 done on 1; held 0 1; retired 0; count 2
get 2 bcde on 1; held 0 1; retired 0; count 2
get 0 bcde on 0; held 0 1; retired 0; count 2
get 0 bcde on 0; held 0 1; retired 0; count 2
remove 1 left; held 0 1; retired 0; count 3
get 0 bcde on 0; held 0 1; retired 0; count 3
remove 0 done; held 1; retired 0; count 3
remove 2 done; held 1; retired 0; count 3
"
    );
    Ok(())
}
