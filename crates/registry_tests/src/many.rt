ghost use Rattle.std.specs.Prelude.{◌≡◌, OnOk};
ghost use Rattle.registry_tests.specs.Bare.{HasNoViews};

use crate::bed::{build_all, finish, grant, let_all_go, let_go, name, sweep};
use blob_registry::{Endings, Names, Registry};
use blob_words::{NoMemory, Status};
use item_shares::Shares;
use std::test::Fail;

// Whether all these blobs are done, in order of build.
fn are_done(endings: &Endings, count: u32) -> bool {
    let list = endings.as_slice();
    if list.len() != count as usize {
        return false;
    }
    for number in 0..count {
        let ending = list[number as usize];
        if ending.name != name(number) || ending.status != Status::Done {
            return false;
        }
    }
    true
}

// Whether all these blobs were dropped, the last one first.
fn are_dropped(names: &Names, count: u32) -> bool {
    let list = names.as_slice();
    if list.len() != count as usize {
        return false;
    }
    for number in 0..count {
        if list[number as usize] != name(count - 1 - number) {
            return false;
        }
    }
    true
}

// How many of so many passes over endings, and of so many sweeps, say something.
fn passes_that_tell(
    registry: &mut Registry,
    shares: &mut Shares,
    rounds: u32,
) -> Result<u32, NoMemory>
    requires { HasNoViews registry.old }
    ensures { OnOk result (HasNoViews registry.new) }
{
    let mut told: u32 = 0;
    for _round in 0..rounds {
        let endings = finish(registry, shares)?;
        let swept = sweep(registry, shares)?;
        if endings.len() + swept.dropped.len() + swept.freed.len() > 0 {
            told = told.saturating_add(1);
        }
    }
    Ok(told)
}

#[test]
fn a_chain_is_done_in_one_pass(rt: HostRuntime) -> Result<(), Fail> {
    let heap = rt.alloc();
    let mut registry = Registry::new(heap)?;
    let mut shares = Shares::new(heap)?;
    build_all(heap, &mut registry, 1_000, true)?;
    let none = finish(&mut registry, &mut shares)?;
    assert_eq!(rt; none.len(), 0);
    grant(&mut registry, 0);
    let endings = finish(&mut registry, &mut shares)?;
    assert!(rt; are_done(&endings, 1_000));
    Ok(())
}

#[test]
fn a_chain_is_dropped_from_its_end(rt: HostRuntime) -> Result<(), Fail> {
    let heap = rt.alloc();
    let mut registry = Registry::new(heap)?;
    let mut shares = Shares::new(heap)?;
    build_all(heap, &mut registry, 1_000, true)?;
    let_all_go(&mut registry, 999);
    let none = sweep(&mut registry, &mut shares)?;
    assert_eq!(rt; none.dropped.len(), 0);
    let_go(&mut registry, 999);
    let swept = sweep(&mut registry, &mut shares)?;
    assert!(rt; are_dropped(&swept.dropped, 1_000));
    assert_eq!(rt; registry.len(), 0);
    Ok(())
}

// A body that walks all entries in each pass looks at more than 2^36 of them.
#[test]
fn a_pass_looks_at_what_changed(rt: HostRuntime) -> Result<(), Fail> {
    let heap = rt.alloc();
    let mut registry = Registry::new(heap)?;
    let mut shares = Shares::new(heap)?;
    build_all(heap, &mut registry, 65_536, false)?;
    grant(&mut registry, 0);
    let endings = finish(&mut registry, &mut shares)?;
    assert!(rt; are_done(&endings, 65_536));
    assert_eq!(rt; passes_that_tell(&mut registry, &mut shares, 1 << 20)?, 0);
    Ok(())
}
