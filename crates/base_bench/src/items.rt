ghost use Rattle.std.specs.Prelude.{IfOk};
ghost use Rattle.base_bench.specs.Bench.{AllOnce};

use crate::draws::{CALLS, next, place};
use blob_words::{NoMemory, PieceNo};
use item_shares::{Item, Shares};
use std::alloc::Global;
use std::time::Instant;

// So many items with one view on each.
fn fill(alloc: Global, count: u32) -> Result<Shares, NoMemory>
    ensures { IfOk result AllOnce }
{
    let mut shares = Shares::new(alloc)?;
    for piece in 0..count {
        // the slots aren't asked for: they rise from 0
        let _slot = shares.add(Item::Reserved {
            piece: PieceNo(piece),
            len: 4,
        })?;
    }
    Ok(shares)
}

// Counts one more view on an item and takes it back; tells whether the slot has an item.
fn share_and_release(shares: &mut Shares, slot: usize) -> bool
    requires { AllOnce shares.old }
    ensures { AllOnce shares.new }
{
    if shares.get(slot).is_none() {
        return false;
    }
    shares.share(slot);
    let _item = shares.release(slot); // None: a view is left
    true
}

// The number of slots drawn that have an item.
fn share_all(shares: &mut Shares, count: u32) -> u32
    requires { AllOnce shares.old }
    ensures { AllOnce shares.new }
{
    let mut state = 1;
    let mut shared: u32 = 0;
    for _ in 0..CALLS {
        state = next(state);
        if share_and_release(shares, place(state, count) as usize) {
            shared = shared.wrapping_add(1);
        }
    }
    shared
}

/// Times views that come and go.
pub fn time_items(rt: &HostRuntime, count: u32) -> anyhow::Result<()> {
    let mut shares = fill(rt.alloc(), count)?;
    let start = Instant::now(rt)?;
    let shared = share_all(&mut shares, count);
    let took = start.elapsed(rt)?.as_micros();
    println!(rt; "get, share and release, {count} items: {took} us for {shared} of each")?;
    Ok(())
}
