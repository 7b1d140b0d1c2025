ghost use Rattle.std.specs.Prelude.{◌≤◌};
ghost use Rattle.blob_words.specs.declared.bounds.TheConstants.{MOST_PIECES};

use crate::draws::{CALLS, next, place};
use blob_words::{NoMemory, PieceNo};
use recent_items::Recent;
use std::alloc::Global;
use std::time::Instant;

// So many pieces of 4 bytes.
fn fill(alloc: Global, count: u32) -> Result<Recent, NoMemory>
    requires { count ≤ MOST_PIECES }
{
    let mut recent = Recent::new(alloc)?;
    for piece in 0..count {
        recent.enter(PieceNo(piece), 4)?;
    }
    Ok(recent)
}

fn touch_all(recent: &mut Recent, count: u32) {
    let mut state = 1;
    for _ in 0..CALLS {
        state = next(state);
        recent.touch(PieceNo(place(state, count)));
    }
}

fn find_victims(recent: &Recent) -> Result<usize, NoMemory> {
    let mut sum: usize = 0;
    for _ in 0..CALLS {
        sum = sum.wrapping_add(recent.victims(1, 64, 64)?.len());
    }
    Ok(sum)
}

/// Times uses of pieces, and searches for one piece to page.
pub fn time_pieces(rt: &HostRuntime, count: u32) -> anyhow::Result<()>
    requires { count ≤ MOST_PIECES }
{
    let mut recent = fill(rt.alloc(), count)?;
    let start = Instant::now(rt)?;
    touch_all(&mut recent, count);
    let took = start.elapsed(rt)?.as_micros();
    println!(rt; "touch, {count} pieces: {took} us for {CALLS} calls")?;
    let start = Instant::now(rt)?;
    let found = find_victims(&recent)?;
    let took = start.elapsed(rt)?.as_micros();
    println!(rt; "victims, {count} pieces: {took} us for {CALLS} calls, {found} found")?;
    Ok(())
}
