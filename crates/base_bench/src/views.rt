use crate::draws::{CALLS, next};
use blob_items::{View, ViewList};
use blob_words::NoMemory;
use std::alloc::Global;
use std::time::Instant;

// So many views of 1 to 7 bytes.
fn fill(alloc: Global, count: u32) -> Result<ViewList, NoMemory> {
    let mut list = ViewList::new(alloc);
    for number in 0..count {
        if list.total() > 1 << 40 {
            break;
        }
        list.push(View {
            slot: number as usize,
            off: u64::from(number),
            len: u64::from(1 + number % 7),
        })?;
    }
    Ok(list)
}

// The sum of the places found, so that no search is left out.
fn find_all(list: &ViewList) -> usize {
    let mut state = 1;
    let mut sum: usize = 0;
    for _ in 0..CALLS {
        state = next(state);
        let off = (state >> 11).checked_rem(list.total()).unwrap_or(0);
        if let Some((view, _)) = list.find(off) {
            sum = sum.wrapping_add(view);
        }
    }
    sum
}

// The number of views of a cut of 16 bytes, or 0 where fewer are behind `off`.
fn cut_at(list: &ViewList, off: u64) -> Result<usize, NoMemory> {
    let total = list.total();
    if off >= total || total - off < 16 {
        return Ok(0);
    }
    let cut = list.cut(off, 16)?;
    Ok(cut.as_slice().len())
}

fn cut_all(list: &ViewList) -> Result<usize, NoMemory> {
    let mut state = 1;
    let mut sum: usize = 0;
    let places = list.total().saturating_sub(15);
    for _ in 0..CALLS {
        state = next(state);
        let off = (state >> 11).checked_rem(places).unwrap_or(0);
        sum = sum.wrapping_add(cut_at(list, off)?);
    }
    Ok(sum)
}

/// Times searches for the view of a byte, and cuts.
pub fn time_views(rt: &HostRuntime, count: u32) -> anyhow::Result<()> {
    let list = fill(rt.alloc(), count)?;
    let start = Instant::now(rt)?;
    let sum = find_all(&list);
    let took = start.elapsed(rt)?.as_micros();
    println!(rt; "find, {count} views: {took} us for {CALLS} calls, places sum up to {sum}")?;
    let start = Instant::now(rt)?;
    let views = cut_all(&list)?;
    let took = start.elapsed(rt)?.as_micros();
    println!(rt; "cut of 16 bytes, {count} views: {took} us for {CALLS} calls, {views} views")?;
    Ok(())
}
