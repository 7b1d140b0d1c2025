ghost use Rattle.std.specs.Prelude.{◌≡◌, length, IfOk};

use crate::draws::{CALLS, next, place};
use blob_words::NoMemory;
use first_fit::FirstFit;
use std::alloc::Global;
use std::time::Instant;

// So many values, none of which is small.
fn fill(alloc: Global, count: u32) -> Result<FirstFit, NoMemory>
    ensures { IfOk result (λ fit. length fit ≡ count) }
{
    let mut fit = FirstFit::new(alloc);
    for _ in 0..count {
        fit.push(u64::MAX)?;
    }
    Ok(fit)
}

fn write_all(fit: &mut FirstFit, count: u32)
    requires { length fit.old ≡ count }
    ensures { length fit.new ≡ count }
{
    let mut state = 1;
    for _ in 0..CALLS {
        state = next(state);
        let at = place(state, count);
        if at < count {
            fit.set(at as usize, (state >> 40) + 1);
        }
    }
}

// Looks for values of several sizes; tells how many were found.
fn find_all(fit: &FirstFit) -> u32 {
    let mut state = 1;
    let mut found: u32 = 0;
    for _ in 0..CALLS {
        state = next(state);
        if fit.first(state >> 52).is_some() {
            found = found.wrapping_add(1);
        }
    }
    found
}

/// Times writes of values and searches for the first that is small enough.
pub fn time_fits(rt: &HostRuntime, count: u32) -> anyhow::Result<()> {
    let mut fit = fill(rt.alloc(), count)?;
    let start = Instant::now(rt)?;
    write_all(&mut fit, count);
    let took = start.elapsed(rt)?.as_micros();
    println!(rt; "set, {count} values: {took} us for {CALLS} calls")?;
    let start = Instant::now(rt)?;
    let found = find_all(&fit);
    let took = start.elapsed(rt)?.as_micros();
    println!(rt; "first, {count} values: {took} us for {CALLS} calls, {found} found")?;
    Ok(())
}
