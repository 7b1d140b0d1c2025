use blob_words::{BlobName, NoMemory};
use quota_queue::Quota;
use std::alloc::Global;
use std::time::Instant;

// So many builds that wait for 4 bytes.
#[tactic(auto, using(crate::proofs::Fresh::fresh_more))]
fn fill(alloc: Global, count: u32) -> Result<Quota, NoMemory> {
    let mut quota = Quota::new(alloc, 1 << 40)?;
    for name in 0..count {
        quota.wait(BlobName::from_number(u128::from(name)), 4)?;
    }
    Ok(quota)
}

// The builds leave by this step round the queue; tells how many did.
fn leave_all(quota: &mut Quota, count: u32, step: u32) -> u32 {
    let mut name: u32 = if step == 1 { 0 } else { count.wrapping_sub(1) };
    let mut left: u32 = 0;
    for _ in 0..count {
        if quota.leave(BlobName::from_number(u128::from(name))) {
            left = left.wrapping_add(1);
        }
        name = name.wrapping_add(step).checked_rem(count).unwrap_or(0);
    }
    left
}

/// Times builds that leave the queue, in an order that `word` names.
pub fn time_leave(rt: &HostRuntime, count: u32, step: u32, word: &str) -> anyhow::Result<()> {
    let mut quota = fill(rt.alloc(), count)?;
    let start = Instant::now(rt)?;
    let left = leave_all(&mut quota, count, step);
    let took = start.elapsed(rt)?.as_micros();
    println!(rt; "leave, {count} wait, {word}: {took} us for {left} calls")?;
    Ok(())
}
