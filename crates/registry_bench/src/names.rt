use blob_registry::Registry;
use registry_tests::bed::{build_all, name};
use std::time::Instant;

// How often a name is looked up.
const CALLS: u32 = 1_000_000;

// Looks up names in an order that a linear congruential generator gives; tells how many were found.
fn find_all(registry: &Registry, count: u32) -> u32 {
    let mut state: u64 = 1;
    let mut found: u32 = 0;
    for _ in 0..CALLS {
        state = state
            .wrapping_mul(6_364_136_223_846_793_005)
            .wrapping_add(1_442_695_040_888_963_407);
        let draw = u32::try_from(state >> 32).unwrap_or(0);
        let number = draw.checked_rem(count).unwrap_or(0);
        if registry.number_of(name(number)).is_some() {
            found = found.wrapping_add(1);
        }
    }
    found
}

/// Times look-ups among so many names.
pub fn time_names(rt: &HostRuntime, count: u32) -> anyhow::Result<()> {
    let mut registry = Registry::new(rt.alloc())?;
    build_all(rt.alloc(), &mut registry, count, false)?;
    let start = Instant::now(rt)?;
    let found = find_all(&registry, count);
    let took = start.elapsed(rt)?.as_micros();
    println!(rt; "number_of, {count} names: {took} us for {CALLS} calls, {found} found")?;
    Ok(())
}
