/// How often each call is made.
pub const CALLS: u32 = 1_000_000;

/// The next state of a linear congruential generator.
pub fn next(state: u64) -> u64 {
    state
        .wrapping_mul(6_364_136_223_846_793_005)
        .wrapping_add(1_442_695_040_888_963_407)
}

/// A place below `count`, by the upper half of a state; 0 where there is none.
pub fn place(state: u64, count: u32) -> u32 {
    let draw = u32::try_from(state >> 32).unwrap_or(0);
    draw.checked_rem(count).unwrap_or(0)
}
