//! Times the two passes of a registry of very many blobs, and look-ups of names. Without a word
//! behind the program's name it does nothing.
#![tactic(auto)]

mod names;
mod passes;

use std::env;

fn main(rt: HostRuntime) -> anyhow::Result<()> {
    let words = env::args(&rt)?;
    if words.len() < 2 {
        return Ok(());
    }
    for count in [10_000, 60_000] {
        passes::time_passes(&rt, count, false)?;
        passes::time_passes(&rt, count, true)?;
    }
    names::time_names(&rt, 65_536)
}
