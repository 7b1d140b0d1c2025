//! Shows calls on what lies outside of the store: files, blob URLs, renderers, page disks and
//! objects. Each line of standard input is a call, and is shown with its answer behind it; one that
//! begins a table anew is not shown. A line that names nothing of these is shown as it is.
#![tactic(auto)]

mod disks;
mod files;
mod folder;
mod memory;
mod objects;
mod outside;
mod renderers;
mod slots;
mod tables;
mod urls;

use crate::outside::Outside;
use std::io;

// Takes a line of standard input.
fn take(rt: &HostRuntime, outside: &mut Outside, line: io::Result<String>) -> anyhow::Result<()> {
    let line = line?;
    outside.call(rt, line.as_str())
}

fn main(rt: HostRuntime) -> anyhow::Result<()> {
    let mut outside = Outside::new(&rt)?;
    for line in rt.lines(rt.alloc()) {
        take(&rt, &mut outside, line)?;
    }
    Ok(())
}
