//! Times the calls on the lists below a store: pieces, items, builds that wait, views, and the
//! first number that is small enough. Without a word behind the program's name it does nothing.
#![tactic(auto)]

mod draws;
mod fits;
mod items;
mod pieces;
mod queue;
mod views;

use std::env;

fn time_all(rt: &HostRuntime) -> anyhow::Result<()> {
    for count in [1_000, 10_000, 65_536] {
        pieces::time_pieces(rt, count)?;
    }
    for count in [1_000, 10_000, 100_000] {
        items::time_items(rt, count)?;
        views::time_views(rt, count)?;
    }
    for count in [1_000, 10_000, 65_536] {
        fits::time_fits(rt, count)?;
    }
    queue::time_leave(rt, 10_000, 1, "first first")?;
    queue::time_leave(rt, 10_000, 9_999, "last first")?;
    queue::time_leave(rt, 10_000, 7_919, "mixed")?;
    Ok(())
}

fn main(rt: HostRuntime) -> anyhow::Result<()> {
    let words = env::args(&rt)?;
    if words.len() < 2 {
        return Ok(());
    }
    time_all(&rt)
}
